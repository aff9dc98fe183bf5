// The steps of a log that are kept: those of the transactions that are marked.
ghost use Rattle.std.specs.Prelude.{◌≡◌, ◌++◌, ◌+◌, ◌*◌, ◌≤◌, length, take};
ghost use Rattle.verdict.specs.Log.{steps};
ghost use Rattle.keep.specs.Kept.{step, marked as Kept·marked, kept_step, kept as Kept·kept};

use verdict::Transaction;

// Whether a transaction is marked.
fn marked(marks: &[u8; Transaction::TABLE], t: u16) -> bool
    ensures { result ≡ Kept·marked marks.now t }
{
    t <= Transaction::LIMIT && marks[usize::from(t)] != 0
}

// Copies step i of a log to this place.
fn copy_step(log: &[u16], i: usize, kept: &mut [u16], at: usize)
    requires { (4 * i + 4 ≤ length log.now) × (at + 4 ≤ length kept.old) }
    ensures { take (at + 4) kept.new ≡ take at kept.old ++ step log.now i }
{
    let a = 4 * i;
    kept[at..at + 4].copy_from_slice(&log[a..a + 4]);
}

// Copies step i behind the n numbers that are kept, if its transaction is marked, and answers how many are kept then.
fn keep_step(
    log: &[u16],
    i: usize,
    marks: &[u8; Transaction::TABLE],
    kept: &mut [u16],
    n: usize,
) -> usize
    requires { (4 * i + 4 ≤ length log.now) × (n + 4 ≤ length kept.old) }
    ensures { (result ≤ n + 4) × (take result kept.new ≡ take n kept.old ++ kept_step marks.now log.now i) }
{
    let keeps = marked(marks, log[4 * i + 1]);
    if !keeps {
        return n;
    }
    copy_step(log, i, kept, n);
    n + 4
}

// Copies the steps of the marked transactions, and answers how many numbers they have.
pub(crate) fn keep_steps(log: &[u16], marks: &[u8; Transaction::TABLE], kept: &mut [u16]) -> usize
    requires { length log.now ≤ length kept.old }
    ensures { (result ≤ length kept.old) × (take result kept.new ≡ Kept·kept marks.now (steps log.now) log.now) }
{
    let mut n = 0;
    // What is kept is told by how many steps were gone over, and the loop counts them.
    for i in 0..log.len() / 4 {
        n = keep_step(log, i, marks, kept, n);
    }
    n
}
