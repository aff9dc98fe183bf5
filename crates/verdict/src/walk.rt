// How many committed, by a walk over the log; and reading marks.
ghost use Rattle.std.specs.Prelude.{◌≡◌, ◌≤◌, get_or};
ghost use Rattle.bits.specs.Word.{marked};
ghost use Rattle.verdict.specs.Limits.{transactions};
ghost use Rattle.verdict.specs.Log.{committed_count};

use crate::limits::Transaction;
use crate::step::{Step, step_at};

// How many transactions committed: the commits in the log.
pub fn committed_count(log: &[u16]) -> usize
    ensures { result ≡ committed_count log.now }
{
    let mut total = 0;
    for i in 0..log.len() / 4 {
        let step = step_at(log, i);
        if step.kind == Step::COMMIT {
            total += 1;
        }
    }
    total
}

// Marks of every object.
pub(crate) const EVERY_OBJECT: u64 = 18446744073709551615;

// Whether t writes x, by the marks of what each transaction writes.
pub(crate) fn object_marked(writes: &[u64; Transaction::TABLE], t: u16, x: u16) -> bool
    requires { t ≤ transactions }
    ensures { result ≡ marked (get_or writes.now t 0) x }
{
    let at = usize::from(t);
    bits::has_mark(writes[at], usize::from(x))
}
