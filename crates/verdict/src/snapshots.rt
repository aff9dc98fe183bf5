// The snapshot verdict: what each judged read should have found, and which overlapping writers clash.
ghost use Rattle.std.specs.Prelude.{◌≡◌, ◌≤◌, ◌<◌, ◌+◌, ◌*◌, length, get_or};
ghost use Rattle.words.specs.Tests.{◌upto◌, provided◌then◌else◌, some, lowest};
ghost use Rattle.bits.specs.Word.{marked};
ghost use Rattle.verdict.specs.Limits.{transactions, objects};
ghost use Rattle.verdict.specs.Log.{steps, kind, tx};
ghost use Rattle.verdict.specs.Refusal.{log_refusal};
ghost use Rattle.verdict.specs.Clean.{after_own_write, own_fault};
ghost use Rattle.verdict.specs.Snapshot.{last_committed, wanted, clash, snapshot_verdict};
ghost use Rattle.verdict.specs.Call.{SnapshotCall};
ghost use Rattle.verdict.specs.Inner.Checking.{Learned};
ghost use Rattle.verdict.specs.Inner.Clashes.{LastCommits, CommitNoted, FirstClash};
ghost use Rattle.verdict.specs.Inner.Marks.{FirstSteps};
ghost use Rattle.verdict.specs.Inner.NextWriters.{NextWriters};
ghost use Rattle.verdict.specs.Inner.StaleReads.{stale_read};
ghost use Rattle.verdict.specs.Inner.WriteTable.{WriteTable};
ghost use Rattle.verdict.specs.Answers.{Passed};

use crate::answers::{Refusal, Snapshot, Writer};
use crate::leaving::clear;
use crate::limits::{Object, Transaction};
use crate::refusal::{Examined, admit};
use crate::step::{Step, step_at};
use crate::tables::{next_of, next_writers};
use crate::walk::object_marked;

// The last transaction to commit, before step b, among the committed writers of x, and the step of its commit; else the store.
fn last_committed(log: &[u16], writes: &[u64; Transaction::TABLE], b: usize, x: u16) -> Writer
    requires { (log_refusal log.now ≡ Passed) × WriteTable log.now writes.now × (4 * b ≤ length log.now) × (x < objects) }
    ensures { result ≡ last_committed log.now b x }
{
    for j in (0..b).rev() {
        let earlier = step_at(log, j);
        if earlier.kind == Step::COMMIT {
            if object_marked(writes, earlier.tx, x) {
                return Writer::Committed(earlier.tx, j);
            }
        }
    }
    Writer::Store
}

// The table's step for t.
fn step_of(table: &[u16; Transaction::TABLE], t: u16) -> usize
    requires { t ≤ transactions }
    ensures { result ≡ get_or table.now t 0 }
{
    let at = usize::from(t);
    usize::from(table[at])
}

// What read i should have found, by whether it comes after its own write.
fn wanted(
    log: &[u16],
    writes: &[u64; Transaction::TABLE],
    begins: &[u16; Transaction::TABLE],
    i: usize,
    own: bool,
) -> Writer
    requires { (log_refusal log.now ≡ Passed) × WriteTable log.now writes.now × FirstSteps log.now 1 begins.now × (4 * i + 4 ≤ length log.now)
        × (own ≡ after_own_write log.now i) }
    ensures { result ≡ wanted log.now i }
{
    let step = step_at(log, i);
    if own {
        return Writer::Reader(step.tx);
    }
    last_committed(log, writes, step_of(begins, step.tx), step.obj)
}

// Whether step i is a judged read from another that names anyone but the last committed writer before its snapshot: there the writer of the
// next version has committed too, or the source has not.
fn is_stale(
    log: &[u16],
    begins: &[u16; Transaction::TABLE],
    commits: &[u16; Transaction::TABLE],
    next: &[u8; Transaction::PAIRS],
    i: usize,
) -> bool
    requires { (log_refusal log.now ≡ Passed) × FirstSteps log.now 1 begins.now × FirstSteps log.now 4 commits.now
        × NextWriters log.now next.now × (4 * i + 4 ≤ length log.now) }
    ensures { result ≡ stale_read log.now i }
{
    let step = step_at(log, i);
    if step.kind != Step::READ {
        return false;
    }
    if step.src == step.tx {
        return false;
    }
    if log.len() / 4 <= step_of(commits, step.tx) {
        return false;
    }
    let b = step_of(begins, step.tx);
    if step_of(commits, next_of(next, step.src, step.obj)) < b {
        return true;
    }
    if step.src == 0 {
        return false;
    }
    b <= step_of(commits, step.src)
}

// The lowest stale read, or the number of steps where there is none.
fn first_stale(
    log: &[u16],
    begins: &[u16; Transaction::TABLE],
    commits: &[u16; Transaction::TABLE],
    next: &[u8; Transaction::PAIRS],
) -> usize
    requires { (log_refusal log.now ≡ Passed) × FirstSteps log.now 1 begins.now × FirstSteps log.now 4 commits.now
        × NextWriters log.now next.now }
    ensures { result ≡ lowest (steps log.now) (stale_read log.now) }
{
    let n = log.len() / 4;
    for i in 0..n {
        if is_stale(log, begins, commits, next, i) {
            return i;
        }
    }
    n
}

// What step j, the commit of t, and p clash over: marks of the objects that both write, where p committed before step j and since t began.
fn clashes(
    writes: &[u64; Transaction::TABLE],
    begins: &[u16; Transaction::TABLE],
    commits: &[u16; Transaction::TABLE],
    log: &[u16],
    j: usize,
    t: u16,
    p: u16,
) -> u64
    requires { (log_refusal log.now ≡ Passed) × WriteTable log.now writes.now × FirstSteps log.now 1 begins.now
        × FirstSteps log.now 4 commits.now × (j < steps log.now) × (kind log.now j ≡ 4) × (tx log.now j ≡ t) × (t ≤ transactions) × (p ≤ transactions) }
    ensures { some objects (marked result) ≡ clash log.now j p }
{
    let theirs = step_of(commits, p);
    if j <= theirs {
        return 0;
    }
    if theirs <= step_of(begins, t) {
        return 0;
    }
    bits::common(writes[usize::from(t)], writes[usize::from(p)])
}

// Notes step j in the table of the last commits. Answers who commits there, where an object that it writes was written by one who committed
// since it began.
fn note_commit(
    last: &mut [u16; Object::TABLE],
    log: &[u16],
    writes: &[u64; Transaction::TABLE],
    begins: &[u16; Transaction::TABLE],
    j: usize,
) -> Option<u16>
    requires { (log_refusal log.now ≡ Passed) × WriteTable log.now writes.now × FirstSteps log.now 1 begins.now
        × LastCommits log.now j last.old × (j < steps log.now) }
    ensures { CommitNoted log.now j result last.new }
{
    let step = step_at(log, j);
    if step.kind != Step::COMMIT {
        return None;
    }
    let t = step.tx;
    let mine = writes[usize::from(t)];
    let since = bits::marked_above(last, mine, step_of(begins, t));
    bits::put_marked(last, mine, j as u16);
    if since {
        return Some(t);
    }
    None
}

// A clash: the commit of the later writer, and the partner.
#[derive(Clone, Copy)]
struct Clash {
    step: usize,
    partner: u16,
}

// The first clash over commits, partners and objects before step k: the nested search that 01 leaves by a label. Partners are tried where
// an object was written by one who committed since the transaction began, and objects where the partner overlaps and shares a mark.
fn first_clash(
    log: &[u16],
    writes: &[u64; Transaction::TABLE],
    begins: &[u16; Transaction::TABLE],
    commits: &[u16; Transaction::TABLE],
    k: usize,
) -> Option<Clash>
    requires { (log_refusal log.now ≡ Passed) × WriteTable log.now writes.now × FirstSteps log.now 1 begins.now
        × FirstSteps log.now 4 commits.now × (k ≤ steps log.now) }
    ensures { FirstClash log.now k result }
{
    let mut last = [0u16; Object::TABLE];
    let mut found = None;
    'search: for j in 0..k {
        if let Some(t) = note_commit(&mut last, log, writes, begins, j) {
            for p in 0..=Transaction::LIMIT {
                let both = clashes(writes, begins, commits, log, j, t, p);
                if both != 0 {
                    for x in 0..Object::TABLE {
                        if bits::has_mark(both, x) {
                            found = Some(Clash {
                                step: j,
                                partner: p,
                            });
                            break 'search;
                        }
                    }
                }
            }
        }
    }
    found
}

// The lower of two steps.
fn lower(a: usize, b: usize) -> usize
    ensures { result ≡ (provided a upto b then a else b) }
{
    if a <= b {
        return a;
    }
    b
}

// The snapshot verdict of a well-formed log, by where each transaction begins and commits, what it writes, the writers of the next
// versions, and the first own fault.
pub(crate) fn judge_snapshot(
    log: &[u16],
    begins: &[u16; Transaction::TABLE],
    commits: &[u16; Transaction::TABLE],
    writes: &[u64; Transaction::TABLE],
    next: &[u8; Transaction::PAIRS],
    own: usize,
) -> Snapshot
    requires { (log_refusal log.now ≡ Passed) × FirstSteps log.now 1 begins.now × FirstSteps log.now 4 commits.now
        × WriteTable log.now writes.now × NextWriters log.now next.now × (own ≡ lowest (steps log.now) (own_fault log.now)) }
    ensures { result ≡ snapshot_verdict transactions log.now }
{
    let n = log.len() / 4;
    let stale = first_stale(log, begins, commits, next);
    let k = lower(own, stale);
    if let Some(clash) = first_clash(log, writes, begins, commits, k) {
        return Snapshot::Write(clash.step, clash.partner);
    }
    if k < n {
        return Snapshot::Read(k, wanted(log, writes, begins, k, own <= stale));
    }
    Snapshot::Yes
}

// The snapshot verdict of a well-formed log, by what the check learned. A log without steps needs no tables.
fn snapshot_learned(log: &[u16], found: Examined) -> Snapshot
    requires { (log_refusal log.now ≡ Passed) × Learned log.now found }
    ensures { result ≡ snapshot_verdict transactions log.now }
{
    if log.len() == 0 {
        return Snapshot::Yes;
    }
    let begins = found.begins;
    let commits = found.commits;
    let earlier = found.earlier;
    let writes = found.writes;
    let mut next = [0u8; Transaction::PAIRS];
    next_writers(log, &writes, &earlier, &mut next);
    judge_snapshot(log, &begins, &commits, &writes, &next, found.own)
}

// The snapshot verdict: yes, or the lowest wrong step.
pub fn snapshot(log: &[u16], work: &mut [u8]) -> Result<Snapshot, Refusal>
    ensures { SnapshotCall log.now work.old result work.new }
{
    let found = admit(log, work.len())?;
    clear(work);
    Ok(snapshot_learned(log, found))
}
