// Reads after their transaction's own write of the object that name another source, and the first of them that is a fault.
ghost use Rattle.std.specs.Prelude.{◌≡◌, suc, ◌≤◌, ◌<◌, ◌+◌, ◌*◌, length};
ghost use Rattle.words.specs.Tests.{some, lowest};
ghost use Rattle.verdict.specs.Limits.{transactions};
ghost use Rattle.verdict.specs.Log.{steps};
ghost use Rattle.verdict.specs.Refusal.{tried, step_refusal};
ghost use Rattle.verdict.specs.Clean.{own_fault};
ghost use Rattle.verdict.specs.Inner.Checking.{InRange};
ghost use Rattle.verdict.specs.Inner.Marks.{Committed};
ghost use Rattle.verdict.specs.Inner.OwnReads.{misses};
ghost use Rattle.verdict.specs.Inner.WriteTable.{Versions};
ghost use Rattle.verdict.specs.Answers.{Passed};

use crate::edges::takes_part;
use crate::limits::Transaction;
use crate::step::{Step, step_at};
use crate::walk::{EVERY_OBJECT, object_marked};

// Whether step i is such a read, by the versions that are there before it.
pub(crate) fn misses(log: &[u16], i: usize, versions: &[u64; Transaction::TABLE]) -> bool
    requires { (4 * i + 4 ≤ length log.now) × InRange log.now i × Versions log.now i versions.now }
    ensures { result ≡ misses log.now i }
{
    let step = step_at(log, i);
    if step.kind != Step::READ {
        return false;
    }
    if step.src == step.tx {
        return false;
    }
    object_marked(versions, step.tx, step.obj)
}

// Whether step i is a fault of this kind: such a read of one who committed.
fn is_own_fault(
    log: &[u16],
    i: usize,
    part: &[u64; graph::WORDS],
    versions: &[u64; Transaction::TABLE],
) -> bool
    requires { (4 * i + 4 ≤ length log.now) × InRange log.now i × Committed log.now part.now × Versions log.now i versions.now }
    ensures { result ≡ own_fault log.now i }
{
    if !misses(log, i, versions) {
        return false;
    }
    let step = step_at(log, i);
    takes_part(part, step.tx)
}

// The versions that are there behind step i.
pub(crate) fn note_version(log: &[u16], i: usize, versions: &mut [u64; Transaction::TABLE])
    requires { (4 * i + 4 ≤ length log.now) × InRange log.now i × Versions log.now i versions.old × (length versions.old ≡ suc transactions) }
    ensures { Versions log.now (i + 1) versions.new × (length versions.new ≡ suc transactions) }
{
    let step = step_at(log, i);
    if step.kind == Step::WRITE {
        let t = usize::from(step.tx);
        versions[t] = bits::with_mark(versions[t], usize::from(step.obj));
    }
}

// The first own fault, or the number of steps where there is none, by who committed.
fn first_own(log: &[u16], n: usize, part: &[u64; graph::WORDS]) -> usize
    requires { (n ≡ steps log.now) × (tried n (step_refusal log.now) ≡ Passed) × Committed log.now part.now }
    ensures { result ≡ lowest (steps log.now) (own_fault log.now) }
{
    let mut versions = [0u64; Transaction::TABLE];
    versions[0] = EVERY_OBJECT;
    for i in 0..n {
        if is_own_fault(log, i, part, &versions) {
            return i;
        }
        note_version(log, i, &mut versions);
    }
    n
}

// The same, by whether any read missed its own write: without one there is nothing to look for.
pub(crate) fn own_fault(log: &[u16], n: usize, part: &[u64; graph::WORDS], missed: bool) -> usize
    requires { (n ≡ steps log.now) × (tried n (step_refusal log.now) ≡ Passed) × Committed log.now part.now
        × (missed ≡ some (steps log.now) (misses log.now)) }
    ensures { result ≡ lowest (steps log.now) (own_fault log.now) }
{
    if missed {
        return first_own(log, n, part);
    }
    n
}
