// The clean verdict: whether every judged read is from a committed source that writes the object in no later step, and from the reader
// itself after its own write.
ghost use Rattle.std.specs.Prelude.{◌≡◌, suc, ◌≤◌, ◌+◌, ◌*◌, length};
ghost use Rattle.words.specs.Tests.{lowest};
ghost use Rattle.verdict.specs.Log.{steps};
ghost use Rattle.verdict.specs.Refusal.{log_refusal};
ghost use Rattle.verdict.specs.Clean.{fault_step, own_fault, source_fault, cleanness};
ghost use Rattle.verdict.specs.Call.{CleanCall};
ghost use Rattle.verdict.specs.Inner.Marks.{Committed};
ghost use Rattle.verdict.specs.Inner.WriteTable.{WritesFrom};
ghost use Rattle.verdict.specs.Answers.{Passed};

use crate::answers::{Cleanness, Fault, Refusal};
use crate::edges::takes_part;
use crate::leaving::clear;
use crate::limits::Transaction;
use crate::refusal::admit;
use crate::step::{Step, step_at};
use crate::walk::object_marked;

// Whether step i is a judged read from another whose source is not final, by who committed and by what each writes later. Only a read has
// a source other than 0, so the kind is not asked.
fn is_faulty(
    log: &[u16],
    i: usize,
    part: &[u64; graph::WORDS],
    later: &[u64; Transaction::TABLE],
) -> bool
    requires { (log_refusal log.now ≡ Passed) × (4 * i + 4 ≤ length log.now) × Committed log.now part.now
        × WritesFrom log.now (suc i) later.now }
    ensures { result ≡ source_fault log.now i }
{
    let step = step_at(log, i);
    let t = step.tx;
    let s = step.src;
    if s == t {
        return false;
    }
    if s == 0 {
        return false;
    }
    if !takes_part(part, t) {
        return false;
    }
    if !takes_part(part, s) {
        return true;
    }
    object_marked(later, s, step.obj)
}

// The lowest step whose source is faulty, or the number of steps where there is none, by who committed: so two such steps are compared as
// numbers, and none comes behind all. It is the last one found on the way from the last step to the first, where marks say what each
// transaction writes later.
fn first_fault(log: &[u16], part: &[u64; graph::WORDS]) -> usize
    requires { (log_refusal log.now ≡ Passed) × Committed log.now part.now }
    ensures { result ≡ lowest (steps log.now) (source_fault log.now) }
{
    let mut later = [0u64; Transaction::TABLE];
    let n = log.len() / 4;
    let mut fault = n;
    for i in (0..n).rev() {
        let step = step_at(log, i);
        if step.kind == Step::WRITE {
            let t = usize::from(step.tx);
            later[t] = bits::with_mark(later[t], usize::from(step.obj));
        } else if is_faulty(log, i, part, &later) {
            fault = i;
        }
    }
    fault
}

// The clean verdict of a well-formed log, by who committed and the first own fault.
pub(crate) fn judge_clean(log: &[u16], part: &[u64; graph::WORDS], own: usize) -> Cleanness
    requires { (log_refusal log.now ≡ Passed) × Committed log.now part.now × (own ≡ lowest (steps log.now) (own_fault log.now)) }
    ensures { result ≡ cleanness log.now }
{
    let n = log.len() / 4;
    let k = first_fault(log, part);
    if own <= k {
        if n <= own {
            return Cleanness::Yes;
        }
        return Cleanness::Unclean(Fault::Own(own));
    }
    let step = step_at(log, k);
    if takes_part(part, step.src) {
        return Cleanness::Unclean(Fault::Unfinal(k));
    }
    Cleanness::Unclean(Fault::Aborted(k))
}

// The clean verdict: yes, or the lowest faulty step with its fault.
pub fn clean(log: &[u16], work: &mut [u8]) -> Result<Cleanness, Refusal>
    ensures { CleanCall log.now work.old result work.new }
{
    let found = admit(log, work.len())?;
    clear(work);
    // Who committed is taken out: what was learned is large, and lent as a whole it would be copied once more.
    let part = found.part;
    Ok(judge_clean(log, &part, found.own))
}

// The step of a fault.
pub fn fault_step(fault: Fault) -> usize
    ensures { result ≡ fault_step fault }
{
    match fault {
        Fault::Own(k) => k,
        Fault::Aborted(k) => k,
        Fault::Unfinal(k) => k,
    }
}
