// The planner: every commit is taken back at first, and then the lowest that can be is given back, again and again.
ghost use Rattle.std.specs.Prelude.{◌≡◌, ◌<◌, length};
ghost use Rattle.words.specs.Tests.{◌is◌, provided◌then◌else◌};
ghost use Rattle.verdict.specs.Refusal.{log_refusal};
ghost use Rattle.verdict.specs.Answers.{Passed};
ghost use Rattle.plan.specs.RedoCall.{RedoCall};
ghost use Rattle.plan.specs.Inner.Marks.{table};
ghost use Rattle.plan.specs.Inner.Planning.{can_try, LowestToTry, Planned};

use crate::changed::is_fine;
use crate::committed::who_committed;
use crate::giving_back::try_back;
use crate::laying::{clear_proposal, lay_members};
use crate::marks::is_marked;
use crate::refusal::admit;
use verdict::answers::Refusal;
use verdict::{Transaction, clear};

// Whether t can be tried: it is taken back, and does not wait for one that is.
fn can_try(back: &[u8; Transaction::TABLE], waits: &[usize; Transaction::TABLE], t: usize) -> bool
    requires { (length back.now ≡ table) × (length waits.now ≡ table) × (t < table) }
    ensures { result ≡ can_try back.now waits.now t }
{
    if back[t] == 0 {
        return false;
    }
    !is_marked(back, waits[t])
}

// The lowest that can be tried, if any can.
fn lowest_to_try(
    back: &[u8; Transaction::TABLE],
    waits: &[usize; Transaction::TABLE],
) -> Option<usize>
    requires { (length back.now ≡ table) × (length waits.now ≡ table) }
    ensures { LowestToTry back.now waits.now result }
{
    for t in 0..Transaction::TABLE {
        if can_try(back, waits, t) {
            return Some(t);
        }
    }
    None
}

// The mark of one that was tried: it goes where nobody has to be waited for.
fn mark_after(waited: usize) -> u8
    ensures { result ≡ (provided waited is 0 then 0 else 1) }
{
    if waited == 0 {
        return 0;
    }
    1
}

// The marks of those that are still taken back when nobody more can be given back.
fn plan(log: &[u16]) -> [u8; Transaction::TABLE]
    requires { log_refusal log.now ≡ Passed }
    ensures { Planned log.now result }
{
    let mut back = who_committed(log);
    let mut waits = [0usize; Transaction::TABLE];
    while let Some(t) = lowest_to_try(&back, &waits) {
        let waited = try_back(log, back, t);
        back[t] = mark_after(waited);
        waits[t] = waited;
    }
    back
}

// The marks of those to redo: nobody where the log is fine as it is, which one verdict tells.
fn to_redo(log: &[u16]) -> [u8; Transaction::TABLE]
    requires { log_refusal log.now ≡ Passed }
    ensures { Planned log.now result }
{
    let none = [0u8; Transaction::TABLE];
    if is_fine(log, &none) {
        return none;
    }
    plan(log)
}

// Which commits to redo: the members are put into the proposal, and how many they are is answered.
pub fn redo(log: &[u16], work: &mut [u8], proposal: &mut [u16]) -> Result<usize, Refusal>
    ensures { RedoCall log.now work.old proposal.old result work.new proposal.new }
{
    admit(log, work.len(), proposal.len())?;
    let marks = to_redo(log);
    clear(work);
    clear_proposal(proposal);
    Ok(lay_members(proposal, &marks))
}
