// The judge of a proposal: it trusts nobody, and tries the log with the members taken back, and with each of them turned back into a commit.
ghost use Rattle.std.specs.Prelude.{◌≡◌, true, ℕ, length};
ghost use Rattle.verdict.specs.Limits.{transactions};
ghost use Rattle.verdict.specs.Refusal.{log_refusal};
ghost use Rattle.verdict.specs.Answers.{Passed};
ghost use Rattle.plan.specs.TakenBack.{taken_back, ◌but◌};
ghost use Rattle.plan.specs.Fine.{Fine};
ghost use Rattle.plan.specs.WillDo.{Needs, WillDo};
ghost use Rattle.plan.specs.AcceptsCall.{AcceptsCall};
ghost use Rattle.plan.specs.Inner.Marks.{table, marked};
ghost use Rattle.plan.specs.Inner.Trials.{Tells, Judges};

use crate::answers::Acceptance;
use crate::changed::is_fine;
use crate::refusal::{admit, admit_members};
use verdict::answers::Refusal;
use verdict::{Transaction, clear};

// Whether t is a member that can be spared: turned back alone, it leaves a fine log.
fn can_spare(log: &[u16], marks: [u8; Transaction::TABLE], t: usize) -> bool
    requires { (log_refusal log.now ≡ Passed) × (length marks ≡ table) }
    ensures { Tells ((marked marks t ≡ true) × Fine transactions (taken_back (marked marks but t) log.now)) result }
{
    if Transaction::COUNT < t {
        return false;
    }
    if marks[t] == 0 {
        return false;
    }
    let mut others = marks;
    others[t] = 0;
    is_fine(log, &others)
}

// Whether no member can be spared.
fn all_needed(log: &[u16], marks: [u8; Transaction::TABLE]) -> bool
    requires { (log_refusal log.now ≡ Passed) × (length marks ≡ table) }
    ensures { Tells ((t : ℕ) → marked marks t ≡ true → Needs transactions log.now (marked marks) t) result }
{
    for t in 0..Transaction::TABLE {
        if can_spare(log, marks, t) {
            return false;
        }
    }
    true
}

// Whether taking back those marked will do.
fn will_do(log: &[u16], marks: [u8; Transaction::TABLE]) -> Acceptance
    requires { (log_refusal log.now ≡ Passed) × (length marks ≡ table) }
    ensures { Judges (WillDo transactions log.now (marked marks)) result }
{
    if !is_fine(log, &marks) {
        return Acceptance::No;
    }
    if !all_needed(log, marks) {
        return Acceptance::No;
    }
    Acceptance::Yes
}

// Whether a proposal will do.
pub fn accepts(log: &[u16], proposal: &[u16], work: &mut [u8]) -> Result<Acceptance, Refusal>
    ensures { AcceptsCall log.now proposal.now work.old result work.new }
{
    admit(log, work.len(), proposal.len())?;
    let marks = admit_members(log, proposal)?;
    clear(work);
    Ok(will_do(log, marks))
}
