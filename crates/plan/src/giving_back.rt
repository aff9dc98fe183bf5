// Giving a commit back: whether it can be, or whom it waits for.
ghost use Rattle.std.specs.Prelude.{◌≡◌, true, false, ◌+◌, ◌*◌, ◌≤◌, length};
ghost use Rattle.words.specs.Tests.{provided◌then◌else◌};
ghost use Rattle.verdict.specs.Limits.{transactions};
ghost use Rattle.verdict.specs.Log.{src};
ghost use Rattle.verdict.specs.Refusal.{log_refusal};
ghost use Rattle.verdict.specs.Answers.{Passed};
ghost use Rattle.plan.specs.TakenBack.{taken_back};
ghost use Rattle.plan.specs.Fine.{Fine};
ghost use Rattle.plan.specs.Inner.Marks.{table, marked};
ghost use Rattle.plan.specs.Inner.Trials.{Tried};

use crate::changed::version_after;
use crate::marks::is_marked;
use verdict::answers::Answer;
use verdict::{Transaction, fault_step};

// Whom t waits for where its read at step k is at fault: the source, if that is taken back, and else itself, which is for good.
fn source_or(log: &[u16], back: &[u8; Transaction::TABLE], t: usize, k: usize) -> usize
    requires { (length back.now ≡ table) × (4 * k + 4 ≤ length log.now) }
    ensures { result ≡ (provided marked back.now (src log.now k) then src log.now k else t) }
{
    let s = usize::from(log[4 * k + 3]);
    if is_marked(back, s) {
        return s;
    }
    t
}

// Tries to give t back: 0 where it can be, and else whom it waits for.
pub(crate) fn try_back(log: &[u16], back: [u8; Transaction::TABLE], t: usize) -> usize
    requires { (log_refusal log.now ≡ Passed) × (length back ≡ table) × (marked back 0 ≡ false) × (marked back t ≡ true)
        × Fine transactions (taken_back (marked back) log.now) × (t ≤ transactions) }
    ensures { Tried log.now (marked back) t result }
{
    let mut others = back;
    others[t] = 0;
    match version_after(log, &others) {
        Answer::Order(_) => 0,
        Answer::Cycle(_) => t,
        Answer::None => t,
        Answer::Unclean(fault) => source_or(log, &back, t, fault_step(fault)),
    }
}
