// What turns a call away: 12, the numbers of the log, and 19.
ghost use Rattle.std.specs.Prelude.{◌≡◌};
ghost use Rattle.words.specs.Tests.{◌is◌, fails};
ghost use Rattle.verdict.specs.Limits.{work_bytes};
ghost use Rattle.verdict.specs.Refusal.{◌at◌when◌, ◌else_try◌, log_refusal};
ghost use Rattle.verdict.specs.Answers.{Passed};
ghost use Rattle.plan.specs.Proposal.{proposal_entries};
ghost use Rattle.plan.specs.Inner.Marks.{Proposes};

use crate::committed::who_committed;
use crate::members::look_at;
use verdict::answers::Refusal;
use verdict::{Log, Transaction, all_zero, check};

// 12 where a buffer has a wrong length, and then what the check of the log finds.
pub(crate) fn admit(log: &[u16], work: usize, proposal: usize) -> Result<(), Refusal>
    ensures { result ≡ (12 at 0 when fails (work is work_bytes) else_try 12 at 0 when fails (proposal is proposal_entries) else_try log_refusal log.now) }
{
    if work != Log::WORK {
        return Err(Refusal(12, 0));
    }
    if proposal != Transaction::COUNT {
        return Err(Refusal(12, 0));
    }
    check(log)
}

// 19 where it applies, and else the marks of the members.
pub(crate) fn admit_members(
    log: &[u16],
    proposal: &[u16],
) -> Result<[u8; Transaction::TABLE], Refusal>
    requires { log_refusal log.now ≡ Passed }
    ensures { Proposes log.now proposal.now result }
{
    let who = who_committed(log);
    let Some(members) = look_at(proposal, &who) else {
        return Err(Refusal(19, 0));
    };
    let count = members.count;
    if !all_zero(proposal, count) {
        return Err(Refusal(19, 0));
    }
    Ok(members.marks)
}
