// The exact verdict, for at most 8 committed transactions.
ghost use Rattle.std.specs.Prelude.{◌≡◌, ◌≤◌};
ghost use Rattle.verdict.specs.Limits.{transactions, most_searched};
ghost use Rattle.verdict.specs.Log.{committed_count};
ghost use Rattle.verdict.specs.Refusal.{log_refusal, search_refusal};
ghost use Rattle.verdict.specs.Clean.{cleanness};
ghost use Rattle.verdict.specs.Judgement.{Holds, ExactIs};
ghost use Rattle.verdict.specs.Exact.{Exact};
ghost use Rattle.verdict.specs.Call.{ExactCall};
ghost use Rattle.verdict.specs.Inner.Checking.{Learned};
ghost use Rattle.verdict.specs.Inner.Marks.{Committed};
ghost use Rattle.verdict.specs.Inner.WriteTable.{WriteTable};
ghost use Rattle.verdict.specs.Answers.{Passed};

use crate::answers::{Answer, Cleanness, ExactWitnessed, Exactness, Refusal, Witnessed};
use crate::cleanness::judge_clean;
use crate::leaving::{exact_without_members, leave, without_members};
use crate::limits::Transaction;
use crate::refusal::{Examined, admit_witness};
use crate::search::find_order;
use crate::walk::committed_count;

// The exact verdict of a well-formed log with few enough committed, by its clean verdict, who committed and what each transaction writes.
fn judge_search(
    log: &[u16],
    clean: Cleanness,
    part: [u64; graph::WORDS],
    writes: &[u64; Transaction::TABLE],
) -> Witnessed
    requires { (log_refusal log.now ≡ Passed) × (clean ≡ cleanness log.now) × (committed_count log.now ≤ most_searched) × Committed log.now part × WriteTable log.now writes.now }
    ensures { Holds (Exact transactions log.now) result }
{
    if let Cleanness::Unclean(fault) = clean {
        return without_members(Answer::Unclean(fault));
    }
    find_order(log, part, writes)
}

// 13, where more are committed than the search takes.
fn admit_search(log: &[u16]) -> Result<(), Refusal>
    ensures { result ≡ search_refusal log.now }
{
    let n = committed_count(log);
    if Transaction::SEARCHED < n {
        return Err(Refusal(13, n));
    }
    Ok(())
}

// The exact verdict of a well-formed log, by the same: over, where more are committed than the search takes.
pub(crate) fn judge_exact(
    log: &[u16],
    clean: Cleanness,
    part: [u64; graph::WORDS],
    writes: &[u64; Transaction::TABLE],
) -> ExactWitnessed
    requires { (log_refusal log.now ≡ Passed) × (clean ≡ cleanness log.now) × Committed log.now part × WriteTable log.now writes.now }
    ensures { ExactIs log.now result }
{
    let admitted = admit_search(log);
    if let Err(Refusal(_, n)) = admitted {
        return exact_without_members(Exactness::Over(n));
    }
    let found = judge_search(log, clean, part, writes);
    let answer = found.answer;
    let list = found.list;
    ExactWitnessed {
        exactness: Exactness::Searched(answer),
        list,
    }
}

// The exact verdict of a well-formed log with few enough committed, by what the check learned.
fn exact_learned(log: &[u16], found: Examined) -> Witnessed
    requires { (log_refusal log.now ≡ Passed) × (committed_count log.now ≤ most_searched) × Learned log.now found }
    ensures { Holds (Exact transactions log.now) result }
{
    let writes = found.writes;
    let part = found.part;
    let clean = judge_clean(log, &part, found.own);
    judge_search(log, clean, part, &writes)
}

// The exact verdict: the fault of an unclean read, or else the first order that explains loosely, or none.
pub fn exact(log: &[u16], work: &mut [u8], witness: &mut [u16]) -> Result<Answer, Refusal>
    ensures { ExactCall log.now work.old witness.old result work.new witness.new }
{
    let found = admit_witness(log, work.len(), witness.len())?;
    admit_search(log)?;
    Ok(leave(work, witness, exact_learned(log, found)))
}
