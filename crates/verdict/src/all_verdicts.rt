// All five verdicts of a log at once, with one check and one clean verdict.
ghost use Rattle.std.specs.Prelude.{◌≡◌};
ghost use Rattle.verdict.specs.Refusal.{log_refusal};
ghost use Rattle.verdict.specs.Judgement.{Judges, JudgeAnswer};
ghost use Rattle.verdict.specs.Inner.Checking.{Learned};
ghost use Rattle.verdict.specs.Answers.{Passed};

use crate::answers::{Judgement, Refusal};
use crate::cleanness::judge_clean;
use crate::conflict_graph::judge_conflict;
use crate::exactness::judge_exact;
use crate::limits::Transaction;
use crate::refusal::{Examined, examine};
use crate::snapshots::judge_snapshot;
use crate::tables::next_writers;
use crate::version_graph::judge_version;

// The five verdicts of a well-formed log, by what the check learned.
fn judge_all(log: &[u16], found: Examined) -> Judgement
    requires { (log_refusal log.now ≡ Passed) × Learned log.now found }
    ensures { Judges log.now result }
{
    let begins = found.begins;
    let commits = found.commits;
    let part = found.part;
    let earlier = found.earlier;
    let writes = found.writes;
    let mut next = [0u8; Transaction::PAIRS];
    next_writers(log, &writes, &earlier, &mut next);
    let clean = judge_clean(log, &part, found.own);
    Judgement {
        clean,
        snapshot: judge_snapshot(log, &begins, &commits, &writes, &next, found.own),
        conflict: judge_conflict(log, part),
        version: judge_version(log, clean, part, &next),
        exact: judge_exact(log, clean, part, &writes),
    }
}

// All five verdicts of a log, or its refusal.
pub fn judge(log: &[u16]) -> Result<Judgement, Refusal>
    ensures { JudgeAnswer log.now result }
{
    let found = examine(log)?;
    Ok(judge_all(log, found))
}
