// Who committed, by a walk over the log.
ghost use Rattle.std.specs.Prelude.{◌≡◌, ◌+◌, ◌*◌, ◌≤◌, length};
ghost use Rattle.verdict.specs.Refusal.{log_refusal};
ghost use Rattle.verdict.specs.Answers.{Passed};
ghost use Rattle.plan.specs.Inner.Marks.{Until, Committed};

use verdict::{Step, Transaction};

// Marks the transaction of step i, if it commits there.
fn mark_commit(log: &[u16], i: usize, marks: &mut [u8; Transaction::TABLE])
    requires { (log_refusal log.now ≡ Passed) × (4 * i + 4 ≤ length log.now) × Until log.now i marks.old }
    ensures { Until log.now (i + 1) marks.new }
{
    if log[4 * i] != Step::COMMIT {
        return;
    }
    let t = usize::from(log[4 * i + 1]);
    marks[t] = 1;
}

// The marks of those that committed.
pub(crate) fn who_committed(log: &[u16]) -> [u8; Transaction::TABLE]
    requires { log_refusal log.now ≡ Passed }
    ensures { Committed log.now result }
{
    let mut marks = [0u8; Transaction::TABLE];
    for i in 0..log.len() / 4 {
        mark_commit(log, i, &mut marks);
    }
    marks
}
