// The check of a log: the first of the numbers 1 to 11 that applies, with its place.
ghost use Rattle.std.specs.Prelude.{◌≡◌, suc, ◌≤◌, length};
ghost use Rattle.words.specs.Tests.{◌is◌, fails, provided◌then◌else◌};
ghost use Rattle.verdict.specs.Limits.{transactions, most_steps, witness_buffer, work_bytes};
ghost use Rattle.verdict.specs.Log.{steps};
ghost use Rattle.verdict.specs.Refusal.{◌at◌when◌, ◌else_try◌, tried, step_refusal, open_refusal, log_refusal};
ghost use Rattle.verdict.specs.Inner.Checking.{open_by_lives, Noted, Walks, Examines};
ghost use Rattle.verdict.specs.Answers.{Passed, Refused};

use crate::answers::Refusal;
use crate::limits::{Log, Transaction};
use crate::own_reads::own_fault;
use crate::taking::take_step;
use crate::walk::EVERY_OBJECT;

// What the check learns of a log that nothing turns away. Of each transaction: the steps at which it begins and commits, or the number of
// steps; whether it committed; who committed before it, where entry 0 has the last to commit; and the marks of what it writes. And the
// first own fault, or the number of steps.
#[derive(Clone, Copy)]
pub(crate) struct Examined {
    pub begins: [u16; Transaction::TABLE],
    pub commits: [u16; Transaction::TABLE],
    pub part: [u64; graph::WORDS],
    pub earlier: [u16; Transaction::TABLE],
    pub writes: [u64; Transaction::TABLE],
    pub own: usize,
}

// 11, at the lowest transaction that is open, by how far each has come.
fn check_open(lives: &[u8; Transaction::TABLE]) -> Result<(), Refusal>
    ensures { result ≡ tried (suc transactions) (open_by_lives lives.now) }
{
    for t in 0..Transaction::TABLE {
        if lives[t] == 1 {
            return Err(Refusal(11, t));
        }
    }
    Ok(())
}

// 3 to 9, step by step, with what is noted carried along. Whether a read missed its own write.
fn walk_steps(
    log: &[u16],
    n: usize,
    lives: &mut [u8; Transaction::TABLE],
    begins: &mut [u16; Transaction::TABLE],
    commits: &mut [u16; Transaction::TABLE],
    part: &mut [u64; graph::WORDS],
    earlier: &mut [u16; Transaction::TABLE],
    versions: &mut [u64; Transaction::TABLE],
) -> Result<bool, Refusal>
    requires { (n ≡ steps log.now) × (n ≤ most_steps)
        × Noted log.now 0 lives.old begins.old commits.old part.old earlier.old versions.old }
    ensures { Walks log.now result lives.new begins.new commits.new part.new earlier.new versions.new }
{
    let mut missed = false;
    for i in 0..n {
        let misses = take_step(log, i, lives, begins, commits, part, earlier, versions)?;
        if misses {
            missed = true;
        }
    }
    Ok(missed)
}

// 3 to 9 over all steps, behind the last step 11, and what is learned.
fn check_steps(log: &[u16], n: usize) -> Result<Examined, Refusal>
    requires { (n ≡ steps log.now) × (n ≤ most_steps) }
    ensures { Examines log.now (tried n (step_refusal log.now) else_try tried (suc transactions) (open_refusal log.now)) result }
{
    let none = n as u16;
    let mut lives = [0u8; Transaction::TABLE];
    let mut begins = [none; Transaction::TABLE];
    let mut commits = [none; Transaction::TABLE];
    let mut part = [0u64; graph::WORDS];
    let mut earlier = [0u16; Transaction::TABLE];
    let mut writes = [0u64; Transaction::TABLE];
    writes[0] = EVERY_OBJECT;
    let missed = walk_steps(
        log,
        n,
        &mut lives,
        &mut begins,
        &mut commits,
        &mut part,
        &mut earlier,
        &mut writes,
    )?;
    let own = own_fault(log, n, &part, missed);
    writes[0] = 0;
    check_open(&lives)?;
    Ok(Examined {
        begins,
        commits,
        part,
        earlier,
        writes,
        own,
    })
}

// The first of 1 to 11 that applies, with its place, or that the log is well-formed; and what was learned of a well-formed log.
pub(crate) fn examine(log: &[u16]) -> Result<Examined, Refusal>
    ensures { Examines log.now (log_refusal log.now) result }
{
    if log.len() % 4 != 0 {
        return Err(Refusal(1, 0));
    }
    let n = log.len() / 4;
    let made = Log::of(n);
    let Some(_) = made else {
        return Err(Refusal(2, 0));
    };
    check_steps(log, n)
}

// The first of 1 to 11 that applies, with its place, or that the log is well-formed.
pub fn check(log: &[u16]) -> Result<(), Refusal>
    ensures { result ≡ log_refusal log.now }
{
    examine(log)?;
    Ok(())
}

// 12 where the work area has a wrong length, and then what the check finds.
pub(crate) fn admit(log: &[u16], work: usize) -> Result<Examined, Refusal>
    ensures { Examines log.now (12 at 0 when fails (work is work_bytes) else_try log_refusal log.now) result }
{
    if work != Log::WORK {
        return Err(Refusal(12, 0));
    }
    examine(log)
}

// 12 where the work area or the witness has a wrong length, and then what the check finds.
pub(crate) fn admit_witness(log: &[u16], work: usize, witness: usize) -> Result<Examined, Refusal>
    ensures { Examines log.now (12 at 0 when fails (work is work_bytes) else_try 12 at 0 when fails (witness is witness_buffer) else_try log_refusal log.now) result }
{
    if work != Log::WORK {
        return Err(Refusal(12, 0));
    }
    if witness != Transaction::WITNESS {
        return Err(Refusal(12, 0));
    }
    examine(log)
}
