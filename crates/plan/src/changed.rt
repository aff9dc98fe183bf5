// The log with some transactions taken back, and the version verdict of it.
ghost use Rattle.std.specs.Prelude.{◌≡◌, [], ◌∷◌, ◌++◌, ◌+◌, ◌*◌, ◌≤◌, length, take};
ghost use Rattle.words.specs.Tests.{◌is◌, ◌and◌, provided◌then◌else◌};
ghost use Rattle.verdict.specs.Log.{tx, obj, src};
ghost use Rattle.verdict.specs.Limits.{transactions};
ghost use Rattle.verdict.specs.Refusal.{log_refusal};
ghost use Rattle.verdict.specs.Answers.{Passed};
ghost use Rattle.plan.specs.TakenBack.{kind_after, taken_back};
ghost use Rattle.plan.specs.Fine.{Fine};
ghost use Rattle.plan.specs.Inner.Marks.{table, marked};
ghost use Rattle.plan.specs.Inner.Trials.{step_numbers, Shown, Tells};

use crate::marks::is_marked;
use verdict::answers::Answer;
use verdict::{Log, Step, Transaction, version};

// The kind of a step of t when those marked are taken back.
fn kind_of(kind: u16, t: u16, back: &[u8; Transaction::TABLE]) -> u16
    requires { length back.now ≡ table }
    ensures { result ≡ (provided kind is 4 and marked back.now t then 5 else kind) }
{
    if kind != Step::COMMIT {
        return kind;
    }
    if !is_marked(back, usize::from(t)) {
        return kind;
    }
    Step::ABORT
}

// Puts step i into the changed log.
fn put_step(
    log: &[u16],
    back: &[u8; Transaction::TABLE],
    i: usize,
    changed: &mut [u16; 4 * Log::LIMIT],
)
    requires { (length back.now ≡ table) × (4 * i + 4 ≤ length log.now) × (4 * i + 4 ≤ step_numbers) × (length changed.old ≡ step_numbers) }
    ensures { (length changed.new ≡ step_numbers)
        × (take (4 * i + 4) changed.new ≡ take (4 * i) changed.old
        ++ kind_after (marked back.now) log.now i ∷ tx log.now i ∷ obj log.now i ∷ src log.now i ∷ []) }
{
    let a = 4 * i;
    changed[a] = kind_of(log[a], log[a + 1], back);
    changed[a + 1] = log[a + 1];
    changed[a + 2] = log[a + 2];
    changed[a + 3] = log[a + 3];
}

// Puts all steps into the changed log.
fn put_steps(log: &[u16], back: &[u8; Transaction::TABLE], changed: &mut [u16; 4 * Log::LIMIT])
    requires { (length back.now ≡ table) × (log_refusal log.now ≡ Passed) × (length changed.old ≡ step_numbers) }
    ensures { (length changed.new ≡ step_numbers)
        × (take (length log.now) changed.new ≡ taken_back (marked back.now) log.now) }
{
    for i in 0..log.len() / 4 {
        put_step(log, back, i, changed);
    }
}

// The version verdict of the log with those marked taken back.
pub(crate) fn version_after(log: &[u16], back: &[u8; Transaction::TABLE]) -> Answer
    requires { (length back.now ≡ table) × (log_refusal log.now ≡ Passed) }
    ensures { Shown log.now (marked back.now) result }
{
    let n = log.len();
    let mut changed = [0u16; 4 * Log::LIMIT];
    put_steps(log, back, &mut changed);
    let mut work = [0u8; Log::WORK];
    let mut witness = [0u16; Transaction::WITNESS];
    version(&changed[..n], &mut work, &mut witness).unwrap_or(Answer::None)
}

// Whether the log with those marked taken back is fine.
pub(crate) fn is_fine(log: &[u16], back: &[u8; Transaction::TABLE]) -> bool
    requires { (length back.now ≡ table) × (log_refusal log.now ≡ Passed) }
    ensures { Tells (Fine transactions (taken_back (marked back.now) log.now)) result }
{
    match version_after(log, back) {
        Answer::Order(_) => true,
        Answer::Cycle(_) => false,
        Answer::None => false,
        Answer::Unclean(_) => false,
    }
}
