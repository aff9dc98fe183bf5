// The reasons on a cycle of the version graph: what leads from each member to the one that follows it.
ghost use Rattle.std.specs.Prelude.{◌≡◌, Bool, true, List, ℕ, suc, ◌≤◌, ◌<◌, ◌+◌, ◌*◌, length};
ghost use Rattle.graph.specs.Cycle.{is_cycle};
ghost use Rattle.verdict.specs.Limits.{transactions, objects};
ghost use Rattle.verdict.specs.Refusal.{log_refusal};
ghost use Rattle.verdict.specs.Clean.{is_clean};
ghost use Rattle.verdict.specs.Reason.{with_reasons};
ghost use Rattle.verdict.specs.Version.{version_on, version_edge};
ghost use Rattle.verdict.specs.Outcome.{cycle};
ghost use Rattle.verdict.specs.Inner.Marks.{Committed};
ghost use Rattle.verdict.specs.Inner.NextWriters.{NextWriters};
ghost use Rattle.verdict.specs.Inner.Reasons.{by_value, with_edge, Ring, Before, Best};
ghost use Rattle.verdict.specs.Inner.VersionReasons.{version_until};
ghost use Rattle.verdict.specs.Answers.{Passed};

use crate::answers::Witnessed;
use crate::edges::takes_part;
use crate::entries::a_cycle;
use crate::limits::Transaction;
use crate::reasons::{NO_REASON, RW, WR, WW, before_each, offer, reason_number};
use crate::step::{Step, step_at};
use crate::tables::next_of;

// Offers the edge from a to b, where a stands before b on the cycle.
fn offer_edge(
    best: &mut [u16; Transaction::TABLE],
    before: &[u16; Transaction::TABLE],
    a: u16,
    b: u16,
    x: u16,
    kind: u16,
)
    requires { (length best.old ≡ suc transactions) × (a ≤ transactions) × (b ≤ transactions) × (x < objects) × (kind < 4) }
    ensures { (length best.new ≡ suc transactions) × ((c : List ℕ) (on : ℕ → ℕ → ℕ → ℕ → Bool) → Before c before.now → Best c on best.old
        → Best c (with_edge on a b x kind) best.new) }
{
    if before[usize::from(b)] == a {
        offer(best, a, reason_number(x, kind));
    }
}

// Offers the edges of step i.
fn offer_step(
    log: &[u16],
    best: &mut [u16; Transaction::TABLE],
    part: &[u64; graph::WORDS],
    next: &[u8; Transaction::PAIRS],
    before: &[u16; Transaction::TABLE],
    i: usize,
)
    requires { (log_refusal log.now ≡ Passed) × (4 * i + 4 ≤ length log.now) × Committed log.now part.now × NextWriters log.now next.now
        × (length best.old ≡ suc transactions) }
    ensures { (c : List ℕ) → Before c before.now → Best c (version_until log.now i) best.old
        → Best c (version_until log.now (suc i)) best.new }
{
    let step = step_at(log, i);
    if !takes_part(part, step.tx) {
        return;
    }
    if step.kind == Step::READ {
        let then = next_of(next, step.src, step.obj);
        offer_edge(best, before, step.src, step.tx, step.obj, WR);
        offer_edge(best, before, step.tx, then, step.obj, RW);
        return;
    }
    if step.kind == Step::WRITE {
        let then = next_of(next, step.tx, step.obj);
        offer_edge(best, before, step.tx, then, step.obj, WW);
    }
}

// The least reason of each member of a cycle, by a walk over the steps.
fn version_reasons(
    log: &[u16],
    part: &[u64; graph::WORDS],
    next: &[u8; Transaction::PAIRS],
    members: &[u16],
) -> [u16; Transaction::TABLE]
    requires { (log_refusal log.now ≡ Passed) × Committed log.now part.now × NextWriters log.now next.now × Ring members.now }
    ensures { Best members.now (version_on log.now) result }
{
    let before = before_each(members);
    let mut best = [NO_REASON; Transaction::TABLE];
    for i in 0..log.len() / 4 {
        offer_step(log, &mut best, part, next, &before, i);
    }
    best
}

// A cycle of the version graph of a clean log, with its reasons.
pub(crate) fn version_cycle(
    log: &[u16],
    part: &[u64; graph::WORDS],
    next: &[u8; Transaction::PAIRS],
    members: &[u16],
) -> Witnessed
    requires { (log_refusal log.now ≡ Passed) × (is_clean log.now ≡ true) × Committed log.now part.now × NextWriters log.now next.now
        × (is_cycle (version_edge log.now) members.now ≡ true) }
    ensures { result ≡ by_value (cycle (with_reasons (version_on log.now) members.now)) }
{
    let best = version_reasons(log, part, next, members);
    a_cycle(members, &best)
}
