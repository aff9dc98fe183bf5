// The reasons on a cycle of the conflict graph: what leads from each member to the one that follows it.
ghost use Rattle.std.specs.Prelude.{◌≡◌, Bool, true, List, ◌⊎◌, ℕ, suc, ◌≤◌, ◌<◌, length, get_or};
ghost use Rattle.graph.specs.Matrix.{in_row};
ghost use Rattle.graph.specs.Cycle.{is_cycle};
ghost use Rattle.verdict.specs.Limits.{transactions, objects};
ghost use Rattle.verdict.specs.Refusal.{log_refusal};
ghost use Rattle.verdict.specs.Reason.{with_reasons};
ghost use Rattle.verdict.specs.Conflict.{conflict_on, conflict_edge};
ghost use Rattle.verdict.specs.Outcome.{cycle};
ghost use Rattle.verdict.specs.Log.{committed};
ghost use Rattle.verdict.specs.Inner.Marks.{Committed};
ghost use Rattle.verdict.specs.Inner.Reasons.{by_value, Ring, Best};
ghost use Rattle.verdict.specs.Inner.ConflictEdges.{touched_row};
ghost use Rattle.verdict.specs.Inner.ConflictReasons.{with_earlier};
ghost use Rattle.verdict.specs.Answers.{Passed};

use crate::answers::Witnessed;
use crate::edges::takes_part;
use crate::entries::a_cycle;
use crate::limits::Transaction;
use crate::reasons::{NO_REASON, RW, WR, WW, before_each, number_if, offer};
use crate::step::{Step, step_at};
use crate::touching::touched_row;

// Whether a is among those that touched the object in this way.
fn has_touched(touched: &[u64; graph::ROWS], a: u16, kind: u16, x: u16) -> bool
    requires { (1 ≤ a) × (a ≤ transactions) × ((kind ≡ 2) ⊎ (kind ≡ 3)) × (x < objects) }
    ensures { result ≡ in_row touched.now (touched_row kind x) a }
{
    let row = graph::row(touched, touched_row(kind, x));
    takes_part(&row, a)
}

// Offers what leads from a to a step of this kind on x. Nobody is 0.
fn offer_earlier(
    best: &mut [u16; Transaction::TABLE],
    touched: &[u64; graph::ROWS],
    a: u16,
    kind: u16,
    x: u16,
)
    requires { (length best.old ≡ suc transactions) × (a ≤ transactions) × (x < objects) }
    ensures { (c : List ℕ) (on : ℕ → ℕ → ℕ → ℕ → Bool) → Ring c → Best c on best.old
        → Best c (with_earlier on touched.now a kind x) best.new }
{
    if a == 0 {
        return;
    }
    if kind == Step::READ {
        let wrote = has_touched(touched, a, Step::WRITE, x);
        offer(best, a, number_if(wrote, x, WR));
        return;
    }
    if kind == Step::WRITE {
        let wrote = has_touched(touched, a, Step::WRITE, x);
        let read = has_touched(touched, a, Step::READ, x);
        offer(best, a, number_if(wrote, x, WW));
        offer(best, a, number_if(read, x, RW));
    }
}

// The least reason of each member of a cycle, by a walk over the steps.
fn conflict_reasons(
    log: &[u16],
    part: &[u64; graph::WORDS],
    members: &[u16],
) -> [u16; Transaction::TABLE]
    requires { (log_refusal log.now ≡ Passed) × Committed log.now part.now × Ring members.now
        × ((i : ℕ) → i < length members.now → committed log.now (get_or members.now i 0) ≡ true) }
    ensures { Best members.now (conflict_on log.now) result }
{
    let before = before_each(members);
    let mut touched = [0u64; graph::ROWS];
    let mut best = [NO_REASON; Transaction::TABLE];
    for j in 0..log.len() / 4 {
        let step = step_at(log, j);
        if takes_part(part, step.tx) {
            offer_earlier(
                &mut best,
                &touched,
                before[usize::from(step.tx)],
                step.kind,
                step.obj,
            );
            let one = graph::with_vertex([0u64; graph::WORDS], usize::from(step.tx));
            graph::join(&mut touched, one, touched_row(step.kind, step.obj));
        }
    }
    best
}

// A cycle of the conflict graph, with its reasons.
pub(crate) fn conflict_cycle(log: &[u16], part: &[u64; graph::WORDS], members: &[u16]) -> Witnessed
    requires { (log_refusal log.now ≡ Passed) × Committed log.now part.now × (is_cycle (conflict_edge log.now) members.now ≡ true) }
    ensures { result ≡ by_value (cycle (with_reasons (conflict_on log.now) members.now)) }
{
    let best = conflict_reasons(log, part, members);
    a_cycle(members, &best)
}
