// The conflict verdict: edges between committed transactions that touch one object, at least one writing, the earlier step first.
ghost use Rattle.std.specs.Prelude.{◌≡◌, ℕ, suc, ◌≤◌, ◌<◌, ◌+◌, ◌*◌, length};
ghost use Rattle.graph.specs.Matrix.{takes_part};
ghost use Rattle.verdict.specs.Limits.{transactions, objects};
ghost use Rattle.verdict.specs.Refusal.{log_refusal};
ghost use Rattle.verdict.specs.Judgement.{Holds};
ghost use Rattle.verdict.specs.Conflict.{conflict_edge, Conflict};
ghost use Rattle.verdict.specs.Call.{ConflictCall};
ghost use Rattle.verdict.specs.Inner.Marks.{Committed};
ghost use Rattle.verdict.specs.Inner.Edges.{no_edge, Drawn};
ghost use Rattle.verdict.specs.Inner.ConflictEdges.{earlier_touch, Touches, Touched, conflicts_until};
ghost use Rattle.verdict.specs.Answers.{Passed};

use crate::answers::{Answer, Refusal, Witnessed};
use crate::conflict_reasons::conflict_cycle;
use crate::edges::takes_part;
use crate::entries::an_order;
use crate::leaving::leave;
use crate::refusal::admit_witness;
use crate::step::{Step, step_at};
use crate::touching::touched_row;

// Those whose earlier steps meet a step of this kind: the writers of the object, and for a write its readers too.
fn earlier(touched: &[u64; graph::ROWS], kind: u16, x: u16) -> [u64; graph::WORDS]
    requires { x < objects }
    ensures { (a : ℕ) → takes_part transactions result a ≡ earlier_touch touched.now kind x a }
{
    let writers = graph::row(touched, touched_row(Step::WRITE, x));
    if kind == Step::READ {
        return writers;
    }
    if kind == Step::WRITE {
        return graph::union(writers, graph::row(touched, touched_row(Step::READ, x)));
    }
    [0u64; graph::WORDS]
}

// A step of t that touches x: an edge to t from each of those whose earlier steps it meets, and t among those that touched x in this way.
fn touch(
    matrix: &mut [u64; graph::ROWS],
    touched: &mut [u64; graph::ROWS],
    kind: u16,
    t: u16,
    x: u16,
)
    requires { x < objects }
    ensures { Touches matrix.old touched.old kind t x matrix.new touched.new }
{
    let before = earlier(touched, kind, x);
    graph::join(matrix, before, usize::from(t));
    let one = graph::with_vertex([0u64; graph::WORDS], usize::from(t));
    graph::join(touched, one, touched_row(kind, x));
}

// The edges that end at step i, and step i noted.
fn mark_step(
    log: &[u16],
    matrix: &mut [u64; graph::ROWS],
    touched: &mut [u64; graph::ROWS],
    part: &[u64; graph::WORDS],
    i: usize,
)
    requires { (log_refusal log.now ≡ Passed) × (4 * i + 4 ≤ length log.now) × Committed log.now part.now
        × Drawn (conflicts_until log.now i) matrix.old × Touched log.now i touched.old }
    ensures { Drawn (conflicts_until log.now (suc i)) matrix.new × Touched log.now (suc i) touched.new }
{
    let step = step_at(log, i);
    if !takes_part(part, step.tx) {
        return;
    }
    if step.kind == Step::READ {
        touch(matrix, touched, Step::READ, step.tx, step.obj);
        return;
    }
    if step.kind == Step::WRITE {
        touch(matrix, touched, Step::WRITE, step.tx, step.obj);
    }
}

// Draws the edges of the conflict graph in rows that have none: each step of a committed transaction ends an edge from those whose earlier steps it meets.
pub(crate) fn draw(log: &[u16], matrix: &mut [u64; graph::ROWS], part: &[u64; graph::WORDS])
    requires { (log_refusal log.now ≡ Passed) × Committed log.now part.now × Drawn no_edge matrix.old }
    ensures { Drawn (conflict_edge log.now) matrix.new }
{
    let mut touched = [0u64; graph::ROWS];
    for i in 0..log.len() / 4 {
        mark_step(log, matrix, &mut touched, part, i);
    }
}

// The conflict verdict of a well-formed log, by who committed.
pub(crate) fn judge_conflict(log: &[u16], part: [u64; graph::WORDS]) -> Witnessed
    requires { (log_refusal log.now ≡ Passed) × Committed log.now part }
    ensures { Holds (Conflict transactions log.now) result }
{
    let mut matrix = [0u64; graph::ROWS];
    draw(log, &mut matrix, &part);
    match graph::sort(&matrix, part) {
        graph::Shown::Order(order) => an_order(order.as_slice()),
        graph::Shown::Cycle(ring) => conflict_cycle(log, &part, ring.as_slice()),
    }
}

// The conflict verdict: the first order that keeps every edge, or the first shortest cycle with its reasons.
pub fn conflict(log: &[u16], work: &mut [u8], witness: &mut [u16]) -> Result<Answer, Refusal>
    ensures { ConflictCall log.now work.old witness.old result work.new witness.new }
{
    let found = admit_witness(log, work.len(), witness.len())?;
    Ok(leave(work, witness, judge_conflict(log, found.part)))
}
