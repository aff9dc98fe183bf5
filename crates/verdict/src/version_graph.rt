// The version verdict: edges from a writer to the writer of the next version, from a source to its reader, and from a reader to the
// writer of the version after the one read.
ghost use Rattle.std.specs.Prelude.{◌≡◌, suc, ◌≤◌, ◌<◌, ◌+◌, ◌*◌, length, get_or};
ghost use Rattle.graph.specs.Matrix.{row_words};
ghost use Rattle.verdict.specs.Limits.{transactions, objects};
ghost use Rattle.verdict.specs.Refusal.{log_refusal};
ghost use Rattle.verdict.specs.Clean.{cleanness};
ghost use Rattle.verdict.specs.Judgement.{Holds};
ghost use Rattle.verdict.specs.Version.{version_edge, Version};
ghost use Rattle.verdict.specs.Call.{VersionCall};
ghost use Rattle.verdict.specs.Inner.Marks.{Committed};
ghost use Rattle.verdict.specs.Inner.Edges.{no_edge, EdgeAdded, Drawn};
ghost use Rattle.verdict.specs.Inner.NextWriters.{NextWriters};
ghost use Rattle.verdict.specs.Inner.VersionEdges.{versions_until};
ghost use Rattle.verdict.specs.Inner.Checking.{Learned};
ghost use Rattle.verdict.specs.Answers.{Passed};

use crate::answers::{Answer, Cleanness, Refusal, Witnessed};
use crate::cleanness::judge_clean;
use crate::edges::{join, takes_part};
use crate::entries::an_order;
use crate::leaving::{leave, without_members};
use crate::limits::Transaction;
use crate::refusal::{Examined, admit_witness};
use crate::step::{Step, step_at};
use crate::tables::{next_of, next_writers};
use crate::version_reasons::version_cycle;

// The edge from t to the writer of the version of x after v's.
fn join_next(
    matrix: &mut [u64; graph::ROWS],
    next: &[u8; Transaction::PAIRS],
    t: u16,
    x: u16,
    v: u16,
)
    requires { (length matrix.old ≡ row_words) × (v ≤ transactions) × (x < objects) }
    ensures { EdgeAdded matrix.old t (get_or next.now (v * objects + x) 0) matrix.new }
{
    let then = next_of(next, v, x);
    join(matrix, t, then);
}

// The edges of step i.
fn mark_step(
    log: &[u16],
    matrix: &mut [u64; graph::ROWS],
    part: &[u64; graph::WORDS],
    next: &[u8; Transaction::PAIRS],
    i: usize,
)
    requires { (log_refusal log.now ≡ Passed) × (4 * i + 4 ≤ length log.now) × Committed log.now part.now × NextWriters log.now next.now
        × Drawn (versions_until log.now i) matrix.old }
    ensures { Drawn (versions_until log.now (suc i)) matrix.new }
{
    let step = step_at(log, i);
    if !takes_part(part, step.tx) {
        return;
    }
    if step.kind == Step::READ {
        join(matrix, step.src, step.tx);
        join_next(matrix, next, step.tx, step.obj, step.src);
        return;
    }
    if step.kind == Step::WRITE {
        join_next(matrix, next, step.tx, step.obj, step.tx);
    }
}

// Draws the edges of the version graph in a matrix that has none.
pub(crate) fn draw(
    log: &[u16],
    matrix: &mut [u64; graph::ROWS],
    part: &[u64; graph::WORDS],
    next: &[u8; Transaction::PAIRS],
)
    requires { (log_refusal log.now ≡ Passed) × Committed log.now part.now × NextWriters log.now next.now × Drawn no_edge matrix.old }
    ensures { Drawn (version_edge log.now) matrix.new }
{
    for i in 0..log.len() / 4 {
        mark_step(log, matrix, part, next, i);
    }
}

// The version verdict of a well-formed log, by its clean verdict, who committed, and the writers of the next versions.
pub(crate) fn judge_version(
    log: &[u16],
    clean: Cleanness,
    part: [u64; graph::WORDS],
    next: &[u8; Transaction::PAIRS],
) -> Witnessed
    requires { (log_refusal log.now ≡ Passed) × (clean ≡ cleanness log.now) × Committed log.now part × NextWriters log.now next.now }
    ensures { Holds (Version transactions log.now) result }
{
    if let Cleanness::Unclean(fault) = clean {
        return without_members(Answer::Unclean(fault));
    }
    let mut matrix = [0u64; graph::ROWS];
    draw(log, &mut matrix, &part, next);
    match graph::sort(&matrix, part) {
        graph::Shown::Order(order) => an_order(order.as_slice()),
        graph::Shown::Cycle(ring) => version_cycle(log, &part, next, ring.as_slice()),
    }
}

// The version verdict of a well-formed log, by what the check learned.
fn version_learned(log: &[u16], found: Examined) -> Witnessed
    requires { (log_refusal log.now ≡ Passed) × Learned log.now found }
    ensures { Holds (Version transactions log.now) result }
{
    let part = found.part;
    let clean = judge_clean(log, &part, found.own);
    let mut next = [0u8; Transaction::PAIRS];
    next_writers(log, &found.writes, &found.earlier, &mut next);
    judge_version(log, clean, part, &next)
}

// The version verdict: the fault of an unclean read, or else the first order that keeps every edge, or the first shortest cycle with its reasons.
pub fn version(log: &[u16], work: &mut [u8], witness: &mut [u16]) -> Result<Answer, Refusal>
    ensures { VersionCall log.now work.old witness.old result work.new witness.new }
{
    let found = admit_witness(log, work.len(), witness.len())?;
    Ok(leave(work, witness, version_learned(log, found)))
}
