// "Next": the first explaining order that comes later than the one handed in.
ghost use Rattle.std.specs.Prelude.{◌≡◌, true, drop};
ghost use Rattle.words.specs.Tests.{◌is◌, fails};
ghost use Rattle.words.specs.Lists.{all};
ghost use Rattle.graph.specs.Matrix.{matrix_order};
ghost use Rattle.verdict.specs.Limits.{transactions, witness_buffer, order_entries, work_bytes};
ghost use Rattle.verdict.specs.Refusal.{◌at◌when◌, ◌else_try◌, log_refusal};
ghost use Rattle.verdict.specs.Clean.{is_clean};
ghost use Rattle.verdict.specs.Version.{version_edge};
ghost use Rattle.verdict.specs.Call.{NextCall};
ghost use Rattle.verdict.specs.Inner.Checking.{Learned, Examines};
ghost use Rattle.verdict.specs.Inner.Marks.{Committed};
ghost use Rattle.verdict.specs.Inner.Edges.{Drawn};
ghost use Rattle.verdict.specs.Inner.Following.{Split, Brings, Comes};
ghost use Rattle.verdict.specs.Inner.NextWriters.{NextWriters};
ghost use Rattle.verdict.specs.Answers.{Passed, Refused};

use crate::answers::{Answer, Cleanness, Refusal, Witnessed};
use crate::cleanness::judge_clean;
use crate::entries::an_order;
use crate::leaving::{leave, without_members};
use crate::limits::{Log, Transaction};
use crate::refusal::{Examined, examine};
use crate::tables::next_writers;
use crate::version_graph::draw;

// How many numbers stand before the first 0.
fn count_members(order: &[u16]) -> usize
    ensures { Split order.now result }
{
    for i in 0..order.len() {
        if order[i] == 0 {
            return i;
        }
    }
    order.len()
}

// Whether all numbers from place k on are 0.
pub fn all_zero(order: &[u16], k: usize) -> bool
    ensures { result ≡ all (λ t. t is 0) (drop k order.now) }
{
    for i in k..order.len() {
        if order[i] != 0 {
            return false;
        }
    }
    true
}

// An order that is not on the list.
const NOT_LISTED: Refusal = Refusal(14, 0);

// The next order that graph finds, as an answer.
fn bring(matrix: &[u64; graph::ROWS], part: [u64; graph::WORDS], order: &[u16]) -> Witnessed
    requires { matrix_order transactions matrix.now part order.now ≡ true }
    ensures { Brings matrix.now part order.now result }
{
    match graph::next(matrix, part, order) {
        Some(later) => an_order(later.as_slice()),
        None => without_members(Answer::None),
    }
}

// The next order in the graph of a clean log, or 14 where the one handed in is not on the list.
fn follow(
    log: &[u16],
    matrix: &[u64; graph::ROWS],
    part: [u64; graph::WORDS],
    order: &[u16],
) -> Result<Witnessed, Refusal>
    requires { (log_refusal log.now ≡ Passed) × (is_clean log.now ≡ true) × Committed log.now part × Drawn (version_edge log.now) matrix.now }
    ensures { Comes log.now order.now result }
{
    let k = count_members(order);
    if !all_zero(order, k) {
        return Err(NOT_LISTED);
    }
    if !graph::keeps(matrix, part, &order[..k]) {
        return Err(NOT_LISTED);
    }
    Ok(bring(matrix, part, &order[..k]))
}

// The next order in the version graph of a clean log, or 14, by who committed and the writers of the next versions.
fn in_version_graph(
    log: &[u16],
    part: [u64; graph::WORDS],
    next: &[u8; Transaction::PAIRS],
    order: &[u16],
) -> Result<Witnessed, Refusal>
    requires { (log_refusal log.now ≡ Passed) × (is_clean log.now ≡ true) × Committed log.now part × NextWriters log.now next.now }
    ensures { Comes log.now order.now result }
{
    let mut matrix = [0u64; graph::ROWS];
    draw(log, &mut matrix, &part, next);
    follow(log, &matrix, part, order)
}

// What comes after an order that is handed in with a well-formed log, by what the check learned.
fn after_order(log: &[u16], found: Examined, order: &[u16]) -> Result<Witnessed, Refusal>
    requires { (log_refusal log.now ≡ Passed) × Learned log.now found }
    ensures { Comes log.now order.now result }
{
    let part = found.part;
    let clean = judge_clean(log, &part, found.own);
    if let Cleanness::Unclean(_) = clean {
        return Err(NOT_LISTED);
    }
    let mut next = [0u8; Transaction::PAIRS];
    next_writers(log, &found.writes, &found.earlier, &mut next);
    in_version_graph(log, part, &next, order)
}

// 12 where a buffer or the order handed in has a wrong length, and then what the check finds.
fn admit_order(log: &[u16], work: usize, witness: usize, order: usize) -> Result<Examined, Refusal>
    ensures { Examines log.now (12 at 0 when fails (work is work_bytes) else_try 12 at 0 when fails (witness is witness_buffer)
        else_try 12 at 0 when fails (order is order_entries) else_try log_refusal log.now) result }
{
    if work != Log::WORK {
        return Err(Refusal(12, 0));
    }
    if witness != Transaction::WITNESS {
        return Err(Refusal(12, 0));
    }
    if order != Transaction::COUNT {
        return Err(Refusal(12, 0));
    }
    examine(log)
}

// The first explaining order that comes later than the one handed in, or none.
pub fn next(
    log: &[u16],
    order: &[u16],
    work: &mut [u8],
    witness: &mut [u16],
) -> Result<Answer, Refusal>
    ensures { NextCall log.now order.now work.old witness.old result work.new witness.new }
{
    let found = admit_order(log, work.len(), witness.len(), order.len())?;
    let later = after_order(log, found, order)?;
    Ok(leave(work, witness, later))
}
