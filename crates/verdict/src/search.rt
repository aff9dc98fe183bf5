// The exact search: it places one transaction after another, the lowest first, and cuts off where loose replay fails.
ghost use Rattle.std.specs.Prelude.{◌≡◌, true, ℕ, ◌≤◌, ◌<◌, ◌+◌, ◌*◌, length, get_or};
ghost use Rattle.words.specs.Tests.{every};
ghost use Rattle.verdict.specs.Limits.{transactions, objects, most_searched};
ghost use Rattle.verdict.specs.Log.{committed_count};
ghost use Rattle.verdict.specs.Refusal.{log_refusal};
ghost use Rattle.verdict.specs.Clean.{judged_other, is_clean};
ghost use Rattle.verdict.specs.Judgement.{Holds};
ghost use Rattle.verdict.specs.Exact.{Exact};
ghost use Rattle.verdict.specs.Inner.Marks.{Committed};
ghost use Rattle.verdict.specs.Inner.Placing.{needing, allows, may_follow, Needs, NeededOf, CommittedList, placed_of, OneMore, LastAfter, Placed, Searchable, Searched};
ghost use Rattle.verdict.specs.Inner.WriteTable.{WriteTable};
ghost use Rattle.verdict.specs.Answers.{Passed};

use crate::answers::{Answer, Witnessed};
use crate::edges::takes_part;
use crate::entries::an_order;
use crate::leaving::without_members;
use crate::limits::{Object, Transaction};
use crate::step::{Step, step_at};

// Whether step i is a judged read from another, by who committed.
fn judged_other(log: &[u16], part: &[u64; graph::WORDS], i: usize) -> bool
    requires { (log_refusal log.now ≡ Passed) × (4 * i + 4 ≤ length log.now) × Committed log.now part.now }
    ensures { result ≡ judged_other log.now i }
{
    let step = step_at(log, i);
    if step.kind != Step::READ {
        return false;
    }
    if step.src == step.tx {
        return false;
    }
    takes_part(part, step.tx)
}

// The need with one more source.
fn with_source(e: u16, s: u16) -> u16
    requires { s ≤ transactions }
    ensures { result ≡ needing e s }
{
    if e == 0 {
        return s + 1;
    }
    if e == s + 1 {
        return e;
    }
    255
}

// The committed transactions, the lowest first, and how many they are.
#[derive(Clone, Copy)]
struct Roster {
    list: [u16; Transaction::SEARCHED],
    count: usize,
}

// The list of the committed transactions, by who committed.
fn list_committed(log: &[u16], part: &[u64; graph::WORDS]) -> Roster
    requires { (log_refusal log.now ≡ Passed) × Committed log.now part.now × (committed_count log.now ≤ most_searched) }
    ensures { CommittedList log.now result.list result.count }
{
    let mut list = [0u16; Transaction::SEARCHED];
    let mut count = 0;
    for t in 1..=Transaction::LIMIT {
        if takes_part(part, t) {
            list[count] = t;
            count += 1;
        }
    }
    Roster { list, count }
}

// What each committed transaction needs to find of each object.
fn need_table(log: &[u16], part: &[u64; graph::WORDS]) -> [u16; Transaction::PAIRS]
    requires { (log_refusal log.now ≡ Passed) × Committed log.now part.now }
    ensures { Needs log.now result }
{
    let mut table = [0u16; Transaction::PAIRS];
    for i in 0..log.len() / 4 {
        if judged_other(log, part, i) {
            let step = step_at(log, i);
            let row = usize::from(step.tx);
            let column = usize::from(step.obj);
            let k = row * Object::TABLE + column;
            table[k] = with_source(table[k], step.src);
        }
    }
    table
}

// Whether the need allows v as last writer.
fn allows(e: u16, v: u8) -> bool
    ensures { result ≡ allows e v }
{
    if e == 0 {
        return true;
    }
    e - 1 == v as u16
}

// The objects of which t needs to find something.
fn needed_objects(need: &[u16; Transaction::PAIRS], t: u16) -> u64
    requires { t ≤ transactions }
    ensures { NeededOf need.now t result }
{
    let row = usize::from(t) * Object::TABLE;
    let mut marks: u64 = 0;
    for x in 0..Object::TABLE {
        if need[row + x] != 0 {
            marks = bits::with_mark(marks, x);
        }
    }
    marks
}

// For the first n on the list, the objects of which each needs to find something.
fn all_needed(
    need: &[u16; Transaction::PAIRS],
    ones: &[u16; Transaction::SEARCHED],
    n: usize,
) -> [u64; Transaction::SEARCHED]
    requires { (n ≤ most_searched) × ((i : ℕ) → i < n → get_or ones.now i 0 ≤ transactions) }
    ensures { (i : ℕ) → i < n → NeededOf need.now (get_or ones.now i 0) (get_or result i 0) }
{
    let mut asks = [0u64; Transaction::SEARCHED];
    for i in 0..n {
        asks[i] = needed_objects(need, ones[i]);
    }
    asks
}

// Whether what is last written of each object is what t needs to find, by the objects of which it needs something.
fn fits(need: &[u16; Transaction::PAIRS], marks: u64, last: &[u8; Object::TABLE], t: u16) -> bool
    requires { (t ≤ transactions) × NeededOf need.now t marks }
    ensures { result ≡ every objects (λ x. allows (get_or need.now (t * objects + x) 0) (get_or last.now x 0)) }
{
    let row = usize::from(t) * Object::TABLE;
    for x in bits::EachMark(marks) {
        if !allows(need[row + x], last[x]) {
            return false;
        }
    }
    true
}

// Where a search stands: the places of the list that are left, as marks, and how many are placed.
#[derive(Clone, Copy)]
struct Run {
    free: u64,
    at: usize,
}

// Whether the one at place i of the list would find what it needs, by the last writer of each object.
fn may_follow(
    need: &[u16; Transaction::PAIRS],
    ones: &[u16; Transaction::SEARCHED],
    asks: &[u64; Transaction::SEARCHED],
    last: &[u8; Object::TABLE],
    i: usize,
) -> bool
    requires { (i < most_searched) × (get_or ones.now i 0 ≤ transactions) × NeededOf need.now (get_or ones.now i 0) (get_or asks.now i 0) }
    ensures { result ≡ may_follow need.now ones.now last.now i }
{
    fits(need, asks[i], last, ones[i])
}

// The run with the one at place i of the list placed next.
fn with_placed(run: Run, i: usize) -> Run
    requires { run.at < most_searched }
    ensures { OneMore i run result }
{
    let at = run.at;
    let free = bits::without_mark(run.free, i);
    Run { free, at: at + 1 }
}

// The last writer of each object becomes the one at place i of the list, where that one writes it.
fn note_last(
    last: &mut [u8; Object::TABLE],
    writes: &[u64; Transaction::TABLE],
    ones: &[u16; Transaction::SEARCHED],
    i: usize,
)
    requires { (length last.old ≡ objects) × (i < most_searched) × (get_or ones.now i 0 ≤ transactions) }
    ensures { LastAfter writes.now (get_or ones.now i 0) last.old last.new }
{
    let t = ones[i];
    let writer = t as u8;
    for x in bits::EachMark(writes[usize::from(t)]) {
        last[x] = writer;
    }
}

// Whether there is an order of the n on the list that explains loosely and begins with what is placed. The first is put into the lent array, which says
// nothing where there is none: an array that the call answered would be copied at each step back.
fn place(
    log: &[u16],
    need: &[u16; Transaction::PAIRS],
    writes: &[u64; Transaction::TABLE],
    ones: &[u16; Transaction::SEARCHED],
    asks: &[u64; Transaction::SEARCHED],
    run: Run,
    placed: [u16; Transaction::SEARCHED],
    last: &[u8; Object::TABLE],
    n: usize,
    order: &mut [u16; Transaction::SEARCHED],
) -> bool
    requires { Searchable log.now need.now writes.now ones.now asks.now n × Placed log.now ones.now n run (placed_of run placed) last.now
        × (length order.old ≡ most_searched) }
    ensures { Searched log.now (placed_of run placed) n result order.new × (length order.new ≡ most_searched) }
{
    let at = run.at;
    for i in bits::EachMark(run.free) {
        if may_follow(need, ones, asks, last, i) {
            let next = with_placed(run, i);
            let mut more = placed;
            more[at] = ones[i];
            let mut after = *last;
            note_last(&mut after, writes, ones, i);
            if place(log, need, writes, ones, asks, next, more, &after, n, order) {
                return true;
            }
        }
    }
    if at != n {
        return false;
    }
    *order = placed;
    true
}

// The first order that explains a clean, well-formed log loosely, or that there is none, by who committed and what each transaction writes. Where
// nobody committed it is the empty one.
pub(crate) fn find_order(
    log: &[u16],
    part: [u64; graph::WORDS],
    writes: &[u64; Transaction::TABLE],
) -> Witnessed
    requires { (log_refusal log.now ≡ Passed) × (is_clean log.now ≡ true) × (committed_count log.now ≤ most_searched) × Committed log.now part × WriteTable log.now writes.now }
    ensures { Holds (Exact transactions log.now) result }
{
    let all = list_committed(log, &part);
    let ones = all.list;
    let left = all.count;
    if left == 0 {
        return without_members(Answer::Order(0));
    }
    let need = need_table(log, &part);
    let asks = all_needed(&need, &ones, left);
    let last = [0u8; Object::TABLE];
    let placed = [0u16; Transaction::SEARCHED];
    let mut order = [0u16; Transaction::SEARCHED];
    let every_place: u64 = (1 << left) - 1;
    let run = Run {
        free: every_place,
        at: 0,
    };
    let found = place(
        log, &need, writes, &ones, &asks, run, placed, &last, left, &mut order,
    );
    if !found {
        return without_members(Answer::None);
    }
    an_order(&order[..left])
}
