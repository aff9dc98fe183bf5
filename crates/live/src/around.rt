// The edges that a commit brings: from whom they lead to its transaction, and to whom they lead from it.
ghost use Rattle.std.specs.Prelude.{◌≡◌, ℕ, ◌≤◌, length};
ghost use Rattle.words.specs.Tests.{◌is◌, ◌upto◌, ◌and◌, ◌or◌};
ghost use Rattle.graph.specs.Matrix.{vertices, takes_part};
ghost use Rattle.live.specs.Inner.Table.{row_numbers, mark_words, edge_words};
ghost use Rattle.live.specs.Inner.Around.{writes_touched, reads_written, earlier, into_place, out_of_place, Finds, JoinsOne, JoinsAround};

use crate::table::{DONE, name, reads, status, until, writes};
use bits::{any_mark, common, union};
use graph::{WORDS, any, lent_join, takes_part, with_vertex};

// The places before and after one.
#[derive(Clone, Copy)]
pub(crate) struct Around {
    pub before: [u64; WORDS],
    pub after: [u64; WORDS],
}

// Whether place p writes what q wrote or read.
fn does_touch(marks: &[u64], q: usize, p: usize) -> bool
    requires { (length marks.now ≡ mark_words) × (1 ≤ q) × (q ≤ 128) × (1 ≤ p) × (p ≤ 128) }
    ensures { result ≡ writes_touched marks.now p q }
{
    let touched = union(writes(marks, q), reads(marks, q));
    any_mark(common(writes(marks, p), touched))
}

// Whether place p reads what q wrote.
fn does_read(marks: &[u64], q: usize, p: usize) -> bool
    requires { (length marks.now ≡ mark_words) × (1 ≤ q) × (q ≤ 128) × (1 ≤ p) × (p ≤ 128) }
    ensures { result ≡ reads_written marks.now p q }
{
    any_mark(common(reads(marks, p), writes(marks, q)))
}

// Whether place q committed before p began.
fn is_earlier(rows: &[u16], q: usize, p: usize) -> bool
    requires { (length rows.now ≡ row_numbers) × (q ≤ 128) × (p ≤ 128) }
    ensures { result ≡ earlier rows.now p q }
{
    until(rows, q) < name(rows, p)
}

// Whether an edge leads from place q to place p, which commits now.
fn is_before(rows: &[u16], marks: &[u64], q: usize, p: usize) -> bool
    requires { (length rows.now ≡ row_numbers) × (length marks.now ≡ mark_words) × (1 ≤ q) × (q ≤ 128) × (1 ≤ p) × (p ≤ 128) }
    ensures { result ≡ into_place rows.now marks.now p q }
{
    if status(rows, q) != DONE {
        return false;
    }
    if does_touch(marks, q, p) {
        return true;
    }
    if does_read(marks, q, p) {
        return is_earlier(rows, q, p);
    }
    false
}

// Whether an edge leads from place p, which commits now, to place q.
fn is_after(rows: &[u16], marks: &[u64], q: usize, p: usize) -> bool
    requires { (length rows.now ≡ row_numbers) × (length marks.now ≡ mark_words) × (1 ≤ q) × (q ≤ 128) × (1 ≤ p) × (p ≤ 128) }
    ensures { result ≡ out_of_place rows.now marks.now p q }
{
    if status(rows, q) != DONE {
        return false;
    }
    if is_earlier(rows, q, p) {
        return false;
    }
    does_read(marks, q, p)
}

// The set, with q where it is asked for.
fn with_if(those: [u64; WORDS], q: usize, joins: bool) -> [u64; WORDS]
    ensures { (v : ℕ) → takes_part vertices result v ≡ (takes_part vertices those v or (v is q and 1 upto q and q upto vertices and joins)) }
{
    if joins {
        return with_vertex(those, q);
    }
    those
}

// The places before and after place p, of the first n.
pub(crate) fn find_around(rows: &[u16], marks: &[u64], p: usize, n: usize) -> Around
    requires { (length rows.now ≡ row_numbers) × (length marks.now ≡ mark_words) × (1 ≤ p) × (p ≤ 128) × (n ≤ 128) }
    ensures { Finds (into_place rows.now marks.now p) n result.before × Finds (out_of_place rows.now marks.now p) n result.after }
{
    let mut before = [0u64; WORDS];
    let mut after = [0u64; WORDS];
    for q in 1..n + 1 {
        let wider = with_if(before, q, is_before(rows, marks, q, p));
        before = wider;
        let further = with_if(after, q, is_after(rows, marks, q, p));
        after = further;
    }
    Around { before, after }
}

// Edges to q from each place of the set, where q is one of those asked for.
fn join_one(edges: &mut [u64], those: [u64; WORDS], asked: [u64; WORDS], q: usize)
    requires { length edges.old ≡ edge_words }
    ensures { JoinsOne edges.old those asked q edges.new }
{
    if takes_part(asked, q) {
        lent_join(edges, those, q);
    }
}

// Edges to p from the places before it, and from p to those after it, of the first n.
pub(crate) fn join_around(
    edges: &mut [u64],
    before: [u64; WORDS],
    after: [u64; WORDS],
    p: usize,
    n: usize,
)
    requires { (length edges.old ≡ edge_words) × (1 ≤ p) × (p ≤ 128) × (n ≤ 128) }
    ensures { JoinsAround edges.old before after p n edges.new }
{
    lent_join(edges, before, p);
    if !any(after) {
        return;
    }
    let only = with_vertex([0u64; WORDS], p);
    for q in 1..n + 1 {
        join_one(edges, only, after, q);
    }
}
