// The first shortest cycle. For each vertex s those above s are found layer by layer, by how far they are from s on a walk through
// vertices above s. The shortest closed walk is a cycle, and the lowest one is traced through its layers.
ghost use Rattle.std.specs.Prelude.{◌≡◌, true, List, ℕ, suc, ◌+◌, ◌≤◌, ◌<◌, length};
ghost use Rattle.words.specs.Tests.{◌below◌, ◌and◌, some, lowest};
ghost use Rattle.graph.specs.Cycle.{is_cycle};
ghost use Rattle.graph.specs.Matrix.{vertices, row_words, takes_part, joined};
ghost use Rattle.graph.specs.Inner.Finding.{LowestOf};
ghost use Rattle.graph.specs.Inner.Laying.{laid};
ghost use Rattle.graph.specs.Inner.Distances.{pick, far, Around, Layers, LeastOf, Cycled};

use super::left::before;
use super::rows::{put_row, row};
use super::sets::{EachVertex, above, any, common, minus, takes_part, union, with_vertex};
use super::{ROWS, VERTICES, WORDS};

// A shortest closed walk: how many vertices it has besides its lowest, and that one.
#[derive(Drop, Clone, Copy)]
struct Ring {
    len: usize,
    start: usize,
}

// The vertices from which an edge leads to one of the front.
fn gathered(m: &[u64; ROWS], part: [u64; WORDS], front: [u64; WORDS]) -> [u64; WORDS]
    ensures { (t : ℕ) → takes_part vertices result t ≡ some (suc vertices) (λ u. takes_part vertices front u and joined vertices m.now part t u) }
{
    let mut all = [0u64; WORDS];
    for u in EachVertex(front) {
        let more = union(all, before(m, part, u));
        all = more;
    }
    all
}

// The vertices from which an edge leads to a higher one.
fn rising(m: &[u64; ROWS], part: [u64; WORDS]) -> [u64; WORDS]
    ensures { (t : ℕ) → takes_part vertices result t ≡ some (suc vertices) (λ u. t below u and joined vertices m.now part t u) }
{
    let mut all = [0u64; WORDS];
    let mut lower = [0u64; WORDS];
    for u in 1..=VERTICES {
        let more = union(all, common(before(m, part, u), lower));
        all = more;
        let wider = with_vertex(lower, u);
        lower = wider;
    }
    all
}

// How many vertices the shortest closed walk from s has besides s, of those with fewer than limit. The layers on the way go into
// the rows, the first one into the row of 1.
fn closing(
    layers: &mut [u64; ROWS],
    m: &[u64; ROWS],
    part: [u64; WORDS],
    s: usize,
    limit: usize,
) -> Option<usize>
    requires { (length layers.old ≡ row_words) × (1 ≤ s) × (s ≤ vertices) × (1 ≤ limit) × (limit ≤ vertices) }
    ensures { Around (joined vertices m.now part) s limit result layers.new }
{
    let higher = above(part, s);
    let mut front = common(before(m, part, s), higher);
    let mut rest = minus(higher, front);
    for d in 1..limit {
        if !any(front) {
            return None;
        }
        put_row(layers, front, d);
        let back = gathered(m, part, front);
        if takes_part(back, s) {
            return Some(d);
        }
        let next = common(back, rest);
        front = next;
        let fewer = minus(rest, next);
        rest = fewer;
    }
    None
}

// The same, for any limit. There is none from a vertex from which no edge leads to a higher one.
fn around(
    layers: &mut [u64; ROWS],
    m: &[u64; ROWS],
    part: [u64; WORDS],
    rises: [u64; WORDS],
    s: usize,
    limit: usize,
) -> Option<usize>
    requires { (length layers.old ≡ row_words) × (1 ≤ s) × (s ≤ vertices) × (limit ≤ vertices)
        × ((t : ℕ) → takes_part vertices rises t ≡ some (suc vertices) (λ u. t below u and joined vertices m.now part t u)) }
    ensures { Around (joined vertices m.now part) s limit result layers.new }
{
    if limit <= 1 {
        return None;
    }
    if !takes_part(rises, s) {
        return None;
    }
    closing(layers, m, part, s, limit)
}

// The shortest closed walk, and of these the one whose lowest vertex is lowest.
fn best(layers: &mut [u64; ROWS], m: &[u64; ROWS], part: [u64; WORDS]) -> Option<Ring>
    requires { length layers.old ≡ row_words }
    ensures { (length layers.new ≡ row_words) × LeastOf (joined vertices m.now part) (suc vertices) result }
{
    let rises = rising(m, part);
    let mut found = None;
    let mut limit = VERTICES;
    for s in 1..=VERTICES {
        if let Some(len) = around(layers, m, part, rises, s, limit) {
            found = Some(Ring { len, start: s });
            limit = len;
        }
    }
    found
}

// The lowest vertex of a layer to which an edge leads from a.
fn nearer(m: &[u64; ROWS], part: [u64; WORDS], layer: [u64; WORDS], a: usize) -> Option<usize>
    ensures { LowestOf (λ u. takes_part vertices layer u and joined vertices m.now part a u) result }
{
    EachVertex(layer).find(|u| takes_part(before(m, part, *u), a))
}

// Lays down, from place 1 on, the lowest closed walk from s with len vertices besides s, by its layers.
fn trace(
    list: &mut [u16; VERTICES],
    m: &[u64; ROWS],
    part: [u64; WORDS],
    layers: &[u64; ROWS],
    s: usize,
    len: usize,
)
    requires { (1 ≤ s) × (s ≤ vertices) × (len < vertices)
        × Layers (joined vertices m.now part) s len layers.now × (far (joined vertices m.now part) s vertices s ≡ len) }
    ensures { list.new ≡ laid 1 (pick (joined vertices m.now part) s len s) list.old }
{
    let mut a = s;
    for k in (1..=len).rev() {
        a = nearer(m, part, row(layers, k), a).unwrap();
        list[len + 1 - k] = a as u16;
    }
}

// Lays down the first shortest cycle, where there is any. How many members it has.
pub(crate) fn cycle(list: &mut [u16; VERTICES], m: &[u64; ROWS], part: [u64; WORDS]) -> usize
    requires { (c : List ℕ) × (is_cycle (joined vertices m.now part) c ≡ true) }
    ensures { Cycled m.now part list.old result list.new }
{
    let mut layers = [0u64; ROWS];
    let ring = best(&mut layers, m, part).unwrap();
    closing(&mut layers, m, part, ring.start, VERTICES);
    list[0] = ring.start as u16;
    trace(list, m, part, &layers, ring.start, ring.len);
    ring.len + 1
}
