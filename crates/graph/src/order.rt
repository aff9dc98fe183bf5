// Orders: every vertex that takes part once, keeping every edge.
ghost use Rattle.std.specs.Prelude.{◌≡◌, List, ℕ, suc, ◌+◌, ◌≤◌};
ghost use Rattle.words.specs.Tests.{count};
ghost use Rattle.graph.specs.Matrix.{vertices, takes_part, matrix_order};
ghost use Rattle.graph.specs.Inner.Finding.{Turn};
ghost use Rattle.graph.specs.Inner.Laying.{Places};
ghost use Rattle.graph.specs.Inner.Waiting.{Settled, nobody};

use super::left::{before, begins};
use super::rows::{join, row};
use super::sets::{EachVertex, any, common, dropped, first, with_vertex};
use super::{ROWS, VERTICES, WORDS};

// What was placed: how many entries of the list stand, and what is left.
#[derive(Drop, Clone, Copy)]
pub(crate) struct Placing {
    pub count: usize,
    pub left: [u64; WORDS],
}

// Whether the given numbers are an order of the vertices that take part and keep every edge.
pub fn keeps(m: &[u64; ROWS], part: [u64; WORDS], given: &[u16]) -> bool
    ensures { result ≡ matrix_order vertices m.now part given.now }
{
    let mut left = part;
    for v in given {
        let v = usize::from(*v);
        if !begins(m, left, v) {
            return false;
        }
        let rest = dropped(left, v);
        left = rest;
    }
    !any(left)
}

// One of those to be settled: it may come next, or it waits for one of those before it. Who may come next then.
fn settle(
    m: &[u64; ROWS],
    left: [u64; WORDS],
    wait: &mut [u64; ROWS],
    ready: [u64; WORDS],
    u: usize,
) -> [u64; WORDS]
    ensures { (todo others : List ℕ) → Settled m.now left wait.old ready todo → Turn todo u others
        → Settled m.now left wait.new result others }
{
    match first(before(m, left, u)) {
        None => with_vertex(ready, u),
        Some(w) => {
            let one = with_vertex([0u64; WORDS], u);
            join(wait, one, w);
            ready
        }
    }
}

// All of those to be settled.
fn settle_all(
    m: &[u64; ROWS],
    left: [u64; WORDS],
    wait: &mut [u64; ROWS],
    ready: [u64; WORDS],
    todo: [u64; WORDS],
) -> [u64; WORDS]
    requires { Settled m.now left wait.old ready todo }
    ensures { Settled m.now left wait.new result nobody }
{
    let mut now = ready;
    for u in EachVertex(todo) {
        let then = settle(m, left, wait, now, u);
        now = then;
    }
    now
}

// Lays down, from place start on, the lowest vertex that may come next, again and again, until there is none. When a vertex is placed, only
// those that wait for it are looked at.
pub(crate) fn lay_down(
    list: &mut [u16; VERTICES],
    m: &[u64; ROWS],
    part: [u64; WORDS],
    start: usize,
) -> Placing
    requires { start + count (suc vertices) (takes_part vertices part) ≤ vertices }
    ensures { Places m.now part start list.old result.count result.left list.new }
{
    let mut left = part;
    let mut n = start;
    let mut wait = [0u64; ROWS];
    let mut ready = [0u64; WORDS];
    let mut todo = part;
    while any(left) {
        let now = settle_all(m, left, &mut wait, ready, todo);
        let Some(v) = first(now) else {
            return Placing { count: n, left };
        };
        list[n] = v as u16;
        n += 1;
        let others = dropped(left, v);
        left = others;
        let freed = common(row(&wait, v), others);
        todo = freed;
        let then = dropped(now, v);
        ready = then;
    }
    Placing { count: n, left }
}
