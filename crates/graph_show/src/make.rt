// The graphs that are shown: numbers 0 to 4 by a rule for their edges, and higher numbers drawn.
ghost use Rattle.std.specs.Prelude.{◌≤◌, ◌<◌};

use graph::{VERTICES, WORDS};

// A set of vertices, and the state that the next draw starts from.
#[derive(Drop, Clone, Copy)]
pub struct Marks {
    pub part: [u64; WORDS],
    pub state: u64,
}

// The next state of the draws.
fn draw(state: u64) -> u64 {
    (state % 2147483648 * 1103515245 + 12345) % 2147483648
}

// Whether a state draws 0 of k.
fn hit(state: u64, k: u64) -> bool
    requires { 0 < k }
{
    state / 65536 % k == 0
}

// Whether an edge of the two rings leads from a to b.
fn in_rings(a: usize, b: usize) -> bool {
    match a {
        3 => b == 70,
        70 => b == 9,
        9 => b == 20,
        20 => b == 3,
        2 => b == 90,
        90 => b == 60,
        60 => b == 80,
        80 => b == 2,
        _ => false,
    }
}

// Whether an edge leads from a to b in a graph made by a rule.
fn ruled(number: u64, a: usize, b: usize) -> bool
    requires { (1 ≤ a) × (1 ≤ b) }
{
    match number {
        0 => false,
        1 => a - 1 == b,
        2 => b < a,
        3 => b - 1 == a || a == VERTICES && b == 1,
        _ => b - 1 == a && 100 <= a || in_rings(a, b),
    }
}

// Whether an edge leads from a to b.
fn edge(number: u64, state: u64, a: usize, b: usize) -> bool
    requires { (1 ≤ a) × (1 ≤ b) }
{
    if number < 5 {
        return ruled(number, a, b);
    }
    hit(state, 5 + (number - 4) % 9)
}

// Whether a vertex takes part: each in a graph made by a rule, and in a drawn one by a draw.
fn stands(number: u64, state: u64) -> bool {
    if number < 5 {
        return true;
    }
    hit(state, 12)
}

// Which vertices take part.
pub(crate) fn parts(number: u64) -> Marks {
    let mut part = [0u64; WORDS];
    let mut state = number;
    if 4 < number {
        state = number - 4;
    }
    for v in 1..=VERTICES {
        state = draw(state);
        if stands(number, state) {
            let more = graph::with_vertex(part, v);
            part = more;
        }
    }
    Marks { part, state }
}

// The set of a where an edge leads from a to b, and else nobody.
fn source(number: u64, state: u64, a: usize, b: usize) -> [u64; WORDS]
    requires { (1 ≤ a) × (1 ≤ b) }
{
    if edge(number, state, a, b) {
        return graph::with_vertex([0u64; WORDS], a);
    }
    [0u64; WORDS]
}

// Draws the edges from a, and answers the state after it.
fn edges_from(m: &mut [u64; graph::ROWS], number: u64, start: u64, a: usize) -> u64
    requires { 1 ≤ a }
{
    let mut state = start;
    for b in 1..=VERTICES {
        state = draw(state);
        graph::join(m, source(number, state, a, b), b);
    }
    state
}

// Draws the edges in rows that have none.
pub(crate) fn edges(m: &mut [u64; graph::ROWS], number: u64, start: u64) {
    let mut state = start;
    for a in 1..=VERTICES {
        state = edges_from(m, number, state, a);
    }
}
