// Orders, cycles and ways of a graph on the vertices 1..128. A set of vertices is two numbers of 64 marks, and the edges of a graph are a row for each
// vertex: the set of those from which an edge leads to it. An edge of a vertex to itself, or of one that takes no part, counts for nothing.
#![tactic(auto)]

mod cycle;
mod left;
mod lent;
mod onward;
mod order;
mod reach;
mod rows;
mod sets;

ghost use Rattle.std.specs.Prelude.{◌≡◌, true, take};
ghost use Rattle.graph.specs.Matrix.{vertices, matrix_order, Sorts, Follows};

pub use lent::{lent_drop, lent_join, lent_row};
pub use order::keeps;
pub use reach::reaches;
pub use rows::{join, row};
pub use sets::{any, takes_part, union, with_vertex};

// How many vertices a graph may have; how many numbers a set of them has, and how many the rows of all.
pub const VERTICES: usize = 128;

pub const WORDS: usize = 2;

pub const ROWS: usize = VERTICES * WORDS;

// The members of a list, with zeros behind them, and how many they are: memory is fixed, so the list has room for all.
#[derive(Drop, Clone, Copy)]
pub struct Members {
    pub list: [u16; VERTICES],
    pub count: usize,
}

impl Members {
    // The members alone.
    pub fn as_slice(&self) -> &[u16]
        ensures { result.now ≡ take self.now.count self.now.list }
    {
        &self.list[..self.count.min(VERTICES)]
    }
}

// What `sort` shows: an order of all vertices that take part, or a cycle.
#[derive(Drop, Clone, Copy)]
pub enum Shown {
    Order(Members),
    Cycle(Members),
}

// The first order, or else the first shortest cycle.
pub fn sort(m: &[u64; ROWS], part: [u64; WORDS]) -> Shown
    ensures { Sorts vertices m.now part result }
{
    let mut list = [0u16; VERTICES];
    let placing = order::lay_down(&mut list, m, part, 0);
    if sets::any(placing.left) {
        let mut ring = [0u16; VERTICES];
        let count = cycle::cycle(&mut ring, m, placing.left);
        return Shown::Cycle(Members { list: ring, count });
    }
    Shown::Order(Members {
        list,
        count: placing.count,
    })
}

// The first order that comes later than the given one and keeps every edge.
pub fn next(m: &[u64; ROWS], part: [u64; WORDS], given: &[u16]) -> Option<Members>
    requires { matrix_order vertices m.now part given.now ≡ true }
    ensures { Follows vertices m.now part given.now result }
{
    let mut later = [0u16; VERTICES];
    let count = onward::follow(&mut later, m, part, given, 0)?;
    Some(Members { list: later, count })
}
