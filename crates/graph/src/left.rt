// What is left of a graph: the vertices of a set, and the edges between them.
ghost use Rattle.std.specs.Prelude.{◌≡◌, ℕ, suc, ◌≤◌};
ghost use Rattle.words.specs.Tests.{◌upto◌, ◌and◌};
ghost use Rattle.graph.specs.Matrix.{vertices, takes_part, joined};
ghost use Rattle.graph.specs.Inner.Peel.{may_begin};
ghost use Rattle.graph.specs.Inner.Finding.{LowestOf};

use super::rows::row;
use super::sets::{any, common, dropped, takes_part};
use super::{ROWS, VERTICES, WORDS};

// The vertices from which an edge leads to b.
pub(crate) fn before(m: &[u64; ROWS], left: [u64; WORDS], b: usize) -> [u64; WORDS]
    ensures { (a : ℕ) → takes_part vertices result a ≡ joined vertices m.now left a b }
{
    if !takes_part(left, b) {
        return [0u64; WORDS];
    }
    common(row(m, b), dropped(left, b))
}

// Whether an order of what is left may begin with v.
pub(crate) fn begins(m: &[u64; ROWS], left: [u64; WORDS], v: usize) -> bool
    ensures { result ≡ may_begin m.now left v }
{
    if !takes_part(left, v) {
        return false;
    }
    !any(before(m, left, v))
}

// The lowest vertex from start on with which an order of what is left may begin.
pub(crate) fn lowest_beginning(m: &[u64; ROWS], left: [u64; WORDS], start: usize) -> Option<usize>
    requires { start ≤ suc vertices }
    ensures { LowestOf (λ v. start upto v and may_begin m.now left v) result }
{
    (start..VERTICES + 1).find(|v| begins(m, left, *v))
}
