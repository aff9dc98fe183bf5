// Rows of marks, one for each vertex. In the rows of a graph, the row of b has the vertices from which an edge leads to b.
ghost use Rattle.std.specs.Prelude.{◌≡◌, ℕ, ◌≤◌, length};
ghost use Rattle.graph.specs.Matrix.{vertices, row_words, takes_part, in_row, Joins};
ghost use Rattle.graph.specs.Inner.Rows.{PutRow};

use super::lent::{lent_join, lent_row};
use super::{ROWS, WORDS};

// Both names stay: rows in an array ask nothing of a caller, and rows lent as a slice (`lent_row`, `lent_join`) have to have their length.

// The row of b; it has no vertex where b is none.
pub fn row(m: &[u64; ROWS], b: usize) -> [u64; WORDS]
    ensures { (a : ℕ) → takes_part vertices result a ≡ in_row m.now b a }
{
    lent_row(m, b)
}

// An edge to b, where b is a vertex, from each vertex of the set.
pub fn join(m: &mut [u64; ROWS], those: [u64; WORDS], b: usize)
    ensures { Joins m.old those b m.new }
{
    lent_join(m, those, b);
}

// The set becomes the row of b.
pub(crate) fn put_row(m: &mut [u64; ROWS], those: [u64; WORDS], b: usize)
    requires { (length m.old ≡ row_words) × (1 ≤ b) × (b ≤ vertices) }
    ensures { PutRow m.old those b m.new }
{
    let i = (b - 1) * WORDS;
    m[i] = those[0];
    m[i + 1] = those[1];
}
