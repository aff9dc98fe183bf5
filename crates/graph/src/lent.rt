// Rows that are lent as a slice.
ghost use Rattle.std.specs.Prelude.{◌≡◌, ℕ, ◌≤◌, length};
ghost use Rattle.graph.specs.Matrix.{vertices, row_words, takes_part, in_row, Joins, Drops};

use super::{VERTICES, WORDS};

// The row of b; it has no vertex where b is none.
pub fn lent_row(m: &[u64], b: usize) -> [u64; WORDS]
    requires { length m.now ≡ row_words }
    ensures { (a : ℕ) → takes_part vertices result a ≡ in_row m.now b a }
{
    if b == 0 {
        return [0u64; WORDS];
    }
    if VERTICES < b {
        return [0u64; WORDS];
    }
    let i = (b - 1) * WORDS;
    [m[i], m[i + 1]]
}

// An edge to b, where b is a vertex, from each vertex of the set.
pub fn lent_join(m: &mut [u64], those: [u64; WORDS], b: usize)
    requires { length m.old ≡ row_words }
    ensures { Joins m.old those b m.new }
{
    if b == 0 {
        return;
    }
    if VERTICES < b {
        return;
    }
    let i = (b - 1) * WORDS;
    m[i] = bits::union(m[i], those[0]);
    m[i + 1] = bits::union(m[i + 1], those[1]);
}

// Takes a out of the row of b, so that no edge leads from a to b.
pub fn lent_drop(m: &mut [u64], a: usize, b: usize)
    requires { (length m.old ≡ row_words) × (1 ≤ a) × (a ≤ vertices) × (1 ≤ b) × (b ≤ vertices) }
    ensures { Drops m.old a b m.new }
{
    let k = a - 1;
    let i = (b - 1) * WORDS + k / 64;
    m[i] = bits::without_mark(m[i], k % 64);
}
