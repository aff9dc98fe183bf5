// The edges of a graph of transactions, drawn in rows of marks.
ghost use Rattle.std.specs.Prelude.{◌≡◌, ◌≤◌, length};
ghost use Rattle.graph.specs.Matrix.{takes_part, row_words};
ghost use Rattle.verdict.specs.Limits.{transactions};
ghost use Rattle.verdict.specs.Inner.Edges.{EdgeAdded};

// Whether t committed, by the marks.
pub(crate) fn takes_part(part: &[u64; graph::WORDS], t: u16) -> bool
    requires { (1 ≤ t) × (t ≤ transactions) }
    ensures { result ≡ takes_part transactions part.now t }
{
    let k = usize::from(t) - 1;
    bits::has_mark(part[k / 64], k % 64)
}

// An edge from a to b more. There is none at writer 0, and one from a transaction to itself does not matter.
pub(crate) fn join(matrix: &mut [u64; graph::ROWS], a: u16, b: u16)
    requires { length matrix.old ≡ row_words }
    ensures { EdgeAdded matrix.old a b matrix.new }
{
    let one = graph::with_vertex([0u64; graph::WORDS], usize::from(a));
    graph::join(matrix, one, usize::from(b));
}
