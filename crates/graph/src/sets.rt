// Sets of vertices, in two numbers of 64 marks: vertex v is mark v - 1 of the first, or mark v - 65 of the second. A set that a
// call answers gets a name of its own before a variable takes it (`let more = ..; all = more;`): the prover follows no shorter way.
ghost use Rattle.std.specs.Prelude.{◌≡◌, ℕ, suc, ◌≤◌};
ghost use Rattle.std.specs.Iterator.{at_most};
ghost use Rattle.words.specs.Tests.{◌is◌, ◌upto◌, ◌and◌, ◌or◌, ◌below◌, fails, some, count};
ghost use Rattle.graph.specs.Matrix.{vertices, takes_part};
ghost use Rattle.graph.specs.Inner.Peel.{unmarked};
ghost use Rattle.graph.specs.Inner.Finding.{LowestOf, GivesLowest};

use super::{VERTICES, WORDS};

// Whether v is in the set.
pub fn takes_part(those: [u64; WORDS], v: usize) -> bool
    ensures { result ≡ takes_part vertices those v }
{
    if v == 0 {
        return false;
    }
    if VERTICES < v {
        return false;
    }
    let k = v - 1;
    bits::has_mark(those[k / 64], k % 64)
}

// The set with v, where v is a vertex.
pub fn with_vertex(those: [u64; WORDS], v: usize) -> [u64; WORDS]
    ensures { (t : ℕ) → takes_part vertices result t ≡ (t is v and 1 upto v and v upto vertices or takes_part vertices those t) }
{
    if v == 0 {
        return those;
    }
    if VERTICES < v {
        return those;
    }
    if v <= 64 {
        return [bits::with_mark(those[0], v - 1), those[1]];
    }
    [those[0], bits::with_mark(those[1], v - 65)]
}

// The set without v.
pub(crate) fn dropped(those: [u64; WORDS], v: usize) -> [u64; WORDS]
    requires { (1 ≤ v) × (v ≤ vertices) }
    ensures { result ≡ unmarked v those }
{
    let k = v - 1;
    let i = k / 64;
    let mut rest = those;
    rest[i] = bits::without_mark(those[i], k % 64);
    rest
}

// Whether the set has any vertex.
pub fn any(those: [u64; WORDS]) -> bool
    ensures { result ≡ some (suc vertices) (takes_part vertices those) }
{
    if bits::any_mark(those[0]) {
        return true;
    }
    bits::any_mark(those[1])
}

// The lowest vertex of the set.
pub(crate) fn first(those: [u64; WORDS]) -> Option<usize>
    ensures { LowestOf (takes_part vertices those) result }
{
    if bits::any_mark(those[0]) {
        return Some(bits::lowest_mark(those[0]) + 1);
    }
    if bits::any_mark(those[1]) {
        return Some(bits::lowest_mark(those[1]) + 65);
    }
    None
}

// What is in either.
pub fn union(a: [u64; WORDS], b: [u64; WORDS]) -> [u64; WORDS]
    ensures { (t : ℕ) → takes_part vertices result t ≡ (takes_part vertices a t or takes_part vertices b t) }
{
    [bits::union(a[0], b[0]), bits::union(a[1], b[1])]
}

// What is in both.
pub(crate) fn common(a: [u64; WORDS], b: [u64; WORDS]) -> [u64; WORDS]
    ensures { (t : ℕ) → takes_part vertices result t ≡ (takes_part vertices a t and takes_part vertices b t) }
{
    [bits::common(a[0], b[0]), bits::common(a[1], b[1])]
}

// What is in a and not in b.
pub(crate) fn minus(a: [u64; WORDS], b: [u64; WORDS]) -> [u64; WORDS]
    ensures { (t : ℕ) → takes_part vertices result t ≡ (takes_part vertices a t and fails (takes_part vertices b t)) }
{
    [bits::minus(a[0], b[0]), bits::minus(a[1], b[1])]
}

// What of the set is above s.
pub(crate) fn above(those: [u64; WORDS], s: usize) -> [u64; WORDS]
    ensures { (t : ℕ) → takes_part vertices result t ≡ (takes_part vertices those t and s below t) }
{
    if s < 64 {
        return [bits::marks_from(those[0], s), those[1]];
    }
    [0, bits::marks_from(those[1], s - 64)]
}

// A walk over the vertices of a set, the lowest first: those that are still to come.
#[derive(Drop, Clone)]
pub(crate) struct EachVertex(pub [u64; WORDS]);

impl Iterator for EachVertex {
    type Item = usize;

    ghost next_gives = { λ s r t. GivesLowest s.0 r t.0 };

    ghost remaining = { λ s. at_most (count (suc vertices) (takes_part vertices s.0)) };

    fn next(&mut self) -> Option<usize> {
        let v = first(self.0)?;
        self.0 = dropped(self.0, v);
        Some(v)
    }
}
