// Marks of the numbers below 64 as the bits of one number.
#![tactic(auto)]

mod table;
mod walk;

ghost use Rattle.std.specs.Prelude.{◌≡◌, ℕ};
ghost use Rattle.words.specs.Tests.{◌below◌, ◌upto◌, ◌and◌, ◌or◌, fails, provided◌then◌else◌, some, lowest};
ghost use Rattle.bits.specs.Word.{marked, more, less};

pub use table::{marked_above, put_marked};
pub use walk::EachMark;

// Whether x is marked.
pub fn has_mark(m: u64, x: usize) -> bool
    ensures { result ≡ marked m x }
{
    if 64 <= x {
        return false;
    }
    (m >> x) & 1 == 1
}

// The marks with x marked too; there is no room for a number from 64 on.
pub fn with_mark(m: u64, x: usize) -> u64
    ensures { result ≡ (provided x below 64 then more m x else m) }
{
    if x < 64 {
        return (1 << x) | m;
    }
    m
}

// The marks with x marked no more.
pub fn without_mark(m: u64, x: usize) -> u64
    ensures { result ≡ less m x }
{
    if 64 <= x {
        return m;
    }
    m & !(1 << x)
}

// What is marked in either.
pub fn union(a: u64, other: u64) -> u64
    ensures { (x : ℕ) → marked result x ≡ (marked a x or marked other x) }
{
    a | other
}

// What is marked in both.
pub fn common(a: u64, other: u64) -> u64
    ensures { (x : ℕ) → marked result x ≡ (marked a x and marked other x) }
{
    a & other
}

// What is marked in a and not in the other.
pub fn minus(a: u64, other: u64) -> u64
    ensures { (x : ℕ) → marked result x ≡ (marked a x and fails (marked other x)) }
{
    a & !other
}

// Whether any number is marked.
pub fn any_mark(m: u64) -> bool
    ensures { result ≡ some 64 (marked m) }
{
    m != 0
}

// The lowest number that is marked, or 64.
pub fn lowest_mark(m: u64) -> usize
    ensures { result ≡ lowest 64 (marked m) }
{
    m.trailing_zeros() as usize
}

// What is marked from x on.
pub fn marks_from(m: u64, x: usize) -> u64
    ensures { (y : ℕ) → marked result y ≡ (x upto y and marked m y) }
{
    if 64 <= x {
        return 0;
    }
    m & !((1 << x) - 1)
}
