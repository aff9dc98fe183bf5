// The first order that comes later than a given one.
ghost use Rattle.std.specs.Prelude.{◌≡◌, true, List, ◌∷◌, ℕ, suc, ◌+◌, ◌≤◌, length, drop};
ghost use Rattle.words.specs.Tests.{count};
ghost use Rattle.words.specs.First.{Never, later};
ghost use Rattle.graph.specs.Matrix.{vertices, takes_part, matrix_order};
ghost use Rattle.graph.specs.Inner.Peel.{unmarked};
ghost use Rattle.graph.specs.Inner.Laying.{Followed};

use super::left::lowest_beginning;
use super::order::lay_down;
use super::sets::dropped;
use super::{ROWS, VERTICES, WORDS};

// Lays down, from place i on, the lowest vertex above a that may come first, and then the first order of the others. How many entries then
// stand.
fn higher(
    list: &mut [u16; VERTICES],
    m: &[u64; ROWS],
    left: [u64; WORDS],
    i: usize,
    a: usize,
) -> Option<usize>
    requires { (a ≤ vertices) × (i + count (suc vertices) (takes_part vertices left) ≤ vertices) }
    ensures { (w : List ℕ) → matrix_order vertices m.now left (a ∷ w) ≡ true
        → Never (later (matrix_order vertices m.now (unmarked a left)) w)
        → Followed m.now left (a ∷ w) i list.old result list.new }
{
    let b = lowest_beginning(m, left, a + 1)?;
    list[i] = b as u16;
    let p = lay_down(list, m, dropped(left, b), i + 1);
    Some(p.count)
}

// Lays down, from place i on, the first order of what is left that comes later than the given entries from there on. How many entries then
// stand.
pub(crate) fn follow(
    list: &mut [u16; VERTICES],
    m: &[u64; ROWS],
    left: [u64; WORDS],
    given: &[u16],
    i: usize,
) -> Option<usize>
    requires { (length given.now ≤ vertices) × (i ≤ length given.now)
        × (matrix_order vertices m.now left (drop i given.now) ≡ true) }
    ensures { Followed m.now left (drop i given.now) i list.old result list.new }
{
    let a = *given.get(i)?;
    let v = usize::from(a);
    match follow(list, m, dropped(left, v), given, i + 1) {
        None => higher(list, m, left, i, v),
        Some(n) => {
            list[i] = a;
            Some(n)
        }
    }
}
