// A walk over the marks of a number, the lowest first.
ghost use Rattle.std.specs.Iterator.{at_most};
ghost use Rattle.words.specs.Tests.{count};
ghost use Rattle.bits.specs.Word.{marked};
ghost use Rattle.bits.specs.Walk.{GivesLowest};

use super::{any_mark, lowest_mark, without_mark};

// The marks that are still to come.
#[derive(Drop, Clone)]
pub struct EachMark(pub u64);

impl Iterator for EachMark {
    type Item = usize;

    ghost next_gives = { λ s r t. GivesLowest s.0 r t.0 };

    ghost remaining = { λ s. at_most (count 64 (marked s.0)) };

    fn next(&mut self) -> Option<usize> {
        if !any_mark(self.0) {
            return None;
        }
        let x = lowest_mark(self.0);
        self.0 = without_mark(self.0, x);
        Some(x)
    }
}
