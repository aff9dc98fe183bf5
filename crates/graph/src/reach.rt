// Whether one set of vertices leads to another: a walk backward from the second, row by row.
ghost use Rattle.std.specs.Prelude.{◌≡◌, length};
ghost use Rattle.graph.specs.Matrix.{row_words};
ghost use Rattle.graph.specs.Reach.{Reaches};

use super::WORDS;
use super::lent::lent_row;
use super::sets::{any, common, dropped, first, minus, union};

// Whether a walk leads from a vertex of one set to a vertex of the other; each vertex leads to itself. The front has those that were reached
// and whose rows are still to be looked at.
pub fn reaches(m: &[u64], from: [u64; WORDS], to: [u64; WORDS]) -> bool
    requires { length m.now ≡ row_words }
    ensures { Reaches m.now from to result }
{
    if !any(from) {
        return false;
    }
    let mut all = to;
    let mut front = to;
    while let Some(u) = first(front) {
        if any(common(front, from)) {
            return true;
        }
        let new = minus(lent_row(m, u), all);
        let more = union(all, new);
        all = more;
        let next = union(dropped(front, u), new);
        front = next;
    }
    false
}
