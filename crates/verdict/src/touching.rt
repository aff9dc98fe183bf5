// Rows of those that touched an object so far: the readers of each object, and its writers.
ghost use Rattle.std.specs.Prelude.{◌≡◌, ◌<◌};
ghost use Rattle.verdict.specs.Limits.{objects};
ghost use Rattle.verdict.specs.Inner.ConflictEdges.{touched_row};

use crate::limits::Object;
use crate::step::Step;

// Which row has those that touch the object in this way: the readers of an object come first, the writers behind them. No row is for other steps.
pub(crate) fn touched_row(kind: u16, x: u16) -> usize
    requires { x < objects }
    ensures { result ≡ touched_row kind x }
{
    if kind == Step::READ {
        return usize::from(x) + 1;
    }
    if kind == Step::WRITE {
        return usize::from(x) + Object::TABLE + 1;
    }
    0
}
