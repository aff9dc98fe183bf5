// Transactions marked in a table.
ghost use Rattle.std.specs.Prelude.{◌≡◌, length};
ghost use Rattle.plan.specs.Inner.Marks.{table, marked};

use verdict::Transaction;

// Whether t is marked.
pub(crate) fn is_marked(marks: &[u8; Transaction::TABLE], t: usize) -> bool
    requires { length marks.now ≡ table }
    ensures { result ≡ marked marks.now t }
{
    if Transaction::COUNT < t {
        return false;
    }
    marks[t] != 0
}
