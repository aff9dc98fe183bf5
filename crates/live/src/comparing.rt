// What two rows see, compared.
ghost use Rattle.std.specs.Prelude.{◌≡◌, ℕ, ◌≤◌, ◌<◌, length};
ghost use Rattle.words.specs.Tests.{◌is◌, ◌and◌, provided◌then◌else◌};
ghost use Rattle.bits.specs.Word.{marked, less};
ghost use Rattle.live.specs.Inner.Table.{row_numbers, sees_at};

use crate::table::seen;
use bits::{EachMark, without_mark};

// The marks, without x where what is seen of it differs.
fn agreeing(marks: u64, x: usize, a: u16, b: u16) -> u64
    ensures { result ≡ (provided a is b then marks else less marks x) }
{
    if a == b {
        return marks;
    }
    without_mark(marks, x)
}

// The objects of those marked of which p and q see the same.
pub(crate) fn alike(rows: &[u16], marks: u64, p: usize, q: usize) -> u64
    requires { (length rows.now ≡ row_numbers) × (p ≤ 128) × (q ≤ 128) }
    ensures { (x : ℕ) → x < 64 → marked result x ≡ (marked marks x and sees_at rows.now p x is sees_at rows.now q x) }
{
    let mut same = marks;
    for x in EachMark(marks) {
        same = agreeing(same, x, seen(rows, p, x), seen(rows, q, x));
    }
    same
}
