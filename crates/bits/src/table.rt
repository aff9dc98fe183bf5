// Tables with an entry for each number below 64.
ghost use Rattle.std.specs.Prelude.{◌≡◌, get_or};
ghost use Rattle.words.specs.Tests.{◌below◌, ◌and◌, some};
ghost use Rattle.bits.specs.Word.{marked};
ghost use Rattle.bits.specs.Table.{Puts};

use super::walk::EachMark;

// Puts v at each mark of the table.
pub fn put_marked(table: &mut [u16; 64], marks: u64, v: u16)
    ensures { Puts table.old marks v table.new }
{
    for x in EachMark(marks) {
        table[x] = v;
    }
}

// Whether the table has more than b at some mark.
pub fn marked_above(table: &[u16; 64], marks: u64, b: usize) -> bool
    ensures { result ≡ some 64 (λ x. marked marks x and b below get_or table.now x 0) }
{
    for x in EachMark(marks) {
        if b < usize::from(table[x]) {
            return true;
        }
    }
    false
}
