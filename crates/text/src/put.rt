// Bytes put into a lent buffer: each function puts something in at a place, and answers the place behind it.
ghost use Rattle.std.specs.Prelude.{[], ◌∷◌, ◌++◌};
ghost use Rattle.text.specs.Decimal.{decimal};
ghost use Rattle.text.specs.Line.{item};
ghost use Rattle.text.specs.Inner.Put.{Fits, Puts};

use crate::decimal::put_decimal;

// Puts a byte.
pub(crate) fn put_byte(out: &mut [u8], at: usize, b: u8) -> usize
    requires { Fits (b ∷ []) at out.old }
    ensures { Puts (b ∷ []) at out.old result out.new }
{
    out[at] = b;
    at + 1
}

// Puts a word.
pub(crate) fn put_word(out: &mut [u8], at: usize, word: &[u8]) -> usize
    requires { Fits word.now at out.old }
    ensures { Puts word.now at out.old result out.new }
{
    let end = at + word.len();
    out[at..end].copy_from_slice(word);
    end
}

// Puts a word, and a number behind it.
pub(crate) fn put_number(out: &mut [u8], at: usize, word: &[u8], n: usize) -> usize
    requires { Fits (word.now ++ decimal n) at out.old }
    ensures { Puts (word.now ++ decimal n) at out.old result out.new }
{
    let a = put_word(out, at, word);
    put_decimal(out, a, n)
}

// Puts a key, its number, and the byte behind them.
pub(crate) fn put_item(out: &mut [u8], at: usize, key: &[u8], n: usize, behind: u8) -> usize
    requires { Fits (item key.now (decimal n) behind) at out.old }
    ensures { Puts (item key.now (decimal n) behind) at out.old result out.new }
{
    let a = put_number(out, at, key, n);
    put_byte(out, a, behind)
}
