// Numbers in decimal.
ghost use Rattle.std.specs.Prelude.{[], ◌∷◌, ◌≤◌, ◌<◌};
ghost use Rattle.text.specs.Decimal.{digit, decimal};
ghost use Rattle.text.specs.Inner.Put.{Fits, Puts};

// Puts the digit d.
fn put_digit(out: &mut [u8], at: usize, d: usize) -> usize
    requires { (d < 10) × Fits (digit d ∷ []) at out.old }
    ensures { Puts (digit d ∷ []) at out.old result out.new }
{
    out[at] = b'0' + d as u8;
    at + 1
}

// Puts n in decimal, digit by digit.
fn put_digits(out: &mut [u8], at: usize, n: usize) -> usize
    requires { Fits (decimal n) at out.old }
    ensures { Puts (decimal n) at out.old result out.new }
{
    if n < 10 {
        return put_digit(out, at, n);
    }
    let last = put_digits(out, at, n / 10);
    put_digit(out, last, n % 10)
}

// Puts a number of three digits, or of more.
fn put_long(out: &mut [u8], at: usize, n: usize) -> usize
    requires { (100 ≤ n) × Fits (decimal n) at out.old }
    ensures { Puts (decimal n) at out.old result out.new }
{
    if n < 1000 {
        let first = n / 10;
        let a = put_digit(out, at, first / 10);
        let b = put_digit(out, a, first % 10);
        return put_digit(out, b, n % 10);
    }
    put_digits(out, at, n)
}

// Puts n in decimal at this place, and answers the place behind it. A number of one digit or two, as most are, takes no call of its own.
pub(crate) fn put_decimal(out: &mut [u8], at: usize, n: usize) -> usize
    requires { Fits (decimal n) at out.old }
    ensures { Puts (decimal n) at out.old result out.new }
{
    if n < 10 {
        return put_digit(out, at, n);
    }
    if n < 100 {
        let last = put_digit(out, at, n / 10);
        return put_digit(out, last, n % 10);
    }
    put_long(out, at, n)
}
