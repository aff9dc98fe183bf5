// The numbers that a list like `1,3` names.
ghost use Rattle.std.specs.Prelude.{◌≤◌, ◌<◌, IfSome};

// The number with one digit more, if there is such a digit, and the number is not 0 and within the limit.
fn with_digit(number: u16, digit: u8, limit: u16) -> Option<u16>
    ensures { IfSome result (λ n. (0 < n) × (n ≤ limit)) }
{
    if !digit.is_ascii_digit() {
        return None;
    }
    let more = 10 * u32::from(number) + u32::from(digit - b'0');
    u16::try_from(more).ok().filter(|n| (1..=limit).contains(n))
}

// The number that a part of a list names: 1 to the limit, with no zero in front.
pub fn number_of(part: &[u8], limit: u16) -> Option<u16>
    ensures { IfSome result (λ n. (0 < n) × (n ≤ limit)) }
{
    let mut number = 0;
    for digit in part {
        number = with_digit(number, *digit, limit)?;
    }
    if number == 0 { None } else { Some(number) }
}
