// Words and numbers that stand ready in a number: its lowest byte is the first one, and its highest byte says how many there are. All its bytes are
// put at once, whatever the count, so that the processor has nothing to guess; what is put too far goes under what comes next.
ghost use Rattle.std.specs.Prelude.{◌≡◌, [], ◌∷◌, ◌++◌, ◌≤◌, ◌<◌, ◌+◌, length};
ghost use Rattle.text.specs.Bytes.{blank};
ghost use Rattle.text.specs.Decimal.{decimal};
ghost use Rattle.text.specs.Line.{word, item};
ghost use Rattle.text.specs.Inner.Put.{put_at, Leads};
ghost use Rattle.text.specs.Inner.Ready.{low_bytes, ReadyWord, ReadyDigits};

use crate::put::{put_byte, put_word};

// Puts the lowest bytes of w, so many.
pub(crate) fn put_low(out: &mut [u8], at: usize, w: u64, most: usize)
    requires { at + most ≤ length out.old }
    ensures { out.new ≡ put_at at (low_bytes most w) out.old }
{
    let mut rest = w;
    for i in 0..most {
        out[at + i] = (rest % 256) as u8;
        rest = rest / 256;
    }
}

// The word of a kind, with a blank behind it.
pub(crate) fn ready_word(k: u16) -> u64
    ensures { ReadyWord result (word k ++ blank ∷ []) }
{
    match k {
        1 => 0x600206e69676562,
        2 => 0x500002064616572,
        3 => 0x600206574697277,
        4 => 0x72074696d6d6f63,
        _ => 0x6002074726f6261,
    }
}

// The numbers 0..128 in decimal.
pub(crate) fn ready_digits() -> [u32; 129]
    ensures { ReadyDigits result }
{
    [
        0x1000030, 0x1000031, 0x1000032, 0x1000033, 0x1000034, 0x1000035, 0x1000036, 0x1000037,
        0x1000038, 0x1000039, 0x2003031, 0x2003131, 0x2003231, 0x2003331, 0x2003431, 0x2003531,
        0x2003631, 0x2003731, 0x2003831, 0x2003931, 0x2003032, 0x2003132, 0x2003232, 0x2003332,
        0x2003432, 0x2003532, 0x2003632, 0x2003732, 0x2003832, 0x2003932, 0x2003033, 0x2003133,
        0x2003233, 0x2003333, 0x2003433, 0x2003533, 0x2003633, 0x2003733, 0x2003833, 0x2003933,
        0x2003034, 0x2003134, 0x2003234, 0x2003334, 0x2003434, 0x2003534, 0x2003634, 0x2003734,
        0x2003834, 0x2003934, 0x2003035, 0x2003135, 0x2003235, 0x2003335, 0x2003435, 0x2003535,
        0x2003635, 0x2003735, 0x2003835, 0x2003935, 0x2003036, 0x2003136, 0x2003236, 0x2003336,
        0x2003436, 0x2003536, 0x2003636, 0x2003736, 0x2003836, 0x2003936, 0x2003037, 0x2003137,
        0x2003237, 0x2003337, 0x2003437, 0x2003537, 0x2003637, 0x2003737, 0x2003837, 0x2003937,
        0x2003038, 0x2003138, 0x2003238, 0x2003338, 0x2003438, 0x2003538, 0x2003638, 0x2003738,
        0x2003838, 0x2003938, 0x2003039, 0x2003139, 0x2003239, 0x2003339, 0x2003439, 0x2003539,
        0x2003639, 0x2003739, 0x2003839, 0x2003939, 0x3303031, 0x3313031, 0x3323031, 0x3333031,
        0x3343031, 0x3353031, 0x3363031, 0x3373031, 0x3383031, 0x3393031, 0x3303131, 0x3313131,
        0x3323131, 0x3333131, 0x3343131, 0x3353131, 0x3363131, 0x3373131, 0x3383131, 0x3393131,
        0x3303231, 0x3313231, 0x3323231, 0x3333231, 0x3343231, 0x3353231, 0x3363231, 0x3373231,
        0x3383231,
    ]
}

// Puts a key, the number n, and the byte behind them.
pub(crate) fn put_small(
    out: &mut [u8],
    at: usize,
    key: &[u8],
    digits: &[u32; 129],
    n: usize,
    behind: u8,
) -> usize
    requires { (at + length key.now + 4 ≤ length out.old) × (n < 129) × ReadyDigits digits.now }
    ensures { Leads (item key.now (decimal n) behind) at out.old result out.new }
{
    let a = put_word(out, at, key);
    let w = digits[n];
    put_low(out, a, w as u64, 4);
    put_byte(out, a + (w / 0x1000000) as usize, behind)
}
