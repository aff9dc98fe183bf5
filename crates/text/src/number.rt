// What stands in a text at a place: a word, a number, a key with its number.
ghost use Rattle.std.specs.Prelude.{◌≡◌, false, [], ◌∷◌, ◌++◌, ℕ, ◌≤◌, length, drop};
ghost use Rattle.text.specs.Decimal.{decimal};
ghost use Rattle.text.specs.Line.{sayable, item as Line·item};
ghost use Rattle.text.specs.Inner.Finds.{starts, Finds, is_digit};

// Whether the word stands in the text at this place.
pub(crate) fn stands(text: &[u8], at: usize, word: &[u8]) -> bool
    requires { at ≤ length text.now }
    ensures { result ≡ starts word.now (drop at text.now) }
{
    text[at..].starts_with(word)
}

// The number at this place, which ends at the byte `behind`, and the place behind that byte.
fn number_at(text: &[u8], at: usize, behind: u8) -> Option<(u16, usize)>
    requires { is_digit behind ≡ false }
    ensures { Finds (λ (n : ℕ). decimal n ++ behind ∷ []) sayable text.now at result }
{
    if text.len() <= at {
        return None;
    }
    let first = text[at];
    if !first.is_ascii_digit() {
        return None;
    }
    let mut value = (first - b'0') as usize;
    for i in at + 1..text.len() {
        let b = text[i];
        if b == behind {
            return Some((value as u16, i + 1));
        }
        if !b.is_ascii_digit() {
            return None;
        }
        if value == 0 {
            return None;
        }
        value = 10 * value + (b - b'0') as usize;
        if 65535 < value {
            return None;
        }
    }
    None
}

// The number of this key at this place, which ends at the byte `behind`, and the place behind that byte.
pub(crate) fn item_at(text: &[u8], at: usize, key: &[u8], behind: u8) -> Option<(u16, usize)>
    requires { (at ≤ length text.now) × (is_digit behind ≡ false) }
    ensures { Finds (λ (n : ℕ). Line·item key.now (decimal n) behind) sayable text.now at result }
{
    if !stands(text, at, key) {
        return None;
    }
    number_at(text, at + key.len(), behind)
}
