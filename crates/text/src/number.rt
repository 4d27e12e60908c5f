// A word as a number of 64 signed bits. specs/Numbers.antt says which words are numbers.
ghost use Rattle.std.specs.Prelude.{◌≡◌, option_map};
ghost use Rattle.text.specs.Numbers.{natural_of, capped, number_of, unsigned};

// The value of decimal digits, at least one, or the largest value of the type where that is less.
// A loop: `parse` of the library reads a `str`, and with `from_utf8` before it a journal of a million calls takes a tenth longer.
fn natural(digits: &[u8]) -> Option<u64>
    ensures { result ≡ option_map capped (natural_of digits.now) }
{
    if digits.is_empty() {
        return None;
    }
    let mut value: u64 = 0;
    for byte in digits {
        if !byte.is_ascii_digit() {
            return None;
        }
        value = value
            .saturating_mul(10)
            .saturating_add(u64::from(*byte - b'0'));
    }
    Some(value)
}

// The number that the word is, if it is one.
pub fn number(word: &[u8]) -> Option<i64>
    ensures { result ≡ number_of word.now }
{
    match word.strip_prefix(b"-") {
        Some(digits) => 0i64.checked_sub_unsigned(natural(digits)?),
        None => i64::try_from(natural(word)?).ok(),
    }
}

// A number as an unsigned one: a negative one is the largest of the type, which is out of every range.
pub fn as_unsigned(n: i64) -> usize
    ensures { result ≡ unsigned n }
{
    usize::try_from(n).unwrap_or(usize::MAX)
}
