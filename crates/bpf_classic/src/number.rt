//! Numbers: decimal, or hexadecimal behind `0x`.

ghost use Rattle.std.specs.Prelude.{◌≡◌};
ghost use Rattle.bpf_classic.specs.Text.{below, digit, digits_value, is_hexadecimal, number, with_digit};

fn below(base: u32, n: u32) -> Option<u32>
    ensures { result ≡ below base n }
{
    if n < base { Some(n) } else { None }
}

fn digit(base: u32, byte: u8) -> Option<u32>
    ensures { result ≡ digit base byte }
{
    let n = u32::from(byte);
    if byte >= b'0' && byte <= b'9' {
        below(base, n - 48)
    } else if byte >= b'a' && byte <= b'f' {
        below(base, n - 87)
    } else if byte >= b'A' && byte <= b'F' {
        below(base, n - 55)
    } else {
        None
    }
}

/// A number with one more digit behind it, if it has 32 bits.
fn with_digit(base: u32, value: u32, digit: Option<u32>) -> Option<u32>
    ensures { result ≡ with_digit base value digit }
{
    let digit = digit?;
    value.checked_mul(base)?.checked_add(digit)
}

fn digits_value(base: u32, digits: &[u8]) -> Option<u32>
    ensures { result ≡ digits_value base digits.now }
{
    if digits.is_empty() {
        return None;
    }
    let mut value = 0;
    'digits: for byte in digits {
        value = with_digit(base, value, digit(base, *byte))?;
    }
    Some(value)
}

fn is_hexadecimal(word: &[u8]) -> bool
    ensures { result ≡ is_hexadecimal word.now }
{
    word.len() > 2 && word[0] == b'0' && (word[1] == b'x' || word[1] == b'X')
}

/// The number that a word spells, if it has 32 bits.
pub(crate) fn number(word: &[u8]) -> Option<u32>
    ensures { result ≡ number word.now }
{
    if is_hexadecimal(word) {
        digits_value(16, &word[2..])
    } else {
        digits_value(10, word)
    }
}
