//! Numbers in decimal digits.

ghost use Rattle.std.specs.Prelude.{◌≡◌, option_map};
ghost use Rattle.bpf_follows.specs.code.Reading.{with_digit, digits_in, numeral_in, number_in, short, short_in, at_in, said_number};

use bpf_streams::behind;

/// The number with one digit more, if it has 64 bits.
fn with_digit(number: u64, digit: u8) -> Option<u64>
    ensures { result ≡ with_digit number digit }
{
    let more = u128::from(number) * 10 + u128::from(digit.saturating_sub(b'0'));
    u64::try_from(more).ok()
}

/// The number of the digits at the front, 0 where there are none, and what stands behind them.
#[tactic(auto, unfolding(crate::specs::code::Reading::digits_in))]
fn digits_in(text: &[u8]) -> Option<(u64, &[u8])>
    ensures { option_map (λ x. (x.0, x.1.now)) result ≡ digits_in 0 text.now }
{
    let mut number = 0;
    for (at, byte) in text.iter().enumerate() {
        if !byte.is_ascii_digit() {
            return Some((number, &text[at..]));
        }
        match with_digit(number, *byte) {
            Some(more) => number = more,
            None => return None,
        }
    }
    Some((number, &[]))
}

/// The number at the front, which has a digit, and what stands behind it.
#[tactic(auto, unfolding(crate::specs::code::Reading::numeral_in))]
fn numeral_in(text: &[u8]) -> Option<(u64, &[u8])>
    ensures { option_map (λ x. (x.0, x.1.now)) result ≡ numeral_in text.now }
{
    let first = text.first()?;
    if first.is_ascii_digit() {
        digits_in(text)
    } else {
        None
    }
}

/// The number behind the word, and what stands behind it.
#[tactic(auto, unfolding(crate::specs::code::Reading::number_in))]
pub fn number_in<'a>(text: &'a [u8], word: &[u8]) -> Option<(u64, &'a [u8])>
    ensures { option_map (λ x. (x.0, x.1.now)) result ≡ number_in word.now text.now }
{
    let rest = behind(text, word)?;
    numeral_in(rest)
}

/// A number, if it has 32 bits.
fn short(number: u64) -> Option<u32>
    ensures { result ≡ short number }
{
    u32::try_from(number).ok()
}

/// A number of 32 bits behind the word, and what stands behind it.
#[tactic(auto, unfolding(crate::specs::code::Reading::short_in))]
pub fn short_in<'a>(text: &'a [u8], word: &[u8]) -> Option<(u32, &'a [u8])>
    ensures { option_map (λ x. (x.0, x.1.now)) result ≡ short_in word.now text.now }
{
    let (number, rest) = number_in(text, word)?;
    let number = short(number)?;
    Some((number, rest))
}

/// What stands behind a word, this number and another word.
#[tactic(auto, unfolding(crate::specs::code::Reading::at_in))]
pub fn at_in<'a>(text: &'a [u8], word: &[u8], at: usize, end: &[u8]) -> Option<&'a [u8]>
    ensures { option_map (λ x. x.now) result ≡ at_in word.now at end.now text.now }
{
    let (number, rest) = number_in(text, word)?;
    if number == at as u64 {
        behind(rest, end)
    } else {
        None
    }
}

/// The number behind the word, if it is said, and what stands behind it.
#[tactic(auto, unfolding(crate::specs::code::Reading::said_number))]
pub fn said_number<'a>(text: &'a [u8], word: &[u8]) -> (Option<u64>, &'a [u8])
    ensures { (result.0, result.1.now) ≡ said_number word.now text.now }
{
    match number_in(text, word) {
        Some((number, rest)) => (Some(number), rest),
        None => (None, text),
    }
}
