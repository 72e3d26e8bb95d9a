//! Words, marks and numbers in front of a text.

ghost use Rattle.std.specs.Prelude.{◌≡◌, ℕ, ◌≤◌, ◌<◌, ◌^◌, List, option_map, length, IfSome};
ghost use Rattle.std.specs.Char.{digit_value};
ghost use Rattle.bpf_text.specs.Characters.{is_digit, is_word_part, is_blank};
ghost use Rattle.bpf_text.specs.code.WordReading.{skip_blanks, word_front, word_rest, word_in, behind_word, behind_mark, behind_marks, behind, first_spelled, unsigned_in, number_in, signed_in, with_sign_of};
ghost use Rattle.bpf_text.specs.Lookup.{may_begin};
ghost use Rattle.bpf_text.specs.Numerals.{value_after, value_up_to, word_value};

use crate::spelling::Spelled;

pub fn is_digit(byte: u8) -> bool
    ensures { result ≡ is_digit byte }
{
    byte.is_ascii_digit()
}

/// Whether each byte is a letter, a digit or an underscore.
static WORD_PARTS: [bool; 256] = [
    false, false, false, false, false, false, false, false, false, false, false, false, false,
    false, false, false, false, false, false, false, false, false, false, false, false, false,
    false, false, false, false, false, false, false, false, false, false, false, false, false,
    false, false, false, false, false, false, false, false, false, true, true, true, true, true,
    true, true, true, true, true, false, false, false, false, false, false, false, true, true,
    true, true, true, true, true, true, true, true, true, true, true, true, true, true, true, true,
    true, true, true, true, true, true, true, true, false, false, false, false, true, false, true,
    true, true, true, true, true, true, true, true, true, true, true, true, true, true, true, true,
    true, true, true, true, true, true, true, true, true, false, false, false, false, false, false,
    false, false, false, false, false, false, false, false, false, false, false, false, false,
    false, false, false, false, false, false, false, false, false, false, false, false, false,
    false, false, false, false, false, false, false, false, false, false, false, false, false,
    false, false, false, false, false, false, false, false, false, false, false, false, false,
    false, false, false, false, false, false, false, false, false, false, false, false, false,
    false, false, false, false, false, false, false, false, false, false, false, false, false,
    false, false, false, false, false, false, false, false, false, false, false, false, false,
    false, false, false, false, false, false, false, false, false, false, false, false, false,
    false, false, false, false, false, false, false, false, false, false, false, false, false,
    false, false, false, false, false, false, false, false, false, false,
];

#[inline(always)]
#[tactic(auto, using(crate::proofs::WordLemmas::word_parts_are))]
fn is_word_part(byte: u8) -> bool
    ensures { result ≡ is_word_part byte }
{
    WORD_PARTS[byte as usize]
}

#[inline(always)]
fn is_blank(byte: u8) -> bool
    ensures { result ≡ is_blank byte }
{
    byte == b' ' || byte == b'\t' || byte == b'\r'
}

#[inline(always)]
pub fn skip_blanks(text: &[u8]) -> &[u8]
    ensures { result.now ≡ skip_blanks text.now }
{
    let mut rest = text;
    while let [first, more @ ..] = rest {
        if !is_blank(*first) {
            break;
        }
        rest = more;
    }
    rest
}

/// The longest run of word parts in front, and what stands behind it.
#[inline(always)]
fn split_word(text: &[u8]) -> (&[u8], &[u8])
    ensures front { result.0.now ≡ word_front text.now }
    ensures rest { result.1.now ≡ word_rest text.now }
{
    let mut count = 0;
    'parts: while count < text.len() && is_word_part(text[count]) {
        count += 1;
    }
    text.split_at(count)
}

/// A word, and what stands behind it.
#[tactic(auto, unfolding(crate::specs::code::WordReading::word_in))]
pub fn word(text: &[u8]) -> Option<(&[u8], &[u8])>
    ensures { option_map (λ x. (x.0.now, x.1.now)) result ≡ word_in text.now }
{
    let (word, rest) = split_word(skip_blanks(text));
    if word.is_empty() {
        None
    } else {
        Some((word, rest))
    }
}

#[tactic(auto, unfolding(crate::specs::code::WordReading::behind_word))]
#[inline(always)]
fn behind_word<'a>(text: &'a [u8], word: &[u8]) -> Option<&'a [u8]>
    ensures { option_map (λ x. x.now) result ≡ behind_word word.now text.now }
{
    let (found, rest) = crate::token::word(text)?;
    if found == word { Some(rest) } else { None }
}

/// What stands behind a mark.
#[tactic(auto, unfolding(crate::specs::code::WordReading::behind_mark))]
#[inline(always)]
pub fn behind_mark(text: &[u8], mark: u8) -> Option<&[u8]>
    ensures { option_map (λ x. x.now) result ≡ behind_mark mark text.now }
{
    let (first, rest) = skip_blanks(text).split_first()?;
    if *first == mark { Some(rest) } else { None }
}

#[inline(always)]
fn behind_marks<'a>(text: &'a [u8], marks: &[u8]) -> Option<&'a [u8]>
    ensures { option_map (λ x. x.now) result ≡ behind_marks marks.now text.now }
{
    let mut rest = text;
    for mark in marks {
        rest = behind_mark(rest, *mark)?;
    }
    Some(rest)
}

/// What stands behind a spelling: a word, marks, or a word and then marks.
#[tactic(auto, unfolding(crate::specs::code::WordReading::behind))]
#[inline(always)]
pub fn behind<'a>(text: &'a [u8], spelling: &str) -> Option<&'a [u8]>
    ensures { option_map (λ x. x.now) result ≡ behind spelling.now text.now }
{
    let (word, marks) = split_word(spelling.as_bytes());
    let rest = if word.is_empty() {
        text
    } else {
        behind_word(text, word)?
    };
    behind_marks(rest, marks)
}

/// Whether a spelling may stand in front of a text with no blank in front, by their first bytes.
#[inline(always)]
fn may_begin(spelling: &[u8], text: &[u8]) -> bool
    ensures { result ≡ may_begin spelling.now text.now }
{
    match (spelling, text) {
        ([], _) => true,
        ([_, ..], []) => false,
        ([first, ..], [byte, ..]) => first == byte,
    }
}

/// What stands behind a spelling, where its first byte may be the first one of the text that is no blank.
#[inline(always)]
fn behind_begun<'a>(text: &'a [u8], begin: &[u8], spelling: &str) -> Option<&'a [u8]>
    requires { begin.now ≡ skip_blanks text.now }
    ensures { option_map (λ x. x.now) result ≡ behind spelling.now text.now }
{
    if may_begin(spelling.as_bytes(), begin) {
        behind(text, spelling)
    } else {
        None
    }
}

/// The first of the things whose spelling stands in front, and what stands behind it.
pub fn first_spelled<'a, T: Spelled + Copy>(things: &[T], text: &'a [u8]) -> Option<(T, &'a [u8])>
    ensures { option_map (λ x. (x.0, x.1.now)) result ≡ first_spelled T.spelling things.now text.now }
{
    let begin = skip_blanks(text);
    for thing in things {
        if let Some(rest) = behind_begun(text, begin, thing.text()) {
            return Some((*thing, rest));
        }
    }
    None
}

fn digit_of(byte: u8) -> u8
    ensures { result ≡ digit_value byte }
{
    match byte {
        b'0'..=b'9' => byte - b'0',
        b'A'..=b'Z' => byte - b'A' + 10,
        b'a'..=b'z' => byte - b'a' + 10,
        _ => 36,
    }
}

/// The number that digits write, none where another character stands among them.
#[inline(always)]
fn value(digits: &[u8], base: u8) -> Option<u128>
    requires few { length digits.now ≤ 20 }
    requires base { base ≤ 16 }
    ensures value { result ≡ value_after base 0 digits.now }
    ensures small { IfSome result (λ v. v < 2 ^ 80) }
{
    let mut value = 0;
    for byte in digits {
        let digit = digit_of(*byte);
        if digit >= base {
            return None;
        }
        value = value * u128::from(base) + u128::from(digit);
    }
    Some(value)
}

#[inline(always)]
fn value_up_to(digits: &[u8], most: usize, base: u8) -> Option<u128>
    requires most { most ≤ 20 }
    requires base { base ≤ 16 }
    ensures value { result ≡ value_up_to most base digits.now }
    ensures small { IfSome result (λ v. v < 2 ^ 80) }
{
    if digits.is_empty() || digits.len() > most {
        return None;
    }
    value(digits, base)
}

#[tactic(auto, unfolding(crate::specs::Numerals::word_value))]
fn word_value(word: &[u8]) -> Option<u128>
    ensures value { result ≡ word_value word.now }
    ensures small { IfSome result (λ v. v < 2 ^ 80) }
{
    if word.len() >= 2 && word[0] == b'0' && word[1] == b'x' {
        value_up_to(&word[2..], 16, 16)
    } else {
        value_up_to(word, 20, 10)
    }
}

#[tactic(auto, unfolding(crate::specs::code::WordReading::unsigned_in))]
pub fn unsigned(text: &[u8]) -> Option<(u128, &[u8])>
    ensures value { option_map (λ x. (x.0, x.1.now)) result ≡ unsigned_in text.now }
    ensures small { IfSome result (λ x. x.0 < 2 ^ 80) }
{
    let (word, rest) = word(text)?;
    Some((word_value(word)?, rest))
}

/// A number of either sign, told by what stands in front of it.
fn with_sign(minus: bool, text: &[u8]) -> Option<(i128, &[u8])>
    ensures { option_map (λ x. (x.0, x.1.now)) result ≡ with_sign_of minus (unsigned_in text.now) }
{
    let (value, rest) = unsigned(text)?;
    let value = value as i128;
    Some((if minus { -value } else { value }, rest))
}

/// A number, behind a `-` or with no sign.
#[tactic(auto, unfolding(crate::specs::code::WordReading::number_in))]
pub fn number(text: &[u8]) -> Option<(i128, &[u8])>
    ensures { option_map (λ x. (x.0, x.1.now)) result ≡ number_in text.now }
{
    match behind_mark(text, b'-') {
        Some(rest) => with_sign(true, rest),
        None => with_sign(false, text),
    }
}

/// A number behind a `-` or a `+`.
#[tactic(auto, unfolding(crate::specs::code::WordReading::signed_in))]
pub fn signed(text: &[u8]) -> Option<(i128, &[u8])>
    ensures { option_map (λ x. (x.0, x.1.now)) result ≡ signed_in text.now }
{
    match behind_mark(text, b'-') {
        Some(rest) => with_sign(true, rest),
        None => with_sign(false, behind_mark(text, b'+')?),
    }
}
