//! Parts of instructions, looked up by the word in front of a text, which is read once.

ghost use Rattle.std.specs.Prelude.{◌≡◌, option_map};
ghost use Rattle.bpf_insn.specs.declared.instruction.Width.TheVariants.{W32, W64};
ghost use Rattle.bpf_text.specs.code.WordReading.{first_spelled};
ghost use Rattle.bpf_text.specs.code.StatementReading.{any_register_in};
ghost use Rattle.bpf_text.specs.Spelling.{operation_text, cond_text, sign_bits_text};
ghost use Rattle.bpf_text.specs.Parts.{operations, conditions, swaps, swap_spelling, extensions, memories, memory_text, keywords, keyword_text};
ghost use Rattle.bpf_text.specs.Lookup.{begun, first_named, by_word, width_named, digit_named, number_named, register_named};

use crate::spelling::{
    CONDITIONS, EXTENSIONS, KEYWORDS, Keyword, MEMORIES, Memory, OPERATIONS, Register, SWAPS,
    Spelled, Swap,
};
use crate::token::{first_spelled, skip_blanks, word};
use bpf_insn::{AluOp, Cond, Reg, SignBits, Width};

/// The first of the things that a word spells.
fn first_named<T: Spelled + Copy>(things: &[T], word: &[u8]) -> Option<T>
    ensures { result ≡ first_named T.spelling things.now word.now }
{
    for thing in things {
        if word == thing.text().as_bytes() {
            return Some(*thing);
        }
    }
    None
}

/// The first of the things that the word in front spells, and what stands behind the word.
fn by_word<'a, T: Spelled + Copy>(things: &[T], text: &'a [u8]) -> Option<(T, &'a [u8])>
    ensures { option_map (λ x. (x.0, x.1.now)) result ≡ by_word (first_named T.spelling things.now) text.now }
{
    let (word, rest) = word(text)?;
    Some((first_named(things, word)?, rest))
}

fn width_named(letter: u8) -> Option<Width>
    ensures { result ≡ width_named letter }
{
    match letter {
        b'r' => Some(Width::W64),
        b'w' => Some(Width::W32),
        _ => None,
    }
}

fn digit_named(digit: u8) -> Option<Reg>
    ensures { result ≡ digit_named digit }
{
    match digit {
        b'0' => Some(Reg::R0),
        b'1' => Some(Reg::R1),
        b'2' => Some(Reg::R2),
        b'3' => Some(Reg::R3),
        b'4' => Some(Reg::R4),
        b'5' => Some(Reg::R5),
        b'6' => Some(Reg::R6),
        b'7' => Some(Reg::R7),
        b'8' => Some(Reg::R8),
        b'9' => Some(Reg::R9),
        _ => None,
    }
}

fn number_named(digits: &[u8]) -> Option<Reg>
    ensures { result ≡ number_named digits.now }
{
    match digits {
        [digit] => digit_named(*digit),
        [tens, ones] => {
            if *tens == b'1' && *ones == b'0' {
                Some(Reg::R10)
            } else {
                None
            }
        }
        _ => None,
    }
}

pub fn register_named(word: &[u8]) -> Option<Register>
    ensures { result ≡ register_named word.now }
{
    let [letter, digits @ ..] = word else {
        return None;
    };
    let width = width_named(*letter)?;
    Some(Register(width, number_named(digits)?))
}

fn register_by_word(text: &[u8]) -> Option<(Register, &[u8])>
    ensures { option_map (λ x. (x.0, x.1.now)) result ≡ by_word register_named text.now }
{
    let (word, rest) = word(text)?;
    Some((register_named(word)?, rest))
}

/// The register in front of a text, and what stands behind it.
pub fn any_register(text: &[u8]) -> Option<(Register, &[u8])>
    ensures { option_map (λ x. (x.0, x.1.now)) result ≡ any_register_in text.now }
{
    register_by_word(text)
}

pub fn swap(text: &[u8]) -> Option<(Swap, &[u8])>
    ensures { option_map (λ x. (x.0, x.1.now)) result ≡ first_spelled swap_spelling swaps text.now }
{
    by_word(&SWAPS, text)
}

pub fn extension_bits(text: &[u8]) -> Option<(SignBits, &[u8])>
    ensures { option_map (λ x. (x.0, x.1.now)) result ≡ first_spelled sign_bits_text extensions text.now }
{
    by_word(&EXTENSIONS, text)
}

pub fn memory(text: &[u8]) -> Option<(Memory, &[u8])>
    ensures { option_map (λ x. (x.0, x.1.now)) result ≡ first_spelled memory_text memories text.now }
{
    by_word(&MEMORIES, text)
}

pub fn keyword_named(word: &[u8]) -> Option<Keyword>
    ensures { result ≡ first_named keyword_text keywords word.now }
{
    first_named(&KEYWORDS, word)
}

/// A part of the operations with all whose spelling begins with a byte.
fn operations_by(first: u8) -> &'static [AluOp]
    ensures { begun operation_text first result.now ≡ begun operation_text first operations }
{
    match first {
        b'+' => &OPERATIONS[..1],
        b'-' => &OPERATIONS[1..2],
        b'*' => &OPERATIONS[2..3],
        b'/' => &OPERATIONS[3..4],
        b'|' => &OPERATIONS[5..6],
        b'&' => &OPERATIONS[6..7],
        b'<' => &OPERATIONS[7..8],
        b'>' => &OPERATIONS[8..9],
        b'=' => &OPERATIONS[12..13],
        _ => &OPERATIONS,
    }
}

/// The operation in front of a text, and what stands behind it.
pub fn operation(text: &[u8]) -> Option<(AluOp, &[u8])>
    ensures { option_map (λ x. (x.0, x.1.now)) result ≡ first_spelled operation_text operations text.now }
{
    match skip_blanks(text) {
        [] => first_spelled(&OPERATIONS, text),
        [first, ..] => first_spelled(operations_by(*first), text),
    }
}

/// A part of the conditions with all whose spelling begins with a byte.
fn conditions_by(first: u8) -> &'static [Cond]
    ensures { begun cond_text first result.now ≡ begun cond_text first conditions }
{
    match first {
        b'=' => &CONDITIONS[..1],
        b'!' => &CONDITIONS[1..2],
        b'&' => &CONDITIONS[2..3],
        b'>' => &CONDITIONS[3..5],
        b'<' => &CONDITIONS[5..7],
        b's' => &CONDITIONS[7..],
        _ => &CONDITIONS,
    }
}

/// The condition in front of a text, and what stands behind it.
pub fn condition(text: &[u8]) -> Option<(Cond, &[u8])>
    ensures { option_map (λ x. (x.0, x.1.now)) result ≡ first_spelled cond_text conditions text.now }
{
    match skip_blanks(text) {
        [] => first_spelled(&CONDITIONS, text),
        [first, ..] => first_spelled(conditions_by(*first), text),
    }
}
