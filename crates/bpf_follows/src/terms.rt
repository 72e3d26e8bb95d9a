//! What terms and holders are read as: what is read here is spelled again, and compared.

ghost use Rattle.std.specs.Prelude.{◌≡◌, option_map};
ghost use Rattle.bpf_follows.specs.code.Reading.{register_at};
ghost use Rattle.bpf_follows.specs.code.Reading.{register_in, byte, slot_in, length_in, zero_in, holder_in, opposite, minus_in, signed_in, far_in, moved_in, term_in};

use crate::digits::number_in;
use crate::far::toggled;
use bpf_insn::{REGISTERS, Reg};
use bpf_kept::{Holder, Term};
use bpf_streams::behind;

/// The registers by their numbers.
const NUMBERED: [Reg; REGISTERS] = [
    Reg::R0,
    Reg::R1,
    Reg::R2,
    Reg::R3,
    Reg::R4,
    Reg::R5,
    Reg::R6,
    Reg::R7,
    Reg::R8,
    Reg::R9,
    Reg::R10,
];

/// The register of this number.
fn register_at(number: u64) -> Option<Reg>
    ensures { result ≡ register_at number }
{
    NUMBERED.get(number as usize).copied()
}

/// A register.
#[tactic(auto, unfolding(crate::specs::code::Reading::register_in))]
fn register_in(text: &[u8]) -> Option<(Option<Holder>, &[u8])>
    ensures { option_map (λ x. (x.0, x.1.now)) result ≡ register_in text.now }
{
    let (number, rest) = number_in(text, b"r")?;
    let r = register_at(number)?;
    Some((Some(Holder::Register(r)), rest))
}

/// A number, if it has 8 bits.
fn byte(number: u64) -> Option<u8>
    ensures { result ≡ byte number }
{
    u8::try_from(number).ok()
}

/// A slot of the frame.
#[tactic(auto, unfolding(crate::specs::code::Reading::slot_in))]
fn slot_in(text: &[u8]) -> Option<(Option<Holder>, &[u8])>
    ensures { option_map (λ x. (x.0, x.1.now)) result ≡ slot_in text.now }
{
    let (number, rest) = number_in(text, b"s")?;
    let slot = byte(number)?;
    Some((Some(Holder::Slot(slot)), rest))
}

/// The packet's length.
#[tactic(auto, unfolding(crate::specs::code::Reading::length_in))]
fn length_in(text: &[u8]) -> Option<(Option<Holder>, &[u8])>
    ensures { option_map (λ x. (x.0, x.1.now)) result ≡ length_in text.now }
{
    let rest = behind(text, b"length")?;
    Some((Some(Holder::Length), rest))
}

/// The number 0.
#[tactic(auto, unfolding(crate::specs::code::Reading::zero_in))]
fn zero_in(text: &[u8]) -> Option<(Option<Holder>, &[u8])>
    ensures { option_map (λ x. (x.0, x.1.now)) result ≡ zero_in text.now }
{
    let rest = behind(text, b"0")?;
    Some((None, rest))
}

/// A register, a slot of the frame, the packet's length, or the number 0.
#[tactic(auto, unfolding(crate::specs::code::Reading::holder_in))]
pub fn holder_in(text: &[u8]) -> Option<(Option<Holder>, &[u8])>
    ensures { option_map (λ x. (x.0, x.1.now)) result ≡ holder_in text.now }
{
    if let Some(found) = register_in(text) {
        return Some(found);
    }
    if let Some(found) = slot_in(text) {
        return Some(found);
    }
    if let Some(found) = length_in(text) {
        return Some(found);
    }
    zero_in(text)
}

/// What a number and this one add up to 0, modulo 2^64.
fn opposite(number: u64) -> u64
    ensures { result ≡ opposite number }
{
    if number == 0 {
        0
    } else {
        u64::MAX - (number - 1)
    }
}

/// The negative of the number behind the word.
#[tactic(auto, unfolding(crate::specs::code::Reading::minus_in))]
fn minus_in<'a>(text: &'a [u8], minus: &[u8]) -> Option<(u64, &'a [u8])>
    ensures { option_map (λ x. (x.0, x.1.now)) result ≡ minus_in minus.now text.now }
{
    let (number, rest) = number_in(text, minus)?;
    Some((opposite(number), rest))
}

/// The number behind one of two words, or 0.
#[tactic(auto, unfolding(crate::specs::code::Reading::signed_in))]
fn signed_in<'a>(text: &'a [u8], plus: &[u8], minus: &[u8]) -> Option<(u64, &'a [u8])>
    ensures { option_map (λ x. (x.0, x.1.now)) result ≡ signed_in plus.now minus.now text.now }
{
    if let Some(found) = number_in(text, plus) {
        return Some(found);
    }
    if let Some(found) = minus_in(text, minus) {
        return Some(found);
    }
    Some((0, text))
}

/// What is added beside the address of the context.
#[tactic(auto, unfolding(crate::specs::code::Reading::far_in))]
fn far_in(text: &[u8]) -> Option<(u64, &[u8])>
    ensures { option_map (λ x. (x.0, x.1.now)) result ≡ far_in text.now }
{
    let (number, rest) = signed_in(text, b"+", b"-")?;
    Some((toggled(number), rest))
}

/// What is added.
#[tactic(auto, unfolding(crate::specs::code::Reading::moved_in))]
fn moved_in(text: &[u8]) -> Option<(u64, &[u8])>
    ensures { option_map (λ x. (x.0, x.1.now)) result ≡ moved_in text.now }
{
    match behind(text, b"-context") {
        Some(rest) => far_in(rest),
        None => signed_in(text, b"+", b"-"),
    }
}

/// How often the frame's start is taken away, and what is added.
#[tactic(auto, unfolding(crate::specs::code::Reading::term_in))]
pub fn term_in(text: &[u8]) -> Option<(Term, &[u8])>
    ensures { option_map (λ x. (x.0, x.1.now)) result ≡ term_in text.now }
{
    let (frames, rest) = signed_in(text, b"-frame*", b"+frame*")?;
    let (moved, rest) = moved_in(rest)?;
    Some((Term { frames, moved }, rest))
}
