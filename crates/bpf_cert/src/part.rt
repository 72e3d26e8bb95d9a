//! What a text says of a number.

ghost use Rattle.std.specs.Prelude.{◌≡◌, option_map};
ghost use Rattle.bpf_cert.specs.Numeral.{is_numeral};
ghost use Rattle.bpf_cert.specs.Reading.{range_in, signed_in, unsigned_part_in, signed_part_in, bits_part_in, part_in};
ghost use Rattle.bpf_cert.specs.code.Seen.{ends_in, signed_seen, part_seen};

use crate::decimal::{SignedForm, is_numeral, signed};
use crate::fields::cut;
use bpf_streams::behind;

/// A part of what is known of a number.
#[derive(Clone, Copy)]
pub enum PartForm<'a> {
    Unsigned(&'a [u8], &'a [u8]),
    Signed(SignedForm<'a>, SignedForm<'a>),
    Bits(&'a [u8], &'a [u8]),
}

/// Both ends of `lo..hi`.
#[tactic(auto, unfolding(crate::specs::code::Seen::ends_in))]
pub fn ends(text: &[u8]) -> Option<(&[u8], &[u8])>
    ensures { option_map (λ x. (x.0.now, x.1.now)) result ≡ ends_in text.now }
{
    let (low, rest) = cut(text, b'.')?;
    let high = behind(rest, b".")?;
    Some((low, high))
}

/// Both ends of a range of signed numbers.
pub fn signed_range(text: &[u8]) -> Option<(SignedForm<'_>, SignedForm<'_>)>
    ensures { option_map (λ x. (signed_seen x.0, signed_seen x.1)) result ≡ range_in signed_in text.now }
{
    let (low, high) = ends(text)?;
    let low = signed(low)?;
    let high = signed(high)?;
    Some((low, high))
}

fn unsigned_part(text: &[u8]) -> Option<PartForm<'_>>
    ensures { option_map part_seen result ≡ unsigned_part_in text.now }
{
    let range = behind(text, b"u")?;
    let (low, high) = ends(range)?;
    if is_numeral(low) && is_numeral(high) {
        Some(PartForm::Unsigned(low, high))
    } else {
        None
    }
}

fn signed_part(text: &[u8]) -> Option<PartForm<'_>>
    ensures { option_map part_seen result ≡ signed_part_in text.now }
{
    let range = behind(text, b"s")?;
    let (low, high) = signed_range(range)?;
    Some(PartForm::Signed(low, high))
}

fn bits_part(text: &[u8]) -> Option<PartForm<'_>>
    ensures { option_map part_seen result ≡ bits_part_in text.now }
{
    let pair = behind(text, b"k")?;
    let (value, mask) = cut(pair, b'/')?;
    if is_numeral(value) && is_numeral(mask) {
        Some(PartForm::Bits(value, mask))
    } else {
        None
    }
}

/// The part that a text spells.
#[tactic(auto, unfolding(crate::specs::Reading::part_in, crate::specs::Reading::or_else))]
pub fn part(text: &[u8]) -> Option<PartForm<'_>>
    ensures { option_map part_seen result ≡ part_in text.now }
{
    if let Some(part) = unsigned_part(text) {
        return Some(part);
    }
    if let Some(part) = signed_part(text) {
        return Some(part);
    }
    bits_part(text)
}
