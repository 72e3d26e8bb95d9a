//! Places, from their text.

ghost use Rattle.std.specs.Prelude.{◌≡◌, option_map, true};
ghost use Rattle.bpf_cert.specs.Reading.{place_in};
ghost use Rattle.bpf_cert.specs.Faults.{is_plain_place, is_limited_place};
ghost use Rattle.bpf_cert.specs.Line.{is_place};
ghost use Rattle.bpf_cert.specs.Limits as limits;
ghost use Rattle.bpf_cert.specs.Spelling.{spelled_place};
ghost use Rattle.bpf_cert.specs.code.Seen.{place_seen, PutsInOrder};

use crate::decimal::{is_less, is_numeral, is_plain, number};
use bpf_insn::Reg;
use bpf_state::Place;
use bpf_streams::behind;

/// A register or a slot by its digits.
#[derive(Clone, Copy)]
pub enum PlaceForm<'a> {
    Register(&'a [u8]),
    Slot(&'a [u8]),
}

/// The place that a text spells.
#[tactic(auto, unfolding(crate::specs::Reading::place_in, crate::specs::Reading::or_else, crate::specs::Reading::numeral_in))]
pub fn place(text: &[u8]) -> Option<PlaceForm<'_>>
    ensures { option_map place_seen result ≡ place_in text.now }
{
    if let Some(index) = behind(text, b"r") {
        if is_numeral(index) {
            return Some(PlaceForm::Register(index));
        }
    }
    let index = behind(text, b"s")?;
    if is_numeral(index) {
        Some(PlaceForm::Slot(index))
    } else {
        None
    }
}

pub fn is_plain_place(place: PlaceForm<'_>) -> bool
    ensures { result ≡ is_plain_place (place_seen place.entry) }
{
    match place {
        PlaceForm::Register(index) => is_plain(index),
        PlaceForm::Slot(index) => is_plain(index),
    }
}

/// r0 to r9, or s1 to s64.
pub fn is_limited_place(place: PlaceForm<'_>) -> bool
    ensures { result ≡ is_limited_place (place_seen place.entry) }
{
    match place {
        PlaceForm::Register(index) => number(index) <= 9,
        PlaceForm::Slot(index) => {
            let number = number(index);
            1 <= number && number <= 64
        }
    }
}

/// Whether the first comes before the second: registers rise, then slots.
pub fn is_before(first: PlaceForm<'_>, second: PlaceForm<'_>) -> bool
    ensures { PutsInOrder (place_seen first.entry) (place_seen second.entry) result }
{
    match (first, second) {
        (PlaceForm::Register(left), PlaceForm::Register(right)) => is_less(left, right),
        (PlaceForm::Register(_), PlaceForm::Slot(_)) => true,
        (PlaceForm::Slot(_), PlaceForm::Register(_)) => false,
        (PlaceForm::Slot(left), PlaceForm::Slot(right)) => is_less(left, right),
    }
}

/// The place itself, which is spelled plainly and within the limits.
pub fn place_value(place: PlaceForm<'_>) -> Place
    requires form { is_place (place_seen place) ≡ true }
    requires plain { is_plain_place (place_seen place) ≡ true }
    requires limited { is_limited_place (place_seen place) ≡ true }
    ensures spelled { spelled_place result ≡ place_seen place.entry }
    ensures value { limits.is_limited_place result ≡ true }
{
    match place {
        PlaceForm::Register(index) => Place::Register(Reg::numbered(number(index) as u8)),
        PlaceForm::Slot(index) => Place::Slot(number(index) as u8),
    }
}
