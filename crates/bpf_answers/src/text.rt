//! Texts at a name.

ghost use Rattle.std.specs.Prelude.{◌≡◌, ◌⊎◌, IfOk, IfErr};
ghost use Rattle.std.specs.String.{string_bytes};
ghost use Rattle.bpf_answers.specs.Loaded.{ReadableFails, ShortTextAt, TextFails, TextFailsOr, Tried};
ghost use Rattle.bpf_answers.specs.Told.{IsQuiet};

use crate::bytes::{BytesError, bytes_at};
use crate::failure::Failure;
use crate::places::Places;
use std::alloc::Global;

/// The greatest length of a text that is read, in bytes.
pub const MAX_TEXT: usize = 16_777_216;

/// The text at a name. It can't be read where it is longer than that; where it isn't UTF-8 it is the failure that is given.
fn text_or<'a, P: Places>(
    alloc: Global,
    places: &mut P,
    name: &'a str,
    other: Failure<'a>,
) -> Result<String, Failure<'a>>
    ensures ok { IfOk result (λ text. ShortTextAt P.opens places.old name.entry.now places.new (λ bytes. string_bytes text ≡ bytes)) }
    ensures err { IfErr result (TextFailsOr P.opens places.old name.entry.now places.new other.entry) }
    ensures quiet { IfErr result (λ f. IsQuiet f ⊎ (f ≡ other.entry)) }
    ensures names { Tried P.opens places.old name.entry.now places.new }
{
    let bytes = match bytes_at(alloc, places, name, MAX_TEXT) {
        Ok(bytes) => bytes,
        Err(BytesError::Unreadable | BytesError::TooLong) => return Err(Failure::CannotRead(name)),
        Err(BytesError::Memory) => return Err(Failure::NoMemory),
    };
    let Ok(text) = String::from_utf8(bytes) else {
        return Err(other);
    };
    Ok(text)
}

/// The text at a name. It can't be read where it isn't UTF-8, or is longer than that.
pub fn text_at<'a, P: Places>(
    alloc: Global,
    places: &mut P,
    name: &'a str,
) -> Result<String, Failure<'a>>
    ensures ok { IfOk result (λ text. ShortTextAt P.opens places.old name.entry.now places.new (λ bytes. string_bytes text ≡ bytes)) }
    ensures err { IfErr result (TextFails P.opens places.old name.entry.now places.new) }
    ensures quiet { IfErr result IsQuiet }
    ensures names { Tried P.opens places.old name.entry.now places.new }
{
    text_or(alloc, places, name, Failure::CannotRead(name))
}

/// The same for people: they are told of a text that isn't UTF-8.
pub fn readable_text_at<'a, P: Places>(
    alloc: Global,
    places: &mut P,
    name: &'a str,
) -> Result<String, Failure<'a>>
    ensures ok { IfOk result (λ text. ShortTextAt P.opens places.old name.entry.now places.new (λ bytes. string_bytes text ≡ bytes)) }
    ensures err { IfErr result (ReadableFails P.opens places.old name.entry.now places.new) }
    ensures quiet { IfErr result IsQuiet }
    ensures names { Tried P.opens places.old name.entry.now places.new }
{
    text_or(alloc, places, name, Failure::NotText(name))
}
