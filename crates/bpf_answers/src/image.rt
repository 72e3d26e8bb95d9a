//! Images at a name.

ghost use Rattle.std.specs.Prelude.{IfOk, IfErr};
ghost use Rattle.bpf_answers.specs.Loaded.{ImageFails, ReadsImageAt, ReadsProgramAt, Tried};
ghost use Rattle.bpf_answers.specs.Told.{IsQuiet};

use crate::error::PlaceError;
use crate::failure::Failure;
use crate::places::Places;
use bpf_insn::{DecodeError, Order, Program, decode, read_image};
use std::alloc::Global;

/// The bytes of the image at a name, as far as they are read, or E9. It can't be read where it can't be opened or its reader
/// fails.
pub fn image_at<'a, P: Places>(
    alloc: Global,
    places: &mut P,
    name: &'a str,
) -> Result<Result<Vec<u8>, DecodeError>, Failure<'a>>
    ensures ok { IfOk result (ReadsImageAt P.opens places.old name.entry.now places.new) }
    ensures err { IfErr result (ImageFails P.opens places.old name.entry.now places.new) }
    ensures quiet { IfErr result IsQuiet }
    ensures names { Tried P.opens places.old name.entry.now places.new }
{
    let mut reader = match places.open(name) {
        Ok(reader) => reader,
        Err(PlaceError::Refused) => return Err(Failure::CannotRead(name)),
        Err(PlaceError::Memory) => return Err(Failure::NoMemory),
    };
    match read_image(alloc, &mut reader) {
        Ok(bytes) => Ok(Ok(bytes)),
        Err(DecodeError::Memory) => Ok(Err(DecodeError::Memory)),
        Err(_) => Err(Failure::CannotRead(name)),
    }
}

/// The program of the image at a name, or why it is refused.
pub fn program_at<'a, P: Places>(
    alloc: Global,
    places: &mut P,
    name: &'a str,
    order: Order,
) -> Result<Result<Program, DecodeError>, Failure<'a>>
    ensures ok { IfOk result (ReadsProgramAt P.opens order places.old name.entry.now places.new) }
    ensures err { IfErr result (ImageFails P.opens places.old name.entry.now places.new) }
    ensures quiet { IfErr result IsQuiet }
    ensures names { Tried P.opens places.old name.entry.now places.new }
{
    match image_at(alloc, places, name)? {
        Ok(bytes) => Ok(decode(alloc, &bytes, order)),
        Err(error) => Ok(Err(error)),
    }
}
