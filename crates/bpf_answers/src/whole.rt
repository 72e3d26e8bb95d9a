//! The context that all bytes at a name are.

ghost use Rattle.std.specs.Prelude.{IfOk, IfErr};
ghost use Rattle.bpf_answers.specs.Loaded.{ContextAt, ContextFails, Tried};
ghost use Rattle.bpf_answers.specs.Told.{IsQuiet};

use crate::bytes::{BytesError, bytes_at};
use crate::context::ContextError;
use crate::failure::Failure;
use crate::places::Places;
use bpf_insn::MAX_CONTEXT;
use std::alloc::Global;

/// The context at a name.
pub fn context_at<'a, P: Places>(
    alloc: Global,
    places: &mut P,
    name: &'a str,
) -> Result<Vec<u8>, Failure<'a>>
    ensures ok { IfOk result (λ v. ContextAt P.opens places.old name.entry.now places.new v.items) }
    ensures err { IfErr result (ContextFails P.opens places.old name.entry.now places.new) }
    ensures quiet { IfErr result IsQuiet }
    ensures names { Tried P.opens places.old name.entry.now places.new }
{
    match bytes_at(alloc, places, name, MAX_CONTEXT) {
        Ok(bytes) => Ok(bytes),
        Err(BytesError::Unreadable) => Err(Failure::CannotRead(name)),
        Err(BytesError::TooLong) => Err(Failure::BadContext(ContextError::TooLong)),
        Err(BytesError::Memory) => Err(Failure::NoMemory),
    }
}
