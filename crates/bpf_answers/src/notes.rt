//! Notes at a name.

ghost use Rattle.std.specs.Prelude.{IfOk, IfErr};
ghost use Rattle.bpf_answers.specs.Loaded.{Tried};
ghost use Rattle.bpf_answers.specs.Notes.{NotesFail, ReadsNotesAt};
ghost use Rattle.bpf_answers.specs.Told.{IsQuiet};

use crate::bytes::{BytesError, bytes_at};
use crate::failure::Failure;
use crate::places::Places;
use bpf_follows::{NotesError, NotesOfRuns, read};
use bpf_insn::MAX_SLOTS;
use std::alloc::Global;

/// The greatest length of a text of notes that is read, in bytes: the first line, and a line for each slot of a program. None is longer than
/// 4,000 bytes.
const MAX_NOTES: usize = 4_000 * (MAX_SLOTS + 1);

/// The notes at a name with the runs of which they speak, or why they are refused. They can't be read where the text is longer than that of any
/// notes of a program.
pub fn notes_at<'a, P: Places>(
    alloc: Global,
    places: &mut P,
    name: &'a str,
) -> Result<Result<NotesOfRuns, NotesError>, Failure<'a>>
    ensures ok { IfOk result (ReadsNotesAt P.opens places.old name.entry.now places.new) }
    ensures err { IfErr result (NotesFail P.opens places.old name.entry.now places.new) }
    ensures quiet { IfErr result IsQuiet }
    ensures names { Tried P.opens places.old name.entry.now places.new }
{
    match bytes_at(alloc, places, name, MAX_NOTES) {
        Ok(text) => Ok(read(alloc, &text)),
        Err(BytesError::Unreadable | BytesError::TooLong) => Err(Failure::CannotRead(name)),
        Err(BytesError::Memory) => Err(Failure::NoMemory),
    }
}
