//! Reading notes: each line is looked at, spelled again and compared.

ghost use Rattle.std.specs.Prelude.{◌≡◌, ◌⊎◌, ◌++◌, List, Option, Ok, Err, option_map, IfOk, IfErr};
ghost use Rattle.std.specs.List.{AllByRecursion};
ghost use Rattle.bpf_insn.specs.Limits.{max_slots};
ghost use Rattle.bpf_follows.specs.declared.error.NotesError.TheVariants.{Memory};
ghost use Rattle.bpf_kept.specs.declared.bounds.Bounds.{Bounds};
ghost use Rattle.bpf_kept.specs.declared.notes.Note.{Note};
ghost use Rattle.bpf_follows.specs.NotesText.{AreNotes, RunsFit, WholeIfAny, notes_text};
ghost use Rattle.bpf_follows.specs.Refused.{AreRead, IsRefused};
ghost use Rattle.bpf_follows.specs.code.Reading.{taken_at, lines_in, head_in};

use crate::error::NotesError;
use crate::head::said_head;
use crate::note::note_in;
use crate::writing::{put_head, put_line};
use bpf_insn::MAX_SLOTS;
use bpf_kept::{Bounds, Note};
use bpf_streams::behind;
use std::alloc::{AllocError, Global};

/// Of which runs notes speak, and what stands behind that line.
type TakenHead<'a> = Option<(Bounds, &'a [u8])>;

/// A note, and what stands behind its line.
type TakenNote<'a> = Option<(Option<Note>, &'a [u8])>;

/// Notes, and of which runs they speak.
#[derive(Drop)]
pub struct NotesOfRuns {
    pub runs: Bounds,
    pub notes: Vec<Option<Note>>,
}

/// The first line, if the text begins with one. The buffer is for the line.
fn head_in<'a>(line: &mut Vec<u8>, text: &'a [u8]) -> Result<TakenHead<'a>, AllocError>
    ensures { IfOk result (λ taken. option_map (λ x. (x.0, x.1.now)) taken ≡ head_in text.now) }
{
    let Some(runs) = said_head(text) else {
        return Ok(None);
    };
    line.clear();
    put_head(line, runs)?;
    match behind(text, line.as_slice()) {
        Some(rest) => Ok(Some((runs, rest))),
        None => Ok(None),
    }
}

/// The note of a slot, if the text begins with its line. The buffer is for the line.
fn taken_at<'a>(
    line: &mut Vec<u8>,
    slot: usize,
    text: &'a [u8],
) -> Result<TakenNote<'a>, AllocError>
    ensures { IfOk result (λ taken. option_map (λ x. (x.0, x.1.now)) taken ≡ taken_at slot text.now) }
{
    let Some(note) = note_in(text) else {
        return Ok(None);
    };
    line.clear();
    put_line(line, slot, note.as_ref())?;
    match behind(text, line.as_slice()) {
        Some(rest) => Ok(Some((note, rest))),
        None => Ok(None),
    }
}

/// The notes of all lines. The buffer is for a line.
fn lines_in(alloc: Global, line: &mut Vec<u8>, text: &[u8]) -> Result<Vec<Option<Note>>, NotesError>
    ensures ok { IfOk result (λ notes. lines_in max_slots 0 text.now ≡ Ok notes.items) }
    ensures err { IfErr result (λ error. (error ≡ Memory) ⊎ (lines_in max_slots 0 text.now ≡ Err error)) }
{
    let mut notes = Vec::new(alloc);
    let mut rest = text;
    for slot in 0..MAX_SLOTS {
        if rest.is_empty() {
            return Ok(notes);
        }
        match taken_at(line, slot, rest)? {
            Some((note, more)) => {
                if notes.push(note).is_err() {
                    return Err(NotesError::Memory);
                }
                rest = more;
            }
            None => return Err(NotesError::Form { line: slot + 2 }),
        }
    }
    if rest.is_empty() {
        Ok(notes)
    } else {
        Err(NotesError::Form {
            line: MAX_SLOTS + 2,
        })
    }
}

/// The notes of a text, and of which runs they speak. It is refused at its first line that isn't one of notes.
pub fn read(alloc: Global, text: &[u8]) -> Result<NotesOfRuns, NotesError>
    // What is read is spelled so.
    ensures found { IfOk result (λ r. text.now ≡ notes_text r.runs r.notes.items) }
    ensures whole { IfOk result (λ r. AllByRecursion WholeIfAny r.notes.items) }
    // What is spelled so is read, unless memory runs out.
    ensures only { (runs : Bounds) (notes : List (Option Note)) → RunsFit runs → AreNotes notes → text.now ≡ notes_text runs notes → AreRead runs notes result }
    ensures err { IfErr result (IsRefused text.now) }
{
    let mut line = Vec::new(alloc);
    let Some((runs, rest)) = head_in(&mut line, text)? else {
        return Err(NotesError::Form { line: 1 });
    };
    match lines_in(alloc, &mut line, rest) {
        Ok(notes) => Ok(NotesOfRuns { runs, notes }),
        Err(error) => Err(error),
    }
}
