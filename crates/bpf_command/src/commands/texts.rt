//! Texts that go to names of their own behind an image: those of notes and of changes.

ghost use Rattle.std.specs.Prelude.{◌≡◌, IfOk, IfErr, IfSome};
ghost use Rattle.bpf_follows.specs.NotesText.{notes_text};
ghost use Rattle.bpf_answers.specs.Made.{making};
ghost use Rattle.bpf_command.specs.Texts.{PutTexts, TextsFail, beside_texts, named};

use crate::commands::changes::changes_text;
use crate::request::Hardening;
use bpf_answers::{Content, DONE, Failure, Places, put};
use bpf_follows::write;
use bpf_harden::Hardened;
use bpf_kept::{Bounds, Note};
use std::alloc::{AllocError, Global};

/// The text of notes and that of the changes, each empty where no name for it is given.
#[derive(Drop)]
pub(super) struct SideTexts {
    pub(super) notes: Vec<u8>,
    pub(super) changes: String,
}

/// The text of notes for these runs, if a name for it is given.
pub(super) fn text_of(
    alloc: Global,
    asked: Hardening<'_>,
    runs: Bounds,
    notes: &[Option<Note>],
) -> Result<Vec<u8>, AllocError>
    ensures { IfOk result (λ text. IfSome asked.entry.notes (λ _. text.items ≡ notes_text runs notes.now)) }
{
    match asked.notes {
        Some(_name) => write(alloc, runs, notes),
        None => Ok(Vec::new(alloc)),
    }
}

/// The text of the changes, if a name for it is given.
pub(super) fn changes_of(
    alloc: Global,
    asked: Hardening<'_>,
    hardened: &Hardened,
) -> Result<String, AllocError> {
    match asked.changes {
        Some(_name) => changes_text(alloc, hardened),
        None => Ok(String::new(alloc)),
    }
}

/// Puts content at a name, if one is given.
pub(super) fn put_if<'a, P: Places, C: Content>(
    places: &mut P,
    name: Option<&'a str>,
    content: &C,
) -> Result<u8, Failure<'a>>
    ensures ok { IfOk result (PutTexts (making P.creates P.ends P.Writer.contents) places.old (named name.entry (C.bytes content.now)) places.new) }
    ensures err { IfErr result (TextsFail (making P.creates P.ends P.Writer.contents) places.old (named name.entry (C.bytes content.now)) places.new) }
{
    match name {
        Some(name) => put(places, name, content),
        None => Ok(DONE),
    }
}

/// Writes the texts, each where a name for it is given: that of the notes, and then that of the changes.
pub(super) fn put_beside<'a, P: Places>(
    places: &mut P,
    asked: Hardening<'a>,
    beside: &SideTexts,
) -> Result<u8, Failure<'a>>
    ensures ok { IfOk result (PutTexts (making P.creates P.ends P.Writer.contents) places.old (beside_texts asked.entry beside.now) places.new) }
    ensures err { IfErr result (TextsFail (making P.creates P.ends P.Writer.contents) places.old (beside_texts asked.entry beside.now) places.new) }
{
    put_if(places, asked.notes, &beside.notes)?;
    put_if(places, asked.changes, &beside.changes)
}
