//! What was done to a program, as text: a line for each function, then one for each change.

use bpf_explain_program::Name;
use bpf_harden::{Change, FunctionNote, Hardened, Note};
use bpf_insn::Reg;
use bpf_state::Place;
use std::alloc::{AllocError, Global};

/// The word for a change.
fn word_of(change: Change) -> &'static str {
    match change {
        Change::Base => "base",
        Change::Length => "length",
        Change::Turns => "turns",
        Change::Zero => "zero",
        Change::Result => "result",
        Change::Handed => "handed",
        Change::Guard => "guard",
        Change::Turn => "turn",
        Change::Save => "save",
        Change::Address => "address",
        Change::Access => "access",
        Change::Widened => "widened",
        Change::Offset => "offset",
        Change::Order => "order",
        Change::Always => "always",
        Change::Returned => "returned",
        Change::Trap => "trap",
    }
}

/// ` base r9`: a place where a function keeps something, if it does.
fn write_kept(text: &mut String, word: &str, place: Option<Place>) -> Result<(), AllocError> {
    match place {
        Some(place) => {
            let name = Name(place);
            write!(text, " {word} {name}")
        }
        None => Ok(()),
    }
}

/// A line such as `fn 0 0 reach 16 base r9`. It tells where a function begins in the old program and in the new one, and how many bytes of its frame it may
/// reach. It tells where the function keeps the context's start and a packet's end, what it is handed, and what its trap answers its caller.
fn write_function(text: &mut String, note: &FunctionNote) -> Result<(), AllocError> {
    let (old, new, reach) = (note.old, note.new, note.reach);
    write!(text, "fn {old} {new} reach {reach}")?;
    write_kept(text, "base", note.base)?;
    write_kept(text, "end", note.end)?;
    let handed: Option<Reg> = note.handed;
    write_kept(text, "handed", handed.map(Place::Register))?;
    if let Some(spare) = note.spare {
        write!(text, " spare {spare}")?;
    }
    text.push_str("\n")
}

/// `12 15 guard`: the slot of the old program, the one in the new program, and what was done.
fn write_change(text: &mut String, note: &Note) -> Result<(), AllocError> {
    let (old, new, word) = (note.old, note.new, word_of(note.change));
    write!(text, "{old} {new} {word}\n")
}

/// The lines of the functions.
fn functions_of(alloc: Global, hardened: &Hardened) -> Result<String, AllocError> {
    let mut text = String::new(alloc);
    for note in &hardened.functions {
        write_function(&mut text, note)?;
    }
    Ok(text)
}

/// What was done to a program, a line each: its functions, and each change; no text where it came out unchanged.
pub fn changes_text(alloc: Global, hardened: &Hardened) -> Result<String, AllocError> {
    let mut text = functions_of(alloc, hardened)?;
    for note in &hardened.notes {
        write_change(&mut text, note)?;
    }
    Ok(text)
}
