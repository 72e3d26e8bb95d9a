//! Spelling notes.

ghost use Rattle.std.specs.Prelude.{◌≡◌, ◌++◌, decimal, IfOk, OnOk, option_copied};
ghost use Rattle.bpf_follows.specs.NotesText.{signed_text, moved_text, term_text, holder_text, by_text, fact_text, place_text, fact_spelled, facts_text, mark_spelled, marks_text, counter_text, counter_spelled, counters_text, extras_text, back_text, number_text, function_text, rest_text, said_text, note_line, padded_text, turns_text, head_line, notes_text};

use crate::far::{HALF, is_far, toggled};
use crate::same::{says_nothing, says_same, says_usual};
use bpf_kept::{BACK, Bounds, COUNTERS, Fact, Holder, Note, SLOTS, Term, TurnsLeft};
use itoa::{Buffer, Integer};
use std::alloc::{AllocError, Global};

/// Puts a word and a number.
#[tactic(auto, using(crate::proofs::Spelled::texts))]
fn put_number<I: Integer>(text: &mut Vec<u8>, word: &[u8], number: I) -> Result<(), AllocError>
    ensures { OnOk result (text.new.items ≡ text.old.items ++ (word.now ++ I.text number)) }
{
    let mut buffer = Buffer::new();
    text.extend_from_slice(word)?;
    text.extend_from_slice(buffer.format(number).as_bytes())
}

/// Puts a word, a place and another word.
#[tactic(auto, using(crate::proofs::Spelled::texts))]
fn put_at(text: &mut Vec<u8>, word: &[u8], at: usize, end: &[u8]) -> Result<(), AllocError>
    ensures { OnOk result (text.new.items ≡ text.old.items ++ (word.now ++ (decimal at ++ end.now))) }
{
    put_number(text, word, at)?;
    text.extend_from_slice(end)
}

/// Puts a register, a slot of the frame, the packet's length, or 0.
#[tactic(auto, using(crate::proofs::Spelled::texts), unfolding(crate::specs::NotesText::holder_text))]
fn put_holder(text: &mut Vec<u8>, holder: Option<Holder>) -> Result<(), AllocError>
    ensures { OnOk result (text.new.items ≡ text.old.items ++ holder_text holder) }
{
    match holder {
        Some(Holder::Register(r)) => put_number(text, b"r", r as u8),
        Some(Holder::Slot(n)) => put_number(text, b"s", n),
        Some(Holder::Length) => text.extend_from_slice(b"length"),
        None => text.extend_from_slice(b"0"),
    }
}

/// Puts a number behind one of two words, if it isn't 0.
#[tactic(auto, using(crate::proofs::Spelled::texts), unfolding(crate::specs::NotesText::signed_text))]
fn put_signed(text: &mut Vec<u8>, plus: &[u8], minus: &[u8], number: u64) -> Result<(), AllocError>
    ensures { OnOk result (text.new.items ≡ text.old.items ++ signed_text plus.now minus.now number) }
{
    if number == 0 {
        Ok(())
    } else if number < HALF {
        put_number(text, plus, number)
    } else {
        put_number(text, minus, u64::MAX - number + 1)
    }
}

/// Puts what is added.
#[tactic(auto, using(crate::proofs::Spelled::texts), unfolding(crate::specs::NotesText::moved_text))]
fn put_moved(text: &mut Vec<u8>, moved: u64) -> Result<(), AllocError>
    ensures { OnOk result (text.new.items ≡ text.old.items ++ moved_text moved) }
{
    if is_far(moved) {
        text.extend_from_slice(b"-context")?;
        put_signed(text, b"+", b"-", toggled(moved))
    } else {
        put_signed(text, b"+", b"-", moved)
    }
}

/// Puts how often the frame's start is taken away, and what is added.
#[tactic(auto, using(crate::proofs::Spelled::texts), unfolding(crate::specs::NotesText::term_text))]
fn put_term(text: &mut Vec<u8>, t: Term) -> Result<(), AllocError>
    ensures { OnOk result (text.new.items ≡ text.old.items ++ term_text t) }
{
    put_signed(text, b"-frame*", b"+frame*", t.frames)?;
    put_moved(text, t.moved)
}

/// Puts by what a place differs from another one.
#[tactic(auto, using(crate::proofs::Spelled::texts), unfolding(crate::specs::NotesText::by_text))]
fn put_by(text: &mut Vec<u8>, base: Option<Holder>, by: Option<Term>) -> Result<(), AllocError>
    ensures { OnOk result (text.new.items ≡ text.old.items ++ by_text base by) }
{
    match by {
        Some(t) => {
            text.extend_from_slice(b"=")?;
            put_holder(text, base)?;
            put_term(text, t)
        }
        None => {
            text.extend_from_slice(b"~")?;
            put_holder(text, base)
        }
    }
}

/// Puts a fact: what holds something, and what that is by the old program, if it isn't the same.
#[tactic(auto, using(crate::proofs::Spelled::texts), unfolding(crate::specs::NotesText::fact_text))]
fn put_held(text: &mut Vec<u8>, fact: Fact) -> Result<(), AllocError>
    ensures { OnOk result (text.new.items ≡ text.old.items ++ fact_text fact) }
{
    put_holder(text, fact.of)?;
    if says_same(fact) {
        Ok(())
    } else {
        put_by(text, fact.base, fact.by)
    }
}

/// Puts what stands in front of a fact: its place, if the one before it says nothing.
#[tactic(auto, using(crate::proofs::Spelled::texts), unfolding(crate::specs::NotesText::place_text))]
fn put_place(text: &mut Vec<u8>, gap: bool, at: usize) -> Result<(), AllocError>
    ensures { OnOk result (text.new.items ≡ text.old.items ++ place_text gap at) }
{
    if gap {
        put_at(text, b" #", at, b":")
    } else {
        text.extend_from_slice(b" ")
    }
}

/// Puts the fact of a place, if it says something.
#[tactic(auto, using(crate::proofs::Spelled::texts), unfolding(crate::specs::NotesText::fact_spelled))]
fn put_fact(text: &mut Vec<u8>, gap: bool, at: usize, fact: Fact) -> Result<(), AllocError>
    ensures { OnOk result (text.new.items ≡ text.old.items ++ fact_spelled gap at fact) }
{
    if says_nothing(fact) {
        return Ok(());
    }
    put_place(text, gap, at)?;
    put_held(text, fact)
}

/// Puts all facts of a list.
fn put_facts(text: &mut Vec<u8>, facts: &[Fact]) -> Result<(), AllocError>
    ensures { OnOk result (text.new.items ≡ text.old.items ++ facts_text facts.now) }
{
    let mut gap = false;
    for at in 0..facts.len() {
        put_fact(text, gap, at, facts[at])?;
        gap = says_nothing(facts[at]);
    }
    Ok(())
}

/// Puts where marks begin, and where they end.
#[tactic(auto, using(crate::proofs::Spelled::texts), unfolding(crate::specs::NotesText::mark_spelled))]
fn put_mark(
    text: &mut Vec<u8>,
    word: &[u8],
    marked: bool,
    at: usize,
    now: bool,
) -> Result<(), AllocError>
    ensures { OnOk result (text.new.items ≡ text.old.items ++ mark_spelled word.now marked at now) }
{
    match (marked, now) {
        (false, true) => put_at(text, word, at, b".."),
        (true, false) => put_number(text, b"<", at),
        _ => Ok(()),
    }
}

/// Puts which slots are marked.
fn put_marks(text: &mut Vec<u8>, word: &[u8], marks: &[bool; SLOTS]) -> Result<(), AllocError>
    ensures { OnOk result (text.new.items ≡ text.old.items ++ marks_text word.now marks.now) }
{
    let mut marked = false;
    for at in 0..SLOTS {
        put_mark(text, word, marked, at, marks[at])?;
        marked = marks[at];
    }
    Ok(())
}

/// Puts what counts turns.
#[tactic(auto, using(crate::proofs::Spelled::texts), unfolding(crate::specs::NotesText::counter_text))]
fn put_turns(text: &mut Vec<u8>, counter: TurnsLeft) -> Result<(), AllocError>
    ensures { OnOk result (text.new.items ≡ text.old.items ++ counter_text counter) }
{
    put_holder(text, Some(counter.of))?;
    put_number(text, b" head ", counter.head)?;
    put_number(text, b" taken ", counter.taken)
}

/// Puts the counter of a place, if there is one.
#[tactic(auto, using(crate::proofs::Spelled::texts), unfolding(crate::specs::NotesText::counter_spelled))]
fn put_counter(text: &mut Vec<u8>, at: usize, counter: Option<TurnsLeft>) -> Result<(), AllocError>
    ensures { OnOk result (text.new.items ≡ text.old.items ++ counter_spelled tt at counter) }
{
    match counter {
        Some(c) => {
            put_at(text, b" counter ", at, b":")?;
            put_turns(text, c)
        }
        None => Ok(()),
    }
}

/// Puts all counters.
fn put_counters(
    text: &mut Vec<u8>,
    counters: &[Option<TurnsLeft>; COUNTERS],
) -> Result<(), AllocError>
    ensures { OnOk result (text.new.items ≡ text.old.items ++ counters_text counters.now) }
{
    for at in 0..COUNTERS {
        put_counter(text, at, counters[at])?;
    }
    Ok(())
}

/// Puts how many extra instructions there are, if there are some.
#[tactic(auto, using(crate::proofs::Spelled::texts), unfolding(crate::specs::NotesText::extras_text))]
fn put_extras(text: &mut Vec<u8>, extras: u32) -> Result<(), AllocError>
    ensures { OnOk result (text.new.items ≡ text.old.items ++ extras_text extras) }
{
    if extras == 0 {
        Ok(())
    } else {
        put_number(text, b" extras ", extras)
    }
}

/// Puts what the function gives back, if that isn't the usual.
#[tactic(auto, using(crate::proofs::Spelled::texts), unfolding(crate::specs::NotesText::back_text))]
fn put_back(text: &mut Vec<u8>, back: &[Fact; BACK]) -> Result<(), AllocError>
    ensures { OnOk result (text.new.items ≡ text.old.items ++ back_text back.now) }
{
    if says_usual(back) {
        return Ok(());
    }
    text.extend_from_slice(b" back")?;
    put_facts(text, back)
}

/// Puts a word and a number, if there is one.
#[tactic(auto, using(crate::proofs::Spelled::texts), unfolding(crate::specs::NotesText::number_text))]
fn put_if_any(text: &mut Vec<u8>, word: &[u8], number: Option<u64>) -> Result<(), AllocError>
    ensures { OnOk result (text.new.items ≡ text.old.items ++ number_text word.now number) }
{
    match number {
        Some(number) => put_number(text, word, number),
        None => Ok(()),
    }
}

/// Puts what is said of the function.
#[tactic(auto, using(crate::proofs::Spelled::texts))]
fn put_function(text: &mut Vec<u8>, note: &Note) -> Result<(), AllocError>
    ensures { OnOk result (text.new.items ≡ text.old.items ++ function_text note.now) }
{
    put_back(text, &note.back)?;
    put_if_any(text, b" spare ", note.spare)?;
    put_if_any(text, b" barred ", note.barred)
}

/// Puts what is said of slots of the frame, of turns, and of the function.
#[tactic(auto, using(crate::proofs::Spelled::texts))]
fn put_rest(text: &mut Vec<u8>, note: &Note) -> Result<(), AllocError>
    ensures { OnOk result (text.new.items ≡ text.old.items ++ rest_text note.now) }
{
    put_marks(text, b" apart ", &note.apart)?;
    put_marks(text, b" zeros ", &note.zeros)?;
    put_counters(text, &note.counters)?;
    put_function(text, note)
}

/// Puts what is noted of a slot.
#[tactic(auto, using(crate::proofs::Spelled::texts), unfolding(crate::specs::NotesText::said_text))]
fn put_note(text: &mut Vec<u8>, note: &Note) -> Result<(), AllocError>
    ensures { OnOk result (text.new.items ≡ text.old.items ++ said_text note.now) }
{
    put_number(text, b" old ", note.old)?;
    put_extras(text, note.extras)?;
    put_facts(text, &note.facts)?;
    put_rest(text, note)
}

/// Puts the line of a slot.
#[tactic(auto, using(crate::proofs::Spelled::texts), unfolding(crate::specs::NotesText::note_line, crate::specs::NotesText::note_text))]
pub fn put_line(text: &mut Vec<u8>, slot: usize, note: Option<&Note>) -> Result<(), AllocError>
    ensures { OnOk result (text.new.items ≡ text.old.items ++ note_line slot (option_copied note.entry)) }
{
    put_number(text, b"", slot)?;
    match note {
        Some(note) => put_note(text, note)?,
        None => text.extend_from_slice(b" none")?,
    }
    text.extend_from_slice(b"\n")
}

/// Puts the end of the first line.
#[tactic(auto, using(crate::proofs::Spelled::texts))]
fn put_padded(text: &mut Vec<u8>, padded: bool) -> Result<(), AllocError>
    ensures { OnOk result (text.new.items ≡ text.old.items ++ padded_text padded) }
{
    if padded {
        text.extend_from_slice(b" padded\n")
    } else {
        text.extend_from_slice(b"\n")
    }
}

/// Puts what the first line says of turns and frames.
#[tactic(auto, using(crate::proofs::Spelled::texts))]
fn put_turns_of(text: &mut Vec<u8>, runs: Bounds) -> Result<(), AllocError>
    ensures { OnOk result (text.new.items ≡ text.old.items ++ turns_text runs) }
{
    put_number(text, b" turns ", runs.turns)?;
    put_number(text, b" untouched ", runs.untouched)?;
    put_padded(text, runs.padded)
}

/// Puts the first line.
#[tactic(auto, using(crate::proofs::Spelled::texts), unfolding(crate::specs::NotesText::head_line))]
pub fn put_head(text: &mut Vec<u8>, runs: Bounds) -> Result<(), AllocError>
    ensures { OnOk result (text.new.items ≡ text.old.items ++ head_line runs) }
{
    put_number(text, b"bpfnotes 2 length ", runs.length)?;
    put_turns_of(text, runs)
}

/// The one text of notes: a line for the runs of which they speak, and a line for each slot of the new program.
pub fn write(alloc: Global, runs: Bounds, notes: &[Option<Note>]) -> Result<Vec<u8>, AllocError>
    ensures { IfOk result (λ text. text.items ≡ notes_text runs notes.now) }
{
    let mut text = Vec::new(alloc);
    put_head(&mut text, runs)?;
    for slot in 0..notes.len() {
        put_line(&mut text, slot, notes[slot].as_ref())?;
    }
    Ok(text)
}
