//! Programs, notes and what is shown of them: each line sets something for the later ones, or asks, and is answered.
//!
//! `old ORDER INSN ; INSN ..` and `new ORDER INSN ; INSN ..` set a program, in `little` or `big`. `none` takes all notes away, and `none SLOT` that of
//! a new slot. `note SLOT OLD EXTRAS ITEM ..` notes something. `apart N` is a slot of the frame with something else, `zero N` one in which the old
//! program has 0, and `counts PLACE HEAD TAKEN` a counter. `back` and a fact, once or twice, say what the function gives back (else r0 is the same),
//! `spare N` what it never does, and `barred N` what r0 isn't. Four other words are a fact: a new place, an old one, how often the frame's start is taken
//! away (`low`: the low halves are the same), and what is added. A place is a register, or `s` and a slot of the frame, or `len`, the packet's length.
//! `0` in place of one is the number 0, and `m` is 2^63.
//!
//! `certificate TEXT` sets a certificate, with `|` for LF. `follows LENGTH TURNS UNTOUCHED` is answered: `yes`, or `no` with the number of what fails
//! beside that certificate, and `at SLOT` where it is a new slot's. A last word `padded` says that contexts are blocks.
//!
//! `written LENGTH TURNS UNTOUCHED` is answered by the text of the notes, with `|` for LF. `reads TEXT` is answered by how many notes a text has, and
//! whether it is the one that is written for them, or by the number and the line of the refusal. A line `# ..` is written as it is.

use crate::words::number_of;
use bpf_cert::{Certificate, read as read_certificate};
use bpf_follows::{follows, read as read_notes, write as write_notes};
use bpf_insn::{Order, Program, Reg};
use bpf_kept::{
    BACK, Bounds, COUNTERS, FACTS, Fact, Holder, Mismatch, Note, SLOTS, Term, TurnsLeft,
};
use bpf_text::assemble;
use std::alloc::Global;
use std::io::{self, Write};
use std::str::SplitWhitespace;

/// How many notes there may be.
const NOTES: u32 = 256;

/// That 0 is 0.
const NOTHING: Fact = Fact {
    of: None,
    base: None,
    by: Some(Term {
        frames: 0,
        moved: 0,
    }),
};

/// That r0 is the same.
const SAME: Fact = Fact {
    of: Some(Holder::Register(Reg::R0)),
    base: Some(Holder::Register(Reg::R0)),
    by: Some(Term {
        frames: 0,
        moved: 0,
    }),
};

/// What was set so far.
#[derive(Drop)]
pub struct Session {
    old: Option<Program>,
    new: Option<Program>,
    notes: Vec<Option<Note>>,
    certificate: Option<Certificate>,
}

// ---- words

/// What is added: `m` is 2^63, and a number may be below 0.
fn moved_of(word: Option<&str>) -> u64 {
    match word {
        Some("m") => 1 << 63,
        Some(word) => match word.parse::<u64>() {
            Ok(moved) => moved,
            Err(_) => word.parse::<i64>().unwrap_or(0).cast_unsigned(),
        },
        None => 0,
    }
}

/// A register, or None.
fn register_of(word: Option<&str>) -> Option<Reg> {
    match word {
        Some("r0") => Some(Reg::R0),
        Some("r1") => Some(Reg::R1),
        Some("r2") => Some(Reg::R2),
        Some("r3") => Some(Reg::R3),
        Some("r4") => Some(Reg::R4),
        Some("r5") => Some(Reg::R5),
        Some("r6") => Some(Reg::R6),
        Some("r7") => Some(Reg::R7),
        Some("r8") => Some(Reg::R8),
        Some("r9") => Some(Reg::R9),
        Some("r10") => Some(Reg::R10),
        _ => None,
    }
}

/// The packet's length, a slot of the frame, or None.
fn place_of(word: &str) -> Option<Holder> {
    if word == "len" {
        return Some(Holder::Length);
    }
    match word.strip_prefix("s") {
        Some(slot) => Some(Holder::Slot(slot.parse::<u8>().unwrap_or(0))),
        None => None,
    }
}

/// A register, a slot of the frame, the packet's length, or None.
fn holder_of(word: Option<&str>) -> Option<Holder> {
    match register_of(word) {
        Some(r) => Some(Holder::Register(r)),
        None => place_of(word?),
    }
}

/// What differs: a term, or nothing in the low halves.
fn term_of(words: &mut SplitWhitespace<'_>) -> Option<Term> {
    let frames = words.next();
    let moved = words.next();
    match frames {
        Some("low") => None,
        frames => Some(Term {
            frames: moved_of(frames),
            moved: moved_of(moved),
        }),
    }
}

/// The next fact, counter or fact of what the function gives back is put in the first place that is left.
#[derive(Drop)]
struct NextPlaces {
    facts: usize,
    counters: usize,
    back: usize,
}

/// Notes that a slot of the frame is so.
fn mark(slots: &mut [bool; SLOTS], word: Option<&str>) {
    if let Some(slot) = slots.get_mut(number_of(word) as usize) {
        *slot = true;
    }
}

/// Notes a counter.
fn note_counter(note: &mut Note, place: usize, words: &mut SplitWhitespace<'_>) {
    let of = holder_of(words.next()).unwrap_or(Holder::Slot(0));
    let head = number_of(words.next());
    let taken = number_of(words.next());
    if let Some(counter) = note.counters.get_mut(place) {
        *counter = Some(TurnsLeft { of, head, taken });
    }
}

/// The fact that four words say.
fn fact_of(words: &mut SplitWhitespace<'_>) -> Fact {
    Fact {
        of: holder_of(words.next()),
        base: holder_of(words.next()),
        by: term_of(words),
    }
}

/// Notes a fact, whose first word is there.
fn note_fact(note: &mut Note, place: usize, of: &str, words: &mut SplitWhitespace<'_>) {
    let noted = Fact {
        of: holder_of(Some(of)),
        base: holder_of(words.next()),
        by: term_of(words),
    };
    if let Some(fact) = note.facts.get_mut(place) {
        *fact = noted;
    }
}

/// Notes what the function gives back: nothing else than what is said.
fn note_back(note: &mut Note, place: usize, fact: Fact) {
    if place == 0 {
        note.back = [NOTHING; BACK];
    }
    if let Some(back) = note.back.get_mut(place) {
        *back = fact;
    }
}

/// A note of the old slot and the extras that words begin with, and of nothing else.
fn blank_note(words: &mut SplitWhitespace<'_>) -> Note {
    Note {
        old: number_of(words.next()),
        extras: number_of(words.next()),
        apart: [false; SLOTS],
        zeros: [false; SLOTS],
        facts: [NOTHING; FACTS],
        counters: [None; COUNTERS],
        back: [SAME, NOTHING],
        spare: None,
        barred: None,
    }
}

/// The note that words say.
fn note_of(words: &mut SplitWhitespace<'_>) -> Note {
    let mut note = blank_note(words);
    let mut places = NextPlaces {
        facts: 0,
        counters: 0,
        back: 0,
    };
    for _ in 0..NOTES {
        match words.next() {
            None => break,
            Some("apart") => mark(&mut note.apart, words.next()),
            Some("zero") => mark(&mut note.zeros, words.next()),
            Some("spare") => note.spare = Some(moved_of(words.next())),
            Some("barred") => note.barred = Some(moved_of(words.next())),
            Some("back") => {
                note_back(&mut note, places.back, fact_of(words));
                places.back = places.back.saturating_add(1);
            }
            Some("counts") => {
                note_counter(&mut note, places.counters, words);
                places.counters = places.counters.saturating_add(1);
            }
            Some(of) => {
                note_fact(&mut note, places.facts, of, words);
                places.facts = places.facts.saturating_add(1);
            }
        }
    }
    note
}

/// Of which runs it is asked.
fn bounds_of(words: &mut SplitWhitespace<'_>) -> Bounds {
    let length = number_of(words.next());
    let turns = u64::from(number_of(words.next()));
    let untouched = number_of(words.next());
    let padded = words.next() == Some("padded");
    Bounds {
        length,
        padded,
        turns,
        untouched,
    }
}

/// The program that words say, its instructions with `;` between them.
fn program_of(alloc: Global, words: &mut SplitWhitespace<'_>) -> io::Result<Option<Program>> {
    let order = match words.next() {
        Some("big") => Order::Big,
        _ => Order::Little,
    };
    let mut text = String::new(alloc);
    for word in words {
        text.push_str(if word == ";" { "\n" } else { word })?;
        text.push_str(" ")?;
    }
    Ok(assemble(alloc, &text, order).ok())
}

/// The text that a line holds behind its first word, with LF for each `|`.
fn text_of(alloc: Global, line: &str, word: &str) -> io::Result<Vec<u8>> {
    let said = line.strip_prefix(word).unwrap_or("").trim_start();
    let mut text = Vec::new(alloc);
    for byte in said.as_bytes() {
        text.push(if *byte == b'|' { b'\n' } else { *byte })?;
    }
    Ok(text)
}

// ---- lines

impl Session {
    /// Nothing is set.
    pub fn new(alloc: Global) -> Session {
        Session {
            old: None,
            new: None,
            notes: Vec::new(alloc),
            certificate: None,
        }
    }

    /// Notes something of a new slot.
    fn note(&mut self, slot: u32, note: Option<Note>) -> io::Result<()> {
        for _ in 0..NOTES {
            if self.notes.len() > slot as usize {
                break;
            }
            self.notes.push(None)?;
        }
        if let Some(place) = self.notes.get_mut(slot as usize) {
            *place = note;
        }
        Ok(())
    }

    /// Whether the notes show that the new program keeps the meaning.
    fn shown(&self, bounds: Bounds) -> Option<Result<(), Mismatch>> {
        let old = self.old.as_ref()?;
        let new = self.new.as_ref()?;
        let certificate = self.certificate.as_ref()?;
        Some(follows(old, new, &self.notes, certificate, bounds))
    }
}

/// Writes an answer.
fn tell(out: &mut impl Write, shown: Option<Result<(), Mismatch>>) -> io::Result<()> {
    match shown {
        None => write!(out, "no programs, or no certificate\n"),
        Some(Ok(())) => write!(out, "yes\n"),
        Some(Err(mismatch)) => {
            let number = mismatch.number();
            match mismatch {
                Mismatch::At { slot, .. } => write!(out, "no {number} at {slot}\n"),
                _ => write!(out, "no {number}\n"),
            }
        }
    }
}

/// Writes the text of notes in one line.
fn tell_text(out: &mut impl Write, text: &[u8]) -> io::Result<()> {
    for byte in text {
        let told = if *byte == b'\n' { b'|' } else { *byte };
        out.write_all(&[told])?;
    }
    out.write_all(b"\n")
}

/// Reads a text of notes, and writes what that is.
fn tell_read(alloc: Global, out: &mut impl Write, text: &[u8]) -> io::Result<()> {
    match read_notes(alloc, text) {
        Ok(read) => {
            let again = write_notes(alloc, read.runs, &read.notes)?;
            let is_same = again.as_slice() == text;
            let count = read.notes.len();
            let told = if is_same {
                "the same text"
            } else {
                "another text"
            };
            write!(out, "{count} notes, {told}\n")
        }
        Err(refusal) => {
            let number = refusal.number();
            let line = refusal.line();
            write!(out, "N{number} at {line}\n")
        }
    }
}

/// Does what a line says.
pub fn heed(
    alloc: Global,
    out: &mut impl Write,
    session: &mut Session,
    line: &str,
) -> io::Result<()> {
    let mut words = line.split_whitespace();
    match words.next() {
        Some("old") => session.old = program_of(alloc, &mut words)?,
        Some("new") => session.new = program_of(alloc, &mut words)?,
        Some("note") => {
            let slot = number_of(words.next());
            session.note(slot, Some(note_of(&mut words)))?;
        }
        Some("none") => match words.next() {
            Some(slot) => session.note(number_of(Some(slot)), None)?,
            None => session.notes.clear(),
        },
        Some("certificate") => {
            let text = text_of(alloc, line, "certificate")?;
            session.certificate = read_certificate(alloc, text.as_slice()).ok();
        }
        Some("follows") => tell(out, session.shown(bounds_of(&mut words)))?,
        Some("written") => {
            let text = write_notes(alloc, bounds_of(&mut words), &session.notes)?;
            tell_text(out, &text)?;
        }
        Some("reads") => {
            let text = text_of(alloc, line, "reads")?;
            tell_read(alloc, out, &text)?;
        }
        _ => write!(out, "{line}\n")?,
    }
    Ok(())
}
