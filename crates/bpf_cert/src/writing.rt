//! Writing a certificate.

ghost use Rattle.std.specs.Prelude.{◌≡◌, ◌≤◌, ◌<◌, ◌∷◌, [], ℕ, drop, map, flat_map, get_or};
ghost use Rattle.bpf_cert.specs.Written.{Puts, Writes};
ghost use Rattle.bpf_cert.specs.View.{function_view, label_view};
ghost use Rattle.bpf_state.specs.declared.known.SlotState.TheVariants.{Bytes};
ghost use Rattle.bpf_cert.specs.Line.Line.{entry};
ghost use Rattle.bpf_cert.specs.Spelling.{content_of, spelled_place, place_at, contents, entry_lines, lines_from, lines_text, label_lines, function_lines, body_lines, certificate_text};

use crate::certificate::{Certificate, Function, Label};
use crate::spelling::{entry_text, function_text, header_text, label_text};
use bpf_insn::Reg;
use bpf_insn::written::Pending;
use bpf_state::{Entries, Place, SlotState, value_slot};
use std::io::{self, Write};

// All the bytes, by one clause for both ends.
fn put_bytes<W: Write>(pending: &mut Pending, out: &mut W, bytes: &[u8]) -> io::Result<()>
    ensures { Puts (W.contents out.old) (W.contents out.new) pending.old pending.new bytes.now result }
{
    pending.put(out, bytes)
}

// r0 to r9, then s1 to s64.
fn place_at(j: u8) -> Place
    requires { j < 74 }
    ensures { spelled_place result ≡ place_at j }
{
    if j < 10 {
        Place::Register(Reg::numbered(j))
    } else {
        Place::Slot(j - 9)
    }
}

// What it holds, of a register as of a slot.
fn content_at(state: &Entries, j: u8) -> SlotState
    requires { j < 74 }
    ensures { result ≡ get_or (contents state.now) j (Bytes 0) }
{
    state.valid();
    if j < 10 {
        value_slot(state.reg(Reg::numbered(j)))
    } else {
        state.slot(j - 9)
    }
}

// A function of its own, so that no line is cleared for the places that say nothing.
#[inline(never)]
fn put_line<W: Write>(
    pending: &mut Pending,
    out: &mut W,
    place: Place,
    value: SlotState,
) -> io::Result<()>
    ensures { Puts (W.contents out.old) (W.contents out.new) pending.old pending.new (lines_text (entry (spelled_place place) (content_of value) ∷ [])) result }
{
    put_bytes(pending, out, entry_text(place, value).as_slice())
}

#[tactic(auto, using(crate::proofs::WritingLemmas::puts_nothing))]
fn put_entry<W: Write>(
    pending: &mut Pending,
    out: &mut W,
    place: Place,
    value: SlotState,
) -> io::Result<()>
    ensures { Puts (W.contents out.old) (W.contents out.new) pending.old pending.new (lines_text (entry_lines (spelled_place place) value)) result }
{
    match value {
        SlotState::Bytes(0) => Ok(()),
        _ => put_line(pending, out, place, value),
    }
}

// Nothing is known of the places from here on: of the slots, where nothing is known of any.
fn places_said(state: &Entries) -> u8
    ensures most { result ≤ 74 }
    ensures rest { (j : ℕ) → result ≤ j → lines_from j (drop j (contents state.now)) ≡ [] }
{
    state.valid();
    if state.knows_no_slot() { 10 } else { 74 }
}

fn put_entries<W: Write>(pending: &mut Pending, out: &mut W, state: &Entries) -> io::Result<()>
    ensures { Puts (W.contents out.old) (W.contents out.new) pending.old pending.new (lines_text (lines_from 0 (contents state.now))) result }
{
    state.valid();
    for j in 0..places_said(state) {
        put_entry(pending, out, place_at(j), content_at(state, j))?;
    }
    Ok(())
}

fn put_label<W: Write>(pending: &mut Pending, out: &mut W, label: &Label) -> io::Result<()>
    ensures { Puts (W.contents out.old) (W.contents out.new) pending.old pending.new (lines_text (label_lines (label_view label.now))) result }
{
    put_bytes(pending, out, label_text(label).as_slice())?;
    put_entries(pending, out, &label.state)
}

fn put_labels<W: Write>(pending: &mut Pending, out: &mut W, labels: &[Label]) -> io::Result<()>
    ensures { Puts (W.contents out.old) (W.contents out.new) pending.old pending.new (lines_text (flat_map label_lines (map label_view labels.now))) result }
{
    for label in labels {
        put_label(pending, out, label)?;
    }
    Ok(())
}

fn put_function<W: Write>(pending: &mut Pending, out: &mut W, function: &Function) -> io::Result<()>
    ensures { Puts (W.contents out.old) (W.contents out.new) pending.old pending.new (lines_text (function_lines (function_view function.now))) result }
{
    put_bytes(pending, out, function_text(function).as_slice())?;
    put_labels(pending, out, &function.labels)
}

fn put_functions<W: Write>(
    pending: &mut Pending,
    out: &mut W,
    functions: &[Function],
) -> io::Result<()>
    ensures { Puts (W.contents out.old) (W.contents out.new) pending.old pending.new (lines_text (flat_map function_lines (map function_view functions.now))) result }
{
    for function in functions {
        put_function(pending, out, function)?;
    }
    Ok(())
}

fn put_body<W: Write>(pending: &mut Pending, out: &mut W, functions: &[Function]) -> io::Result<()>
    ensures { Puts (W.contents out.old) (W.contents out.new) pending.old pending.new (lines_text (body_lines (map function_view functions.now))) result }
{
    put_functions(pending, out, functions)?;
    put_bytes(pending, out, b"end\n")
}

fn put_certificate<W: Write>(
    pending: &mut Pending,
    out: &mut W,
    certificate: &Certificate,
) -> io::Result<()>
    ensures { Puts (W.contents out.old) (W.contents out.new) pending.old pending.new (certificate_text certificate.now) result }
{
    put_bytes(pending, out, header_text(certificate.header()).as_slice())?;
    put_body(pending, out, certificate.functions())
}

/// Writes the certificate's text, in pieces of 4,096 bytes. A fault of the writer, or a write of no bytes, ends it and
/// isn't tried again: what went out is then a beginning of the text. It takes no memory.
pub fn write<W: Write>(certificate: &Certificate, out: &mut W) -> io::Result<()>
    ensures { Writes (W.contents out.old) (W.contents out.new) (certificate_text certificate.now) result }
{
    let mut pending = Pending::new();
    put_certificate(&mut pending, out, certificate)?;
    pending.flush(out)
}
