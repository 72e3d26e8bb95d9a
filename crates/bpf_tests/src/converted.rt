//! Filters converted and run on packets, beside what libpcap's `bpf_filter` and the kernel's seccomp answer: the wanted output is theirs.
//!
//! Each line is a case: `blocks`, `plain`, `seccomp` or `extended`, the length of contexts, behind a slash how often a
//! run may jump back, if that isn't usual, the text of a filter with `/`
//! for the end of a line and `,` for a space, and packets in hex, `none` for an empty one; with `extended` each packet stands behind the 64
//! bytes of the words. The line that answers it has `yes` where the checker takes the
//! certificate, and then what the program ends with on each packet; else the number of the refusal, as `B5 at 3`.

ghost use Rattle.std.specs.Prelude.{◌≤◌, IfOk, IfSome, length};
ghost use Rattle.bpf_insn.specs.Limits.{max_context};
ghost use Rattle.bpf_conversion.specs.Claim.{IsConversion};

use crate::words::number_of;
use bpf_check::check;
use bpf_classic::{
    Converted, Filter, FilterRefusal, Form, Kind, Raw, TextFault, Wanted, convert, raws_of,
    usual_turns,
};
use bpf_conversion::certificate;
use bpf_insn::{MAX_CONTEXT, Order};
use bpf_machine::{Outcome, run};
use std::alloc::{AllocError, Global};
use std::io::{self, Write};
use std::str::SplitWhitespace;

/// How many steps a program may make.
const STEPS: u64 = 100_000;

/// The bytes of the words of Linux's auxiliary data.
const WORDS: usize = 64;

/// What a line asks for.
#[derive(Clone, Copy)]
struct FilterCase<'a> {
    form: Form,
    /// The length of the contexts in bytes.
    length: u32,
    /// How often a run may jump back.
    turns: u16,
    filter: &'a str,
}

/// A length, and how often a run may jump back.
fn length_and_turns(form: Form, word: Option<&str>) -> (u32, u16)
    ensures { result.0 ≤ max_context }
{
    let (length, turns) = match word {
        Some(word) => match word.split_once('/') {
            Some((length, turns)) => (Some(length), Some(turns)),
            None => (Some(word), None),
        },
        None => (None, None),
    };
    let length = number_of(length).min(MAX_CONTEXT as u32);
    match turns {
        Some(turns) => (length, number_of(Some(turns)).min(u16::MAX as u32) as u16),
        None => (length, usual_turns(form, length)),
    }
}

impl<'a> FilterCase<'a> {
    /// The case that words begin with.
    fn of(words: &mut SplitWhitespace<'a>) -> FilterCase<'a> {
        let form = match words.next() {
            Some("plain") => Form::Plain,
            Some("seccomp") => Form::Seccomp,
            Some("extended") => Form::Extended,
            _ => Form::Blocks,
        };
        let (length, turns) = length_and_turns(form, words.next());
        FilterCase {
            form,
            length,
            turns,
            filter: words.next().unwrap_or(""),
        }
    }
}

/// The text of a filter, with its lines apart.
fn text_of(alloc: Global, word: &str) -> Result<Vec<u8>, AllocError> {
    let mut text = Vec::new(alloc);
    for byte in word.as_bytes() {
        text.push(if *byte == b'/' { b'\n' } else { *byte })?;
    }
    Ok(text)
}

/// Why there is no program.
enum NotConverted {
    Memory,
    Text(TextFault),
    Filter(FilterRefusal),
}

fn raws_of_word(alloc: Global, word: &str) -> Result<Vec<Raw>, NotConverted> {
    let Ok(text) = text_of(alloc, word) else {
        return Err(NotConverted::Memory);
    };
    match raws_of(alloc, &text) {
        Ok(raws) => Ok(raws),
        Err(fault) => Err(NotConverted::Text(fault)),
    }
}

/// The program of a case.
fn converted(alloc: Global, case: FilterCase<'_>) -> Result<Converted, NotConverted>
    ensures { IfOk result IsConversion }
{
    let raws = raws_of_word(alloc, case.filter)?;
    let kind = match case.form {
        Form::Seccomp => Kind::Seccomp,
        Form::Extended => Kind::Extended,
        Form::Blocks | Form::Plain => Kind::Packets,
    };
    let filter = match Filter::new(alloc, kind, &raws) {
        Ok(filter) => filter,
        Err(refusal) => return Err(NotConverted::Filter(refusal)),
    };
    let wanted = Wanted {
        form: case.form,
        length: case.length.min(MAX_CONTEXT as u32),
        order: Order::Little,
        turns: case.turns,
    };
    match convert(alloc, &filter, wanted) {
        Ok(converted) => Ok(converted),
        Err(refusal) => Err(NotConverted::Filter(refusal)),
    }
}

/// Writes why there is no program.
fn tell_stop(out: &mut impl Write, stop: NotConverted) -> io::Result<()> {
    match stop {
        NotConverted::Memory => write!(out, "no memory"),
        NotConverted::Text(TextFault::Row { line }) => write!(out, "B8 at line {line}"),
        NotConverted::Text(TextFault::Count { said, found, .. }) => write!(
            out,
            "B8 {said} and {found}"
        ),
        NotConverted::Text(TextFault::Part { at }) => write!(out, "B8 in {at}"),
        NotConverted::Text(TextFault::Memory) => write!(out, "B9"),
        NotConverted::Filter(refusal) => {
            let number = refusal.number();
            match refusal {
                FilterRefusal::Instruction { at, .. } => write!(out, "B{number} at {at}"),
                FilterRefusal::Length | FilterRefusal::Memory | FilterRefusal::Unshown => {
                    write!(out, "B{number}")
                }
            }
        }
    }
}

/// Writes whether the checker takes the certificate.
fn tell_checked(alloc: Global, out: &mut impl Write, converted: &Converted) -> io::Result<()>
    requires { IsConversion converted.now }
{
    let Ok(certificate) = certificate(alloc, converted) else {
        return write!(out, "no certificate");
    };
    match check(converted.program(), &certificate) {
        Ok(_) => write!(out, "yes"),
        Err(refusal) => write!(out, "{refusal}"),
    }
}

/// Writes what a run ended with.
fn tell_end(out: &mut impl Write, outcome: Outcome) -> io::Result<()> {
    match outcome {
        Outcome::Done { value, .. } => write!(out, " {value}"),
        Outcome::Fault { reason, .. } => {
            let number = reason.number();
            write!(out, " F{number}")
        }
        Outcome::OutOfFuel => write!(out, " on"),
    }
}

/// The context that holds a packet, or none where the word isn't one.
fn context_of(alloc: Global, case: FilterCase<'_>, word: &str) -> Option<Vec<u8>>
    ensures { IfSome result (λ context. length context.items ≤ max_context) }
{
    let text = if word == "none" { "" } else { word };
    let Ok(packet) = hex::decode(alloc, text) else {
        return None;
    };
    let Ok(context) = filled(alloc, case, &packet) else {
        return None;
    };
    if context.len() <= MAX_CONTEXT {
        Some(context)
    } else {
        None
    }
}

/// A context of the case's length: the packet's length in front of a block, as much of the packet as there is room for, zeros.
fn filled(alloc: Global, case: FilterCase<'_>, packet: &[u8]) -> Result<Vec<u8>, AllocError> {
    let mut context = Vec::new(alloc);
    let words = if matches!(case.form, Form::Extended) {
        WORDS
    } else {
        0
    };
    if matches!(case.form, Form::Blocks | Form::Extended) {
        for byte in (packet.len().saturating_sub(words) as u64).to_le_bytes() {
            context.push(byte)?;
        }
    }
    for byte in packet {
        if context.len() < case.length as usize {
            context.push(*byte)?;
        }
    }
    for _ in 0..case.length {
        if context.len() < case.length as usize {
            context.push(0)?;
        }
    }
    Ok(context)
}

/// Answers a line.
pub fn answer(alloc: Global, out: &mut impl Write, line: &str) -> io::Result<()> {
    let mut words = line.split_whitespace();
    let case = FilterCase::of(&mut words);
    let converted = match converted(alloc, case) {
        Ok(converted) => converted,
        Err(stop) => return tell_stop(out, stop),
    };
    tell_checked(alloc, out, &converted)?;
    for word in words {
        match context_of(alloc, case, word) {
            Some(context) => tell_end(out, run(converted.program(), &context, STEPS))?,
            None => write!(out, " no packet")?,
        }
    }
    Ok(())
}
