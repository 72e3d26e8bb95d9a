//! The lines of a text and their parts.

ghost use Rattle.std.specs.Prelude.{◌≡◌, ℕ, ◌+◌, ◌<◌, ◌≤◌, option_map, OnOk, map, ◌++◌, length, Ok, Some};
ghost use Rattle.bpf_text.specs.code.WordReading.{skip_blanks};
ghost use Rattle.bpf_text.specs.Sources.{before};
ghost use Rattle.bpf_text.specs.Stop.{IsUnlabelled};
ghost use Rattle.bpf_text.specs.code.LineReading.{behind_it, label_in, last_part, parts_of, said_in, line_in};
ghost use Rattle.bpf_text.specs.code.Seen.{line_seen, label_seen, size_left};

use crate::statement::{Statement, is_name, statement_of};
use crate::token::{skip_blanks, word};

/// The text in front of the first such byte, and what stands behind it, if it is there.
fn cut(text: &[u8], mark: u8) -> (&[u8], Option<&[u8]>)
    ensures front { result.0.now ≡ before mark text.now }
    ensures rest { option_map (λ x. x.now) result.1 ≡ behind_it mark text.now }
    ensures sizes { length result.0.now + size_left (option_map (λ x. x.now) result.1) ≡ length text.now }
{
    let mut count = 0;
    'front: while count < text.len() && text[count] != mark {
        count += 1;
    }
    let rest = if count < text.len() {
        Some(&text[count + 1..])
    } else {
        None
    };
    (&text[..count], rest)
}

/// The text in front of the first comment or line end, and the rest from there on.
fn split_code(text: &[u8]) -> (&[u8], &[u8])
    ensures front { result.0.now ≡ before 59 (before 10 text.now) }
    ensures rest { behind_it 10 result.1.now ≡ behind_it 10 text.now }
    ensures sizes { length result.0.now + length result.1.now ≡ length text.now }
{
    let mut count = 0;
    'code: while count < text.len() && text[count] != b'\n' && text[count] != b';' {
        count += 1;
    }
    text.split_at(count)
}

/// The first line without its comment, and what stands behind its end, if that is there.
pub fn cut_line(text: &[u8]) -> (&[u8], Option<&[u8]>)
    ensures front { result.0.now ≡ before 59 (before 10 text.now) }
    ensures rest { option_map (λ x. x.now) result.1 ≡ behind_it 10 text.now }
    ensures sizes { length result.0.now + size_left (option_map (λ x. x.now) result.1) ≤ length text.now }
{
    let (code, rest) = split_code(text);
    let (_, more) = cut(rest, b'\n');
    (code, more)
}

/// What stands behind the end of a line, if that is there.
pub fn behind_line(text: &[u8]) -> Option<&[u8]>
    ensures { option_map (λ x. x.now) result ≡ behind_it 10 text.now }
{
    cut(text, b'\n').1
}

/// The name of a label, with nothing but blanks about it.
#[tactic(auto, unfolding(crate::specs::code::LineReading::label_in))]
pub fn label_name(part: &[u8]) -> Option<&[u8]>
    ensures { option_map (λ x. x.now) result ≡ label_in part.now }
{
    let (name, rest) = word(part)?;
    if is_name(name) && skip_blanks(rest).is_empty() {
        Some(name)
    } else {
        None
    }
}

/// A label: its name, the slot of the next instruction, and its line, counted from 1.
#[derive(Clone, Copy)]
pub struct Label<'a> {
    pub name: &'a [u8],
    pub slot: usize,
    pub line: usize,
}

/// Why a line by itself is refused.
#[derive(Clone, Copy)]
pub enum LineFault {
    NoForm,
    OutOfRange,
}

/// What stands behind the labels of a line; None where what stands in front of a colon is no label.
fn behind_labels(line: &[u8]) -> Option<&[u8]>
    ensures { option_map (λ x. x.now) result ≡ last_part (parts_of line.now) }
{
    let mut rest = line;
    'labels: loop {
        let (part, more) = cut(rest, b':');
        let Some(more) = more else {
            return Some(rest);
        };
        label_name(part)?;
        rest = more;
    }
}

/// What stands behind the labels that a line begins with, each with its colon.
pub fn unlabelled(line: &[u8]) -> &[u8]
    ensures { IsUnlabelled line.now result.now }
{
    let mut rest = line;
    'labels: loop {
        let (part, more) = cut(rest, b':');
        let Some(more) = more else {
            return rest;
        };
        let Some(_) = label_name(part) else {
            return rest;
        };
        rest = more;
    }
}

/// What stands behind the labels of a line: nothing but blanks, or a statement.
pub fn said(part: &[u8]) -> Result<Option<Statement<'_>>, LineFault>
    ensures { line_seen result ≡ said_in part.now (skip_blanks part.now) }
{
    if skip_blanks(part).is_empty() {
        return Ok(None);
    }
    match statement_of(part) {
        None => Err(LineFault::NoForm),
        Some(None) => Err(LineFault::OutOfRange),
        Some(Some(statement)) => Ok(Some(statement)),
    }
}

/// What a line without its comment says behind its labels.
#[tactic(auto, unfolding(crate::specs::code::LineReading::line_in))]
pub fn statement_in(line: &[u8]) -> Result<Option<Statement<'_>>, LineFault>
    ensures { line_seen result ≡ line_in line.now }
{
    match behind_labels(line) {
        None => Err(LineFault::NoForm),
        Some(part) => said(part),
    }
}
