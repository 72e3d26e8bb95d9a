//! The first line of a text, read once.

ghost use Rattle.std.specs.Prelude.{◌≡◌, ◌++◌, IfOk, OnOk, option_map, map};
ghost use Rattle.bpf_text.specs.code.WordReading.{behind_first};
ghost use Rattle.bpf_text.specs.code.LineReading.{IsParted, IsLonger, behind_it, code_of, line_in, labels_at};
ghost use Rattle.bpf_text.specs.code.Seen.{line_seen, label_seen};

use crate::line::{Label, LineFault, label_name, said};
use crate::statement::Statement;
use memchr::memchr3;
use std::alloc::AllocError;

/// A line that was read.
#[derive(Clone, Copy)]
pub struct LineRead<'a> {
    /// What it says behind its labels.
    pub said: Result<Option<Statement<'a>>, LineFault>,
    /// The text from where it ends on, or from where its reading stopped.
    pub rest: &'a [u8],
}

/// The text in front of the first colon, comment or line end, and the rest from there on.
#[inline(always)]
fn split_part(text: &[u8]) -> (&[u8], &[u8])
    ensures { IsParted text.now result.0.now result.1.now }
{
    match memchr3(b':', b';', b'\n', text) {
        Some(count) => text.split_at(count),
        None => text.split_at(text.len()),
    }
}

/// What stands behind a colon in front.
#[inline(always)]
fn behind_colon(text: &[u8]) -> Option<&[u8]>
    ensures { option_map (λ x. x.now) result ≡ behind_first 58 text.now }
{
    let (first, rest) = text.split_first()?;
    if *first == b':' { Some(rest) } else { None }
}

/// Reads the first line of a text, and puts its labels behind those that are there, up to where it is refused.
pub fn read_line<'a>(
    labels: &mut Vec<Label<'a>>,
    text: &'a [u8],
    slot: usize,
    line: usize,
) -> Result<LineRead<'a>, AllocError>
    ensures said { IfOk result (λ r. line_seen r.said ≡ line_in (code_of text.now)) }
    ensures rest { IfOk result (λ r. behind_it 10 r.rest.now ≡ behind_it 10 text.now) }
    ensures labels { IfOk result (λ r. OnOk r.said (map label_seen labels.new.items ≡ map label_seen labels.old.items ++ labels_at line slot (code_of text.now))) }
    ensures kept { OnOk result (IsLonger labels.old.items labels.new.items) }
{
    let mut from = text;
    'labels: loop {
        let (part, rest) = split_part(from);
        let Some(behind) = behind_colon(rest) else {
            let said = said(part);
            return Ok(LineRead { said, rest });
        };
        let Some(name) = label_name(part) else {
            let said = Err(LineFault::NoForm);
            return Ok(LineRead { said, rest });
        };
        labels.push(Label { name, slot, line })?;
        from = behind;
    }
}
