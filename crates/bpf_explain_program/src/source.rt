//! A table of source lines: which line of the source the instructions came from.

use bpf_cert::cut;
use std::str::from_utf8;

/// A table of lines `SLOT TEXT`, by rising slots, as far as it is read: the instructions from the slot on, up to the next line's
/// slot, came from the text. A line of another form is passed over.
#[derive(Clone, Copy)]
pub struct SourceLines<'a> {
    rest: &'a [u8],
    text: &'a str,
}

/// The slot and the text of a line.
fn entry_of(line: &[u8]) -> Option<(u32, &str)> {
    let (front, text) = cut(line, b' ')?;
    let number = from_utf8(front).ok()?;
    let slot = number.parse::<u32>().ok()?;
    Some((slot, from_utf8(text).ok()?))
}

/// Whether a text is such a table: each line of that form, and none of a lower slot than the one before.
pub fn is_table(table: &[u8]) -> bool {
    let mut lines = SourceLines::of(table);
    let mut least = 0;
    for _ in 0..u64::MAX {
        let Some((line, rest)) = lines.next_line() else {
            return true;
        };
        lines.rest = rest;
        match entry_of(line) {
            Some((slot, _)) if slot >= least => least = slot,
            _ => return false,
        }
    }
    false
}

impl<'a> SourceLines<'a> {
    /// A table that is read from its beginning. Nothing came from anywhere in front of its first line.
    pub fn of(table: &'a [u8]) -> Self {
        SourceLines {
            rest: table,
            text: "",
        }
    }

    /// The next line and what is behind it; None at the end.
    fn next_line(&self) -> Option<(&'a [u8], &'a [u8])> {
        if self.rest.is_empty() {
            return None;
        }
        Some(cut(self.rest, b'\n').unwrap_or((self.rest, &[])))
    }

    /// Reads one line, unless it is of a later slot. Whether one was read.
    fn read_line(&mut self, slot: u32) -> bool {
        let Some((line, rest)) = self.next_line() else {
            return false;
        };
        match entry_of(line) {
            Some((at, _)) if at > slot => return false,
            Some((_, text)) => self.text = text,
            None => {}
        }
        self.rest = rest;
        true
    }

    /// Reads on to a slot, which isn't below an earlier one. Whether another text stands there than before.
    pub fn go_to(&mut self, slot: u32) -> bool {
        let before = self.text;
        for _ in 0..u32::MAX {
            if !self.read_line(slot) {
                break;
            }
        }
        before != self.text
    }

    /// The text that the instruction came from; empty where none is known.
    pub fn text(&self) -> &'a str {
        self.text
    }
}

/// The text that the instruction at a slot came from, by a table of source lines.
pub fn source_at(table: &[u8], slot: u32) -> &str {
    let mut lines = SourceLines::of(table);
    let _ = lines.go_to(slot);
    lines.text()
}
