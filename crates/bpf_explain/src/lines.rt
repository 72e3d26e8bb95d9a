//! The lines of the source of a hardened program: those of the old one, at the slots to which its instructions went.

use bpf_cert::cut;
use std::alloc::{AllocError, Global};
use std::str::from_utf8;

/// The slot and the text of a line.
fn entry_of(line: &[u8]) -> Option<(usize, &str)> {
    let (front, text) = cut(line, b' ')?;
    let number = from_utf8(front).ok()?;
    let slot = number.parse::<u32>().ok()?;
    Some((slot as usize, from_utf8(text).ok()?))
}

/// Where the first instruction at an old slot, or behind it, went to.
fn new_slot(slots: &[Option<u32>], first: usize) -> Option<u32> {
    for slot in first..slots.len() {
        if slots[slot].is_some() {
            return slots[slot];
        }
    }
    None
}

/// A line of the table of the new program, if its instructions are there.
fn push_line(
    alloc: Global,
    moved: &mut String,
    slots: &[Option<u32>],
    line: &[u8],
) -> Result<(), AllocError> {
    let Some((slot, text)) = entry_of(line) else {
        return Ok(());
    };
    let Some(slot) = new_slot(slots, slot) else {
        return Ok(());
    };
    let line = format!(in alloc; "{slot} {text}\n")?;
    moved.push_str(line.as_str())
}

/// A table of source lines for a hardened program, from that of the old one and the slots to which its instructions went.
pub(crate) fn moved_lines(
    alloc: Global,
    table: &[u8],
    slots: &[Option<u32>],
) -> Result<String, AllocError> {
    let mut moved = String::new(alloc);
    let mut rest = table;
    for _ in 0..u64::MAX {
        if rest.is_empty() {
            break;
        }
        let (line, behind) = cut(rest, b'\n').unwrap_or((rest, &[]));
        push_line(alloc, &mut moved, slots, line)?;
        rest = behind;
    }
    Ok(moved)
}
