//! What is told goes out in pieces of 4,096 bytes.

use crate::escaped::Escaped;
use crate::quoted::Quoted;
use bpf_insn::written::Pending;
use std::fmt::Display;
use std::io::{self, ErrorKind, Write};

/// A writer that hands on pieces of 4,096 bytes. What waits at the end is handed on by `flush` alone.
#[derive(Drop)]
struct Pieces<'a, W: Write> {
    out: &'a mut W,
    pending: Pending,
}

/// A fault after which nothing is tried again: `write_all` tries again after `Interrupted`, and a piece would go out twice.
fn final_fault(error: io::Error) -> io::Error {
    match error.kind() {
        ErrorKind::Interrupted => io::Error::from(ErrorKind::Other),
        _ => error,
    }
}

impl<'a, W: Write> Write for Pieces<'a, W> {
    fn write(&mut self, buf: &[u8]) -> io::Result<usize> {
        self.pending.put(self.out, buf).map_err(final_fault)?;
        Ok(buf.len())
    }

    fn flush(&mut self) -> io::Result<()> {
        self.pending.flush(self.out)?;
        self.out.flush()
    }
}

/// Where an explanation is told.
pub trait Tell {
    /// Tells a text: what `write!` calls. Control characters in it, but for tabs and ends of lines, are told by their bytes.
    fn write_fmt<D: Display + Drop>(&mut self, text: D);

    /// Tells words that are at hand, as `write!` does.
    fn say(&mut self, words: &str) {
        self.write_fmt(words);
    }

    /// What follows stands between quotes in DOT, or no longer does.
    fn set_quoted(&mut self, is_quoted: bool);

    /// Whether what is told is lost.
    fn has_failed(&self) -> bool;
}

/// A page in front of a writer. It keeps the writer's first fault for the end, and writes nothing behind it, so that who tells need
/// not ask at each word.
#[derive(Drop)]
pub struct Page<'a, W: Write> {
    pieces: Pieces<'a, W>,
    is_quoted: bool,
    fault: Option<io::Error>,
}

impl<'a, W: Write> Page<'a, W> {
    /// An empty page in front of a writer.
    pub fn new(out: &'a mut W) -> Self {
        Page {
            pieces: Pieces {
                out,
                pending: Pending::new(),
            },
            is_quoted: false,
            fault: None,
        }
    }

    /// Hands on what is held. The writer's first fault, if it failed.
    pub fn finish(&mut self) -> io::Result<()> {
        match self.fault.take() {
            Some(error) => Err(error),
            None => self.pieces.flush(),
        }
    }
}

impl<'a, W: Write> Tell for Page<'a, W> {
    fn write_fmt<D: Display + Drop>(&mut self, text: D) {
        if self.fault.is_some() {
            return;
        }
        let result = if self.is_quoted {
            let mut quoted = Quoted::new(&mut self.pieces);
            Escaped::new(&mut quoted).write_fmt(text)
        } else {
            Escaped::new(&mut self.pieces).write_fmt(text)
        };
        if let Err(error) = result {
            self.fault = Some(error);
        }
    }

    fn set_quoted(&mut self, is_quoted: bool) {
        self.is_quoted = is_quoted;
    }

    fn has_failed(&self) -> bool {
        self.fault.is_some()
    }
}
