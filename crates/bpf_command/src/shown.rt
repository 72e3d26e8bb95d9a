//! The words of the command line as a terminal is shown them: their control characters by their bytes.

use crate::request::request_of;
use bpf_streams::{Escaped, write_escaped};
use clap::Error;
use std::alloc::Global;
use std::io::{self, Write};

/// A writer in front of another one, which writes what is to be one line.
#[derive(Drop)]
pub struct OneLine<'a, W: Write> {
    out: &'a mut W,
}

impl<'a, W: Write> OneLine<'a, W> {
    /// In front of a writer.
    pub fn new(out: &'a mut W) -> Self {
        OneLine { out }
    }
}

impl<'a, W: Write> Write for OneLine<'a, W> {
    fn write(&mut self, buf: &[u8]) -> io::Result<usize> {
        write_escaped(self.out, buf, false)?;
        Ok(buf.len())
    }

    fn flush(&mut self) -> io::Result<()> {
        self.out.flush()
    }
}

/// A word as it is shown; none where there is no memory for it.
fn shown_word(alloc: Global, word: &str) -> Option<String> {
    let mut bytes = Vec::new(alloc);
    write_escaped(&mut bytes, word.as_bytes(), false).ok()?;
    String::from_utf8(bytes).ok()
}

/// All words as they are shown.
fn shown_words(alloc: Global, words: &[String]) -> Option<Vec<String>> {
    let mut shown = Vec::new(alloc);
    for word in words {
        shown.push(shown_word(alloc, word.as_str())?).ok()?;
    }
    Some(shown)
}

/// Tells what is wrong with the words, or the help that they ask for. The text says it of the words as they are shown, so that its
/// own ends of lines are the only ones. Whether it can be written makes no difference.
pub fn tell_mistake<E: Write>(alloc: Global, words: &[String], error: &Error, err: &mut E) {
    if let Some(shown) = shown_words(alloc, words) {
        if let Err(same) = request_of(alloc, &shown) {
            if same.kind() == error.kind() {
                let _ = write!(err, "{same}");
                return;
            }
        }
    }
    let _ = write!(Escaped::new(err), "{error}");
}
