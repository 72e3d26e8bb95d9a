//! Text inside of quotes in DOT.

ghost use Rattle.std.specs.Prelude.{◌≤◌, length};

use bpf_insn::written::write_bytes;
use std::io::{self, Write};

/// A writer of what stands between quotes: a quote and a backslash get a backslash in front, and the end of a line is
/// `\l`, which keeps the line to the left.
#[derive(Drop)]
pub struct Quoted<'a, W: Write> {
    out: &'a mut W,
}

/// Whether a byte is written as it is.
fn is_plain(byte: u8) -> bool {
    !matches!(byte, b'"' | b'\\' | b'\n')
}

/// How many bytes are in front of the first one that isn't written as it is.
fn plain_length(bytes: &[u8]) -> usize
    ensures { result ≤ length bytes.now }
{
    for (index, byte) in bytes.iter().enumerate() {
        if !is_plain(*byte) {
            return index;
        }
    }
    bytes.len()
}

/// What is written for a byte that is not written as it is.
fn escaped(byte: u8) -> &'static [u8] {
    match byte {
        b'"' => b"\\\"",
        b'\\' => b"\\\\",
        _ => b"\\l",
    }
}

impl<'a, W: Write> Quoted<'a, W> {
    /// Behind an opening quote.
    pub fn new(out: &'a mut W) -> Self {
        Quoted { out }
    }
}

impl<'a, W: Write> Write for Quoted<'a, W> {
    fn write(&mut self, buf: &[u8]) -> io::Result<usize> {
        let plain = plain_length(buf);
        if plain > 0 {
            write_bytes(self.out, &buf[..plain])?;
            return Ok(plain);
        }
        match buf.first() {
            Some(byte) => {
                write_bytes(self.out, escaped(*byte))?;
                Ok(1)
            }
            None => Ok(0),
        }
    }

    fn flush(&mut self) -> io::Result<()> {
        self.out.flush()
    }
}
