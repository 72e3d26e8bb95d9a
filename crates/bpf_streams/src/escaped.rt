//! Control characters told by their bytes, as `\x1b`.

ghost use Rattle.std.specs.Prelude.{◌≡◌, ◌<◌, OnOk, OnErr, IsTrue};
ghost use Rattle.std.specs.Io.KnownBytes.{Appends};
ghost use Rattle.bpf_insn.specs.Written.{AppendsBeginning};
ghost use Rattle.bpf_streams.specs.Escaped.{code, shown, first_or, hex_digit, is_low_control, is_high_control, is_control, escaped, escaped_behind};

use bpf_insn::written::write_bytes;
use std::io::{self, Write};

/// A digit of a hexadecimal number.
fn hex_digit(digit: u8) -> u8
    requires { digit < 16 }
    ensures { result ≡ hex_digit digit }
{
    if digit < 10 { 48 + digit } else { 87 + digit }
}

/// What is written for a byte of a control character.
fn code_of(byte: u8) -> [u8; 4]
    ensures { result ≡ code byte }
{
    [b'\\', b'x', hex_digit(byte / 16), hex_digit(byte % 16)]
}

/// Whether a byte is a control character by itself.
fn is_low_control(layout: bool, byte: u8) -> bool
    ensures { result ≡ is_low_control layout byte }
{
    (byte < 32 || byte == 127) && !(layout && (byte == b'\t' || byte == b'\n'))
}

/// Whether two bytes are one from U+0080 to U+009F.
fn is_high_control(byte: u8, after: u8) -> bool
    ensures { result ≡ is_high_control byte after }
{
    byte == 0xc2 && 128 <= after && after < 160
}

/// Whether a byte between two others is part of a control character.
fn is_control(layout: bool, before: u8, byte: u8, after: u8) -> bool
    ensures { result ≡ is_control layout before byte after }
{
    is_low_control(layout, byte) || is_high_control(byte, after) || is_high_control(before, byte)
}

/// The first byte; 0 where there is none.
fn first_of(bytes: &[u8]) -> u8
    ensures { result ≡ first_or 0 bytes.now }
{
    match bytes.first() {
        Some(byte) => *byte,
        None => 0,
    }
}

/// Whether there is no control character: then bytes are written as they are.
fn is_plain(bytes: &[u8], layout: bool) -> bool
    ensures { IsTrue result → escaped layout bytes.now ≡ bytes.now }
{
    let mut rest = bytes;
    let mut before = 0;
    'bytes: while let Some((byte, more)) = rest.split_first() {
        if is_control(layout, before, *byte, first_of(more)) {
            return false;
        }
        before = *byte;
        rest = more;
    }
    true
}

/// Writes a byte, or its code.
fn write_shown<W: Write>(out: &mut W, control: bool, byte: u8) -> io::Result<()>
    ensures ok { OnOk result (Appends (W.contents out.old) (W.contents out.new) (shown control byte)) }
    ensures err { OnErr result (AppendsBeginning (W.contents out.old) (W.contents out.new) (shown control byte)) }
{
    if control {
        write_bytes(out, &code_of(byte))
    } else {
        write_bytes(out, &[byte])
    }
}

/// Writes bytes, one by one, and the control characters by their codes.
fn write_codes<W: Write>(out: &mut W, bytes: &[u8], layout: bool) -> io::Result<()>
    ensures ok { OnOk result (Appends (W.contents out.old) (W.contents out.new) (escaped layout bytes.now)) }
    ensures err { OnErr result (AppendsBeginning (W.contents out.old) (W.contents out.new) (escaped layout bytes.now)) }
{
    let mut rest = bytes;
    let mut before = 0;
    'bytes: while let Some((byte, more)) = rest.split_first() {
        let control = is_control(layout, before, *byte, first_of(more));
        match write_shown(out, control, *byte) {
            Ok(()) => {}
            Err(error) => return Err(error),
        }
        before = *byte;
        rest = more;
    }
    Ok(())
}

/// Writes bytes, and control characters by their bytes, as `\x1b`; where `layout` holds, tabs and ends of lines as they are. A fault of the writer, or a
/// write of no bytes, ends it.
pub fn write_escaped<W: Write>(out: &mut W, bytes: &[u8], layout: bool) -> io::Result<()>
    ensures ok { OnOk result (Appends (W.contents out.old) (W.contents out.new) (escaped layout bytes.now)) }
    ensures err { OnErr result (AppendsBeginning (W.contents out.old) (W.contents out.new) (escaped layout bytes.now)) }
{
    if is_plain(bytes, layout) {
        write_bytes(out, bytes)
    } else {
        write_codes(out, bytes, layout)
    }
}

/// A writer in front of another one, which writes text of several lines so.
#[derive(Drop)]
pub struct Escaped<'a, W: Write> {
    out: &'a mut W,
}

impl<'a, W: Write> Escaped<'a, W> {
    ghost use Rattle.std.specs.Prelude.{◌≡◌};

    /// In front of a writer, which it keeps as it is.
    pub fn new(out: &'a mut W) -> Self
        ensures same_writer { result.out.ghost_name ≡ out.entry.ghost_name }
        ensures as_it_is { result.out.now ≡ out.old }
    {
        Escaped { out }
    }
}

impl<'a, W: Write> Write for Escaped<'a, W> {
    fn write(&mut self, buf: &[u8]) -> io::Result<usize> {
        write_escaped(self.out, buf, true)?;
        Ok(buf.len())
    }

    fn flush(&mut self) -> io::Result<()> {
        self.out.flush()
    }
}
