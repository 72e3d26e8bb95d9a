//! What calls answer that no command makes alone: of a reader that fails, of instructions that no text says, and of numbers and states.
//! A line `calls` is answered by a line for each. `tests/failures.py` refuses each growth of memory in turn.

use crate::states::tell_states;
use bpf_check::{VerifyError, verify};
use bpf_insn::{BuildError, DecodeError, Insn, Order, Program, Reg, Size, decode_from};
use bpf_text::{TextError, assemble};
use std::alloc::Global;
use std::fmt::Display;
use std::io::{self, ErrorKind, Read, Write};

/// `r0 = 0`, `exit`.
const IMAGE: &[u8] = &[0xb7, 0, 0, 0, 0, 0, 0, 0, 0x95, 0, 0, 0, 0, 0, 0, 0];

const CERTIFICATE: &[u8] = b"bpfcert 1 0 2\nfn 0 1 *\nat 0 2\nr1 ctx0..0\nend\n";

/// Its budget is short of a step.
const SHORT: &[u8] = b"bpfcert 1 0 2\nfn 0 1 *\nat 0 1\nr1 ctx0..0\nend\n";

/// A text with labels.
const TEXT: &str = "a: r0 = 0\nif r0 != 0 goto b\nb: exit";

/// Eight bytes have no sign to extend.
const NO_LOAD: Insn = Insn::LoadSx {
    size: Size::DW,
    dst: Reg::R0,
    src: Reg::R1,
    off: 0,
};

/// Gives its bytes, and then fails.
#[derive(Drop)]
struct Failing<'a> {
    left: &'a [u8],
}

impl<'a> Read for Failing<'a> {
    fn read(&mut self, buf: &mut [u8]) -> io::Result<usize> {
        if self.left.is_empty() {
            return Err(io::Error::from(ErrorKind::Other));
        }
        let count = buf.len().min(self.left.len());
        buf[..count].copy_from_slice(&self.left[..count]);
        self.left = &self.left[count..];
        Ok(count)
    }
}

/// A reader that fails behind so many bytes.
fn after(bytes: &[u8], count: usize) -> Failing<'_> {
    Failing {
        left: &bytes[..count.min(bytes.len())],
    }
}

/// The slots of a text's program.
fn assembled(alloc: Global) -> Result<u32, TextError> {
    Ok(assemble(alloc, TEXT, Order::Little)?.slots())
}

/// The slots of the program whose image a reader gives.
fn decoded<R: Read + Drop>(alloc: Global, reader: R) -> Result<u32, DecodeError> {
    Ok(decode_from(alloc, reader, Order::Little)?.slots())
}

/// The slots of an instruction's program.
fn made(alloc: Global, insn: Insn) -> Result<u32, BuildError> {
    let mut list = Vec::new(alloc);
    if list.push(insn).is_err() {
        return Err(BuildError::Memory);
    }
    Ok(Program::new(alloc, list, Order::Little)?.slots())
}

/// The bound that the certificate which a reader gives promises of the image.
fn verified<R: Read + Drop>(alloc: Global, certificate: R) -> Result<u32, VerifyError> {
    Ok(verify(alloc, IMAGE, Order::Little, certificate)?.bound)
}

/// A line with what a call answers.
fn tell<E: Display>(out: &mut impl Write, call: &str, answer: &Result<u32, E>) -> io::Result<()> {
    match answer {
        Ok(number) => write!(out, "{call}: {number}\n"),
        Err(error) => write!(out, "{call}: {error}\n"),
    }
}

/// What is told of texts, images and lists.
fn tell_programs(alloc: Global, out: &mut impl Write) -> io::Result<()> {
    tell(out, "assemble", &assembled(alloc))?;
    tell(out, "decode_from", &decoded(alloc, IMAGE))?;
    tell(
        out,
        "decode_from, failing at 0",
        &decoded(alloc, after(IMAGE, 0)),
    )?;
    tell(
        out,
        "decode_from, failing at 7",
        &decoded(alloc, after(IMAGE, 7)),
    )?;
    tell(
        out,
        "decode_from, failing at 12",
        &decoded(alloc, after(IMAGE, 12)),
    )?;
    tell(
        out,
        "decode_from, failing at 16",
        &decoded(alloc, after(IMAGE, 16)),
    )?;
    tell(out, "new", &made(alloc, Insn::Exit))?;
    tell(out, "new, no encoding", &made(alloc, NO_LOAD))
}

/// What is told of certificates.
fn tell_verified(alloc: Global, out: &mut impl Write) -> io::Result<()> {
    tell(out, "verify", &verified(alloc, CERTIFICATE))?;
    tell(out, "verify, short", &verified(alloc, SHORT))?;
    tell(
        out,
        "verify, failing at 14",
        &verified(alloc, after(CERTIFICATE, 14)),
    )?;
    tell(
        out,
        "verify, failing at 42",
        &verified(alloc, after(CERTIFICATE, 42)),
    )
}

/// A line for each call.
pub fn tell_calls(alloc: Global, out: &mut impl Write) -> io::Result<()> {
    tell_programs(alloc, out)?;
    tell_verified(alloc, out)?;
    tell_states(out)
}
