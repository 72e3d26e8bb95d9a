//! What is put at a name: the image of a program, the text of a certificate, other text, bytes.

ghost use Rattle.std.specs.Prelude.{◌≡◌, ℕ, List, IfOk, IfErr, OnOk, OnErr, true};
ghost use Rattle.std.specs.Io.KnownBytes.{Appends};
ghost use Rattle.bpf_insn.specs.Written.{AppendsBeginning};
ghost use Rattle.bpf_answers.specs.Made.{making};
ghost use Rattle.bpf_answers.specs.Both.{NotPut};

use crate::error::PlaceError;
use crate::failure::{DONE, Failure};
use crate::places::Places;
use bpf_cert::{Certificate, write};
use bpf_insn::written::write_bytes;
use bpf_insn::{Program, encode};
use std::io::{self, Write};

/// What has bytes to be written.
pub trait Content {
    /// The bytes.
    ghost bytes: { Self → List ℕ };

    /// Writes the bytes; a beginning of them where the writer fails.
    fn write_to<W: Write>(&self, out: &mut W) -> io::Result<()>
        ensures ok { OnOk result (Appends (W.contents out.old) (W.contents out.new) (bytes self.now)) }
        ensures err { OnErr result (AppendsBeginning (W.contents out.old) (W.contents out.new) (bytes self.now)) };
}

impl Content for Program {
    ghost use Rattle.bpf_insn.specs.Image.{image};

    ghost bytes = { λ p. image p.order p.list };

    fn write_to<W: Write>(&self, out: &mut W) -> io::Result<()> {
        encode(self, out)
    }
}

impl Content for Certificate {
    ghost use Rattle.bpf_cert.specs.Spelling.{certificate_text};

    ghost bytes = { λ c. certificate_text c };

    fn write_to<W: Write>(&self, out: &mut W) -> io::Result<()> {
        write(self, out)
    }
}

impl Content for String {
    ghost use Rattle.std.specs.String.{string_bytes};

    ghost bytes = { λ s. string_bytes s };

    fn write_to<W: Write>(&self, out: &mut W) -> io::Result<()> {
        write_bytes(out, self.as_str().as_bytes())
    }
}

impl Content for Vec<u8> {
    ghost bytes = { λ v. v.items };

    fn write_to<W: Write>(&self, out: &mut W) -> io::Result<()> {
        write_bytes(out, self)
    }
}

/// Puts content at a name, whole; where that fails, what stood there stays. `NoMemory` where there is none to make it.
pub fn put<'a, P: Places, C: Content>(
    places: &mut P,
    name: &'a str,
    content: &C,
) -> Result<u8, Failure<'a>>
    ensures ok { IfOk result (λ status. (status ≡ 0) × making P.creates P.ends P.Writer.contents places.old name.entry.now (C.bytes content.now) true
        places.new) }
    ensures err { IfErr result (NotPut (making P.creates P.ends P.Writer.contents) places.old name.entry (C.bytes content.now) places.new) }
{
    let mut writer = match places.create(name) {
        Ok(writer) => writer,
        Err(PlaceError::Refused) => return Err(Failure::CannotWrite(name)),
        Err(PlaceError::Memory) => return Err(Failure::NoMemory),
    };
    if content.write_to(&mut writer).is_err() {
        places.discard(writer);
        return Err(Failure::CannotWrite(name));
    }
    match places.finish(writer) {
        Ok(()) => Ok(DONE),
        Err(_) => Err(Failure::CannotWrite(name)),
    }
}
