//! The listing with comments for people.

ghost use Rattle.std.specs.Prelude.{◌≡◌, ◌++◌, ◌-◌, ◌*◌, ◌<◌, ◌/◌, ◌%◌, [], ◌∷◌, IfOk, OnOk, OnErr, codes, decimal, drop, false, flat_map, min, replicate, take};
ghost use Rattle.std.specs.List.{concat};
ghost use Rattle.std.specs.Io.KnownBytes.{Appends};
ghost use Rattle.bpf_insn.specs.Written.{AppendsBeginning, Gathers};
ghost use Rattle.bpf_insn.specs.Image.{image, instruction_bytes};
ghost use Rattle.bpf_insn.specs.Instruction.{slot_count};
ghost use Rattle.bpf_text.specs.Annotated.{annotated, byte_text, bytes_text, comment, commented};
ghost use Rattle.bpf_text.specs.code.Slots.{line_at};
ghost use Rattle.bpf_text.specs.Listing.{pieces};

use crate::listed_line::glyph;
use crate::lister::write_line;
use arrayvec::ArrayVec;
use bpf_insn::written::Pending;
use bpf_insn::{Code, Insn};
use itoa::Buffer;
use std::io::{self, Write};

/// What stands in the comment behind an instruction.
#[derive(Clone, Copy, Debug, PartialEq, Eq)]
pub enum Notes {
    /// Its slot, as `; 12`.
    Slots,
    /// Its bytes in the image, 8 or 16, as `; b7 00 00 00 05 00 00 00`.
    Bytes,
    /// Both, as `; 12: b7 00 00 00 05 00 00 00`.
    Both,
}

/// As many blanks as fill an empty text.
const BLANKS: [u8; 32] = [b' '; 32];

/// The blanks behind a text of so many bytes: to column 32, and one at least.
fn padding(count: usize) -> &'static [u8]
    ensures { result.now ≡ replicate (32 - min count 31) 32 }
{
    &BLANKS[count.min(31)..]
}

/// A blank, and a byte as two hexadecimal digits.
fn byte_text(byte: u8) -> [u8; 3]
    ensures { result ≡ byte_text byte }
{
    [b' ', glyph(byte / 16), glyph(byte % 16)]
}

fn put_bytes<W: Write>(pending: &mut Pending, out: &mut W, bytes: &[u8]) -> io::Result<()>
    ensures ok { OnOk result (Gathers (W.contents out.old) (W.contents out.new) pending.old pending.new (bytes_text bytes.now)) }
    ensures err { OnErr result (AppendsBeginning (W.contents out.old) (W.contents out.new) (pending.old ++ bytes_text bytes.now)) }
{
    for byte in bytes {
        match pending.put(out, &byte_text(*byte)) {
            Ok(()) => {}
            Err(error) => return Err(error),
        }
    }
    Ok(())
}

/// Puts two texts.
fn put_two<W: Write>(
    pending: &mut Pending,
    out: &mut W,
    first: &[u8],
    second: &[u8],
) -> io::Result<()>
    ensures ok { OnOk result (Gathers (W.contents out.old) (W.contents out.new) pending.old pending.new (first.now ++ second.now)) }
    ensures err { OnErr result (AppendsBeginning (W.contents out.old) (W.contents out.new) (pending.old ++ (first.now ++ second.now))) }
{
    match pending.put(out, first) {
        Ok(()) => pending.put(out, second),
        Err(error) => Err(error),
    }
}

/// Puts a mark and bytes.
fn put_marked<W: Write>(
    pending: &mut Pending,
    out: &mut W,
    mark: &[u8],
    bytes: &[u8],
) -> io::Result<()>
    ensures ok { OnOk result (Gathers (W.contents out.old) (W.contents out.new) pending.old pending.new (mark.now ++ bytes_text bytes.now)) }
    ensures err { OnErr result (AppendsBeginning (W.contents out.old) (W.contents out.new) (pending.old ++ (mark.now ++ bytes_text bytes.now))) }
{
    match pending.put(out, mark) {
        Ok(()) => put_bytes(pending, out, bytes),
        Err(error) => Err(error),
    }
}

/// Puts a text, a mark and bytes.
fn put_behind<W: Write>(
    pending: &mut Pending,
    out: &mut W,
    text: &[u8],
    mark: &[u8],
    bytes: &[u8],
) -> io::Result<()>
    ensures ok { OnOk result (Gathers (W.contents out.old) (W.contents out.new) pending.old pending.new (text.now ++ (mark.now ++ bytes_text bytes.now))) }
    ensures err { OnErr result (AppendsBeginning (W.contents out.old) (W.contents out.new) (pending.old ++ (text.now ++ (mark.now ++ bytes_text bytes.now)))) }
{
    match pending.put(out, text) {
        Ok(()) => put_marked(pending, out, mark, bytes),
        Err(error) => Err(error),
    }
}

/// Puts what begins a comment, a text, a mark and bytes.
fn put_all<W: Write>(
    pending: &mut Pending,
    out: &mut W,
    front: &[u8],
    text: &[u8],
    mark: &[u8],
    bytes: &[u8],
) -> io::Result<()>
    ensures ok { OnOk result (Gathers (W.contents out.old) (W.contents out.new) pending.old pending.new (front.now ++ (text.now ++ (mark.now ++ bytes_text bytes.now)))) }
    ensures err { OnErr result (AppendsBeginning (W.contents out.old) (W.contents out.new) (pending.old ++ (front.now ++ (text.now ++ (mark.now ++ bytes_text bytes.now))))) }
{
    match pending.put(out, front) {
        Ok(()) => put_behind(pending, out, text, mark, bytes),
        Err(error) => Err(error),
    }
}

fn put_comment<W: Write>(
    pending: &mut Pending,
    out: &mut W,
    notes: Notes,
    slot: u32,
    bytes: &[u8],
) -> io::Result<()>
    ensures ok { OnOk result (Gathers (W.contents out.old) (W.contents out.new) pending.old pending.new (comment notes slot bytes.now)) }
    ensures err { OnErr result (AppendsBeginning (W.contents out.old) (W.contents out.new) (pending.old ++ comment notes slot bytes.now)) }
{
    let mut buffer = Buffer::new();
    let slot = buffer.format(slot).as_bytes();
    match notes {
        Notes::Slots => put_two(pending, out, b"; ", slot),
        Notes::Bytes => put_marked(pending, out, b";", bytes),
        Notes::Both => put_all(pending, out, b"; ", slot, b":", bytes),
    }
}

/// Puts a comment and the line end.
fn put_note<W: Write>(
    pending: &mut Pending,
    out: &mut W,
    notes: Notes,
    slot: u32,
    bytes: &[u8],
) -> io::Result<()>
    ensures ok { OnOk result (Gathers (W.contents out.old) (W.contents out.new) pending.old pending.new (comment notes slot bytes.now ++ codes "\n")) }
    ensures err { OnErr result (AppendsBeginning (W.contents out.old) (W.contents out.new) (pending.old ++ (comment notes slot bytes.now ++ codes "\n"))) }
{
    match put_comment(pending, out, notes, slot, bytes) {
        Ok(()) => pending.put(out, b"\n"),
        Err(error) => Err(error),
    }
}

/// Puts blanks, a comment and the line end.
fn put_padded<W: Write>(
    pending: &mut Pending,
    out: &mut W,
    blanks: &[u8],
    notes: Notes,
    slot: u32,
    bytes: &[u8],
) -> io::Result<()>
    ensures ok { OnOk result (Gathers (W.contents out.old) (W.contents out.new) pending.old pending.new (blanks.now ++ (comment notes slot bytes.now ++ codes "\n"))) }
    ensures err { OnErr result (AppendsBeginning (W.contents out.old) (W.contents out.new) (pending.old ++ (blanks.now ++ (comment notes slot bytes.now ++ codes "\n")))) }
{
    match pending.put(out, blanks) {
        Ok(()) => put_note(pending, out, notes, slot, bytes),
        Err(error) => Err(error),
    }
}

/// Puts a text with its comment and the line end.
fn put_commented<W: Write>(
    pending: &mut Pending,
    out: &mut W,
    text: &[u8],
    notes: Notes,
    slot: u32,
    bytes: &[u8],
) -> io::Result<()>
    ensures ok { OnOk result (Gathers (W.contents out.old) (W.contents out.new) pending.old pending.new (commented text.now (comment notes slot bytes.now))) }
    ensures err { OnErr result (AppendsBeginning (W.contents out.old) (W.contents out.new) (pending.old ++ commented text.now (comment notes slot bytes.now))) }
{
    let blanks = padding(text.len());
    match pending.put(out, text) {
        Ok(()) => put_padded(pending, out, blanks, notes, slot, bytes),
        Err(error) => Err(error),
    }
}

/// The text of an instruction, without a line end.
fn code_of(insn: &Insn) -> io::Result<ArrayVec<u8, 256>>
    ensures { IfOk result (λ line. line.items ≡ concat (pieces insn.now)) }
{
    let mut line = ArrayVec::new();
    write_line(&mut line, insn)?;
    let _end = line.pop();
    Ok(line)
}

/// So many bytes of an image from a place on, as far as there are any.
fn part_of(image: &[u8], start: usize, count: usize) -> &[u8]
    ensures { result.now ≡ take count (drop start image.now) }
{
    let rest = &image[start.min(image.len())..];
    &rest[..count.min(rest.len())]
}

/// Puts the line of the instruction at a slot of an image.
#[tactic(auto, using(crate::proofs::AnnotatedLemmas::begins_nothing))]
fn put_insn<W: Write>(
    pending: &mut Pending,
    out: &mut W,
    notes: Notes,
    image: &[u8],
    slot: u32,
    insn: &Insn,
) -> io::Result<()>
    ensures ok { OnOk result (Gathers (W.contents out.old) (W.contents out.new) pending.old pending.new (line_at notes image.now slot insn.now)) }
    ensures err { OnErr result (AppendsBeginning (W.contents out.old) (W.contents out.new) (pending.old ++ line_at notes image.now slot insn.now)) }
{
    let bytes = part_of(image, 8 * slot as usize, 8 * insn.slots() as usize);
    match code_of(insn) {
        Ok(code) => put_commented(pending, out, code.as_slice(), notes, slot, bytes),
        Err(error) => Err(error),
    }
}

/// Writes the listing of a program with a comment behind each instruction: its slot, its bytes in the program's image, or
/// both; `bytes` has to be that image, in the program's byte order. The comment begins behind column 32, or a blank behind a
/// longer line. The text assembles to the program again. A fault of the writer, or a write of no bytes, ends it; what went
/// out is then a beginning of the text. It takes no memory.
pub fn annotate<C: Code, W: Write>(
    program: &C,
    bytes: &[u8],
    notes: Notes,
    out: &mut W,
) -> io::Result<()>
    requires { bytes.now ≡ image (C.program program.now).order (C.program program.now).list }
    ensures ok { OnOk result (Appends (W.contents out.old) (W.contents out.new) (annotated notes (C.program program.now).order (C.program program.now).list)) }
    ensures err { OnErr result (AppendsBeginning (W.contents out.old) (W.contents out.new) (annotated notes (C.program program.now).order (C.program program.now).list)) }
{
    let mut pending = Pending::new();
    for slot in 0..program.slots() {
        if let Some(insn) = program.insn(slot) {
            match put_insn(&mut pending, out, notes, bytes, slot, &insn) {
                Ok(()) => {}
                Err(error) => return Err(error),
            }
        }
    }
    pending.flush(out)
}
