//! The line of a refusal.

ghost use Rattle.std.specs.Prelude.{◌≡◌, OnOk, OnErr};
ghost use Rattle.std.specs.Io.KnownBytes.{Appends};
ghost use Rattle.bpf_insn.specs.Written.{AppendsBeginning};
ghost use Rattle.bpf_answers.specs.Answer.{at_whole, at_words, line_at, refusal_line, told_line};

use crate::pieces::write_pieces;
use bpf_refusals::{At, Letter, Told};
use itoa::Buffer;
use std::io::{self, Write};

/// Where a refusal is that names nothing: at the number 0 of what those of its letter name.
fn at_whole(letter: Letter) -> &'static str
    ensures { result.now ≡ at_whole letter }
{
    match letter {
        Letter::Text | Letter::Certificate | Letter::Notes => " at line ",
        Letter::Classic => " at instruction ",
        Letter::Check | Letter::Image | Letter::Fault => " at slot ",
        Letter::Hardening | Letter::Inference | Letter::Mismatch => " at slot ",
        Letter::Capture => " at packet ",
    }
}

/// Where a refusal is, but for the number.
fn at_words(letter: Letter, at: At) -> &'static str
    ensures { result.now ≡ at_words letter at }
{
    match at {
        At::Nowhere => at_whole(letter),
        At::Slot(_) => " at slot ",
        At::Line(_) => " at line ",
        At::Instruction(_) => " at instruction ",
        At::Packet { .. } => " at packet ",
    }
}

/// Writes a line of a letter, a number, a place and its number.
fn write_line<W: Write>(
    out: &mut W,
    letter: &str,
    number: u8,
    place: &str,
    at: u64,
) -> io::Result<()>
    ensures ok { OnOk result (Appends (W.contents out.old) (W.contents out.new) (refusal_line letter.now number place.now at)) }
    ensures err { OnErr result (AppendsBeginning (W.contents out.old) (W.contents out.new) (refusal_line letter.now number place.now at)) }
{
    let mut first = Buffer::new();
    let mut second = Buffer::new();
    let number = first.format(number);
    let at = second.format(at);
    write_pieces(out, &["no ", letter, number, place, at, "\n"])
}

/// Writes the line of a refusal that is at this place: `no E4 of NEW at slot 0`.
pub fn write_refusal_at<W: Write>(out: &mut W, told: Told, place: &str) -> io::Result<()>
    ensures ok { OnOk result (Appends (W.contents out.old) (W.contents out.new) (line_at place.now told)) }
    ensures err { OnErr result (AppendsBeginning (W.contents out.old) (W.contents out.new) (line_at place.now told)) }
{
    write_line(
        out,
        told.letter.name(),
        told.number,
        place,
        told.at.number(),
    )
}

/// Writes the line of a refusal: `no E4 at slot 0`.
pub fn write_refusal<W: Write>(out: &mut W, told: Told) -> io::Result<()>
    ensures ok { OnOk result (Appends (W.contents out.old) (W.contents out.new) (told_line told)) }
    ensures err { OnErr result (AppendsBeginning (W.contents out.old) (W.contents out.new) (told_line told)) }
{
    write_refusal_at(out, told, at_words(told.letter, told.at))
}
