//! Texts that go out one behind the other.

ghost use Rattle.std.specs.Prelude.{OnOk, OnErr, [], ◌∷◌, ◌++◌, codes, decimal};
ghost use Rattle.std.specs.List.{concat};
ghost use Rattle.std.specs.Io.KnownBytes.{Appends};
ghost use Rattle.bpf_insn.specs.Written.{AppendsBeginning, Gathers};
ghost use Rattle.bpf_answers.specs.Pieces.{pieces_text};

use bpf_insn::written::Pending;
use itoa::Buffer;
use std::io::{self, Write};

/// Puts texts, one behind the other, behind those that wait. A fault of the writer ends it; what went out is then a beginning of what waited and
/// of them. Takes no memory.
pub fn put_pieces<W: Write>(pending: &mut Pending, out: &mut W, pieces: &[&str]) -> io::Result<()>
    ensures ok { OnOk result (Gathers (W.contents out.old) (W.contents out.new) pending.old pending.new (pieces_text pieces.now)) }
    ensures err { OnErr result (AppendsBeginning (W.contents out.old) (W.contents out.new) (pending.old ++ pieces_text pieces.now)) }
{
    'pieces: for piece in pieces {
        pending.put(out, piece.as_bytes())?;
    }
    Ok(())
}

/// Puts a line that ends in a number behind those that wait.
pub fn put_at<W: Write>(pending: &mut Pending, out: &mut W, front: &str, at: u64) -> io::Result<()>
    ensures ok { OnOk result (Gathers (W.contents out.old) (W.contents out.new) pending.old pending.new
        (concat (front.now ∷ decimal at ∷ codes "\n" ∷ []))) }
    ensures err { OnErr result (AppendsBeginning (W.contents out.old) (W.contents out.new)
        (pending.old ++ concat (front.now ∷ decimal at ∷ codes "\n" ∷ []))) }
{
    let mut digits = Buffer::new();
    put_pieces(pending, out, &[front, digits.format(at), "\n"])
}

/// Writes texts, one behind the other, at once where they have fewer than 4,096 bytes. A fault of the writer ends it; what went out is then a
/// beginning of them. Takes no memory.
pub fn write_pieces<W: Write>(out: &mut W, pieces: &[&str]) -> io::Result<()>
    ensures ok { OnOk result (Appends (W.contents out.old) (W.contents out.new) (pieces_text pieces.now)) }
    ensures err { OnErr result (AppendsBeginning (W.contents out.old) (W.contents out.new) (pieces_text pieces.now)) }
{
    let mut pending = Pending::new();
    put_pieces(&mut pending, out, pieces)?;
    pending.flush(out)
}

/// Writes a line that ends in a number.
pub fn write_at<W: Write>(out: &mut W, front: &str, at: u64) -> io::Result<()>
    ensures ok { OnOk result (Appends (W.contents out.old) (W.contents out.new) (concat (front.now ∷ decimal at ∷ codes "\n" ∷ []))) }
    ensures err { OnErr result (AppendsBeginning (W.contents out.old) (W.contents out.new) (concat (front.now ∷ decimal at ∷ codes "\n" ∷ []))) }
{
    let mut digits = Buffer::new();
    write_pieces(out, &[front, digits.format(at), "\n"])
}
