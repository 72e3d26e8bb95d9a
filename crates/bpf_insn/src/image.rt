//! From an image to a program (RFC 9669, section 3).

ghost use Rattle.std.specs.Prelude.{◌≡◌, ◌⊎◌, ◌≤◌, ◌/◌, List, ℕ, IfOk, IfErr, IfSome, MatchResult, Some, take, length};
ghost use Rattle.std.specs.Io.KnownBytes.{Consumes};
ghost use Rattle.bpf_insn.specs.Image.{image, IsImage, IsProgram};
ghost use Rattle.bpf_insn.specs.Refusal.{IsRefused};
ghost use Rattle.bpf_insn.specs.Reading.{max_read, ReadsImage, IsUnreadBy, FailsAfter, FailsAt, GivesAtMost};
ghost use Rattle.bpf_insn.specs.declared.instruction.Insn.{Insn};
ghost use Rattle.bpf_insn.specs.declared.refusal.DecodeError.TheVariants.{Memory};

use crate::limits::MAX_IMAGE;
use crate::order::Order;
use crate::program::Program;
use crate::refusal::DecodeError;
use crate::view::ProgramView;
use std::alloc::Global;
use std::io::Read;

/// The most bytes that are read: one more than the largest image.
const MAX_READ: usize = MAX_IMAGE + 1;

/// The program whose image in a byte order these bytes are, with memory of its own. It is refused as by
/// [`ProgramView::of`], and with E9 if memory runs out.
pub fn decode(alloc: Global, bytes: &[u8], order: Order) -> Result<Program, DecodeError>
    ensures ok { IfOk result (λ p. IsImage order p.list bytes.now × (p.order ≡ order)) }
    ensures program { IfOk result (λ p. IsProgram p.list) }
    ensures err { IfErr result (λ e. (e ≡ Memory) ⊎ IsRefused order bytes.now e) }
    ensures accepts { (is : List Insn) → IsProgram is → bytes.now ≡ image order is → MatchResult result (λ p. p.list ≡ is) (λ e. e ≡ Memory) }
{
    match ProgramView::of(bytes, order) {
        Ok(view) => match view.to_program(alloc) {
            Ok(program) => Ok(program),
            Err(_) => Err(DecodeError::Memory),
        },
        Err(error) => Err(error),
    }
}

/// How many bytes are asked for at once.
const PIECE: usize = 4_096;

/// The bytes of a reader to its end, or the first 524,289, one more than the largest image has, and not a byte more: E9 if
/// memory runs out, E10 at the first fault of the reader, with the slot in which that came.
pub fn read_image<R: Read>(alloc: Global, reader: &mut R) -> Result<Vec<u8>, DecodeError>
    ensures ok { IfOk result (λ v. ReadsImage (R.remaining reader.old) v.items) }
    ensures read { IfOk result (λ v. Consumes (R.remaining reader.old) (R.remaining reader.new) v.items × (length v.items ≤ max_read)) }
    ensures err { IfErr result (λ e. (e ≡ Memory) ⊎ FailsAfter (R.remaining reader.old) e) }
    ensures fault { IfErr result (λ e. (e ≡ Memory) ⊎ FailsAt (R.remaining reader.old) (R.remaining reader.new) e) }
    ensures used { GivesAtMost max_read (R.remaining reader.old) (R.remaining reader.new) }
{
    let mut bytes = Vec::new(alloc);
    let mut chunk = [0; PIECE];
    'reads: while bytes.len() < MAX_READ {
        let room = chunk.len().min(MAX_READ - bytes.len());
        let Ok(count) = reader.read(&mut chunk[..room]) else {
            let slot = (bytes.len() / 8) as u32;
            return Err(DecodeError::Read { slot });
        };
        if count == 0 {
            return Ok(bytes);
        }
        if bytes.extend_from_slice(&chunk[..count]).is_err() {
            return Err(DecodeError::Memory);
        }
    }
    Ok(bytes)
}

/// The program whose image in a byte order a reader gives, in whatever pieces. It reads to the end or to 524,289 bytes,
/// and answers as [`decode`] on those, or E10 where the reader fails, as [`read_image`] does.
pub fn decode_from<R: Read + Drop>(
    alloc: Global,
    reader: R,
    order: Order,
) -> Result<Program, DecodeError>
    ensures ok { IfOk result (λ p. IfSome (R.remaining reader) (λ bytes. IsImage order p.list (take max_read bytes))) }
    ensures program { IfOk result (λ p. IsProgram p.list × (p.order ≡ order)) }
    ensures err { IfErr result (λ e. (e ≡ Memory) ⊎ FailsAfter (R.remaining reader) e
        ⊎ IfSome (R.remaining reader) (λ bytes. IsRefused order (take max_read bytes) e)) }
    ensures accepts { (is : List Insn) → IsProgram is → R.remaining reader ≡ Some (image order is) →
        MatchResult result (λ p. p.list ≡ is) (IsUnreadBy (R.remaining reader)) }
{
    let mut reader = reader;
    match read_image(alloc, &mut reader) {
        Ok(bytes) => decode(alloc, &bytes, order),
        Err(error) => Err(error),
    }
}
