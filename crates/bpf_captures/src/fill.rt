//! The next bytes of a reader.

ghost use Rattle.std.specs.Prelude.{◌≡◌, ◌<◌, ◌≤◌, IfOk, length, take};
ghost use Rattle.std.specs.Io.KnownBytes.{Consumes, IsAtEnd};
ghost use Rattle.bpf_captures.specs.Taken.{Passes};

use std::io::Read;

/// How many bytes are passed over at a time.
const PIECE: usize = 4_096;

/// The reader failed.
#[derive(Clone, Copy)]
pub struct FillFault;

/// Puts the next bytes of a reader at the front of the room: as many as it has bytes, or fewer at the end. How many.
pub fn fill<R: Read>(reader: &mut R, room: &mut [u8]) -> Result<usize, FillFault>
    ensures taken { IfOk result (λ n. Consumes (R.remaining reader.old) (R.remaining reader.new) (take n room.new)) }
    ensures few { IfOk result (λ n. n ≤ length room.old) }
    ensures all { IfOk result (λ n. n < length room.old → IsAtEnd (R.remaining reader.new)) }
{
    let mut count = 0;
    'reads: while count < room.len() {
        let Ok(more) = reader.read(&mut room[count..]) else {
            return Err(FillFault);
        };
        if more == 0 {
            return Ok(count);
        }
        count += more;
    }
    Ok(count)
}

/// Passes over so many bytes of a reader, or fewer at the end. How many.
pub fn skip<R: Read>(reader: &mut R, count: usize) -> Result<usize, FillFault>
    ensures taken { IfOk result (Passes (R.remaining reader.old) (R.remaining reader.new)) }
    ensures few { IfOk result (λ n. n ≤ count) }
    ensures all { IfOk result (λ n. n < count → IsAtEnd (R.remaining reader.new)) }
{
    let mut piece = [0; PIECE];
    let mut passed = 0;
    'pieces: while passed < count {
        let wanted = (count - passed).min(PIECE);
        let Ok(more) = fill(reader, &mut piece[..wanted]) else {
            return Err(FillFault);
        };
        passed += more;
        if more < wanted {
            return Ok(passed);
        }
    }
    Ok(passed)
}
