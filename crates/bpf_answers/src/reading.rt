//! The bytes of a reader, up to a limit.

ghost use Rattle.std.specs.Prelude.{◌+◌, ◌≤◌, IfOk, IfSome, length};
ghost use Rattle.std.specs.Io.KnownBytes.{Consumes, IsAtEnd};
ghost use Rattle.bpf_answers.specs.declared.reading.TheConstants.{PIECE};

use std::alloc::{AllocError, Global};
use std::io::Read;

/// How many bytes are asked of a reader at a time.
const PIECE: usize = 4_096;

/// The bytes of a reader to its end, or the first that are more than a limit, by a piece at most; None if it fails.
pub fn read_up_to<R: Read>(
    alloc: Global,
    reader: &mut R,
    limit: usize,
) -> Result<Option<Vec<u8>>, AllocError>
    ensures taken { IfOk result (λ read. IfSome read (λ v. Consumes (R.remaining reader.old) (R.remaining reader.new) v.items)) }
    ensures few { IfOk result (λ read. IfSome read (λ v. length v.items ≤ limit + PIECE)) }
    ensures all { IfOk result (λ read. IfSome read (λ v. length v.items ≤ limit → IsAtEnd (R.remaining reader.new))) }
{
    let mut bytes = Vec::new(alloc);
    let mut chunk = [0; PIECE];
    'reads: while bytes.len() <= limit {
        let Ok(count) = reader.read(&mut chunk) else {
            return Ok(None);
        };
        if count == 0 {
            return Ok(Some(bytes));
        }
        bytes.extend_from_slice(&chunk[..count])?;
    }
    Ok(Some(bytes))
}
