//! All bytes at a name, where they aren't too many.

ghost use Rattle.std.specs.Prelude.{IfOk, IfErr};
ghost use Rattle.bpf_answers.specs.Loaded.{BytesAt, AreUnread, Tried};

use crate::error::PlaceError;
use crate::places::Places;
use crate::reading::read_up_to;
use std::alloc::{AllocError, Global};

/// Why bytes at a name aren't had.
#[derive(Clone, Copy)]
pub enum BytesError {
    /// The name can't be opened, or its reader fails.
    Unreadable,
    /// There are more than so many.
    TooLong,
    /// Memory ran out.
    Memory,
}

impl From<AllocError> for BytesError {
    ghost use Rattle.std.specs.Prelude.{◌≡◌};
    ghost use Rattle.bpf_answers.specs.declared.bytes.BytesError.TheVariants.{Memory};

    ghost from_gives = { λ _ e. e ≡ Memory };

    fn from(_error: AllocError) -> BytesError {
        BytesError::Memory
    }
}

/// The bytes at a name, if they are at most so many.
pub fn bytes_at<P: Places>(
    alloc: Global,
    places: &mut P,
    name: &str,
    most: usize,
) -> Result<Vec<u8>, BytesError>
    ensures ok { IfOk result (λ v. BytesAt most P.opens places.old name.entry.now places.new v.items) }
    ensures err { IfErr result (AreUnread most P.opens places.old name.entry.now places.new) }
    ensures names { Tried P.opens places.old name.entry.now places.new }
{
    let mut reader = match places.open(name) {
        Ok(reader) => reader,
        Err(PlaceError::Refused) => return Err(BytesError::Unreadable),
        Err(PlaceError::Memory) => return Err(BytesError::Memory),
    };
    let Some(bytes) = read_up_to(alloc, &mut reader, most)? else {
        return Err(BytesError::Unreadable);
    };
    if bytes.len() > most {
        return Err(BytesError::TooLong);
    }
    Ok(bytes)
}
