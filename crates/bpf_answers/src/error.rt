//! Why a name isn't opened or made.

use std::alloc::AllocError;
use std::io;

/// Why a name isn't opened or made.
#[derive(Clone, Copy, Debug, PartialEq, Eq)]
pub enum PlaceError {
    /// It can't be opened or made.
    Refused,
    /// Memory ran out.
    Memory,
}

impl From<AllocError> for PlaceError {
    ghost use Rattle.std.specs.Prelude.{◌≡◌};
    ghost use Rattle.bpf_answers.specs.declared.error.PlaceError.TheVariants.{Memory};

    ghost from_gives = { λ _ error. error ≡ Memory };

    fn from(_error: AllocError) -> Self {
        PlaceError::Memory
    }
}

impl From<io::Error> for PlaceError {
    ghost use Rattle.std.specs.Prelude.{◌≡◌};
    ghost use Rattle.std.specs.IoError.{error_kind};
    ghost use Rattle.bpf_answers.specs.Causes.{place_error};

    ghost from_gives = { λ from error. error ≡ place_error (error_kind from) };

    fn from(error: io::Error) -> Self {
        match error.kind() {
            io::ErrorKind::OutOfMemory => PlaceError::Memory,
            _ => PlaceError::Refused,
        }
    }
}
