//! Why a text is none of notes.

ghost use Rattle.std.specs.Prelude.{◌≡◌};
ghost use Rattle.bpf_follows.specs.Refused.{refusal_number, refusal_line};

use std::alloc::AllocError;
use thiserror::Error;

/// Why a text is none of notes.
#[derive(Clone, Copy, Debug, PartialEq, Eq, Error)]
pub enum NotesError {
    /// N1: the line, counted from 1, isn't the first one of notes, or not one of its slot.
    #[error("line {line} has no form of a line of notes")]
    Form { line: usize },
    /// N2: memory ran out.
    #[error("out of memory")]
    Memory,
}

impl NotesError {
    /// The number of the refusal, 1 or 2.
    pub fn number(&self) -> u8
        ensures { result ≡ refusal_number self.now }
    {
        match self {
            NotesError::Form { .. } => 1,
            NotesError::Memory => 2,
        }
    }

    /// The line that is refused, counted from 1; 0 for want of memory.
    pub fn line(&self) -> usize
        ensures { result ≡ refusal_line self.now }
    {
        match *self {
            NotesError::Form { line } => line,
            NotesError::Memory => 0,
        }
    }
}

impl From<AllocError> for NotesError {
    ghost use Rattle.std.specs.Prelude.{◌≡◌};
    ghost use Rattle.bpf_follows.specs.declared.error.NotesError.TheVariants.{Memory};

    ghost from_gives = { λ _ error. error ≡ Memory };

    fn from(_error: AllocError) -> Self {
        NotesError::Memory
    }
}
