//! Why a text is no program.

ghost use Rattle.std.specs.Prelude.{◌≡◌};
ghost use Rattle.bpf_text.specs.RefusalNumbers.{text_number, text_line};

use bpf_insn::BuildError;
use thiserror::Error;

/// Why a text is not assembled, with the line, counted from 1.
#[derive(Clone, Copy, Debug, PartialEq, Eq, Error)]
pub enum TextError {
    /// A1: the line has no form of the language.
    #[error("line {line} has no form of the language")]
    Form { line: usize },
    /// A2: a number is out of its range.
    #[error("a number on line {line} is out of its range")]
    Range { line: usize },
    /// A3: a label is defined a second time.
    #[error("a label on line {line} is defined a second time")]
    DefinedAgain { line: usize },
    /// A4: a label is not defined.
    #[error("the label on line {line} is not defined")]
    Undefined { line: usize },
    /// A5: the distance to a label does not fit 16 bits.
    #[error("the label on line {line} is too far away")]
    TooFar { line: usize },
    /// A6: the instructions are no program; the line is that of the instruction at the slot, or 1.
    #[error("line {line}: {error}")]
    Program { line: usize, error: BuildError },
    /// A7: memory ran out.
    #[error("out of memory")]
    Memory,
}

impl TextError {
    /// The number of the refusal, from 1 to 7.
    pub fn number(&self) -> u8
        ensures { result ≡ text_number self.now }
    {
        match self {
            TextError::Form { .. } => 1,
            TextError::Range { .. } => 2,
            TextError::DefinedAgain { .. } => 3,
            TextError::Undefined { .. } => 4,
            TextError::TooFar { .. } => 5,
            TextError::Program { .. } => 6,
            TextError::Memory => 7,
        }
    }

    /// The line that is refused, counted from 1; 0 where memory ran out.
    pub fn line(&self) -> usize
        ensures { result ≡ text_line self.now }
    {
        match *self {
            TextError::Form { line }
            | TextError::Range { line }
            | TextError::DefinedAgain { line }
            | TextError::Undefined { line }
            | TextError::TooFar { line }
            | TextError::Program { line, .. } => line,
            TextError::Memory => 0,
        }
    }
}
