//! Why an instruction can't be done: what RFC 9669 leaves undefined in sections 4 and 5, and what this machine has no memory for.

use thiserror::Error;

/// Why the machine can't do an instruction.
#[derive(Clone, Copy, Debug, PartialEq, Eq, Error)]
#[error("{}", self.text())]
pub enum Reason {
    /// F1: a register is read that holds nothing.
    UnsetRegister,
    /// F2: a stack byte is read that holds nothing.
    UnsetByte,
    /// F3: an access isn't wholly inside the context or a live frame.
    OutOfBounds,
    /// F4: the context is written.
    ContextWrite,
    /// F5: r10 is written.
    FramePointerWrite,
    /// F6: an operand is of the wrong kind: a number for a pointer or a pointer for a number, pointers into two regions, a
    /// part of a spilled pointer that is read, or a pointer stored otherwise than with 8 bytes at a multiple of 8.
    OperandKind,
    /// F7: a call with eight live frames.
    TooManyFrames,
    /// F8: the slot is past the last instruction.
    PastEnd,
    /// F9: r0 is a pointer at an exit.
    PointerResult,
}

impl Reason {
    ghost use Rattle.std.specs.Prelude.{◌≡◌, ◌<◌, ◌≤◌, ◌↔◌, [], IsSome, IfSome, MatchOption, get_or, length};
    ghost use Rattle.bpf_semantics.specs.ReasonNumbers.{reason_number, reason_texts};

    /// The number of the reason, from 1 to 9.
    pub fn number(&self) -> u8
        ensures { result ≡ reason_number self.now }
    {
        match self {
            Reason::UnsetRegister => 1,
            Reason::UnsetByte => 2,
            Reason::OutOfBounds => 3,
            Reason::ContextWrite => 4,
            Reason::FramePointerWrite => 5,
            Reason::OperandKind => 6,
            Reason::TooManyFrames => 7,
            Reason::PastEnd => 8,
            Reason::PointerResult => 9,
        }
    }

    /// What is told of the reason with a number; None where that isn't from 1 to 9.
    pub fn text_numbered(number: u32) -> Option<&'static str>
        ensures numbered { IsSome result ↔ ((1 ≤ number) × (number ≤ 9)) }
        ensures told { IfSome result (λ text. 0 < length text.now) }
        ensures text { MatchOption result (get_or reason_texts number [] ≡ []) (λ text. text.now ≡ get_or reason_texts number []) }
    {
        match number {
            1 => Some("an uninitialised register is read"),
            2 => Some("an uninitialised byte of a frame is read"),
            3 => Some("the access isn't wholly inside the context or a live frame"),
            4 => Some("the context is written"),
            5 => Some("r10 is written"),
            6 => Some("an operand is of the wrong kind"),
            7 => Some("a call is made with eight live frames"),
            8 => Some("the run is past the last instruction"),
            9 => Some("r0 is a pointer at the exit"),
            _ => None,
        }
    }

    /// What is told of the reason.
    pub fn text(&self) -> &'static str
        ensures { result.now ≡ get_or reason_texts (reason_number self.now) [] }
    {
        match Reason::text_numbered(u32::from(self.number())) {
            Some(text) => text,
            None => "",
        }
    }
}
