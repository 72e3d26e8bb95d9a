//! Why an instruction is refused.

ghost use Rattle.std.specs.Prelude.{◌≡◌};
ghost use Rattle.bpf_state.specs.Condition.{fault_number};

use crate::condition::Condition;
use thiserror::Error;

/// Why an instruction is refused in an abstract state.
#[derive(Clone, Copy, Debug, PartialEq, Eq, Error)]
#[error("{}", Condition::State(*self).text())]
pub enum StateFault {
    /// C3: a register that is read may be uninitialised.
    UnsetRegister,
    /// C4: an operand, or a stack slot that is read, is of a kind that the instruction doesn't take.
    WrongKinds,
    /// C5: an access may leave the context or the frame, or a pointer's offset leaves -2^31 to 2^31.
    OutOfBounds,
    /// C6: a stack byte that may be read isn't known as initialised.
    UnsetByte,
    /// C7: the context or r10 is to be written.
    Protected,
}

impl StateFault {
    /// The number of the refusal, from 3 to 7.
    pub fn number(&self) -> u8
        ensures { result ≡ fault_number self.now }
    {
        match self {
            StateFault::UnsetRegister => 3,
            StateFault::WrongKinds => 4,
            StateFault::OutOfBounds => 5,
            StateFault::UnsetByte => 6,
            StateFault::Protected => 7,
        }
    }
}
