//! Why a certificate doesn't certify a program. The conditions, with their numbers and sentences, are `Condition` of `bpf_state`.

ghost use Rattle.std.specs.Prelude.{◌≡◌};
ghost use Rattle.bpf_check.specs.RefusalNumbers.{refusal_number, refusal_slot};

use bpf_state::Condition;
use thiserror::Error;

/// Why a certificate doesn't certify a program: the lowest slot at which a condition fails, and there the first one.
#[derive(Clone, Copy, Debug, PartialEq, Eq, Error)]
#[error("at slot {slot}: {condition}")]
pub struct Refusal {
    pub slot: u32,
    pub condition: Condition,
}

impl Refusal {
    /// The number of the refusal, from 1 to 13.
    pub fn number(&self) -> u8
        ensures { result ≡ refusal_number self.now }
    {
        self.condition.number()
    }

    /// The slot at which the condition fails, from 0 to 65,535.
    pub fn slot(&self) -> u32
        ensures { result ≡ refusal_slot self.now }
    {
        self.slot
    }
}
