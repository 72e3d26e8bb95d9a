//! What the checker would hold against an instruction.

ghost use Rattle.std.specs.Prelude.{◌≡◌, ◌≤◌};
ghost use Rattle.bpf_infer_base.specs.RefusalNumbers.{condition_number, of_checker};

use bpf_state::StateFault;
use thiserror::Error;

/// Of the checker's conditions one that an instruction fails, as far as the search foresees it.
#[derive(Clone, Copy, Debug, PartialEq, Eq, Error)]
#[error("{}", self.of_checker())]
pub enum ForeseenCondition {
    /// C3 to C7: what it does may be refused in a state that is known before it.
    State(StateFault),
    /// C11: nothing leads to it, or the program's end can be passed behind it.
    FallsOff,
    /// C12: its function is left otherwise than by an EXIT.
    LeavesFunction,
}

impl ForeseenCondition {
    /// The condition among all of the checker's.
    pub fn of_checker(&self) -> bpf_state::Condition
        ensures { result ≡ of_checker self.now }
    {
        match *self {
            ForeseenCondition::State(fault) => bpf_state::Condition::State(fault),
            ForeseenCondition::FallsOff => bpf_state::Condition::FallsOff,
            ForeseenCondition::LeavesFunction => bpf_state::Condition::LeavesFunction,
        }
    }

    /// The number of the condition, from 3 to 12.
    pub fn number(&self) -> u8
        ensures same { result ≡ condition_number self.now }
        ensures least { 3 ≤ result }
        ensures most { result ≤ 12 }
    {
        self.of_checker().number()
    }
}
