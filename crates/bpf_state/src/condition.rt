//! The conditions of the checker, by number and in words.

ghost use Rattle.std.specs.Prelude.{◌≡◌, ◌<◌, ◌≤◌, ◌↔◌, [], IfSome, IsSome, MatchOption, get_or, length};
ghost use Rattle.bpf_state.specs.Condition.{condition_number, condition_texts};

use crate::fault::StateFault;
use thiserror::Error;

/// A condition of the checker, told where it fails.
#[derive(Clone, Copy, Debug, PartialEq, Eq, Error)]
#[error("{}", self.text())]
pub enum Condition {
    /// C1: no label of the certificate stands at a jump's target.
    NoLabel,
    /// C2: a label is at no instruction's first slot.
    MisplacedLabel,
    /// C3 to C7: what an instruction does may be refused in the state before it.
    State(StateFault),
    /// C8: a state doesn't entail what is claimed where it leads to.
    NotEntailed,
    /// C9: a budget doesn't cover a cost, or isn't one.
    OverBudget,
    /// C10: a callee's depth isn't below its caller's.
    NoDeeper,
    /// C11: the last instruction can fall past the end, or no state reaches this one.
    FallsOff,
    /// C12: a jump or a fall-through leaves the function, or a call leads to no function.
    LeavesFunction,
    /// C13: functions and labels are misshapen, or the start doesn't entail the first label.
    Misshapen,
}

impl Condition {
    /// The number of the condition, from 1 to 13.
    pub fn number(&self) -> u8
        ensures { result ≡ condition_number self.now }
    {
        match self {
            Condition::NoLabel => 1,
            Condition::MisplacedLabel => 2,
            Condition::State(fault) => fault.number(),
            Condition::NotEntailed => 8,
            Condition::OverBudget => 9,
            Condition::NoDeeper => 10,
            Condition::FallsOff => 11,
            Condition::LeavesFunction => 12,
            Condition::Misshapen => 13,
        }
    }

    /// The condition with a number; None where that isn't from 1 to 13.
    pub fn numbered(number: u32) -> Option<Condition>
        ensures number { IfSome result (λ c. condition_number c ≡ number) }
        ensures some { IsSome result ↔ ((1 ≤ number) × (number ≤ 13)) }
    {
        match number {
            1 => Some(Condition::NoLabel),
            2 => Some(Condition::MisplacedLabel),
            3 => Some(Condition::State(StateFault::UnsetRegister)),
            4 => Some(Condition::State(StateFault::WrongKinds)),
            5 => Some(Condition::State(StateFault::OutOfBounds)),
            6 => Some(Condition::State(StateFault::UnsetByte)),
            7 => Some(Condition::State(StateFault::Protected)),
            8 => Some(Condition::NotEntailed),
            9 => Some(Condition::OverBudget),
            10 => Some(Condition::NoDeeper),
            11 => Some(Condition::FallsOff),
            12 => Some(Condition::LeavesFunction),
            13 => Some(Condition::Misshapen),
            _ => None,
        }
    }

    /// What is told where the condition with a number fails, without the slot; None where that isn't from 1 to 13.
    pub fn text_numbered(number: u32) -> Option<&'static str>
        ensures numbered { IsSome result ↔ ((1 ≤ number) × (number ≤ 13)) }
        ensures told { IfSome result (λ text. 0 < length text.now) }
        ensures text { MatchOption result (get_or condition_texts number [] ≡ []) (λ text. text.now ≡ get_or condition_texts number []) }
    {
        match number {
            1 => Some("no label stands at the jump's target"),
            2 => Some("the label is at no instruction's first slot"),
            3 => Some("a register is read that may be uninitialised"),
            4 => Some("the kinds of operands or slots are wrong"),
            5 => Some("an access or a pointer may leave its bounds"),
            6 => Some("a stack byte is read that may be uninitialised"),
            7 => Some("the context or r10 is written"),
            8 => Some("a state doesn't entail what is claimed where it leads to"),
            9 => Some("the budget doesn't cover the cost"),
            10 => Some("the callee's depth isn't below its caller's"),
            11 => Some("the program's end can be passed, or nothing leads here"),
            12 => Some("the function is left otherwise than by an exit"),
            13 => Some("the functions and labels don't fit, or the start doesn't"),
            _ => None,
        }
    }

    /// What is told where the condition fails, without the slot.
    pub fn text(&self) -> &'static str
        ensures { result.now ≡ get_or condition_texts (condition_number self.now) [] }
    {
        match Condition::text_numbered(u32::from(self.number())) {
            Some(text) => text,
            None => "",
        }
    }
}
