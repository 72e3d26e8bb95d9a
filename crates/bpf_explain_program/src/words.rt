//! Why a condition fails at an instruction, in words with the numbers of the case: what `bpf explain` says. A condition's own sentence,
//! without numbers, is `Condition::text` of `bpf_state`.

mod budget;
mod edges;
mod kinds;
mod labels;
mod memory;
mod mixed;
mod origins;
mod shape;

use crate::known::Name;
use crate::sight::Sight;
use bpf_insn::{Code, Reg};
use bpf_state::{Condition, Place, StateFault};
use bpf_streams::Tell;
pub use labels::{tell_function, tell_label, tell_start};
pub use mixed::tell_mixed;
pub use origins::{Handings, tell_handed};
pub use shape::{Silence, tell_silence};

/// The name of a register.
pub fn register(reg: Reg) -> Name {
    Name(Place::Register(reg))
}

/// Tells why a condition fails at an instruction.
pub fn tell<C: Code, W: Tell>(out: &mut W, sight: &Sight<'_, C>, condition: Condition) {
    match condition {
        Condition::NoLabel => shape::tell_missing_label(out, sight),
        Condition::State(StateFault::UnsetRegister) => kinds::tell_unknown(out, sight),
        Condition::State(StateFault::WrongKinds) => kinds::tell_kinds(out, sight),
        Condition::State(StateFault::OutOfBounds) => memory::tell_bounds(out, sight),
        Condition::State(StateFault::UnsetByte) => memory::tell_unknown_bytes(out, sight),
        Condition::State(StateFault::Protected) => memory::tell_protected(out, sight),
        Condition::NotEntailed => edges::tell_difference(out, sight),
        Condition::OverBudget => budget::tell_unpaid(out, sight),
        Condition::NoDeeper => shape::tell_depth(out, sight),
        Condition::FallsOff => shape::tell_end(out),
        Condition::LeavesFunction => shape::tell_leaving(out, sight),
        // These aren't found at instructions.
        Condition::MisplacedLabel | Condition::Misshapen => {}
    }
}
