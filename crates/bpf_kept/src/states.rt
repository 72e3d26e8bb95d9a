//! What is known of the new program's numbers by itself: by the abstract state in front of an instruction, if its certificate has one.

ghost use Rattle.std.specs.Prelude.{◌≡◌, option_copied};
ghost use Rattle.bpf_kept.specs.Guards.{is_small};
ghost use Rattle.bpf_kept.specs.States.{number_in, held_number, operand_number, never_holds};

use bpf_insn::{Cond, Operand, Reg, Width, extended};
use bpf_num::Num;
use bpf_state::{RegState, State};

/// Numbers below this are far from all that are below 0 as offsets.
const SMALL_END: u64 = 1 << 62;

/// What is known of the number in a register that holds so much.
fn number_in(value: RegState) -> Num
    ensures { result ≡ number_in value }
{
    match value {
        RegState::Num(number) => number,
        RegState::Any | RegState::Ptr(_) => Num::top(),
    }
}

/// What is known of the number in a register.
pub fn held_number(state: Option<&State>, r: Reg) -> Num
    ensures { result ≡ held_number (option_copied state.entry) r }
{
    match state {
        Some(state) => number_in(state.reg(r)),
        None => Num::top(),
    }
}

/// What is known of an operand.
pub fn operand_number(state: Option<&State>, src: Operand) -> Num
    ensures { result ≡ operand_number (option_copied state.entry) src }
{
    match src {
        Operand::Imm(imm) => Num::constant(extended(imm)),
        Operand::Reg(r) => held_number(state, r),
    }
}

/// Whether what is in a register is surely small.
pub fn is_small(state: Option<&State>, r: Reg) -> bool
    ensures { result ≡ is_small (option_copied state.entry) r }
{
    held_number(state, r).unsigned().hi() < SMALL_END
}

/// Whether what is in a register is surely another number.
pub fn never_holds(state: Option<&State>, r: Reg, n: u64) -> bool
    ensures { result ≡ never_holds (option_copied state.entry) r n }
{
    let other = Num::constant(n);
    Num::refine(Cond::Eq, Width::W64, true, held_number(state, r), other).is_none()
}
