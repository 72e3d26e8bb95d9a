//! The edges of a conditional jump.

ghost use Rattle.std.specs.Prelude.{◌≡◌, false};
ghost use Rattle.bpf_state.specs.Transfer.{branch, refine_register, refine_operand, is_register};
ghost use Rattle.bpf_state.specs.Answer.{edge_told};

use crate::known::RegState;
use crate::state::State;
use bpf_insn::{Insn, Operand, Reg};
use bpf_num::Num;

/// Makes the state at a conditional jump the one on the edge on which its test holds (`taken`) or fails. False only if
/// it has no member; then the state is as it was. After other instructions the state stays.
pub fn branch(insn: &Insn, taken: bool, state: &mut State) -> bool
    ensures edge { edge_told result state.new ≡ branch insn.now taken state.old }
    ensures kept { result ≡ false → state.new ≡ state.old }
{
    let Insn::JumpIf {
        cond,
        width,
        dst,
        src,
        off: _off,
    } = *insn
    else {
        return true;
    };
    let RegState::Num(a) = state.reg(dst) else {
        return true;
    };
    let RegState::Num(b) = state.operand(src) else {
        return true;
    };
    if is_register(dst, src) {
        return true;
    }
    match Num::refine(cond, width, taken, a, b) {
        Some((a, b)) => {
            refine_register(dst, a, state);
            refine_operand(src, b, state);
            true
        }
        None => false,
    }
}

fn is_register(r: Reg, operand: Operand) -> bool
    ensures { result ≡ is_register r operand }
{
    match operand {
        Operand::Reg(other) => r as u8 == other as u8,
        Operand::Imm(_imm) => false,
    }
}

/// Makes this the number in a register; its counter stays.
fn refine_register(r: Reg, n: Num, state: &mut State)
    ensures { state.new ≡ refine_register r n state.old }
{
    let tag = state.register_tag(r);
    state.put_register(r, RegState::Num(n), tag);
}

fn refine_operand(operand: Operand, n: Num, state: &mut State)
    ensures { state.new ≡ refine_operand operand n state.old }
{
    match operand {
        Operand::Reg(r) => refine_register(r, n, state),
        Operand::Imm(_imm) => {}
    }
}
