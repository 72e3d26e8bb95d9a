//! The abstract state after each instruction.

mod alu;
mod atomic;
mod load;
pub(crate) mod results;
mod store;

ghost use Rattle.std.specs.Prelude.{◌≡◌, ℕ, ℤ};
ghost use Rattle.bpf_insn.specs.declared.instruction.Insn.TheVariants.{JumpIf, Exit};
ghost use Rattle.bpf_insn.specs.declared.order.Order.{Order};
ghost use Rattle.bpf_state.specs.Fault.{can_test};
ghost use Rattle.bpf_state.specs.Transfer.{transfer};
ghost use Rattle.bpf_state.specs.Answer.{outcome_told, KeepsUnlessDone};

use crate::fault::StateFault;
use crate::known::RegState;
use crate::state::State;
use crate::transfers::load::Extension;
use bpf_insn::{Cond, Insn, Operand, Order, Reg, Width};
pub use load::{any_number, any_signed};

/// Makes the state at an instruction the one after it, in every context of at least `least` bytes. False only if that
/// state has no member. C3 to C7, the lowest that applies, if the instruction isn't allowed. After a fault and after false the
/// state is as it was, and so it is after jumps, calls and exits.
pub fn transfer(
    insn: &Insn,
    least: u32,
    order: Order,
    state: &mut State,
) -> Result<bool, StateFault>
    ensures outcome { outcome_told result state.new ≡ transfer order insn.now least state.old }
    ensures kept { KeepsUnlessDone result state.old state.new }
{
    match *insn {
        Insn::Alu {
            op,
            width,
            dst,
            src,
        } => alu::alu(op, width, dst, src, state),
        Insn::Neg { width, dst } => alu::neg(width, dst, state),
        Insn::MovSx {
            width,
            bits,
            dst,
            src,
        } => alu::mov_sx(width, bits, dst, src, state),
        Insn::End { kind, bits, dst } => alu::end(kind, bits, dst, order, state),
        Insn::LoadImm64 { dst, value } => load::load_imm64(dst, value, state),
        Insn::Load {
            size,
            dst,
            src,
            off,
        } => load::load(Extension::Zero, size, dst, src, off, least, state),
        Insn::LoadSx {
            size,
            dst,
            src,
            off,
        } => load::load(Extension::Sign, size, dst, src, off, least, state),
        Insn::Store {
            size,
            dst,
            off,
            src,
        } => store::store(size, dst, off, Operand::Reg(src), least, state),
        Insn::StoreImm {
            size,
            dst,
            off,
            imm,
        } => store::store(size, dst, off, Operand::Imm(imm), least, state),
        Insn::Atomic {
            wide,
            op,
            dst,
            off,
            src,
        } => atomic::atomic(wide, op, dst, off, src, least, state),
        Insn::Ja { off: _off } => Ok(true),
        Insn::JaLong { off: _off } => Ok(true),
        Insn::JumpIf {
            cond,
            width,
            dst,
            src,
            off: _off,
        } => jump_if(cond, width, dst, src, state),
        Insn::CallLocal { off: _off } => Ok(true),
        Insn::Exit => exit(state),
    }
}

/// Whether a test may be made: of numbers, and at 64 bits whether two pointers of one kind are equal.
pub(crate) fn can_test(width: Width, cond: Cond, a: RegState, b: RegState) -> bool
    ensures { result ≡ can_test width cond a b }
{
    match (a, b) {
        (RegState::Num(_), RegState::Num(_)) => true,
        (RegState::Ptr(p), RegState::Ptr(q)) => {
            matches!(width, Width::W64)
                && matches!(cond, Cond::Eq | Cond::Ne)
                && p.area.is_same(q.area)
        }
        _ => false,
    }
}

fn jump_if(
    cond: Cond,
    width: Width,
    dst: Reg,
    src: Operand,
    state: &State,
) -> Result<bool, StateFault>
    ensures outcome { (order : Order) → (off : ℤ) → (least : ℕ) → outcome_told result state.now
        ≡ transfer order (JumpIf cond width dst src off) least state.now }
    ensures kept { KeepsUnlessDone result state.now state.now }
{
    if state.reg(dst).is_any() || state.operand(src).is_any() {
        return Err(StateFault::UnsetRegister);
    }
    if !can_test(width, cond, state.reg(dst), state.operand(src)) {
        return Err(StateFault::WrongKinds);
    }
    Ok(true)
}

fn exit(state: &State) -> Result<bool, StateFault>
    ensures outcome { (order : Order) → (least : ℕ) → outcome_told result state.now
        ≡ transfer order Exit least state.now }
    ensures kept { KeepsUnlessDone result state.now state.now }
{
    match state.reg(Reg::R0) {
        RegState::Any => Err(StateFault::UnsetRegister),
        RegState::Num(_) => Ok(true),
        RegState::Ptr(_) => Err(StateFault::WrongKinds),
    }
}
