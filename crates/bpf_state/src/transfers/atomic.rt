//! Atomic operations.

ghost use Rattle.std.specs.Prelude.{◌≡◌, IsTrue, true, false, Some, option_map, option_and_then};
ghost use Rattle.bpf_insn.specs.Instruction.{word_size};
ghost use Rattle.bpf_insn.specs.Effects.{fetch_register};
ghost use Rattle.bpf_insn.specs.declared.order.Order.{Order};
ghost use Rattle.bpf_insn.specs.declared.instruction.Insn.TheVariants.{Atomic};
ghost use Rattle.bpf_state.specs.Access.{is_inside};
ghost use Rattle.bpf_state.specs.Transfer.{transfer, loaded, fetched, modified_by};
ghost use Rattle.bpf_state.specs.code.Parts.{atomic_operands, atomic_outcome};
ghost use Rattle.bpf_state.specs.Answer.{outcome_told, edge_told, KeepsUnlessDone};
ghost use Rattle.bpf_state.specs.Condition.{fault_number};

use super::load::{loaded, read_fault};
use crate::access::Reach;
use crate::fault::StateFault;
use crate::slots::maybe_write;
use crate::state::State;
use bpf_insn::{AtomicOp, Reg, Size};

/// Why the registers that an atomic operation reads are not what it takes.
fn operand_fault(op: AtomicOp, dst: Reg, src: Reg, state: &State) -> Option<StateFault>
    ensures { option_map fault_number result ≡ atomic_operands op dst src state.now }
{
    let compares = matches!(op, AtomicOp::CmpXchg);
    if state.reg(dst).is_any()
        || state.reg(src).is_any()
        || (compares && state.reg(Reg::R0).is_any())
    {
        return Some(StateFault::UnsetRegister);
    }
    if !state.reg(dst).is_pointer()
        || !state.reg(src).is_number()
        || (compares && !state.reg(Reg::R0).is_number())
    {
        return Some(StateFault::WrongKinds);
    }
    None
}

/// Changes bytes of the frame; a register may get the number that they held.
fn modify(fetch: Option<Reg>, size: Size, reach: Reach, state: &mut State) -> bool
    requires framed { IsTrue reach.in_frame }
    requires inside { is_inside 0 reach ≡ true }
    ensures edge { edge_told result state.new ≡ option_and_then (fetched fetch (loaded state.old (Some reach) size)) (modified_by (Some reach) state.old) }
    ensures kept { result ≡ false → state.new ≡ state.old }
{
    match fetch {
        None => {
            maybe_write(state, reach);
            true
        }
        Some(r) => {
            let Some(value) = loaded(state, reach, size) else {
                return false;
            };
            maybe_write(state, reach);
            state.put_register(r, value, None);
            true
        }
    }
}

/// Changes bytes that lie so.
fn atomic_at(
    fetch: Option<Reg>,
    size: Size,
    reach: Reach,
    least: u32,
    state: &mut State,
) -> Result<bool, StateFault>
    ensures outcome { outcome_told result state.new ≡ atomic_outcome fetch size least reach state.old }
    ensures kept { KeepsUnlessDone result state.old state.new }
{
    if let Some(fault) = read_fault(state, reach, false, least) {
        return Err(fault);
    }
    if fetch == Some(Reg::R10) || !reach.in_frame() {
        return Err(StateFault::Protected);
    }
    Ok(modify(fetch, size, reach, state))
}

/// An atomic operation.
pub(crate) fn atomic(
    wide: bool,
    op: AtomicOp,
    dst: Reg,
    off: i16,
    src: Reg,
    least: u32,
    state: &mut State,
) -> Result<bool, StateFault>
    ensures outcome { (order : Order) → outcome_told result state.new
        ≡ transfer order (Atomic wide op dst off src) least state.old }
    ensures kept { KeepsUnlessDone result state.old state.new }
{
    if let Some(fault) = operand_fault(op, dst, src, state) {
        return Err(fault);
    }
    let size = Size::of_word(wide);
    let fetch = op.fetch_register(src);
    atomic_at(
        fetch,
        size,
        Reach::of(state.reg(dst), off, size),
        least,
        state,
    )
}
