//! Stores.

ghost use Rattle.std.specs.Prelude.{◌≡◌, IsTrue, true, Some, option_map};
ghost use Rattle.bpf_insn.specs.declared.order.Order.{Order};
ghost use Rattle.bpf_state.specs.State.{IsRegister};
ghost use Rattle.bpf_state.specs.Access.{is_inside};
ghost use Rattle.bpf_state.specs.Transfer.{transfer, stored};
ghost use Rattle.bpf_state.specs.code.Parts.{store_fault, store_insn, store_outcome};
ghost use Rattle.bpf_state.specs.Answer.{outcome_told, KeepsUnlessDone};
ghost use Rattle.bpf_state.specs.Condition.{fault_number};

use crate::access::Reach;
use crate::fault::StateFault;
use crate::known::{RegState, Tag, value_slot};
use crate::slots::{maybe_write, write};
use crate::state::State;
use bpf_insn::{Operand, Reg, Size};

/// Writes a value to the frame: a whole slot holds it then with its counter; of others the bytes are known or not.
fn put(reach: Reach, value: RegState, tag: Option<Tag>, state: &mut State)
    requires framed { IsTrue reach.in_frame }
    requires inside { IsTrue (is_inside 0 reach) }
    requires ordered { IsRegister value }
    ensures { Some state.new ≡ stored (Some reach) value tag state.old }
{
    if reach.is_slot() {
        state.put_slot(reach.index(), value_slot(value), tag);
    } else if reach.is_known() {
        write(state, reach);
    } else {
        maybe_write(state, reach);
    }
}

/// Why a value, which is a pointer or isn't, may not be written to bytes that lie so.
fn store_fault(pointer: bool, reach: Reach, least: u32) -> Option<StateFault>
    ensures { option_map fault_number result ≡ store_fault pointer least reach }
{
    if pointer && !reach.is_slot() {
        return Some(StateFault::WrongKinds);
    }
    if !reach.is_inside(least) {
        return Some(StateFault::OutOfBounds);
    }
    if !reach.in_frame() {
        return Some(StateFault::Protected);
    }
    None
}

/// Writes a value, which is a pointer or isn't, and its counter to bytes that lie so.
fn store_at(
    reach: Reach,
    pointer: bool,
    value: RegState,
    tag: Option<Tag>,
    least: u32,
    state: &mut State,
) -> Result<bool, StateFault>
    requires ordered { IsRegister value }
    ensures outcome { outcome_told result state.new ≡ store_outcome pointer value tag least reach state.old }
    ensures kept { KeepsUnlessDone result state.old state.new }
{
    if let Some(fault) = store_fault(pointer, reach, least) {
        return Err(fault);
    }
    put(reach, value, tag, state);
    Ok(true)
}

/// A store of a register or of a constant.
pub(crate) fn store(
    size: Size,
    dst: Reg,
    off: i16,
    src: Operand,
    least: u32,
    state: &mut State,
) -> Result<bool, StateFault>
    ensures outcome { (order : Order) → outcome_told result state.new
        ≡ transfer order (store_insn size dst off src) least state.old }
    ensures kept { KeepsUnlessDone result state.old state.new }
{
    if state.operand(src).is_any() {
        return Err(StateFault::UnsetRegister);
    }
    let tag = state.operand_tag(src);
    let pointer = state.operand(src).is_pointer();
    match Reach::from_base(state.reg(dst), off, size) {
        Ok(reach) => store_at(reach, pointer, state.operand(src), tag, least, state),
        Err(fault) => Err(fault),
    }
}
