//! Constants of 64 bits and loads.

ghost use Rattle.std.specs.Prelude.{◌≡◌, ℕ, IsTrue, IfSome, true, Some, option_map};
ghost use Rattle.bpf_insn.specs.Effects.{is_frame_pointer};
ghost use Rattle.bpf_insn.specs.Instruction.{byte_count};
ghost use Rattle.bpf_insn.specs.declared.order.Order.{Order};
ghost use Rattle.bpf_insn.specs.declared.instruction.Insn.TheVariants.{LoadImm64};
ghost use Rattle.bpf_state.specs.State.{IsRegister};
ghost use Rattle.bpf_state.specs.Access.{is_inside};
ghost use Rattle.bpf_state.specs.Transfer.{transfer, any_number, any_signed, loaded, loaded_tag};
ghost use Rattle.bpf_state.specs.code.Parts.{byte_fault, read_fault, or_protected, takes_whole, value_by, tag_by, load_insn, load_outcome};
ghost use Rattle.bpf_state.specs.Answer.{outcome_told, KeepsUnlessDone};
ghost use Rattle.bpf_state.specs.Condition.{fault_number};

use crate::access::Reach;
use crate::fault::StateFault;
use crate::known::{RegState, Tag};
use crate::slots::{pointer_slot, unknown_slot};
use crate::state::State;
use bpf_insn::{Reg, Size};
use bpf_num::{KnownBits, Num, Signed, Unsigned, WordDomain};

/// Loads a constant of 64 bits.
pub(crate) fn load_imm64(dst: Reg, value: u64, state: &mut State) -> Result<bool, StateFault>
    ensures outcome { (order : Order) → (least : ℕ) → outcome_told result state.new
        ≡ transfer order (LoadImm64 dst value) least state.old }
    ensures kept { KeepsUnlessDone result state.old state.new }
{
    if dst.is_frame_pointer() {
        return Err(StateFault::Protected);
    }
    state.put_register(dst, RegState::Num(Num::constant(value)), None);
    Ok(true)
}

/// Any number of a size, zero-extended: what a load gives where nothing more is known. None only if there is none.
pub fn any_number(size: Size) -> Option<Num>
    ensures { result ≡ any_number (byte_count size) }
{
    let unsigned = match size {
        Size::B => Unsigned::new(0, u8::MAX as u64),
        Size::H => Unsigned::new(0, u16::MAX as u64),
        Size::W => Unsigned::new(0, u32::MAX as u64),
        Size::DW => Unsigned::new(0, u64::MAX),
    };
    Num::of(KnownBits::top(), unsigned, Signed::top()).tighten()
}

/// Any number of a size, sign-extended: what a sign-extending load gives. None only if there is none.
pub fn any_signed(size: Size) -> Option<Num>
    ensures { result ≡ any_signed (byte_count size) }
{
    let signed = match size {
        Size::B => Signed::new(i8::MIN as i64, i8::MAX as i64),
        Size::H => Signed::new(i16::MIN as i64, i16::MAX as i64),
        Size::W => Signed::new(i32::MIN as i64, i32::MAX as i64),
        Size::DW => Signed::new(i64::MIN, i64::MAX),
    };
    Num::of(KnownBits::top(), Unsigned::top(), signed).tighten()
}

/// What is known of a loaded value: what a whole slot of the frame holds, else any number of the size.
pub(crate) fn loaded(state: &State, reach: Reach, size: Size) -> Option<RegState>
    requires { IsTrue reach.in_frame → is_inside 0 reach ≡ true }
    ensures value { result ≡ loaded state.now (Some reach) size }
    ensures ordered { IfSome result (λ v. IsRegister v) }
{
    if reach.in_frame() && reach.is_slot() {
        Some(state.slots.get(reach.index()).value())
    } else {
        any_number(size).map(RegState::Num)
    }
}

fn loaded_tag(state: &State, reach: Reach) -> Option<Tag>
    requires { IsTrue reach.in_frame → is_inside 0 reach ≡ true }
    ensures { result ≡ loaded_tag state.now (Some reach) }
{
    if reach.in_frame() && reach.is_slot() {
        state.slot_tags.get(reach.index())
    } else {
        None
    }
}

/// What a load does with the bytes that it reads.
#[derive(Clone, Copy)]
pub(crate) enum Extension {
    Zero,
    Sign,
}

impl Extension {
    /// Whether an access takes a whole slot, and with it a pointer or a counter.
    fn takes_whole(self, reach: Reach) -> bool
        ensures { result ≡ takes_whole self reach }
    {
        match self {
            Extension::Zero => reach.is_slot(),
            Extension::Sign => false,
        }
    }

    /// What is known of the value that the register gets.
    fn value(self, state: &State, reach: Reach, size: Size) -> Option<RegState>
        requires { IsTrue reach.in_frame → is_inside 0 reach ≡ true }
        ensures value { result ≡ value_by self size reach state.now }
        ensures ordered { IfSome result (λ v. IsRegister v) }
    {
        match self {
            Extension::Zero => loaded(state, reach, size),
            Extension::Sign => any_signed(size).map(RegState::Num),
        }
    }

    /// The counter that the register gets.
    fn tag(self, state: &State, reach: Reach) -> Option<Tag>
        requires { IsTrue reach.in_frame → is_inside 0 reach ≡ true }
        ensures { result ≡ tag_by self reach state.now }
    {
        match self {
            Extension::Zero => loaded_tag(state, reach),
            Extension::Sign => None,
        }
    }
}

/// Why the bytes of an access may not be read. Only a load of a whole slot may read a pointer.
pub(crate) fn read_fault(
    state: &State,
    reach: Reach,
    is_whole: bool,
    least: u32,
) -> Option<StateFault>
    ensures { option_map fault_number result ≡ read_fault is_whole least state.now reach }
{
    if !is_whole && pointer_slot(&state.slots, reach).is_some() {
        return Some(StateFault::WrongKinds);
    }
    byte_fault(state, reach, least)
}

/// Why the bytes of an access may not be read, pointers aside.
fn byte_fault(state: &State, reach: Reach, least: u32) -> Option<StateFault>
    ensures { option_map fault_number result ≡ byte_fault least state.now reach }
{
    if !reach.is_inside(least) {
        return Some(StateFault::OutOfBounds);
    }
    if unknown_slot(&state.slots, reach).is_some() {
        return Some(StateFault::UnsetByte);
    }
    None
}

/// Why the bytes of an access may not be loaded to a register. Only a load of a whole slot may read a pointer.
fn load_fault(
    state: &State,
    dst: Reg,
    reach: Reach,
    is_whole: bool,
    least: u32,
) -> Option<StateFault>
    ensures { option_map fault_number result ≡ or_protected (read_fault is_whole least state.now reach) (is_frame_pointer dst) }
{
    match read_fault(state, reach, is_whole, least) {
        Some(fault) => Some(fault),
        None if dst.is_frame_pointer() => Some(StateFault::Protected),
        None => None,
    }
}

/// A load of bytes that lie so.
fn load_at(
    extension: Extension,
    dst: Reg,
    size: Size,
    reach: Reach,
    least: u32,
    state: &mut State,
) -> Result<bool, StateFault>
    ensures outcome { outcome_told result state.new ≡ load_outcome extension dst size least reach state.old }
    ensures kept { KeepsUnlessDone result state.old state.new }
{
    if let Some(fault) = load_fault(state, dst, reach, extension.takes_whole(reach), least) {
        return Err(fault);
    }
    let Some(value) = extension.value(state, reach, size) else {
        return Ok(false);
    };
    let tag = extension.tag(state, reach);
    state.put_register(dst, value, tag);
    Ok(true)
}

/// A load.
pub(crate) fn load(
    extension: Extension,
    size: Size,
    dst: Reg,
    src: Reg,
    off: i16,
    least: u32,
    state: &mut State,
) -> Result<bool, StateFault>
    ensures outcome { (order : Order) → outcome_told result state.new
        ≡ transfer order (load_insn extension size dst src off) least state.old }
    ensures kept { KeepsUnlessDone result state.old state.new }
{
    match Reach::from_base(state.reg(src), off, size) {
        Ok(reach) => load_at(extension, dst, size, reach, least, state),
        Err(fault) => Err(fault),
    }
}
