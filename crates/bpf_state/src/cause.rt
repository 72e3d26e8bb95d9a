//! What is at fault where an instruction is refused: which register, which mistake of kinds, which pointer, which slot. Each is None exactly
//! where the condition doesn't hold by which `transfer` refuses with that number.

ghost use Rattle.std.specs.Prelude.{◌≡◌, ◌&&◌, not, find, is_some, IfSome, Some, false};
ghost use Rattle.bpf_insn.specs.Effects.{registers_read};
ghost use Rattle.bpf_state.specs.declared.known.SlotState.TheVariants.{Bytes};
ghost use Rattle.bpf_state.specs.State.{register, slot};
ghost use Rattle.bpf_state.specs.Access.{span_at};
ghost use Rattle.bpf_state.specs.Fault.{operand, is_any, reads_any, has_wrong_kinds, loads_slot, reads_part, makes_far_pointer, reads_unknown_byte};
ghost use Rattle.bpf_state.specs.Cause.{IsReadInPart, IsReadUnknown, Shows, pointer_of, made};
ghost use Rattle.bpf_state.specs.code.Mistakes.{unless_number, unless_pointer, unless_operand, unless_numbers, of_sum, of_difference, of_alu, of_span, of_atomic, of_operands};

use crate::access::Reach;
use crate::known::{Moved, RegState, SlotState};
use crate::slots::{pointer_slot, unknown_slot};
use crate::state::State;
use crate::transfers::can_test;
use crate::transfers::results::moved_pointer;
use bpf_insn::{AluOp, AtomicOp, Insn, Operand, Reg, Size, Width};

/// C3: the first register that is read and may be uninitialised.
pub fn unset_register(insn: &Insn, state: &State) -> Option<Reg>
    ensures first { result ≡ find (λ r. is_any (register state.now r)) (registers_read insn.now) }
    ensures refused { is_some result ≡ reads_any state.now insn.now }
{
    let read = insn.registers_read();
    'read: for i in 0..3 {
        if let Some(reg) = read[i] {
            if state.reg(reg).is_any() {
                return Some(reg);
            }
        }
    }
    None
}

// ---- kinds

/// What is wrong with the kinds of operands or slots.
#[derive(Clone, Copy)]
pub enum Mistake {
    /// A register that has to hold a number, whatever the others hold, holds none.
    NotNumber(Reg),
    /// The register of an address holds no pointer.
    NotPointer(Reg),
    /// Two pointers are added.
    PointersAdded,
    /// A pointer is subtracted from a number.
    PointerSubtracted,
    /// Of two pointers that are subtracted one is into the context and one into the frame.
    OtherAreas,
    /// A test compares a pointer otherwise than by `==` and `!=` at 64 bits with one of its kind.
    WrongTest,
    /// A pointer is stored elsewhere than into one slot as a whole.
    StoredInPart,
    /// The slot with this number, the first such, holds a pointer of which a part may be read.
    ReadInPart(u8),
}

fn unless_number(reg: Reg, state: &State) -> Option<Mistake>
    ensures { result ≡ unless_number state.now reg }
{
    if state.reg(reg).is_number() {
        None
    } else {
        Some(Mistake::NotNumber(reg))
    }
}

fn unless_pointer(reg: Reg, state: &State) -> Option<Mistake>
    ensures { result ≡ unless_pointer state.now reg }
{
    if state.reg(reg).is_pointer() {
        None
    } else {
        Some(Mistake::NotPointer(reg))
    }
}

fn unless_operand(src: Operand, state: &State) -> Option<Mistake>
    ensures { result ≡ unless_operand state.now src }
{
    match src {
        Operand::Imm(_imm) => None,
        Operand::Reg(r) => unless_number(r, state),
    }
}

/// Of two pointers that are added.
fn of_sum(a: RegState, b: RegState) -> Option<Mistake>
    ensures { result ≡ of_sum a b }
{
    if a.is_pointer() && b.is_pointer() {
        Some(Mistake::PointersAdded)
    } else {
        None
    }
}

/// Of a pointer that is subtracted.
fn of_difference(a: RegState, b: RegState) -> Option<Mistake>
    ensures { result ≡ of_difference a b }
{
    match (a, b) {
        (RegState::Ptr(p), RegState::Ptr(q)) => {
            if p.area.is_same(q.area) {
                None
            } else {
                Some(Mistake::OtherAreas)
            }
        }
        (RegState::Any | RegState::Num(_), RegState::Ptr(_)) => Some(Mistake::PointerSubtracted),
        _ => None,
    }
}

fn of_alu(op: AluOp, width: Width, dst: Reg, src: Operand, state: &State) -> Option<Mistake>
    ensures { result ≡ of_alu state.now width op dst src }
{
    match (width, op) {
        (Width::W64, AluOp::Mov) => None,
        (Width::W32, AluOp::Mov) => unless_operand(src, state),
        (Width::W64, AluOp::Add) => of_sum(state.reg(dst), state.operand(src)),
        (Width::W64, AluOp::Sub) => of_difference(state.reg(dst), state.operand(src)),
        _ => unless_number(dst, state).or(unless_operand(src, state)),
    }
}

fn of_store(size: Size, dst: Reg, off: i16, src: Reg, state: &State) -> Option<Mistake>
    ensures { result ≡ of_span dst (register state.now src) (span_at off size (register state.now dst)) }
{
    match Reach::from_base(state.reg(dst), off, size) {
        Ok(reach) => {
            if state.reg(src).is_pointer() && !reach.is_slot() {
                Some(Mistake::StoredInPart)
            } else {
                None
            }
        }
        Err(_) => Some(Mistake::NotPointer(dst)),
    }
}

fn of_atomic(op: AtomicOp, dst: Reg, src: Reg, state: &State) -> Option<Mistake>
    ensures { result ≡ of_atomic state.now op dst src }
{
    let mistake = unless_pointer(dst, state).or(unless_number(src, state));
    match op {
        AtomicOp::CmpXchg => mistake.or(unless_number(Reg::R0, state)),
        AtomicOp::Xchg | AtomicOp::Modify { .. } => mistake,
    }
}

/// What is wrong with the kinds of registers.
fn of_operands(insn: &Insn, state: &State) -> Option<Mistake>
    ensures { result ≡ of_operands state.now insn.now }
{
    match *insn {
        Insn::Alu {
            op,
            width,
            dst,
            src,
        } => of_alu(op, width, dst, src, state),
        Insn::Neg { dst, .. } | Insn::End { dst, .. } => unless_number(dst, state),
        Insn::MovSx { src, .. } => unless_number(src, state),
        Insn::Load { src, .. } | Insn::LoadSx { src, .. } => unless_pointer(src, state),
        Insn::Store {
            size,
            dst,
            off,
            src,
        } => of_store(size, dst, off, src, state),
        Insn::StoreImm { dst, .. } => unless_pointer(dst, state),
        Insn::Atomic { op, dst, src, .. } => of_atomic(op, dst, src, state),
        Insn::JumpIf {
            cond,
            width,
            dst,
            src,
            ..
        } => {
            if can_test(width, cond, state.reg(dst), state.operand(src)) {
                None
            } else {
                Some(Mistake::WrongTest)
            }
        }
        Insn::Exit => unless_number(Reg::R0, state),
        Insn::LoadImm64 { .. } | Insn::Ja { .. } | Insn::JaLong { .. } | Insn::CallLocal { .. } =>
            None,
    }
}

/// Whether a load takes a whole slot, the one access that may read a pointer.
fn loads_slot(insn: &Insn, reach: Reach) -> bool
    ensures { result ≡ loads_slot insn.now reach }
{
    matches!(*insn, Insn::Load { .. }) && reach.is_slot()
}

/// The first slot with a pointer of which a part may be read, by its number.
fn read_in_part(insn: &Insn, state: &State) -> Option<u8>
    ensures slot { IfSome result (IsReadInPart state.now insn.now) }
    ensures refused { is_some result ≡ reads_part state.now insn.now }
{
    let access = insn.access()?;
    let reach = Reach::of_access(access, state)?;
    if !access.reads || loads_slot(insn, reach) {
        return None;
    }
    pointer_slot(&state.slots, reach)
}

/// C4: what is wrong with the kinds of operands or slots, where each register that is read holds something.
pub fn mistake_of_kinds(insn: &Insn, state: &State) -> Option<Mistake>
    ensures shown { IfSome result (Shows state.now insn.now) }
    ensures refused { is_some result ≡ (not (reads_any state.now insn.now) && has_wrong_kinds state.now insn.now) }
{
    if unset_register(insn, state).is_some() {
        return None;
    }
    if let Some(mistake) = of_operands(insn, state) {
        return Some(mistake);
    }
    let slot = read_in_part(insn, state)?;
    Some(Mistake::ReadInPart(slot))
}

// ---- pointers that go too far

/// C5: the pointer that arithmetic would make, where its bounds leave -2^31 to 2^31.
pub fn far_pointer(insn: &Insn, state: &State) -> Option<Moved>
    ensures made { IfSome result (λ p. made state.now insn.now ≡ Some (Some (pointer_of p))) }
    ensures refused { is_some result ≡ makes_far_pointer state.now insn.now }
{
    let Insn::Alu {
        op,
        width,
        dst,
        src,
    } = *insn
    else {
        return None;
    };
    let made = moved_pointer(width, op, &state.reg(dst), &state.operand(src))?;
    if made.is_far() { Some(made) } else { None }
}

// ---- bytes

/// A slot of which a byte may be read that isn't known as initialised.
#[derive(Clone, Copy)]
pub struct UnknownBytes {
    /// The slot's number, from 1 to 64.
    pub slot: u8,
    /// The mask of its bytes that are known.
    pub known: u8,
}

/// C6: the first slot of which a byte may be read that isn't known as initialised.
pub fn unknown_bytes(insn: &Insn, state: &State) -> Option<UnknownBytes>
    ensures slot { IfSome result (λ u. IsReadUnknown state.now insn.now u.slot) }
    ensures known { IfSome result (λ u. slot state.now u.slot ≡ Bytes u.known) }
    ensures refused { is_some result ≡ reads_unknown_byte state.now insn.now }
{
    let access = insn.access()?;
    let reach = Reach::of_access(access, state)?;
    if !access.reads {
        return None;
    }
    let slot = unknown_slot(&state.slots, reach)?;
    let known = state.slots.mask(usize::from(slot) - 1);
    Some(UnknownBytes { slot, known })
}
