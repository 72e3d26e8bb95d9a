//! Abstract states.

ghost use Rattle.std.specs.Prelude.{◌≡◌, ◌≤◌};
ghost use Rattle.bpf_state.specs.State.{IsRegister, from_to};

use crate::known::{Area, Place, Pointer, RegState, SlotState, Tag};
use crate::masked::Slots;
use crate::numbers::{registers_are_abstract, slots_are_abstract};
use crate::tags::SlotTags;
use bpf_insn::{Operand, Reg};
use bpf_num::{KnownBits, Num, Signed, Unsigned, WordDomain};
use std::marker::Model;

/// What is known of the registers and of the slots of the top frame, and which places hold counters.
#[derive(Debug, Drop)]
pub struct State {
    pub(crate) registers: [RegState; 11],
    pub(crate) slots: Slots,
    pub(crate) register_tags: [Option<Tag>; 11],
    pub(crate) slot_tags: SlotTags,
}

impl Model for State {
    ghost use Rattle.bpf_state.specs.State.{AbstractState, IsAbstractState};

    ghost Value = { AbstractState };

    ghost view = { λ s. record { registers = s.registers; slots = s.slots; register_tags = s.register_tags; slot_tags = s.slot_tags } };

    ghost invariant = { λ s. IsAbstractState (record { registers = s.registers; slots = s.slots; register_tags = s.register_tags; slot_tags = s.slot_tags }) };
}

/// What is known of a length from `least` to `most`.
fn length_between(least: u32, most: u32) -> RegState
    requires { least ≤ most }
    ensures value { result ≡ from_to least most }
    ensures ordered { IsRegister result }
{
    let length = Unsigned::new(least as u64, most as u64);
    match Num::of(KnownBits::top(), length, Signed::top()).tighten() {
        Some(n) => RegState::Num(n),
        None => RegState::Any,
    }
}

impl State {
    ghost use Rattle.std.specs.Prelude.{◌≡◌, ◌≤◌, ◌<◌, suc};
    ghost use Rattle.bpf_state.specs.State.{IsAbstractState, IsAbstract, IsRegister, IsSlot, IsPlace, blank, first_state, register, register_tag, slot, tag, with_register, with_slot, with_tag, put_register, put_slot};
    ghost use Rattle.bpf_state.specs.Fault.{operand};
    ghost use Rattle.bpf_state.specs.Held.{held};
    ghost use Rattle.bpf_state.specs.Transfer.{operand_tag};
    ghost use Rattle.bpf_state.specs.Answer.{without_tags};

    /// Nothing is known but that r10 points to the frame's end.
    pub fn blank() -> Self
        ensures { result ≡ blank }
    {
        let mut registers = [RegState::Any; 11];
        registers[10] = RegState::Ptr(Pointer::start_of(Area::Frame));
        State {
            registers,
            slots: Slots::blank(),
            register_tags: [None; 11],
            slot_tags: SlotTags::none(),
        }
    }

    /// A state has eleven registers and sixty-four slots; bounds of pointers are in order, masks at most 254.
    pub(crate) fn in_order(&self)
        ensures { IsAbstractState self.now }
    {
        let _registers = &self.registers;
    }

    /// A state has eleven registers and sixty-four slots; bounds of pointers are in order, masks at most 254, and its
    /// numbers are numbers. So the laws of described states hold of it.
    pub fn valid(&self)
        ensures state { IsAbstractState self.now }
        ensures numbers { IsAbstract self.now }
    {
        self.in_order();
        registers_are_abstract(&self.registers);
        slots_are_abstract(&self.slots);
    }

    /// What is known of a register.
    pub fn reg(&self, r: Reg) -> RegState
        ensures value { result ≡ register self.now r }
        ensures ordered { IsRegister result }
    {
        let index = r as usize;
        self.registers[index]
    }

    /// What is known of a slot, by its number from 1 to 64.
    pub fn slot(&self, k: u8) -> SlotState
        requires low { 1 ≤ k }
        requires high { k ≤ 64 }
        ensures value { result ≡ slot self.now k }
        ensures ordered { IsSlot result }
    {
        let index = k as usize - 1;
        self.slots.get(index)
    }

    /// What is known of a register, or of a slot as a whole. A slot's number is from 1 to 64.
    pub fn held(&self, place: Place) -> RegState
        requires { IsPlace place }
        ensures { result ≡ held self.now place }
    {
        match place {
            Place::Register(r) => self.reg(r),
            Place::Slot(k) => self.slot(k).value(),
        }
    }

    /// The counter that a place holds. A slot's number is from 1 to 64.
    pub fn tag(&self, place: Place) -> Option<Tag>
        requires { IsPlace place }
        ensures { result ≡ tag self.now place }
    {
        match place {
            Place::Register(r) => self.register_tags[r as usize],
            Place::Slot(k) => self.slot_tags.get(k as usize - 1),
        }
    }

    /// Makes this what is known of a register; its tag stays. The bounds of a pointer are in order.
    pub fn set_reg(&mut self, r: Reg, value: RegState)
        requires { IsRegister value }
        ensures { self.new ≡ with_register self.old r value }
    {
        self.registers[r as usize] = value;
    }

    /// Makes this what is known of a slot, by its number from 1 to 64; its tag stays. The bounds of a pointer are in
    /// order, and a mask is at most 254.
    pub fn set_slot(&mut self, k: u8, value: SlotState)
        requires low { 1 ≤ k }
        requires high { k ≤ 64 }
        requires value { IsSlot value }
        ensures { self.new ≡ with_slot self.old k value }
    {
        self.slots.set(k as usize - 1, value);
    }

    /// Makes this the counter that a place holds, or none. A slot's number is from 1 to 64.
    pub fn set_tag(&mut self, place: Place, tag: Option<Tag>)
        requires { IsPlace place }
        ensures { self.new ≡ with_tag self.old place tag }
    {
        match place {
            Place::Register(r) => self.register_tags[r as usize] = tag,
            Place::Slot(k) => self.slot_tags.set(k as usize - 1, tag),
        }
    }

    /// The state at the start of a program: r1 points to the context, r2 is its length, from `least` to `most` bytes, and
    /// r10 points to the frame's end.
    pub fn start(least: u32, most: u32) -> Self
        requires { least ≤ most }
        ensures { result ≡ first_state least most }
    {
        let mut state = State::blank();
        state.registers[1] = RegState::Ptr(Pointer::start_of(Area::Context));
        state.registers[2] = length_between(least, most);
        state
    }

    /// Makes this the state at the start of a program, as `start` gives it.
    pub fn begin(&mut self, least: u32, most: u32)
        requires { least ≤ most }
        ensures { self.new ≡ first_state least most }
    {
        self.clear();
        self.registers[1] = RegState::Ptr(Pointer::start_of(Area::Context));
        self.registers[2] = length_between(least, most);
    }

    /// The same state once more.
    pub fn copy(&self) -> Self
        ensures { result ≡ self.now }
    {
        let mut state = State::blank();
        state.registers.copy_from_slice(&self.registers);
        state.slots.copy_from(&self.slots);
        state.register_tags.copy_from_slice(&self.register_tags);
        state.slot_tags.copy_from(&self.slot_tags);
        state
    }

    /// Makes this the same as another state.
    pub fn copy_from(&mut self, other: &State)
        ensures { self.new ≡ other.now }
    {
        self.registers.copy_from_slice(&other.registers);
        self.slots.copy_from(&other.slots);
        self.register_tags.copy_from_slice(&other.register_tags);
        self.slot_tags.copy_from(&other.slot_tags);
    }

    /// Forgets all but that r10 points to the frame's end.
    pub(crate) fn clear(&mut self)
        ensures { self.new ≡ blank }
    {
        let mut all = [RegState::Any; 11];
        all[10] = RegState::Ptr(Pointer::start_of(Area::Frame));
        self.registers = all;
        self.slots.clear();
        self.clear_tags();
    }

    /// Forgets all counters.
    pub fn clear_tags(&mut self)
        ensures { self.new ≡ without_tags self.old }
    {
        self.register_tags = [None; 11];
        self.slot_tags.clear();
    }

    /// What is known of a second operand: a constant, sign-extended, or what is known of a register.
    pub fn operand(&self, src: Operand) -> RegState
        ensures value { result ≡ operand self.now src }
        ensures ordered { IsRegister result }
    {
        match src {
            Operand::Imm(imm) => RegState::Num(Num::constant((imm as i64).cast_unsigned())),
            Operand::Reg(r) => self.reg(r),
        }
    }

    pub(crate) fn register_tag(&self, r: Reg) -> Option<Tag>
        ensures { result ≡ register_tag self.now r }
    {
        self.register_tags[r as usize]
    }

    pub(crate) fn operand_tag(&self, src: Operand) -> Option<Tag>
        ensures { result ≡ operand_tag self.now src }
    {
        match src {
            Operand::Imm(_imm) => None,
            Operand::Reg(r) => self.register_tag(r),
        }
    }

    /// Makes this what is known of a register, and its counter.
    pub(crate) fn put_register(&mut self, r: Reg, value: RegState, tag: Option<Tag>)
        requires { IsRegister value }
        ensures { self.new ≡ put_register r value tag self.old }
    {
        let place = r as usize;
        self.registers[place] = value;
        self.register_tags[place] = tag;
    }

    /// Another content and counter of the slot at a place among all.
    pub(crate) fn put_slot(&mut self, index: usize, value: SlotState, tag: Option<Tag>)
        requires place { index < 64 }
        requires mask { IsSlot value }
        ensures { self.new ≡ put_slot (suc index) value tag self.old }
    {
        self.slots.set(index, value);
        self.slot_tags.set(index, tag);
    }
}
