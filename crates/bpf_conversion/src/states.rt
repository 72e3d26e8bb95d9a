//! What is known at a slot of a converted filter: r1 is the context's start, r2 how many bytes of the packet are there, r0, r3 and the
//! cells hold numbers where they are surely set, r4 behind the test of an index leads to bytes that are there, and r5 is how often a run may still
//! jump back.

ghost use Rattle.std.specs.Prelude.{◌≡◌, ◌≤◌};
ghost use Rattle.bpf_state.specs.State.{IsRegister, blank};
ghost use Rattle.bpf_conversion.specs.Known.{between, with_cells, room_known, entry_room, number_if, index_known, may_turn, turns_known, cell_known, cells_known, entry_known, template_known, known_at};

use crate::parts::Stretch;
use bpf_classic::layout::bytes;
use bpf_classic::{Annotated, Classic, Form, Layout};
use bpf_insn::Reg;
use bpf_num::{KnownBits, Num, Signed, Unsigned, WordDomain};
use bpf_state::{RegState, SlotState, State};

/// A number from `least` to `most`; the checker finds what its bits and its sign are.
fn between(least: u32, most: u32) -> RegState
    requires { least ≤ most }
    ensures value { result ≡ between least most }
    ensures ordered { IsRegister result }
{
    let range = Unsigned::new(u64::from(least), u64::from(most));
    RegState::Num(Num::of(KnownBits::top(), range, Signed::top()))
}

/// How many bytes of the packet are there.
fn room_known(layout: &Layout) -> RegState
    ensures value { result ≡ room_known layout.now }
    ensures ordered { IsRegister result }
{
    between(layout.known_first(), layout.room())
}

/// The same in the entry: a block's length isn't known before it is loaded, nor where it is above what a block can hold.
fn entry_room(layout: &Layout, slot: u32) -> RegState
    ensures value { result ≡ entry_room layout.now slot }
    ensures ordered { IsRegister result }
{
    match layout.form {
        Form::Blocks | Form::Extended => {
            if slot == 0 || slot == 2 {
                return RegState::Any;
            }
        }
        Form::Plain | Form::Seccomp => {}
    }
    room_known(layout)
}

/// A number, where it is set.
fn number_if(set: bool) -> RegState
    ensures value { result ≡ number_if set }
    ensures ordered { IsRegister result }
{
    if set {
        return RegState::Num(Num::top());
    }
    RegState::Any
}

/// Behind the test of an index, the end of the bytes that are loaded.
fn index_known(layout: &Layout, insn: &Classic, offset: u32) -> RegState
    ensures value { result ≡ index_known layout.now insn.now offset }
    ensures ordered { IsRegister result }
{
    match *insn {
        Classic::Index { size, k } => {
            if offset != 3 {
                return RegState::Any;
            }
            let room = layout.room();
            let end = u64::from(k) + u64::from(bytes(size));
            between(end.min(u64::from(room)) as u32, room)
        }
        Classic::Constant { .. } | Classic::Length { .. } | Classic::Cell { .. } => RegState::Any,
        Classic::Store { .. } | Classic::At { .. } | Classic::Header { .. } => RegState::Any,
        Classic::Extension { .. } | Classic::Alu { .. } | Classic::Neg => RegState::Any,
        Classic::Jump { .. } | Classic::Back { .. } | Classic::JumpIf { .. } => RegState::Any,
        Classic::Return { .. } | Classic::ReturnA | Classic::Tax | Classic::Txa => RegState::Any,
    }
}

/// Whether the slot is behind the test that a run may jump back once more.
fn may_turn(insn: &Classic, offset: u32) -> bool
    ensures { result ≡ may_turn insn.now offset }
{
    match *insn {
        Classic::Back { .. } => offset == 1,
        Classic::Constant { .. } | Classic::Length { .. } | Classic::Cell { .. } => false,
        Classic::Store { .. } | Classic::At { .. } | Classic::Index { .. } => false,
        Classic::Header { .. } | Classic::Extension { .. } | Classic::Alu { .. } => false,
        Classic::Neg | Classic::Jump { .. } | Classic::JumpIf { .. } => false,
        Classic::Return { .. } | Classic::ReturnA | Classic::Tax | Classic::Txa => false,
    }
}

/// How often a run may still jump back.
fn turns_known(layout: &Layout, insn: &Classic, offset: u32) -> RegState
    ensures value { result ≡ turns_known layout.now insn.now offset }
    ensures ordered { IsRegister result }
{
    if !layout.loops {
        return RegState::Any;
    }
    let turns = u32::from(layout.turns);
    if may_turn(insn, offset) {
        return between(1, turns.max(1));
    }
    between(0, turns)
}

/// A cell that may be loaded is set.
fn set_cell(state: &mut State, a: &Annotated)
    ensures { state.new ≡ with_cells (cell_known a.now.reached a.now.insn state.old.slots) state.old }
{
    match a.insn {
        Classic::Cell { cell, .. } => {
            if a.reached {
                state.set_slot((cell % 16) as u8 + 1, SlotState::Word(Num::top()));
            }
        }
        Classic::Constant { .. } | Classic::Length { .. } | Classic::Store { .. } => {}
        Classic::At { .. } | Classic::Index { .. } | Classic::Header { .. } => {}
        Classic::Extension { .. } | Classic::Alu { .. } | Classic::Neg => {}
        Classic::Jump { .. } | Classic::Back { .. } | Classic::JumpIf { .. } => {}
        Classic::Return { .. } | Classic::ReturnA | Classic::Tax | Classic::Txa => {}
    }
}

fn set_cells(state: &mut State, list: &[Annotated])
    ensures { state.new ≡ with_cells (cells_known list.now state.old.slots) state.old }
{
    for a in list {
        set_cell(state, a);
    }
}

fn entry_known(layout: &Layout, slot: u32, state: &mut State)
    ensures { state.new ≡ entry_known layout.now slot }
{
    state.begin(layout.length, layout.length);
    state.set_reg(Reg::R2, entry_room(layout, slot));
}

fn template_known(
    layout: &Layout,
    list: &[Annotated],
    a: &Annotated,
    offset: u32,
    state: &mut State,
)
    ensures { state.new ≡ template_known layout.now list.now a.now offset }
{
    state.begin(layout.length, layout.length);
    state.set_reg(Reg::R0, number_if(a.a));
    state.set_reg(Reg::R2, room_known(layout));
    state.set_reg(Reg::R3, number_if(a.x));
    state.set_reg(Reg::R4, index_known(layout, &a.insn, offset));
    state.set_reg(Reg::R5, turns_known(layout, &a.insn, offset));
    set_cells(state, list);
}

fn trap_known(layout: &Layout, state: &mut State)
    ensures { state.new ≡ blank }
{
    state.begin(layout.length, layout.length);
    state.set_reg(Reg::R1, RegState::Any);
    state.set_reg(Reg::R2, RegState::Any);
}

/// Makes a state what is known at a slot. It stays in its place, since a state is large.
pub fn known_at(layout: &Layout, list: &[Annotated], part: Stretch, slot: u32, state: &mut State)
    ensures { state.new ≡ known_at layout.now list.now part slot }
{
    match part {
        Stretch::Entry => entry_known(layout, slot, state),
        Stretch::Template { a, offset } => template_known(layout, list, &a, offset, state),
        Stretch::Trap { .. } => trap_known(layout, state),
    }
}
