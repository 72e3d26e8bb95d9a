//! Liveness, backwards over a function's labels, callees first (Kildall, "A Unified Approach to Global Program Optimization", 1973);
//! and states that say no more than what is read.

use bpf_infer_base::{Flow, LabelState, PlaceSet, Task, Visitor, WRITABLE, get_or, put};
use bpf_insn::{Access, Insn, Reg, Size};
use bpf_num::{KnownBits, Num, Signed, Unsigned, WordDomain};
use bpf_state::{Entries, Place, RegState, SlotState, State};
use std::alloc::{AllocError, Global};

/// The most rounds over a function. Where they don't do, all places stay.
const ROUNDS: u32 = 64;

// ---- what instructions read

/// What an instruction reads, and what it writes as a whole.
#[derive(Clone, Copy, Default)]
struct Needs {
    read: PlaceSet,
    written: PlaceSet,
}

/// The slot that a store writes as a whole.
fn slot_written(state: &State, access: Access) -> PlaceSet {
    if let (Size::DW, RegState::Ptr(p)) = (access.size, state.reg(access.base)) {
        let offset = p.lo.saturating_add(access.off as i64);
        if p.lo == p.hi && offset & 7 == 0 {
            return PlaceSet::touched_by(access, state);
        }
    }
    PlaceSet::NONE
}

/// What an instruction reads and writes in a state, but for what a callee reads.
fn needs_of(insn: &Insn, state: &State) -> Needs {
    let mut needs = Needs {
        read: PlaceSet::read_by(insn),
        written: PlaceSet::written_by(insn),
    };
    if let Some(access) = insn.access() {
        if access.reads {
            needs.read = needs.read.union(PlaceSet::touched_by(access, state));
        } else {
            needs.written = needs.written.union(slot_written(state, access));
        }
    }
    needs
}

// ---- what is read later

/// The places that are read behind each label before they are written.
#[derive(Drop)]
struct LabelLiveness<'a> {
    task: Task<'a>,
    /// By functions, what each reads of what it begins with.
    callees: &'a [PlaceSet],
    /// By slots from the function's first on.
    needs: Vec<Needs>,
    /// By labels.
    live: Vec<PlaceSet>,
}

impl<'a> Visitor for LabelLiveness<'a> {
    type Stop = AllocError;

    fn before(&mut self, slot: u32, insn: &Insn, state: &State) -> Result<(), AllocError> {
        let mut needs = needs_of(insn, state);
        if let Flow::Call(target) = Flow::of(slot, insn) {
            let callee = self.task.cfg.function_of(target);
            let read = get_or(&self.callees, callee, PlaceSet::ALL);
            needs.read = needs.read.union(read.intersection(PlaceSet::HANDED_OVER));
        }
        let index = self.task.blocks.index(slot);
        put(&mut self.needs, index, needs);
        Ok(())
    }
}

impl<'a> LabelLiveness<'a> {
    /// The places that are read behind a label, as far as is known.
    fn live_at(&self, label: usize) -> PlaceSet {
        get_or(&self.live, label, PlaceSet::NONE)
    }

    /// What is read before an instruction, from what is read behind it.
    fn before(&self, slot: u32, insn: &Insn, behind: PlaceSet) -> PlaceSet {
        let blocks = self.task.blocks;
        let mut live = if insn.goes_on() {
            behind
        } else {
            PlaceSet::NONE
        };
        if let Some(target) = Flow::of(slot, insn).jump() {
            live = live.union(self.live_at(blocks.block_of(target)));
        }
        let needs = get_or(&self.needs, blocks.index(slot), Needs::default());
        live.without(needs.written).union(needs.read)
    }

    /// What is read behind a label, by its block's instructions and from what is read behind the labels that follow.
    fn behind(&self, label: usize) -> PlaceSet {
        let blocks = self.task.blocks;
        let mut live = self.live_at(label.saturating_add(1));
        for slot in (blocks.label(label)..blocks.block_end(label)).rev() {
            if let Some(insn) = self.task.program.at(slot) {
                live = self.before(slot, insn, live);
            }
        }
        live
    }

    /// Goes over all blocks. Whether something changed.
    fn round(&mut self) -> bool {
        let mut has_changed = false;
        for label in (0..self.live.len()).rev() {
            let live = self.behind(label);
            if live != self.live_at(label) {
                put(&mut self.live, label, live);
                has_changed = true;
            }
        }
        has_changed
    }
}

/// By labels, the places that are read behind each before they are written.
pub fn places_read(
    task: Task,
    states: &[LabelState],
    callees: &[PlaceSet],
) -> Result<Vec<PlaceSet>, AllocError> {
    let (alloc, count) = (task.alloc, task.blocks.count());
    let mut liveness = LabelLiveness {
        task,
        callees,
        needs: vec![in alloc; Needs::default(); task.blocks.slots()]?,
        live: vec![in alloc; PlaceSet::NONE; count]?,
    };
    task.walk_all(states, &mut liveness)?;
    for _ in 0..ROUNDS {
        if !liveness.round() {
            return Ok(liveness.live);
        }
    }
    vec![in alloc; PlaceSet::ALL; count]
}

// ---- less to say

/// The same number by fewer parts, where those that are left imply the others.
pub fn least_number(number: Num) -> Num {
    let Some(full) = number.tighten() else {
        return number;
    };
    let (bits, unsigned, signed) = (number.bits(), number.unsigned(), number.signed());
    let (no_bits, no_unsigned, no_signed) = (KnownBits::top(), Unsigned::top(), Signed::top());
    for fewer in [
        Num::top(),
        Num::of(no_bits, unsigned, no_signed),
        Num::of(no_bits, no_unsigned, signed),
        Num::of(bits, no_unsigned, no_signed),
        Num::of(no_bits, unsigned, signed),
        Num::of(bits, unsigned, no_signed),
        Num::of(bits, no_unsigned, signed),
    ] {
        if let Some(tight) = fewer.tighten() {
            if tight.entails(full) {
                return fewer;
            }
        }
    }
    number
}

/// Forgets registers that aren't read, and what of the others is implied.
fn keep_live_registers(state: &mut State, live: PlaceSet) {
    for i in 0..WRITABLE {
        let r = Reg::numbered(i as u8);
        if !live.has(Place::Register(r)) {
            state.set_reg(r, RegState::Any);
        } else if let RegState::Num(number) = state.reg(r) {
            state.set_reg(r, RegState::Num(least_number(number)));
        }
    }
}

/// Forgets slots that aren't read, and what of the others is implied.
fn keep_live_slots(state: &mut State, live: PlaceSet) {
    for k in 1..65u8 {
        if !live.has(Place::Slot(k)) {
            state.set_slot(k, SlotState::Bytes(0));
        } else if let SlotState::Word(number) = state.slot(k) {
            state.set_slot(k, SlotState::Word(least_number(number)));
        }
    }
}

/// Makes labels' states say nothing of places that aren't read behind them, and no more of numbers than is needed.
pub fn keep_live(
    alloc: Global,
    states: &mut Vec<LabelState>,
    live: &[PlaceSet],
) -> Result<(), AllocError> {
    let mut room = State::blank();
    for label in 0..states.len() {
        let read = get_or(live, label, PlaceSet::ALL);
        if let Some(Some(state)) = states.get_mut(label) {
            state.put_into(&mut room);
            keep_live_registers(&mut room, read);
            keep_live_slots(&mut room, read);
            *state = Entries::of(alloc, &room)?;
        }
    }
    Ok(())
}
