//! Where functions keep what hardening adds: registers that they don't use, and bytes of the frame below their own. It
//! is a register allocation with spilling, made anew for each plan. Each value has a place for the whole function, so
//! none interfere, and there is no graph to colour (Chaitin and others, Register allocation via coloring, 1981).

use crate::old::Old;
use crate::plan::Plan;
use crate::uses::{BY_CHOICE, FunctionUses};
use bpf_infer_base::{Flow, HardenError, PlaceSet, get_or, put};
use bpf_insn::{FRAME_BYTES, FRAME_SLOTS, Reg};
use bpf_num::Num;
use bpf_state::Place;
use std::alloc::Global;

/// How many instructions from a loop's head on its counter may stand.
const COUNTED_WITHIN: u32 = 16;

/// The registers in which something may be kept, in the order in which they are taken.
const KEPT_IN: [Reg; 7] = [
    Reg::R9,
    Reg::R8,
    Reg::R7,
    Reg::R6,
    Reg::R5,
    Reg::R4,
    Reg::R3,
];

/// What a function keeps, and what it is given and gives.
#[derive(Clone, Copy, Default)]
pub struct Room {
    /// The pointer to the context's start.
    pub base: Option<Place>,
    /// The end of a block's packet, as an offset.
    pub end: Option<Place>,
    /// How many bytes of its frame its own accesses may reach.
    pub frame: u32,
    /// How many of these registers other than r10 may reach.
    pub reach: u32,
    /// The number of the frame's slot in which a register is saved for a while.
    pub scratch: Option<u8>,
    /// The register in which it is given the pointer to the context's start.
    pub handed: Option<Reg>,
    /// The one in which it is given the end of a block's packet. None where it finds that out itself.
    pub handed_end: Option<Reg>,
    /// What its trap answers its caller, who tests it.
    pub spare: Option<i32>,
    /// Whether it may come to a trap.
    pub traps: bool,
    /// The registers that hold what it keeps.
    pub taken: PlaceSet,
    /// How many loops share their counter; 0 if each has one of its own.
    pub sharing: u32,
}

/// What the functions of a program keep.
#[derive(Drop)]
pub struct Rooms {
    /// By the functions' numbers.
    rooms: Vec<Room>,
    /// By old slots, where the turns of the loop are counted.
    counters: Vec<Option<Place>>,
    /// By the heads of loops, where their turns are counted, if no others are there.
    own: Vec<Option<Place>>,
}

/// What is still free in a function.
#[derive(Clone, Copy)]
struct Space {
    uses: FunctionUses,
    taken: PlaceSet,
    /// How many slots of the frame are taken: below those that the function uses, or from the frame's start on where nothing
    /// bounds these.
    slots: u32,
}

impl Space {
    /// How many bytes of the frame are the function's own.
    fn frame(&self) -> u32 {
        if self.uses.is_wild {
            (FRAME_BYTES as u32).saturating_sub(self.slots.saturating_mul(8))
        } else {
            self.uses.depth
        }
    }

    /// Whether a register is free: one that calls keep, or one that they don't where there is none.
    fn is_free(&self, r: Reg) -> bool {
        let is_kept = matches!(r, Reg::R6 | Reg::R7 | Reg::R8 | Reg::R9);
        let needed = self.uses.registers.union(self.taken);
        (is_kept || !self.uses.calls) && !needed.has(Place::Register(r))
    }

    /// Whether a register is neither kept nor one of those that are read.
    fn has_idle(&self, live: PlaceSet) -> bool {
        let needed = live.union(self.taken);
        BY_CHOICE
            .into_iter()
            .any(|r| !needed.has(Place::Register(r)))
    }

    /// A slot of the frame, by its number.
    fn slot(&mut self) -> Option<u8> {
        let used = self.uses.depth / 8;
        if used.saturating_add(self.slots) >= FRAME_SLOTS as u32 {
            return None;
        }
        let number = if self.uses.is_wild {
            (FRAME_SLOTS as u32).saturating_sub(self.slots)
        } else {
            used.saturating_add(self.slots).saturating_add(1)
        };
        self.slots = self.slots.saturating_add(1);
        u8::try_from(number).ok()
    }

    /// A slot for registers that are saved for a while. Where nothing bounds what the function writes, the frame isn't begun
    /// for it.
    fn scratch(&mut self) -> Option<u8> {
        if self.uses.is_wild && self.slots == 0 {
            return None;
        }
        self.slot()
    }

    /// How many places there are, but for one slot in which registers are saved.
    fn places(&self) -> u32 {
        let used = (self.uses.depth / 8).saturating_add(self.slots);
        let registers = KEPT_IN.into_iter().filter(|r| self.is_free(*r)).count();
        let slots = (FRAME_SLOTS as u32).saturating_sub(used).saturating_sub(1);
        slots.saturating_add(u32::try_from(registers).unwrap_or(0))
    }

    /// A register or else a slot.
    fn place(&mut self) -> Option<Place> {
        let Some(r) = KEPT_IN.into_iter().find(|r| self.is_free(*r)) else {
            return Some(Place::Slot(self.slot()?));
        };
        self.taken.add(Place::Register(r));
        Some(Place::Register(r))
    }
}

/// A number that a function doesn't return, next to those that it may, if it fits a comparison.
fn spare_of(ret: Num) -> Option<i32> {
    let returned = ret.signed();
    let above = returned.hi().saturating_add(1);
    let below = returned.lo().saturating_sub(1);
    if above > returned.hi() {
        if let Ok(spare) = i32::try_from(above) {
            return Some(spare);
        }
    }
    if below < returned.lo() {
        return i32::try_from(below).ok();
    }
    None
}

/// The register in which a function is given what it keeps in a place: that itself where it is an argument, else one that isn't read. In
/// neither case the one in which it is given something else.
fn handed_to(uses: FunctionUses, place: Option<Place>, other: Option<Reg>) -> Option<Reg> {
    let arguments = [Reg::R5, Reg::R4, Reg::R3, Reg::R2, Reg::R1];
    let is_open = |r: &Reg| Some(*r) != other && !uses.arguments.has(Place::Register(*r));
    match place {
        Some(Place::Register(r)) if arguments.contains(&r) && is_open(&r) => Some(r),
        _ => arguments.into_iter().find(is_open),
    }
}

impl Rooms {
    /// What the functions of a program keep under a plan. H3 at a function that has no room, H6 at one that reads five
    /// arguments and needs the context.
    pub fn of(alloc: Global, old: &Old, plan: &Plan) -> Result<Rooms, HardenError> {
        let mut rooms = Rooms {
            rooms: vec![in alloc; Room::default(); old.count()]?,
            counters: vec![in alloc; None; old.program.slots() as usize]?,
            own: vec![in alloc; None; old.program.slots() as usize]?,
        };
        for function in 0..old.count() {
            rooms.furnish(old, plan, function)?;
        }
        for function in &old.cfg.callees_first {
            rooms.note_traps(old, plan, *function);
        }
        Ok(rooms)
    }

    /// What a function keeps.
    pub fn room(&self, function: usize) -> Room {
        get_or(&self.rooms, function, Room::default())
    }

    /// Where the turns of the loop are counted that has its counter at a slot.
    pub fn counter(&self, slot: u32) -> Option<Place> {
        get_or(&self.counters, slot as usize, None)
    }

    /// Where the turns of the loop with this head are counted, and no others.
    pub fn own_counter(&self, head: u32) -> Option<Place> {
        get_or(&self.own, head as usize, None)
    }

    // ---- places

    /// Finds the places of a function.
    fn furnish(&mut self, old: &Old, plan: &Plan, function: usize) -> Result<(), HardenError> {
        let uses = old.uses(function);
        let mut space = Space {
            uses,
            taken: PlaceSet::NONE,
            slots: 0,
        };
        let mut room = Room::default();
        if plan.offsets && uses.needs_context {
            room.base = Some(taken(space.place(), uses)?);
            room.handed = handed_to(uses, room.base, None);
            if function > 0 && room.handed.is_none() {
                return Err(HardenError::FiveArguments { slot: uses.first });
            }
            if plan.options.padded {
                room.end = Some(taken(space.place(), uses)?);
                room.handed_end = handed_to(uses, room.end, room.handed);
            }
        }
        room.sharing = sharing(plan, function, &space);
        self.place_counters(old, plan, room.sharing > 0, &mut space)?;
        room.scratch = space.scratch();
        room.frame = space.frame();
        room.reach = uses.reach_of(room.frame);
        room.taken = space.taken;
        room.spare = self.spare(old, function);
        put(&mut self.rooms, function, room);
        Ok(())
    }

    /// Finds a place for each counter of a function, or one for all.
    fn place_counters(
        &mut self,
        old: &Old,
        plan: &Plan,
        is_shared: bool,
        space: &mut Space,
    ) -> Result<(), HardenError> {
        let uses = space.uses;
        let mut shared = None;
        for slot in uses.first..uses.end {
            if plan.at(slot).counts {
                let place = match shared {
                    Some(place) => place,
                    None => taken(space.place(), uses)?,
                };
                let counting = counting_slot(old, space, slot, place);
                put(&mut self.counters, counting as usize, Some(place));
                if is_shared {
                    shared = Some(place);
                } else {
                    put(&mut self.own, slot as usize, Some(place));
                }
            }
        }
        Ok(())
    }

    // ---- traps

    /// What the trap of a function answers its caller, who tests it.
    fn spare(&self, old: &Old, function: usize) -> Option<i32> {
        if function == 0 {
            return None;
        }
        spare_of(get_or(&old.survey.rets, function, Num::top()))
    }

    /// Takes note whether a function may come to a trap. Those that it calls come before it.
    fn note_traps(&mut self, old: &Old, plan: &Plan, function: usize) {
        let uses = old.uses(function);
        let may_trap = |slot| {
            let planned = plan.at(slot);
            planned.guard.is_some()
                || planned.counts
                || leads_out(old, plan, slot)
                || self.calls_trap(old, slot)
        };
        let traps = (uses.first..uses.end).any(may_trap);
        if let Some(room) = self.rooms.get_mut(function) {
            room.traps = traps;
        }
    }

    /// Whether the instruction at a slot calls a function that may come to a trap, told from what it returns.
    fn calls_trap(&self, old: &Old, slot: u32) -> bool {
        old.callee(slot)
            .map(|callee| self.room(callee))
            .is_some_and(|room| room.traps && room.spare.is_some())
    }
}

/// How many loops of a function share their counter: all, where they jump into one another or there is no place for one each.
fn sharing(plan: &Plan, function: usize, space: &Space) -> u32 {
    let slots = space.uses.first..space.uses.end;
    let count = slots.filter(|slot| plan.at(*slot).counts).count();
    let count = u32::try_from(count).unwrap_or(u32::MAX);
    if plan.of(function).shares || count > space.places() {
        count
    } else {
        0
    }
}

/// The slot in front of which the turns of the loop with its head at a slot are counted. A counter in the frame needs a register
/// for a while: so it goes behind the first instructions of the loop, where one of these leaves a register that isn't read.
fn counting_slot(old: &Old, space: &Space, head: u32, place: Place) -> u32 {
    if let Place::Register(_) = place {
        return head;
    }
    let mut slot = head;
    for _ in 0..COUNTED_WITHIN {
        if space.has_idle(old.live.before(slot)) {
            return slot;
        }
        match old.following(slot) {
            Some(next) => slot = next,
            None => return head,
        }
    }
    head
}

/// A place that was found. H3 if there is none.
fn taken(found: Option<Place>, uses: FunctionUses) -> Result<Place, HardenError> {
    found.ok_or(HardenError::FullFrame { slot: uses.first })
}

/// Whether an instruction that is reached leads to one that isn't.
fn leads_out(old: &Old, plan: &Plan, slot: u32) -> bool {
    let Some(insn) = plan.kept(old, slot) else {
        return false;
    };
    Flow::ways(slot, insn)
        .into_iter()
        .flatten()
        .any(|way| plan.kept(old, way).is_none())
}
