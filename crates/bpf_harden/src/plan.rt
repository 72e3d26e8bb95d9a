//! The plan of a rewriting: what hardening changes at each old instruction, by a guard, a counter of turns or a wider operation, and in each
//! function. It begins empty, the rounds and mends of this crate add to it, and `emit.rt` writes the program that it asks for.

use crate::kinds::RegisterKind;
use crate::old::Old;
use bpf_infer_base::{Options, get_or};
use bpf_insn::{Access, Insn, Reg};
use std::alloc::{AllocError, Global};

/// Bytes beside a base, by displacements: from the first one to before the end.
#[derive(Clone, Copy)]
pub struct ByteSpan {
    pub from: i64,
    pub to: i64,
}

impl ByteSpan {
    /// The bytes that an access touches.
    pub fn of(access: Access) -> ByteSpan {
        let from = i64::from(access.off);
        ByteSpan {
            from,
            to: from.saturating_add(i64::from(access.size.bytes())),
        }
    }

    /// The bytes from the first of either on.
    pub fn with(self, other: ByteSpan) -> ByteSpan {
        ByteSpan {
            from: self.from.min(other.from),
            to: self.to.max(other.to),
        }
    }
}

/// A test in front of an access, which leads to the trap where the access would leave its region.
#[derive(Clone, Copy)]
pub struct Guard {
    /// The bytes that must lie in the region: those of the access, and of further ones that surely follow.
    pub span: ByteSpan,
    /// Where the access begins is computed first, modulo 2^64, and tested: also right where the register holds an offset before
    /// the region.
    pub exact: bool,
    /// Whether the lower end is tested.
    pub low: bool,
    /// Whether the upper end is tested.
    pub high: bool,
    /// Whether it is tested where the base gets its offset, by what is added there.
    pub early: bool,
}

/// A test of what is added to the base of an access, where it is added. It tells of both registers.
#[derive(Clone, Copy)]
pub struct Early {
    /// The slot of the access.
    pub access: u32,
    pub register: Reg,
    /// The offset in the base before.
    pub offset: i64,
}

impl Guard {
    /// A test of both ends.
    pub fn both(span: ByteSpan, exact: bool) -> Guard {
        Guard {
            span,
            exact,
            low: true,
            high: true,
            early: false,
        }
    }

    /// Itself, or none where it tests nothing and the access needs nothing of it.
    pub fn kept(self) -> Option<Guard> {
        (self.exact || self.low || self.high).then_some(self)
    }
}

/// What is planned for an old instruction.
#[derive(Clone, Copy, Default)]
pub struct AtSlot {
    /// What stands in front of the access.
    pub guard: Option<Guard>,
    /// The test in front of the sum.
    pub early: Option<Early>,
    /// The offset in the base of the access, if it is a constant.
    pub constant: Option<i64>,
    /// Whether a counter of turns stands in front.
    pub counts: bool,
    /// The head of a loop whose counter of turns is set anew in front.
    pub renews: Option<u32>,
    /// Whether a 32-bit operation becomes a 64-bit one.
    pub widens: bool,
    /// Whether it is left out though the old program's states reach it.
    pub is_left_out: bool,
    /// Whether the access always leaves its region.
    pub is_hopeless: bool,
}

/// What is planned for a function.
#[derive(Clone, Copy, Default)]
pub struct OfFunction {
    /// Whether all counters of turns are one.
    pub shares: bool,
    /// Whether the frame is set to zeros at the entry.
    pub zeroes: bool,
    /// Whether r0 is set to zero at the entry.
    pub clears: bool,
}

/// Plans what may be planned already. Whether it wasn't.
fn plan_on(planned: &mut bool) -> bool {
    let is_new = !*planned;
    *planned = true;
    is_new
}

/// What is planned for a program.
#[derive(Drop)]
pub struct Plan {
    pub options: Options,
    /// The length of the contexts in bytes.
    pub length: u32,
    /// Whether pointers into the context become offsets.
    pub offsets: bool,
    /// Whether pointers into frames become offsets.
    pub frames: bool,
    /// By old slots.
    slots: Vec<AtSlot>,
    /// By the functions' numbers.
    functions: Vec<OfFunction>,
}

impl Plan {
    /// Nothing is changed, but that a block's packet is reached by offsets.
    pub fn new(
        alloc: Global,
        options: Options,
        length: u32,
        slots: u32,
        functions: usize,
    ) -> Result<Plan, AllocError> {
        Ok(Plan {
            options,
            length,
            offsets: options.padded || options.everywhere,
            frames: false,
            slots: vec![in alloc; AtSlot::default(); slots as usize]?,
            functions: vec![in alloc; OfFunction::default(); functions]?,
        })
    }

    /// The offset at which what the old program may access of the context begins.
    pub fn start(&self) -> i64 {
        i64::from(self.options.head())
    }

    /// Whether a register of a kind holds offsets, where it is the base of an access.
    pub fn is_offset(&self, kind: RegisterKind, base: Reg) -> bool {
        match kind {
            RegisterKind::Context => self.offsets,
            RegisterKind::Frame => self.frames && base != Reg::R10,
            RegisterKind::Number | RegisterKind::Unknown => false,
        }
    }

    // ---- slots

    /// What is planned for the instruction at a slot.
    pub fn at(&self, slot: u32) -> AtSlot {
        get_or(&self.slots, slot as usize, AtSlot::default())
    }

    /// The same, to be changed.
    pub fn at_mut(&mut self, slot: u32) -> Option<&mut AtSlot> {
        self.slots.get_mut(slot as usize)
    }

    /// The old instruction at a slot, if it is kept.
    pub fn kept<'a>(&self, old: &Old<'a>, slot: u32) -> Option<&'a Insn> {
        if self.at(slot).is_left_out {
            return None;
        }
        old.kept(slot)
    }

    /// Makes this the guard in front of the access at a slot, or none.
    pub fn set_guard(&mut self, slot: u32, guard: Option<Guard>) {
        if let Some(planned) = self.at_mut(slot) {
            planned.guard = guard;
        }
    }

    /// Puts a counter of turns in front of the instruction at a slot. Whether there was none.
    pub fn count(&mut self, slot: u32) -> bool {
        self.at_mut(slot)
            .is_some_and(|planned| plan_on(&mut planned.counts))
    }

    /// Takes the counter of turns in front of the instruction at a slot away.
    pub fn uncount(&mut self, slot: u32) {
        if let Some(planned) = self.at_mut(slot) {
            planned.counts = false;
        }
    }

    /// Sets the counter of the loop with this head anew in front of the instruction at a slot. Whether none was set there.
    pub fn renew(&mut self, slot: u32, head: u32) -> bool {
        let Some(planned) = self.at_mut(slot) else {
            return false;
        };
        let is_new = planned.renews.is_none();
        if is_new {
            planned.renews = Some(head);
        }
        is_new
    }

    /// Leaves the instruction at a slot out. Whether it wasn't.
    pub fn leave_out(&mut self, slot: u32) -> bool {
        self.at_mut(slot)
            .is_some_and(|planned| plan_on(&mut planned.is_left_out))
    }

    /// Makes the operation at a slot a 64-bit one. Whether it wasn't.
    pub fn widen(&mut self, slot: u32) -> bool {
        self.at_mut(slot)
            .is_some_and(|planned| plan_on(&mut planned.widens))
    }

    /// Leaves the operation at a slot a 32-bit one.
    pub fn narrow(&mut self, slot: u32) {
        if let Some(planned) = self.at_mut(slot) {
            planned.widens = false;
        }
    }

    /// The access at a slot always leaves its region. Whether that is new.
    pub fn give_up(&mut self, slot: u32) -> bool {
        self.at_mut(slot)
            .is_some_and(|planned| plan_on(&mut planned.is_hopeless))
    }

    // ---- functions

    /// What is planned for a function.
    pub fn of(&self, function: usize) -> OfFunction {
        get_or(&self.functions, function, OfFunction::default())
    }

    /// The same, to be changed.
    fn of_mut(&mut self, function: usize) -> Option<&mut OfFunction> {
        self.functions.get_mut(function)
    }

    /// Makes all counters of turns in a function one. Whether they weren't.
    pub fn share(&mut self, function: usize) -> bool {
        self.of_mut(function)
            .is_some_and(|planned| plan_on(&mut planned.shares))
    }

    /// Sets a function's frame to zeros. Whether it wasn't.
    pub fn zero(&mut self, function: usize) -> bool {
        self.of_mut(function)
            .is_some_and(|planned| plan_on(&mut planned.zeroes))
    }

    /// Sets r0 to zero at the entry of a function. Whether it wasn't.
    pub fn clear(&mut self, function: usize) -> bool {
        self.of_mut(function)
            .is_some_and(|planned| plan_on(&mut planned.clears))
    }
}
