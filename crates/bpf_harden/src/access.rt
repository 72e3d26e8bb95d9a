//! Accesses by offsets: guards, and pointers that are made for one access.
//!
//! What is tested has a span, from a first byte to an end, counted from the base. A guard leads to the trap unless the
//! span lies in its region. It is one of three tests:
//!
//! - of the base itself, which lies between the least and the greatest offset with which the span lies there;
//! - of a copy that is moved to the span's first byte, if the offset may be below 0 (an exact guard);
//! - of a copy that is moved to the span's end, if the region's end is known only as the program runs.
//!
//! The order is: the test of the base; copy and move; the test of the copy; the region's start is added; the access.

use crate::edits::{loaded, with_base};
use crate::parts::{add, add_constant, alu, constant, copy, displacement, fetch, is_near};
use crate::plan::{ByteSpan, Guard};
use crate::region::AccessRegion;
use crate::share::{Share, SharedPointer, stores};
use crate::temps::{Temp, Way, first_of};
use crate::writer::TextWriter;
use bpf_infer_base::{Change, HardenError, PlaceSet};
use bpf_insn::{Access, AluOp, Cond, Insn, Operand, Reg};
use bpf_state::Place;
use std::alloc::AllocError;

/// An access by an offset.
#[derive(Clone, Copy)]
pub struct AccessSite {
    pub slot: u32,
    pub insn: Insn,
    pub access: Access,
    pub region: AccessRegion,
    pub guard: Option<Guard>,
}

impl AccessSite {
    /// How many bytes it accesses.
    fn bytes(&self) -> i64 {
        i64::from(self.access.size.bytes())
    }

    /// The displacement from its base.
    fn off(&self) -> i64 {
        i64::from(self.access.off)
    }

    /// The registers that it reads or fills.
    fn registers(&self) -> PlaceSet {
        PlaceSet::read_by(&self.insn).union(PlaceSet::written_by(&self.insn))
    }

    /// The register that has what a place keeps: its own one, or the one that is loaded.
    fn register_for(&self, place: Place) -> Option<Reg> {
        match place {
            Place::Register(r) => Some(r),
            Place::Slot(_) => loaded(&self.insn),
        }
    }

    /// Whether it reads its base as a value too.
    pub fn reads_base_twice(&self) -> bool {
        stores(&self.insn, self.access.base)
    }

    /// The bytes that its guard tests: its own, and those of further accesses that surely follow.
    fn span(&self) -> ByteSpan {
        self.guard
            .map_or(ByteSpan::of(self.access), |guard| guard.span)
    }

    /// How many bytes its guard tests.
    fn width(&self) -> i64 {
        self.span().to.saturating_sub(self.span().from)
    }

    /// The least offset in the base with which what is tested lies in the region.
    fn least(&self) -> i64 {
        self.region.start.saturating_sub(self.span().from)
    }

    /// The greatest.
    fn most(&self) -> i64 {
        let end = self.region.start.saturating_add(self.region.bytes);
        end.saturating_sub(self.span().to)
    }

    /// Whether what is tested lies in the region with no offset from 0 on.
    fn never_lies(&self) -> bool {
        let is_exact = self.guard.is_some_and(|guard| guard.exact);
        self.region.bytes < self.width() || !is_exact && self.most() < 0
    }

    /// What its base is moved by before it is tested. A guard that is exact tests where the bytes begin, from the region's
    /// start on; one against an end that is known as the program runs tests where they end.
    fn moved_by(&self) -> i64 {
        match self.guard {
            Some(_) if self.region.end.is_some() => self.span().to,
            Some(guard) if guard.exact => self.span().from.saturating_sub(self.region.start),
            _ => 0,
        }
    }

    /// The displacement from the pointer that is made of the moved base.
    fn displacement(&self) -> i16 {
        self.displacement_from(self.moved_by())
    }

    /// The displacement from a pointer that was made of the base, moved by so much.
    pub fn displacement_from(&self, moved: i64) -> i16 {
        let left = self.off().saturating_sub(moved);
        displacement(left.saturating_sub(self.region.origin))
    }
}

impl<'a> TextWriter<'a> {
    /// Puts an access by an offset. Whether the next instruction may follow.
    pub fn access(&mut self, site: &AccessSite) -> Result<bool, HardenError> {
        let constant = self.plan.at(site.slot).constant;
        if self.always_leaves(site, constant) {
            self.trap(site.slot)?;
            return Ok(false);
        }
        if let Some(offset) = constant {
            if self.access_at(site, offset.saturating_add(site.off()))? {
                return Ok(true);
            }
        }
        if let Some(made) = self.made_for(site) {
            self.access_by(site, made)?;
        } else {
            self.access_moved(site)?;
        }
        Ok(true)
    }

    /// Whether a guard leads to the trap whenever it is reached.
    fn always_leaves(&self, site: &AccessSite, constant: Option<i64>) -> bool {
        if site.guard.is_none() {
            return false;
        }
        let is_out = match constant {
            Some(offset) => {
                let at = offset.saturating_add(site.off());
                !site.region.holds(at, site.bytes())
            }
            None => site.never_lies(),
        };
        is_out || self.plan.at(site.slot).is_hopeless
    }

    /// Puts an access at a constant offset, if it can be put so.
    fn access_at(&mut self, site: &AccessSite, at: i64) -> Result<bool, AllocError> {
        let from_origin = at.saturating_sub(site.region.origin);
        let Some(pointer) = site.register_for(site.region.base) else {
            return Ok(false);
        };
        let end = at.saturating_add(site.bytes());
        if !is_near(from_origin) || !self.test_end_at(site, end)? {
            return Ok(false);
        }
        if let Place::Slot(_) = site.region.base {
            self.add(site.slot, fetch(pointer, site.region.base), Change::Address)?;
        }
        let insn = with_base(&site.insn, pointer, displacement(from_origin));
        self.add(site.slot, insn, Change::Access)?;
        Ok(true)
    }

    /// Leads to the trap if a region ends in front of an offset, where that is known as the program runs. False if there is no
    /// register for it.
    fn test_end_at(&mut self, site: &AccessSite, offset: i64) -> Result<bool, AllocError> {
        let (Some(_), Some(end)) = (site.guard, site.region.end) else {
            return Ok(true);
        };
        let Some(r) = site.register_for(end) else {
            return Ok(false);
        };
        if let Place::Slot(_) = end {
            self.add(site.slot, fetch(r, end), Change::Guard)?;
        }
        self.guard_if(site.slot, Cond::Lt, r, offset)?;
        Ok(true)
    }

    /// Puts an access at an offset that a register holds.
    fn access_moved(&mut self, site: &AccessSite) -> Result<(), HardenError> {
        let share = self.share(site);
        let temp = self.temp(site, share)?;
        let pointer = temp.register;
        self.take(site.slot, temp)?;
        self.test_base(site)?;
        let is_direct = self.begin_pointer(site, pointer)?;
        self.test_moved(site, pointer)?;
        if !is_direct {
            self.add_base(site, pointer)?;
        }
        let insn = with_base(&site.insn, pointer, site.displacement());
        self.add(site.slot, insn, Change::Access)?;
        self.give_back(site.slot, temp)?;
        if temp.way == Way::InPlace {
            self.take_back(site)?;
        }
        if let Share::Base | Share::By(_) = share {
            self.made = Some(SharedPointer {
                base: site.access.base,
                pointer,
                moved: site.moved_by(),
            });
        }
        Ok(())
    }

    // ---- tests

    /// Tests the base itself, where the guard does that.
    fn test_base(&mut self, site: &AccessSite) -> Result<(), AllocError> {
        let Some(guard) = site.guard else {
            return Ok(());
        };
        if guard.exact || guard.early || site.region.end.is_some() {
            return Ok(());
        }
        let (least, most) = (site.least(), site.most());
        self.guard_between(site.slot, guard, site.access.base, least, most)?;
        Ok(())
    }

    /// Begins to make a pointer of the base: copies and moves it. Whether it is one already.
    fn begin_pointer(&mut self, site: &AccessSite, pointer: Reg) -> Result<bool, AllocError> {
        let base = site.access.base;
        let is_tested = site.guard.is_some_and(|guard| guard.exact) || site.region.end.is_some();
        if pointer != base {
            if let (Place::Slot(_), false) = (site.region.base, is_tested) {
                self.add(site.slot, fetch(pointer, site.region.base), Change::Address)?;
                self.add(site.slot, add(pointer, base), Change::Address)?;
                return Ok(true);
            }
            self.add(site.slot, copy(pointer, base), Change::Address)?;
        }
        let moved = site.moved_by();
        if moved != 0 {
            let insn = add_constant(pointer, constant(moved));
            self.add(site.slot, insn, Change::Guard)?;
        }
        Ok(false)
    }

    /// Tests the moved base, where the guard does that.
    fn test_moved(&mut self, site: &AccessSite, moved: Reg) -> Result<(), HardenError> {
        let Some(guard) = site.guard else {
            return Ok(());
        };
        if let Some(end) = site.region.end {
            if guard.high {
                self.test_end(site, moved, end)?;
            }
            if guard.low {
                let least = site.region.start.saturating_add(site.width());
                self.guard_if(site.slot, Cond::Lt, moved, least)?;
            }
        } else if guard.exact && guard.high {
            let most = site.region.bytes.saturating_sub(site.width());
            self.guard_if(site.slot, Cond::Gt, moved, most)?;
        }
        Ok(())
    }

    /// Leads to the trap if an access ends behind a place's offset.
    fn test_end(&mut self, site: &AccessSite, moved: Reg, end: Place) -> Result<(), HardenError> {
        let other = self.fetched(site, moved, end, Change::Guard)?;
        let src = Operand::Reg(other.register);
        self.trap_if(site.slot, Cond::Gt, moved, src, Change::Guard)?;
        Ok(self.give_back(site.slot, other)?)
    }

    /// Adds the region's base to an offset.
    fn add_base(&mut self, site: &AccessSite, pointer: Reg) -> Result<(), HardenError> {
        let other = self.fetched(site, pointer, site.region.base, Change::Address)?;
        let insn = add(pointer, other.register);
        self.add(site.slot, insn, Change::Address)?;
        Ok(self.give_back(site.slot, other)?)
    }

    /// The register that keeps what a place does, or one but the pointer's into which it is fetched.
    fn fetched(
        &mut self,
        site: &AccessSite,
        pointer: Reg,
        place: Place,
        change: Change,
    ) -> Result<Temp, HardenError> {
        if let Place::Register(register) = place {
            return Ok(Temp::free(register));
        }
        let other = self.other(site, pointer)?;
        self.take(site.slot, other)?;
        self.add(site.slot, fetch(other.register, place), change)?;
        Ok(other)
    }

    /// Gives the base its offset back.
    fn take_back(&mut self, site: &AccessSite) -> Result<(), AllocError> {
        let base = site.access.base;
        if let Place::Register(r) = site.region.base {
            let insn = alu(AluOp::Sub, base, Operand::Reg(r));
            self.add(site.slot, insn, Change::Address)?;
        }
        let moved = site.moved_by();
        if moved != 0 {
            let back = constant(0i64.saturating_sub(moved));
            self.add(site.slot, add_constant(base, back), Change::Address)?;
        }
        Ok(())
    }

    // ---- registers

    /// The register in which the pointer of an access is made.
    fn temp(&self, site: &AccessSite, share: Share) -> Result<Temp, HardenError> {
        let base = site.access.base;
        let shared = match share {
            Share::By(r) => Some(r),
            Share::Base => Some(base),
            Share::Alone if self.is_last_use(site) => Some(base),
            Share::Alone => None,
        };
        let free = first_of(self.free_after(site, base));
        if let Some(register) = shared.or(loaded(&site.insn)).or(free) {
            return Ok(Temp::free(register));
        }
        if let (Place::Register(_), false) = (site.region.base, site.reads_base_twice()) {
            return Ok(Temp {
                register: base,
                way: Way::InPlace,
            });
        }
        self.borrowed(site.slot, self.needed(site, base))
    }

    /// Whether an access needs its base no more than for this, and what is added to it is kept in a register.
    fn is_last_use(&self, site: &AccessSite) -> bool {
        let base = site.access.base;
        let live = self.old.live.after(site.slot, &site.insn);
        let is_kept = matches!(site.region.base, Place::Register(_));
        is_kept && !live.has(Place::Register(base)) && !site.reads_base_twice()
    }

    /// The registers that an access needs meanwhile, or its function: what is read or filled or kept, and one more.
    fn needed(&self, site: &AccessSite, more: Reg) -> PlaceSet {
        let needed = site.registers().union(self.kept_in(site.slot));
        needed.union(PlaceSet::of(Place::Register(more)))
    }

    /// The registers but one that hold nothing that is read behind an access, and that it doesn't fill.
    pub fn free_after(&self, site: &AccessSite, but: Reg) -> PlaceSet {
        let live = self.old.live.after(site.slot, &site.insn);
        PlaceSet::ALL.without(self.needed(site, but).union(live))
    }

    /// A register but this one: one that holds nothing which is read at an access or later, or else one that is saved
    /// meanwhile. H3 if the frame has no room for it.
    fn other(&self, site: &AccessSite, but: Reg) -> Result<Temp, HardenError> {
        match first_of(self.free_after(site, but)) {
            Some(register) => Ok(Temp::free(register)),
            None => self.borrowed(site.slot, self.needed(site, but)),
        }
    }
}
