//! Pointers that several accesses go by: those by one base that follow one another, with nothing that is tested in
//! between. They are local common subexpressions (Cocke, Global common subexpression elimination, 1970).

use crate::access::AccessSite;
use crate::edits::with_base;
use crate::temps::first_of;
use crate::writer::TextWriter;
use bpf_infer_base::{Change, PlaceSet};
use bpf_insn::{Insn, Reg};
use bpf_state::Place;
use std::alloc::AllocError;

/// How many instructions may lie between accesses that go by one pointer.
const LONGEST_SHARE: u32 = 32;

/// A pointer that was made of a base, and is there until one of both registers is written, or another instruction needs one.
#[derive(Clone, Copy)]
pub struct SharedPointer {
    pub base: Reg,
    pub pointer: Reg,
    /// By how much the base was moved for it.
    pub moved: i64,
}

/// Which register is to hold the pointer of an access and of further ones.
#[derive(Clone, Copy)]
pub enum Share {
    /// No further one goes by it.
    Alone,
    /// This one, which no instruction in between needs.
    By(Reg),
    /// The base itself, which nothing reads but accesses, up to where it holds nothing more that is read.
    Base,
}

/// What is found of the accesses by a base that follow one.
#[derive(Clone, Copy)]
struct ShareSearch {
    /// The registers that nothing needs so far.
    free: PlaceSet,
    /// The one that the pointer may be in.
    found: Option<Reg>,
    /// Whether there is a further access.
    is_shared: bool,
    /// Whether something else reads the base.
    is_read: bool,
}

impl<'a> TextWriter<'a> {
    /// A pointer that was made is gone where its register, or its base, is written.
    pub fn forget(&mut self, written: Reg) {
        if let Some(made) = self.made {
            if made.pointer == written || made.base == written {
                self.made = None;
            }
        }
    }

    /// The pointer of an access, where one was made already.
    pub fn made_for(&self, site: &AccessSite) -> Option<SharedPointer> {
        self.made.filter(|made| made.base == site.access.base && site.guard.is_none())
    }

    /// Puts an access by a pointer that was made already.
    pub fn access_by(&mut self, site: &AccessSite, made: SharedPointer) -> Result<(), AllocError> {
        let insn = with_base(&site.insn, made.pointer, site.displacement_from(made.moved));
        self.add(site.slot, insn, Change::Access)?;
        self.made = Some(made);
        Ok(())
    }

    /// Which register is to hold the pointer of an access.
    pub fn share(&self, site: &AccessSite) -> Share {
        let base = site.access.base;
        let mut search = ShareSearch {
            free: self.free_after(site, base),
            found: None,
            is_shared: false,
            is_read: site.reads_base_twice() || !matches!(site.region.base, Place::Register(_)),
        };
        let mut slot = site.slot;
        for _ in 0..LONGEST_SHARE {
            let Some(next) = self.old.following(slot) else {
                break;
            };
            let Some(insn) = self.plan.kept(self.old, next) else {
                break;
            };
            self.look_at(&mut search, base, next, insn);
            slot = next;
            let is_written = insn.register_written() == Some(base);
            let is_read = self.old.live.after(slot, insn).has(Place::Register(base));
            let is_over = is_written || !is_read;
            if is_over && search.is_shared && !search.is_read {
                return Share::Base;
            }
            if is_over {
                break;
            }
        }
        search.found.map_or(Share::Alone, |r| Share::By(r))
    }

    /// Takes note of an instruction that follows.
    fn look_at(&self, search: &mut ShareSearch, base: Reg, slot: u32, insn: &Insn) {
        let by_base = insn.access().is_some_and(|access| access.base == base);
        let planned = self.plan.at(slot);
        if by_base && planned.guard.is_none() && planned.constant.is_none() {
            search.is_shared = true;
            if search.found.is_none() {
                search.found = first_of(search.free);
            }
        } else {
            let read = PlaceSet::read_by(insn);
            search.is_read = search.is_read || read.has(Place::Register(base));
        }
        search.is_read = search.is_read || by_base && stores(insn, base);
        if let Some(r) = insn.register_written() {
            search.free = search.free.without(PlaceSet::of(Place::Register(r)));
        }
    }
}

/// Whether an access stores a register, or compares it.
pub fn stores(insn: &Insn, r: Reg) -> bool {
    match *insn {
        Insn::Store { src, .. } => src == r,
        Insn::Atomic { src, .. } => src == r || r == Reg::R0,
        Insn::Alu { .. }
        | Insn::Neg { .. }
        | Insn::MovSx { .. }
        | Insn::End { .. }
        | Insn::LoadImm64 { .. }
        | Insn::Load { .. }
        | Insn::LoadSx { .. }
        | Insn::StoreImm { .. }
        | Insn::Ja { .. }
        | Insn::JaLong { .. }
        | Insn::JumpIf { .. }
        | Insn::CallLocal { .. }
        | Insn::Exit => false,
    }
}
