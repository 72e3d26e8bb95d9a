//! Which instruction of a hardened program stands for which old one.

use bpf_infer_base::{Change, Hardened, get_or, put};
use bpf_insn::Program;
use std::alloc::{AllocError, Global};

/// In front of which old instruction a new one stands, and how many extra ones from it on.
#[derive(Clone, Copy)]
pub struct NewSite {
    pub old: u32,
    pub extras: u32,
}

/// Whether a new instruction of which this is noted stands for an old one itself.
fn is_body(change: Option<Change>) -> bool {
    match change {
        None => true,
        Some(Change::Access | Change::Widened | Change::Offset | Change::Order) => true,
        Some(Change::Base | Change::Length | Change::Turns | Change::Zero | Change::Result) =>
            false,
        Some(Change::Handed | Change::Guard | Change::Turn | Change::Save) => false,
        Some(Change::Address | Change::Always | Change::Returned | Change::Trap) => false,
    }
}

/// By new slots, what was done there.
fn changes_of(alloc: Global, new: &Hardened) -> Result<Vec<Option<Change>>, AllocError> {
    let mut changes = vec![in alloc; None; new.program.slots() as usize]?;
    for note in &new.notes {
        put(&mut changes, note.new as usize, Some(note.change));
    }
    Ok(changes)
}

/// By new slots, in the place of which old instruction what is there stands. None in front of the first.
fn owners_of(alloc: Global, old: &Program, new: &Hardened) -> Result<Vec<Option<u32>>, AllocError> {
    let mut owners = vec![in alloc; None; new.program.slots() as usize]?;
    for slot in 0..old.slots() {
        if let Some(first) = get_or(&new.slots, slot as usize, None) {
            put(&mut owners, first as usize, Some(slot));
        }
    }
    spread(&mut owners);
    Ok(owners)
}

/// What stands in a place stands in those behind it in which nothing does.
fn spread(owners: &mut Vec<Option<u32>>) {
    let mut owner = None;
    for place in owners.iter_mut() {
        owner = (*place).or(owner);
        *place = owner;
    }
}

/// Where the instruction at a new slot stands that stands for an old one itself.
fn body_at(owners: &[Option<u32>], slot: u32) -> Option<NewSite> {
    Some(NewSite {
        old: get_or(owners, slot as usize, None)?,
        extras: 0,
    })
}

/// Where an extra instruction stands in front of another one.
fn in_front(site: NewSite) -> NewSite {
    NewSite {
        old: site.old,
        extras: site.extras.saturating_add(1),
    }
}

/// By new slots, where each instruction stands. None where none begins, and where no old one follows.
pub fn sites_of(
    alloc: Global,
    old: &Program,
    new: &Hardened,
) -> Result<Vec<Option<NewSite>>, AllocError> {
    let changes = changes_of(alloc, new)?;
    let owners = owners_of(alloc, old, new)?;
    let mut sites = vec![in alloc; None; new.program.slots() as usize]?;
    let mut next: Option<NewSite> = None;
    for slot in (0..new.program.slots()).rev() {
        if let Some(insn) = new.program.at(slot) {
            next = if is_body(get_or(&changes, slot as usize, None)) {
                body_at(&owners, slot)
            } else {
                next.filter(|_site| insn.goes_on()).map(in_front)
            };
            put(&mut sites, slot as usize, next);
        }
    }
    Ok(sites)
}
