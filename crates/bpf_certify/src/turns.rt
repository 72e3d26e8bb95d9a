//! Counters of turns: where they are tested, and which may count.

use crate::sites::NewSite;
use bpf_infer_base::get_or;
use bpf_insn::{Cond, Insn, Operand, Program, Reg, Width};
use bpf_kept::{Displaced, Holder, slot_at};
use std::alloc::{AllocError, Global};

/// An old instruction in front of which a counter is tested: where that is kept, and the register in which it is tested.
#[derive(Clone, Copy)]
pub struct Head {
    pub slot: u32,
    pub home: Holder,
    pub tested: Reg,
}

/// The register whose turns are tested by an instruction.
fn tested_by(insn: &Insn) -> Option<Reg> {
    match *insn {
        Insn::JumpIf {
            cond: Cond::Eq,
            width: Width::W64,
            dst,
            src: Operand::Imm(0),
            ..
        } => Some(dst),
        Insn::JumpIf { .. } | Insn::Ja { .. } | Insn::JaLong { .. } => None,
        Insn::Alu { .. } | Insn::Neg { .. } | Insn::MovSx { .. } | Insn::End { .. } => None,
        Insn::LoadImm64 { .. } | Insn::Load { .. } | Insn::LoadSx { .. } => None,
        Insn::Store { .. } | Insn::StoreImm { .. } | Insn::Atomic { .. } => None,
        Insn::CallLocal { .. } | Insn::Exit => None,
    }
}

/// The slot of the frame that is fetched into a register by the instruction at a slot.
fn fetched(new: &Program, slot: u32, r: Reg) -> Option<u8> {
    match *new.at(slot)? {
        Insn::Load {
            size,
            dst,
            src,
            off,
        } => if dst == r {
            slot_at(size, Displaced { base: src, off })
        } else {
            None
        },
        Insn::Alu { .. } | Insn::Neg { .. } | Insn::MovSx { .. } | Insn::End { .. } => None,
        Insn::LoadImm64 { .. } | Insn::LoadSx { .. } | Insn::Store { .. } => None,
        Insn::StoreImm { .. } | Insn::Atomic { .. } | Insn::Ja { .. } => None,
        Insn::JaLong { .. } | Insn::JumpIf { .. } | Insn::CallLocal { .. } | Insn::Exit => None,
    }
}

/// The counter that the extra instruction at a slot tests.
fn head_at(new: &Program, sites: &[Option<NewSite>], slot: u32) -> Option<Head> {
    let site = get_or(sites, slot as usize, None)?;
    let tested = tested_by(new.at(slot)?)?;
    if site.extras == 0 {
        return None;
    }
    let home = match fetched(new, slot.saturating_sub(1), tested) {
        Some(slot) => Holder::Slot(slot),
        None => Holder::Register(tested),
    };
    Some(Head {
        slot: site.old,
        home,
        tested,
    })
}

/// All counters of a program.
pub fn heads_of(
    alloc: Global,
    new: &Program,
    sites: &[Option<NewSite>],
) -> Result<Vec<Head>, AllocError> {
    (0..new.slots())
        .filter_map(|slot| head_at(new, sites, slot))
        .collect(alloc)
}
