//! Liveness: which registers hold what is still read, a backward data flow over all functions at once (Kildall, "A Unified
//! Approach to Global Program Optimization", 1973).

use bpf_infer_base::{Flow, PlaceSet, get_or, put};
use bpf_insn::{Insn, Program};
use std::alloc::{AllocError, Global};

/// The most passes over a program. Where they don't do, all registers may be read.
const PASSES: u32 = 64;

/// By slots, the registers whose content before the instruction may still be read.
#[derive(Drop)]
pub struct Liveness {
    before: Vec<PlaceSet>,
}

impl Liveness {
    /// The registers that are read from a slot on.
    pub fn before(&self, slot: u32) -> PlaceSet {
        get_or(&self.before, slot as usize, PlaceSet::NONE)
    }

    /// The registers that are read behind an instruction.
    pub fn after(&self, slot: u32, insn: &Insn) -> PlaceSet {
        Flow::ways(slot, insn)
            .into_iter()
            .flatten()
            .fold(PlaceSet::NONE, |live, way| live.union(self.before(way)))
    }

    /// The arguments that a function reads which begins at a slot.
    pub fn arguments(&self, first: u32) -> PlaceSet {
        self.before(first).intersection(PlaceSet::HANDED_OVER)
    }

    /// The registers that are read from an instruction on, as far as is known.
    fn through(&self, slot: u32, insn: &Insn) -> PlaceSet {
        let mut read = PlaceSet::read_by(insn);
        if let Flow::Call(target) = Flow::of(slot, insn) {
            read = read.union(self.arguments(target));
        }
        let live = self.after(slot, insn);
        live.without(PlaceSet::written_by(insn)).union(read)
    }

    /// Goes once over a program, backwards. Whether something was learnt.
    fn pass(&mut self, program: &Program) -> bool {
        let mut is_changed = false;
        for slot in (0..program.slots()).rev() {
            if let Some(insn) = program.at(slot) {
                let live = self.through(slot, insn);
                if live != self.before(slot) {
                    put(&mut self.before, slot as usize, live);
                    is_changed = true;
                }
            }
        }
        is_changed
    }

    /// The registers of a program that are read.
    pub fn of(alloc: Global, program: &Program) -> Result<Liveness, AllocError> {
        let mut liveness = Liveness {
            before: vec![in alloc; PlaceSet::NONE; program.slots() as usize]?,
        };
        for _ in 0..PASSES {
            if !liveness.pass(program) {
                return Ok(liveness);
            }
        }
        Ok(Liveness {
            before: vec![in alloc; PlaceSet::ALL; program.slots() as usize]?,
        })
    }
}
