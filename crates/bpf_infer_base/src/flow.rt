//! Where instructions lead.

use bpf_insn::{Insn, MAX_SLOTS, Program};

/// Where an instruction leads. Targets are slots.
#[derive(Clone, Copy)]
pub enum Flow {
    /// To the next instruction.
    Next,
    /// To the target.
    Jump(u32),
    /// To the target or to the next instruction.
    Branch(u32),
    /// Into the function at the target, and then to the next instruction.
    Call(u32),
    /// Out of the function.
    Exit,
}

/// The slot at a distance from the next one; in a program none lies past the last, and none is negative.
fn target(slot: u32, distance: i32) -> u32 {
    bpf_insn::target(slot.min(MAX_SLOTS as u32), distance).unwrap_or(0)
}

impl Flow {
    /// Where the instruction at a slot leads.
    #[inline]
    pub fn of(slot: u32, insn: &Insn) -> Flow {
        match *insn {
            Insn::Ja { off } => Flow::Jump(target(slot, off as i32)),
            Insn::JaLong { off } => Flow::Jump(target(slot, off)),
            Insn::JumpIf { off, .. } => Flow::Branch(target(slot, off as i32)),
            Insn::CallLocal { off } => Flow::Call(target(slot, off)),
            Insn::Exit => Flow::Exit,
            Insn::Alu { .. }
            | Insn::Neg { .. }
            | Insn::MovSx { .. }
            | Insn::End { .. }
            | Insn::LoadImm64 { .. } => Flow::Next,
            Insn::Load { .. }
            | Insn::LoadSx { .. }
            | Insn::Store { .. }
            | Insn::StoreImm { .. }
            | Insn::Atomic { .. } => Flow::Next,
        }
    }

    /// Where the instruction at a slot of a program leads, if one begins there.
    pub fn at(program: &Program, slot: u32) -> Option<Flow> {
        Some(Flow::of(slot, program.at(slot)?))
    }

    /// The target of a jump.
    pub fn jump(self) -> Option<u32> {
        match self {
            Flow::Jump(target) | Flow::Branch(target) => Some(target),
            Flow::Next | Flow::Call(_) | Flow::Exit => None,
        }
    }

    /// The slots in its function to which the instruction at a slot leads: where it jumps, and the next one.
    #[inline]
    pub fn ways(slot: u32, insn: &Insn) -> [Option<u32>; 2] {
        let next = slot.saturating_add(insn.slots());
        [Flow::of(slot, insn).jump(), insn.goes_on().then_some(next)]
    }
}
