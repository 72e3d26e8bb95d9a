//! Diagnosis of accesses out of bounds by an induction variable: a pointer that the loop around the access moves by constants, and doesn't change
//! otherwise.

use crate::loops::{LoopBlocks, loop_from};
use crate::rounds::Rounds;
use bpf_infer_base::{Obstacle, PlaceSet, Task};
use bpf_insn::{AluOp, Insn, Operand, Reg, Width};
use bpf_state::{Place, RegState};

/// The register whose pointer an instruction moves or reads and writes through.
fn pointer_in(insn: &Insn) -> Option<Reg> {
    if let Insn::Alu {
        op: AluOp::Add | AluOp::Sub,
        dst,
        ..
    } = *insn
    {
        return Some(dst);
    }
    Some(insn.access()?.base)
}

/// What an instruction does to a register.
#[derive(Clone, Copy)]
enum Deed {
    Keeps,
    /// It adds or takes a constant.
    Moves,
    Sets,
}

/// What an instruction does to a register. A call leaves nothing in r0 to r5 that was there.
fn deed_of(insn: &Insn, reg: Reg) -> Deed {
    if !PlaceSet::written_by(insn).has(Place::Register(reg)) {
        return Deed::Keeps;
    }
    let moves = matches!(
        *insn,
        Insn::Alu {
            op: AluOp::Add | AluOp::Sub,
            width: Width::W64,
            src: Operand::Imm(_imm),
            ..
        }
    );
    if moves { Deed::Moves } else { Deed::Sets }
}

/// Whether instructions of a loop move a register by constants, and none sets it.
fn moves(task: &Task, found: LoopBlocks, reg: Reg) -> bool {
    let mut is_moved = false;
    for slot in task.blocks.label(found.head)..task.blocks.block_end(found.last) {
        match task.program.at(slot).map(|insn| deed_of(insn, reg)) {
            None | Some(Deed::Keeps) => {}
            Some(Deed::Moves) => is_moved = true,
            Some(Deed::Sets) => return false,
        }
    }
    is_moved
}

/// Whether a register holds a pointer of more than one offset at a label.
fn is_wide(rounds: &Rounds, block: usize, reg: Reg) -> bool {
    match rounds.states.at(block).map(|known| known.reg(reg)) {
        Some(RegState::Ptr(p)) => p.lo < p.hi,
        _ => false,
    }
}

/// The last loop that begins at a block or before it, and has it between its ends.
fn loop_around(rounds: &Rounds, block: usize) -> Option<LoopBlocks> {
    let mut found = (0..block.saturating_add(1))
        .rev()
        .filter_map(|head| loop_from(rounds, head));
    found.find(|found| block <= found.last)
}

/// The loop around the instruction at a slot, if it moves the pointer that the instruction takes by constants and does nothing
/// else to it.
pub fn walker_at(rounds: &Rounds, slot: u32) -> Option<Obstacle> {
    let task = &rounds.task;
    let reg = pointer_in(task.program.at(slot)?)?;
    let found = loop_around(rounds, task.blocks.block_of(slot))?;
    let head = task.blocks.label(found.head);
    let is_walked = is_wide(rounds, found.head, reg) && moves(task, found, reg);
    is_walked.then_some(Obstacle::Walking { reg, head })
}
