//! Where new instructions are put, one after the other.

use crate::old::Old;
use crate::parts::{JUMP, constant, jump_if};
use crate::piece::{Goal, Piece};
use crate::plan::{Guard, Plan};
use crate::rooms::Rooms;
use crate::share::SharedPointer;
use bpf_infer_base::{Change, put};
use bpf_insn::{Cond, Insn, Operand, Reg};
use std::alloc::{AllocError, Global};

/// A new program that is being written.
#[derive(Drop)]
pub struct TextWriter<'a> {
    pub old: &'a Old<'a>,
    pub plan: &'a Plan,
    pub rooms: &'a Rooms,
    pub pieces: Vec<Piece>,
    /// The slot of the next instruction.
    pub at: u32,
    /// By old slots, where what stands in its place begins.
    pub starts: Vec<Option<u32>>,
    /// By functions' numbers, where the entry begins.
    pub entries: Vec<Option<u32>>,
    /// By functions' numbers, where the trap begins.
    pub traps: Vec<Option<u32>>,
    /// By functions' numbers, whether something leads to the trap.
    pub is_trapped: Vec<bool>,
    /// The pointer that the next access may go by.
    pub made: Option<SharedPointer>,
}

impl<'a> TextWriter<'a> {
    /// Nothing is written.
    pub fn new(
        alloc: Global,
        old: &'a Old<'a>,
        plan: &'a Plan,
        rooms: &'a Rooms,
    ) -> Result<TextWriter<'a>, AllocError> {
        Ok(TextWriter {
            old,
            plan,
            rooms,
            pieces: Vec::new(alloc),
            at: 0,
            starts: vec![in alloc; None; old.program.slots() as usize]?,
            entries: vec![in alloc; None; old.count()]?,
            traps: vec![in alloc; None; old.count()]?,
            is_trapped: vec![in alloc; false; old.count()]?,
            made: None,
        })
    }

    /// Puts an instruction that leads somewhere.
    pub fn put(
        &mut self,
        old: u32,
        insn: Insn,
        goal: Goal,
        change: Option<Change>,
    ) -> Result<(), AllocError> {
        if let Goal::Trap(function) = goal {
            put(&mut self.is_trapped, function, true);
        }
        self.at = self.at.saturating_add(insn.slots());
        self.pieces.push(Piece {
            insn,
            goal,
            old,
            change,
        })?;
        Ok(())
    }

    /// Puts an instruction of an old slot that leads to the next one.
    pub fn add(&mut self, old: u32, insn: Insn, change: Change) -> Result<(), AllocError> {
        self.put(old, insn, Goal::Next, Some(change))
    }

    /// Leads to the trap of the function if a test holds.
    pub fn trap_if(
        &mut self,
        old: u32,
        cond: Cond,
        dst: Reg,
        src: Operand,
        change: Change,
    ) -> Result<(), AllocError> {
        let goal = Goal::Trap(self.old.function(old));
        self.put(old, jump_if(cond, dst, src), goal, Some(change))
    }

    /// Leads to the trap of the function if the number in a register compares so with a limit.
    pub fn guard_if(&mut self, old: u32, cond: Cond, r: Reg, limit: i64) -> Result<(), AllocError> {
        self.trap_if(old, cond, r, Operand::Imm(constant(limit)), Change::Guard)
    }

    /// Leads to the trap of the function if the number in a register is above the most or below the least, whichever a guard tests.
    pub fn guard_between(
        &mut self,
        old: u32,
        guard: Guard,
        r: Reg,
        least: i64,
        most: i64,
    ) -> Result<(), AllocError> {
        if guard.high {
            self.guard_if(old, Cond::Gt, r, most)?;
        }
        if guard.low && least > 0 {
            self.guard_if(old, Cond::Lt, r, least)?;
        }
        Ok(())
    }

    /// Leads to the trap of the function.
    pub fn trap(&mut self, old: u32) -> Result<(), AllocError> {
        let goal = Goal::Trap(self.old.function(old));
        self.put(old, JUMP, goal, Some(Change::Always))
    }
}
