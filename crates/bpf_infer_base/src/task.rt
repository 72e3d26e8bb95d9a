//! The one walk of the searches over blocks: each instruction is done, and then its edges are followed. It goes on behind faults
//! or stops there.

ghost use Rattle.std.specs.Prelude.{◌≡◌, ◌≤◌};

use crate::blocks::Blocks;
use crate::cfg::Cfg;
use crate::condition::ForeseenCondition;
use crate::fault::SlotFailure;
use crate::flow::Flow;
use crate::labels::{LabelState, load_at};
use crate::lists::get_or;
use crate::quest::Quest;
use crate::tolerant::go_on;
use bpf_insn::{Insn, Operand, Program, Reg};
use bpf_num::Num;
use bpf_state::{State, branch, leave, transfer};
use std::alloc::Global;

/// An edge from one block to another, by their numbers.
#[derive(Clone, Copy)]
pub struct BlockEdge {
    pub from: usize,
    pub to: usize,
}

/// A function that is called: its number, and that of its first block in the program.
#[derive(Clone, Copy)]
pub struct CalledFunction {
    pub function: usize,
    pub block: usize,
}

/// What takes note of where a walk leads; of what it gives no body for, it takes none.
pub trait Visitor {
    /// Why a walk is given up.
    type Stop: Drop;

    /// An instruction is reached in a state.
    fn before(&mut self, _slot: u32, _insn: &Insn, _state: &State) -> Result<(), Self::Stop> {
        Ok(())
    }

    /// An instruction was done. The tags of the state behind it may be changed.
    fn after(&mut self, _state: &mut State) {}

    /// An edge from one block to another is reached in a state.
    fn edge(&mut self, _edge: BlockEdge, _state: &State) -> Result<(), Self::Stop> {
        Ok(())
    }

    /// A CALL of a function is reached in a state.
    fn call(&mut self, _callee: CalledFunction, _state: &State) -> Result<(), Self::Stop> {
        Ok(())
    }

    /// An EXIT of a block is reached in a state.
    fn exit(&mut self, _from: usize, _state: &State) -> Result<(), Self::Stop> {
        Ok(())
    }

    /// An instruction fails a condition of the checker.
    fn fault(&mut self, _fault: SlotFailure) {}
}

/// Blocks to be judged on contexts of `least` to `most` bytes.
#[derive(Clone, Copy)]
pub struct Task<'a> {
    pub alloc: Global,
    pub program: &'a Program,
    pub cfg: &'a Cfg,
    pub blocks: &'a Blocks,
    pub least: u32,
    pub most: u32,
    /// By the functions' numbers, what each returns; any number, where nothing is said.
    pub rets: &'a [Num],
    /// Whether a walk ends where an instruction is at fault; else it goes on as if it did no wrong.
    pub stops: bool,
}

impl<'a> Task<'a> {
    /// The blocks of a whole program, of whose functions it isn't known what they return. Walks end at faults.
    pub fn whole(alloc: Global, quest: Quest<'a>, cfg: &'a Cfg) -> Self
        ensures least { result.least ≡ quest.entry.least }
        ensures most { result.most ≡ quest.entry.most }
    {
        Task {
            alloc,
            program: quest.program,
            cfg,
            blocks: &cfg.blocks,
            least: quest.least,
            most: quest.most,
            rets: &[],
            stops: true,
        }
    }

    /// The same, but walks go on behind faults.
    pub fn tolerant(self) -> Self {
        Task {
            stops: false,
            ..self
        }
    }

    /// The state that the program starts in.
    pub fn start(&self) -> State
        requires { self.now.least ≤ self.now.most }
    {
        State::start(self.least, self.most)
    }

    /// Goes over a block from the state at its label. The lowest slot of the block that isn't reached, else its end; or the
    /// fault that the walk ends at.
    pub fn walk<V: Visitor>(
        &self,
        block: usize,
        state: &mut State,
        visitor: &mut V,
    ) -> Result<Result<u32, SlotFailure>, V::Stop> {
        let mut walk = BlockWalk {
            task: *self,
            block,
            visitor,
            end: None,
        };
        let reached = walk.go(state)?;
        match walk.end {
            Some(fault) => Ok(Err(fault)),
            None => Ok(Ok(reached)),
        }
    }

    /// Goes over all blocks from the states of their labels.
    pub fn walk_all<V: Visitor>(
        &self,
        states: &[LabelState],
        visitor: &mut V,
    ) -> Result<(), V::Stop> {
        let mut room = State::blank();
        for label in 0..self.blocks.count() {
            if load_at(states, label, &mut room) {
                let _reached = self.walk(label, &mut room, visitor)?;
            }
        }
        Ok(())
    }
}

/// A walk over a block, by its number.
#[derive(Drop)]
struct BlockWalk<'a, 'v, V: Visitor> {
    task: Task<'a>,
    block: usize,
    visitor: &'v mut V,
    /// The fault that it ends at.
    end: Option<SlotFailure>,
}

impl<'a, 'v, V: Visitor> BlockWalk<'a, 'v, V> {
    /// Goes over the instructions from the state at the label. The lowest slot that isn't reached, else the end.
    fn go(&mut self, state: &mut State) -> Result<u32, V::Stop> {
        let blocks = self.task.blocks;
        let end = blocks.block_end(self.block);
        let mut last = blocks.label(self.block);
        for slot in last..end {
            if let Some(insn) = self.task.program.at(slot) {
                last = slot;
                if !self.step(slot, insn, state)? {
                    return Ok(slot.saturating_add(insn.slots()));
                }
            }
        }
        if end < blocks.end() {
            self.lead(end, state)?;
        } else {
            let _goes_on = self.meet(SlotFailure::falls_off(last));
        }
        Ok(end)
    }

    /// Does the instruction at a slot, and follows its edges. Whether the next one is reached.
    #[inline]
    fn step(&mut self, slot: u32, insn: &Insn, state: &mut State) -> Result<bool, V::Stop> {
        self.visitor.before(slot, insn, state)?;
        if !self.transfer(slot, insn, state) {
            return Ok(false);
        }
        self.visitor.after(state);
        match Flow::of(slot, insn) {
            Flow::Next => Ok(true),
            Flow::Jump(target) => {
                self.lead(target, state)?;
                Ok(false)
            }
            Flow::Branch(target) => {
                let (a, b) = registers_compared(insn);
                let (held_a, held_b) = (state.reg(a), state.reg(b));
                if branch(insn, true, state) {
                    self.lead(target, state)?;
                    state.set_reg(a, held_a);
                    state.set_reg(b, held_b);
                }
                Ok(branch(insn, false, state))
            }
            Flow::Call(callee) => self.call(callee, state),
            Flow::Exit => {
                self.visitor.exit(self.block, state)?;
                Ok(false)
            }
        }
    }

    /// Makes the state in front of the instruction at a slot the one behind it. Whether its edges are followed.
    fn transfer(&mut self, slot: u32, insn: &Insn, state: &mut State) -> bool {
        match transfer(insn, self.task.least, self.task.program.order(), state) {
            Ok(goes_on) => goes_on,
            Err(fault) => {
                let condition = ForeseenCondition::State(fault);
                let goes_on = self.meet(SlotFailure { slot, condition });
                if goes_on {
                    go_on(insn, state);
                }
                goes_on
            }
        }
    }

    /// An instruction is at fault. Whether the walk goes on.
    fn meet(&mut self, fault: SlotFailure) -> bool {
        self.visitor.fault(fault);
        if self.task.stops {
            self.end = Some(fault);
        }
        !self.task.stops
    }

    /// Makes the state at a CALL of the function at a slot the one behind it. Whether it may return.
    fn call(&mut self, callee: u32, state: &mut State) -> Result<bool, V::Stop> {
        let cfg = self.task.cfg;
        let function = cfg.function_of(callee);
        let block = cfg.blocks.block_of(callee);
        self.visitor
            .call(CalledFunction { function, block }, state)?;
        Ok(leave(state, get_or(self.task.rets, function, Num::top())))
    }

    /// An edge leads to a slot in a state.
    fn lead(&mut self, slot: u32, state: &State) -> Result<(), V::Stop> {
        let to = self.task.blocks.block_of(slot);
        let from = self.block;
        self.visitor.edge(BlockEdge { from, to }, state)
    }
}

/// What a conditional jump compares: a register, and another one or a constant.
#[inline]
pub fn compared(insn: &Insn) -> Option<(Reg, Operand)> {
    let Insn::JumpIf {
        dst,
        src,
        off: _off,
        ..
    } = *insn
    else {
        return None;
    };
    Some((dst, src))
}

/// The registers that a conditional jump compares; where there is but one, that one twice. On its edges nothing else of a
/// state differs.
#[inline]
fn registers_compared(insn: &Insn) -> (Reg, Reg) {
    match compared(insn) {
        Some((dst, Operand::Reg(src))) => (dst, src),
        Some((dst, Operand::Imm(_imm))) => (dst, dst),
        None => (Reg::R0, Reg::R0),
    }
}
