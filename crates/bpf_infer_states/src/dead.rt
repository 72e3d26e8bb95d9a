//! States for dead code: the checker wants a state at each instruction, so code that no run reaches gets states as if edges
//! that are never taken were. In each round what isn't reached and is led to gets the state over the edge, and what
//! nothing leads to at all the one of the code in front of it; the search for a fixpoint joins them with what else
//! arrives. Where an instruction is at fault then, the states that lead to it are changed.

use crate::judge::WalkReport;
use crate::repair::{change_kinds, fill};
use bpf_infer_base::{
    Flow, ForeseenCondition, JoinedStates, LabelState, SlotFailure, Task, Visitor, get_or,
    graph_of, put,
};
use bpf_insn::Insn;
use bpf_state::{Entries, State, StateFault};
use std::alloc::{AllocError, Global};

/// States for slots that nothing reaches, as if dead edges to them were alive.
#[derive(Drop)]
pub struct Seeds {
    alloc: Global,
    /// The function's first slot, and the one behind its last.
    first: u32,
    end: u32,
    /// By slots from the function's first on.
    states: JoinedStates,
}

impl Seeds {
    /// None, for a function of the slots from one to before another.
    pub fn new(alloc: Global, first: u32, end: u32) -> Result<Seeds, AllocError> {
        Ok(Seeds {
            alloc,
            first,
            end,
            states: JoinedStates::new(alloc, end.saturating_sub(first) as usize)?,
        })
    }

    /// The index of a slot among those of the function.
    fn index(&self, slot: u32) -> usize {
        slot.saturating_sub(self.first) as usize
    }

    /// The state for a slot.
    pub fn at(&self, slot: u32) -> Option<&Entries> {
        self.states.at(self.index(slot))
    }

    /// A slot is also led to in a state.
    fn add(&mut self, slot: u32, state: &State) -> Result<(), AllocError> {
        let index = self.index(slot);
        let _is_changed = self.states.add(index, state, None)?;
        Ok(())
    }

    /// Takes the state for a slot over from others.
    fn take(&mut self, slot: u32, others: &mut Seeds) {
        let index = self.index(slot);
        if let Some(state) = others.states.list.get_mut(index) {
            put(&mut self.states.list, index, state.take());
        }
    }

    /// Gives a slot that has no state a copy of another one's.
    fn repeat(&mut self, from: u32, to: u32) -> Result<(), AllocError> {
        let Some(state) = self.at(from) else {
            return Ok(());
        };
        let copy = state.copy(self.alloc)?;
        let index = self.index(to);
        put(&mut self.states.list, index, Some(copy));
        Ok(())
    }

    /// Takes over the states of others.
    fn take_over(&mut self, mut others: Seeds) {
        for slot in self.first..self.end {
            if others.at(slot).is_some() {
                self.take(slot, &mut others);
            }
        }
    }

    /// The slots that have a state, rising.
    pub fn slots(&self) -> Result<Vec<u32>, AllocError> {
        let has_state = |slot: &u32| self.at(*slot).is_some();
        (self.first..self.end).filter(has_state).collect(self.alloc)
    }

    // ---- repairs

    /// Changes the state for a slot, if there is one. Whether something was changed.
    fn change<F: FnOnce(&mut State) -> bool>(
        &mut self,
        slot: u32,
        change: F,
    ) -> Result<bool, AllocError>
        requires { F.IsAlwaysCallable change }
    {
        let Some(mut state) = self.at(slot).map(|known| known.state()) else {
            return Ok(false);
        };
        let is_changed = change(&mut state);
        if is_changed {
            let (index, changed) = (self.index(slot), Entries::of(self.alloc, &state)?);
            put(&mut self.states.list, index, Some(changed));
        }
        Ok(is_changed)
    }

    /// Gives each register of which the states that lead to a fault know nothing a number, and each slot of the frame, too, if
    /// that is asked for. Whether there is one.
    fn fill_before(
        &mut self,
        task: Task,
        fault: u32,
        fills_slots: bool,
    ) -> Result<bool, AllocError> {
        let blocks = task.blocks;
        let graph = graph_of(self.alloc, task.program, blocks)?;
        let target = blocks.block_of(fault);
        let before = graph
            .reversed(self.alloc)?
            .reached(self.alloc, target, None)?;
        let mut is_filled = false;
        for label in 0..blocks.count() {
            if label == target || get_or(&before, label, false) {
                let change = |state: &mut State| fill(state, fills_slots);
                is_filled = self.change(blocks.label(label), change)? || is_filled;
            }
        }
        Ok(is_filled)
    }

    /// Changes the state for the label before a slot so that the instruction there takes its kinds. Whether that is a change.
    fn change_kinds(&mut self, task: Task, slot: u32) -> Result<bool, AllocError> {
        let label = task.blocks.label(task.blocks.block_of(slot));
        self.change(
            label,
            |state: &mut State| change_kinds(task, label, slot, state),
        )
    }

    /// Changes the states so that a fault may go away. Whether something was changed.
    pub fn repair(&mut self, task: Task, fault: SlotFailure) -> Result<bool, AllocError> {
        match fault.condition {
            ForeseenCondition::State(StateFault::UnsetRegister) => {
                self.fill_before(task, fault.slot, false)
            }
            ForeseenCondition::State(StateFault::UnsetByte) => self.fill_before(
                task, fault.slot, true,
            ),
            ForeseenCondition::State(StateFault::WrongKinds | StateFault::OutOfBounds) => {
                self.change_kinds(task, fault.slot)
            }
            ForeseenCondition::State(StateFault::Protected)
            | ForeseenCondition::FallsOff
            | ForeseenCondition::LeavesFunction => Ok(false),
        }
    }
}

// ---- where dead code begins

/// A walk that looks for what reached instructions lead to and is not reached.
#[derive(Drop)]
struct Seeker<'a> {
    task: Task<'a>,
    report: &'a WalkReport,
    /// States over edges that aren't taken.
    found: Seeds,
    /// States behind jumps and EXITs.
    behind: Seeds,
    /// By slots from the function's first on, what found ones lead to.
    is_led_to: Vec<bool>,
    waiting: Vec<u32>,
}

impl<'a> Visitor for Seeker<'a> {
    type Stop = AllocError;

    fn before(&mut self, slot: u32, insn: &Insn, state: &State) -> Result<(), AllocError> {
        let next = slot.saturating_add(insn.slots());
        if self.is_dead(next) {
            if insn.goes_on() {
                self.found.add(next, state)?;
            } else {
                self.behind.add(next, state)?;
            }
        }
        match Flow::of(slot, insn).jump() {
            Some(target) if self.is_dead(target) => self.found.add(target, state),
            _ => Ok(()),
        }
    }
}

impl<'a> Seeker<'a> {
    /// Whether an instruction of the function stands at a slot and isn't reached.
    fn is_dead(&self, slot: u32) -> bool {
        let blocks = self.task.blocks;
        slot < blocks.end() && self.task.program.at(slot).is_some() && !self.report.is_reached(slot)
    }

    /// Takes note that a slot is led to, if it is dead, for the first time.
    fn lead_to(&mut self, slot: u32) -> Result<(), AllocError> {
        let index = self.task.blocks.index(slot);
        if self.is_dead(slot) && !get_or(&self.is_led_to, index, true) {
            put(&mut self.is_led_to, index, true);
            self.waiting.push(slot)?;
        }
        Ok(())
    }

    /// Takes note of what the instruction at a slot leads to.
    fn lead_on(&mut self, slot: u32) -> Result<(), AllocError> {
        let Some(insn) = self.task.program.at(slot) else {
            return Ok(());
        };
        for way in Flow::ways(slot, insn).into_iter().flatten() {
            self.lead_to(way)?;
        }
        Ok(())
    }

    /// Takes note of all dead code that a slot leads to.
    fn lead_from(&mut self, slot: u32) -> Result<(), AllocError> {
        self.lead_to(slot)?;
        for _ in 0..self.is_led_to.len() {
            let Some(slot) = self.waiting.pop() else {
                break;
            };
            self.lead_on(slot)?;
        }
        Ok(())
    }

    /// Takes note of what the slots that were found lead to.
    fn lead_from_all(&mut self) -> Result<(), AllocError> {
        for slot in self.task.blocks.first()..self.task.blocks.end() {
            if self.found.at(slot).is_some() {
                self.lead_from(slot)?;
            }
        }
        Ok(())
    }

    /// Dead code to which nothing leads takes the state behind the jump or EXIT before it, else the last one that was found.
    fn seek_roots(&mut self) -> Result<(), AllocError> {
        let blocks = self.task.blocks;
        let mut last = blocks.first();
        for slot in blocks.first()..blocks.end() {
            if self.is_dead(slot) && !get_or(&self.is_led_to, blocks.index(slot), true) {
                self.found.take(slot, &mut self.behind);
                if self.found.at(slot).is_none() {
                    self.found.repeat(last, slot)?;
                }
                self.lead_from(slot)?;
            }
            if self.found.at(slot).is_some() {
                last = slot;
            }
        }
        Ok(())
    }
}

/// Adds states for slots that aren't reached, so that dead code may be reached from there.
pub fn add_seeds(
    task: Task,
    states: &[LabelState],
    report: &WalkReport,
    seeds: &mut Seeds,
) -> Result<(), AllocError> {
    let (alloc, first, end) = (task.alloc, task.blocks.first(), task.blocks.end());
    let mut seeker = Seeker {
        task,
        report,
        found: Seeds::new(alloc, first, end)?,
        behind: Seeds::new(alloc, first, end)?,
        is_led_to: vec![in alloc; false; task.blocks.slots()]?,
        waiting: Vec::new(alloc),
    };
    task.walk_all(states, &mut seeker)?;
    seeker.lead_from_all()?;
    seeker.seek_roots()?;
    seeds.take_over(seeker.found);
    Ok(())
}
