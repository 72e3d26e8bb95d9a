//! What the states of a function's labels say of its instructions.

use bpf_infer_base::{
    CalledFunction, JoinedStates, LabelState, SlotFailure, Task, Visitor, get_or, put,
};
use bpf_insn::{Insn, Reg};
use bpf_num::Num;
use bpf_state::{State, enter};
use std::alloc::AllocError;

/// The lower of two faults, the first one if they are at one slot.
pub fn lower(a: Option<SlotFailure>, b: Option<SlotFailure>) -> Option<SlotFailure> {
    [a, b].into_iter().flatten().min_by_key(|fault| fault.slot)
}

/// What a walk over all blocks of a function saw.
#[derive(Drop)]
pub struct WalkReport {
    first: u32,
    /// By slots from the first on.
    reached: Vec<bool>,
    /// The lowest fault.
    pub fault: Option<SlotFailure>,
    /// By functions, the states that those begin in that are called.
    pub entries: JoinedStates,
    /// What r0 is at an EXIT.
    pub exit: Option<Num>,
}

impl Visitor for WalkReport {
    type Stop = AllocError;

    fn before(&mut self, slot: u32, _insn: &Insn, _state: &State) -> Result<(), AllocError> {
        let place = slot.saturating_sub(self.first) as usize;
        put(&mut self.reached, place, true);
        Ok(())
    }

    fn call(&mut self, callee: CalledFunction, state: &State) -> Result<(), AllocError> {
        let mut entry = state.copy();
        enter(&mut entry);
        let _is_changed = self.entries.add(callee.function, &entry, None)?;
        Ok(())
    }

    fn exit(&mut self, _from: usize, state: &State) -> Result<(), AllocError> {
        let number = state.reg(Reg::R0).number().unwrap_or(Num::top());
        self.exit = Some(self.exit.map_or(number, |others| others.join(number)));
        Ok(())
    }

    fn fault(&mut self, fault: SlotFailure) {
        self.fault = lower(self.fault, Some(fault));
    }
}

impl WalkReport {
    /// Goes over all blocks from the states of their labels.
    pub fn of(task: Task, states: &[LabelState]) -> Result<WalkReport, AllocError> {
        let alloc = task.alloc;
        let mut report = WalkReport {
            first: task.blocks.first(),
            reached: vec![in alloc; false; task.blocks.slots()]?,
            fault: None,
            entries: JoinedStates::new(alloc, task.cfg.functions.count())?,
            exit: None,
        };
        task.walk_all(states, &mut report)?;
        Ok(report)
    }

    /// Whether the instruction at a slot is reached.
    pub fn is_reached(&self, slot: u32) -> bool {
        let place = slot.saturating_sub(self.first) as usize;
        get_or(&self.reached, place, false)
    }

    /// The lowest instruction that isn't reached.
    pub fn unreached(&self, task: Task) -> Option<u32> {
        let is_dead = |slot: &u32| task.program.at(*slot).is_some() && !self.is_reached(*slot);
        (task.blocks.first()..task.blocks.end()).find(is_dead)
    }
}
