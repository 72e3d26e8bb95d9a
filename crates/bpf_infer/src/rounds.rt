//! The states at the labels, a fixpoint with widening (Cousot and Cousot, Abstract interpretation, 1977): rounds over
//! each function until nothing changes, callers before callees.

use bpf_cert::Function;
use bpf_infer_base::{
    BlockEdge, CalledFunction, InferError, JoinedStates, LABEL_WORK, Limit, Meter, SlotFailure,
    Stops, Task, Visitor, Watch, get_or, labels_of, load_at, put, said,
};
use bpf_num::Num;
use bpf_state::{RegState, State, enter};
use std::alloc::AllocError;

/// The most rounds over a function.
const ROUNDS: u32 = 64;

/// The first round in which bounds that moved are moved on to a stop.
const FIRST_WIDE_ROUND: u32 = 4;

/// What is known of the blocks of a program, each by their numbers.
#[derive(Drop)]
pub struct Rounds<'a> {
    pub task: Task<'a>,
    /// The states at the labels, None where none was reached.
    pub states: JoinedStates,
    /// The block of the last edge that leads back to each.
    pub backs: Vec<Option<usize>>,
    /// The lowest slot that isn't reached in each, else its end.
    reached: Vec<u32>,
    /// Whose states changed since they were last walked over.
    changed: Vec<bool>,
    /// Whether a state changed in this round.
    has_changed: bool,
    is_wide: bool,
    /// Made when the first bound is moved on.
    stops: Stops,
    /// The work since it was last told, in slots.
    work: usize,
    /// The limit of the search that was passed.
    pub limit: Option<Limit>,
}

/// Takes note of an edge that leads back.
fn add_back(backs: &mut Vec<Option<usize>>, edge: BlockEdge) {
    if let Some(last) = backs.get_mut(edge.to) {
        *last = Some(last.unwrap_or(0).max(edge.from));
    }
}

impl<'a> Visitor for Rounds<'a> {
    type Stop = AllocError;

    fn edge(&mut self, edge: BlockEdge, state: &State) -> Result<(), AllocError> {
        if edge.to <= edge.from {
            add_back(&mut self.backs, edge);
        }
        self.reach(edge.to, state, self.is_wide)
    }

    fn call(&mut self, callee: CalledFunction, state: &State) -> Result<(), AllocError> {
        let mut entry = state.copy();
        enter(&mut entry);
        self.reach(callee.block, &entry, false)
    }
}

impl<'a> Rounds<'a> {
    /// No state is reached yet.
    pub fn new(task: Task<'a>) -> Result<Rounds<'a>, AllocError> {
        let (alloc, count) = (task.alloc, task.blocks.count());
        Ok(Rounds {
            task,
            states: JoinedStates::new(alloc, count)?,
            backs: vec![in alloc; None; count]?,
            reached: vec![in alloc; 0; count]?,
            changed: vec![in alloc; false; count]?,
            has_changed: false,
            is_wide: false,
            stops: Stops::new(alloc),
            work: 0,
            limit: None,
        })
    }

    /// Takes note that a label is reached in a state.
    fn reach(&mut self, block: usize, state: &State, is_wide: bool) -> Result<(), AllocError> {
        let stops = is_wide.then_some(&self.stops);
        let is_changed = self.states.add(block, state, stops)?;
        let work = self.states.work(block, is_changed);
        self.work = self.work.saturating_add(work);
        if is_changed {
            put(&mut self.changed, block, true);
            self.has_changed = true;
        }
        Ok(())
    }

    /// What is known of a place at a label.
    pub fn said(&self, block: usize, number: usize) -> RegState {
        self.states
            .at(block)
            .map_or(RegState::Any, |known| said(known, number))
    }

    /// Goes over a block from the state at its label, and takes note how far it is reached.
    fn walk_over(&mut self, block: usize, room: &mut State) -> Result<(), InferError> {
        put(&mut self.changed, block, false);
        let task = self.task;
        let mut reached = task.blocks.label(block);
        let slots = task.blocks.block_end(block).saturating_sub(reached) as usize;
        self.work = self.work.saturating_add(slots).saturating_add(LABEL_WORK);
        if load_at(&self.states.list, block, room) {
            match task.walk(block, room, self)? {
                Ok(slot) => reached = slot,
                Err(fault) => return Err(fault.refusal()),
            }
        }
        put(&mut self.reached, block, reached);
        Ok(())
    }

    /// I1 at a function's first slot.
    fn unstable(&self, function: usize) -> InferError {
        InferError::Unstable {
            slot: self.task.cfg.first_slot(function),
        }
    }

    /// I2 at a block's label.
    pub fn no_budget(&self, block: usize) -> InferError {
        InferError::NoBudget {
            slot: self.task.blocks.label(block),
        }
    }

    /// Tells the work for a label that was gone over. I1 at the function's first slot if that passes a limit.
    fn tell<W: Watch>(
        &mut self,
        function: usize,
        meter: &mut Meter<'_, W>,
    ) -> Result<(), InferError> {
        meter.tell(1, self.work);
        self.work = 0;
        self.limit = meter.limit().or(self.states.limit());
        match self.limit {
            Some(_) => Err(self.unstable(function)),
            None => Ok(()),
        }
    }

    /// Goes over a function's blocks. Those whose states are as they were lead to the same states again.
    fn round<W: Watch>(
        &mut self,
        function: usize,
        room: &mut State,
        meter: &mut Meter<'_, W>,
    ) -> Result<(), InferError> {
        self.has_changed = false;
        let cfg = self.task.cfg;
        for block in cfg.first_block(function)..cfg.first_block(function.saturating_add(1)) {
            if get_or(&self.changed, block, false) {
                self.walk_over(block, room)?;
                self.tell(function, meter)?;
            }
        }
        Ok(())
    }

    /// Makes the stops, if they aren't made.
    fn make_stops(&mut self) -> Result<(), AllocError> {
        if self.stops.is_empty() {
            let task = self.task;
            self.stops = Stops::of(task.alloc, task.program, task.least, task.most)?;
        }
        Ok(())
    }

    /// Goes over a function until nothing changes: I1 if that takes more than 64 rounds, or a limit of the search is passed.
    fn settle<W: Watch>(
        &mut self,
        function: usize,
        meter: &mut Meter<'_, W>,
    ) -> Result<(), InferError> {
        let mut room = State::blank();
        for round in 1..=ROUNDS {
            self.is_wide = round >= FIRST_WIDE_ROUND;
            if self.is_wide {
                self.make_stops()?;
            }
            self.round(function, &mut room, meter)?;
            if !self.has_changed {
                return Ok(());
            }
        }
        Err(self.unstable(function))
    }

    /// Goes over all functions, callers first, until nothing changes, from the state that the program starts in.
    pub fn settle_all<W: Watch>(
        &mut self,
        start: &State,
        meter: &mut Meter<'_, W>,
    ) -> Result<(), InferError> {
        self.reach(0, start, false)?;
        let cfg = self.task.cfg;
        for function in &cfg.callers_first {
            self.settle(*function, meter)?;
        }
        Ok(())
    }

    /// I4 (C11) at the lowest instruction that isn't reached.
    fn check_reached(&self) -> Result<(), InferError> {
        let blocks = self.task.blocks;
        for (block, reached) in self.reached.iter().enumerate() {
            if *reached < blocks.block_end(block) {
                let slot = (*reached).max(blocks.label(block));
                return Err(SlotFailure::falls_off(slot).refusal());
            }
        }
        Ok(())
    }

    /// The functions that were reached, with their labels; the states are taken.
    pub fn take_functions(&mut self) -> Result<Vec<Function>, AllocError> {
        let cfg = self.task.cfg;
        let mut functions = Vec::new(self.task.alloc);
        for number in 0..cfg.functions.count() {
            let first = cfg.first_block(number);
            let end = cfg.first_block(number.saturating_add(1));
            let labels = labels_of(
                self.task.alloc,
                &cfg.blocks,
                &mut self.states.list,
                first,
                end,
            )?;
            if !labels.is_empty() {
                functions.push(Function {
                    first: cfg.first_slot(number),
                    depth: cfg.depth(number),
                    ret: Num::top(),
                    labels,
                })?;
            }
        }
        Ok(functions)
    }
}

/// The states of a program's labels, from the state that it starts in. I1 at a function whose states aren't stable after 64
/// rounds, or where a limit of the search is passed; I4 at an instruction that is refused or never reached.
pub fn states_of<'a, W: Watch>(
    task: Task<'a>,
    start: &State,
    meter: &mut Meter<'_, W>,
) -> Result<Rounds<'a>, InferError> {
    let mut rounds = Rounds::new(task)?;
    rounds.settle_all(start, meter)?;
    rounds.check_reached()?;
    Ok(rounds)
}
