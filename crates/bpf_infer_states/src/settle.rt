//! The states of a function's labels: the recursive iteration strategy over a weak topological order (Bourdoncle 1993,
//! `nest.rt`). The head of a loop is widened with thresholds until it stands, and then narrowed (Cousot and Cousot
//! 1977). Loops inside are settled anew in each turn.

use crate::nest::{Loop, Nest};
use crate::sums::Sums;
use crate::thresholds::{Thresholds, WideningReach};
use bpf_infer_base::{
    BlockEdge, LABEL_WORK, LabelState, Limit, Meter, SearchStop, Task, Visitor, Watch, get_or,
    held, load_at, put, vacant,
};
use bpf_insn::Insn;
use bpf_state::{Entries, Reach as Touched, State};
use std::alloc::AllocError;

/// How often a head's state is joined before bounds are moved on.
const PLAIN_CHANGES: u32 = 2;

/// The changes of a head's state after which bounds are moved to their extremes.
const MOST_CHANGES: u32 = 18;

/// The turns of a loop in which bounds of operands are learned.
const LEARNED_TURNS: u32 = 3;

/// The most times that a loop is narrowed.
const NARROWINGS: u32 = 3;

/// The most blocks of a function that are gone over before bounds are moved to extremes at once, 400 for each label and 2,000.
const MOST_PATIENCE: usize = 2_000_000;

/// How many slots of a frame are gone over in the time of one instruction.
const SLOTS_AT_ONCE: usize = 6;

/// The work of an access to a frame beside its instruction: each slot that it may touch is gone over.
fn touch_work(insn: &Insn, state: &State) -> usize {
    let Some(touched) = insn
        .access()
        .and_then(|access| Touched::of_access(access, state))
    else {
        return 0;
    };
    let (first, end) = touched.slots();
    end.saturating_sub(first) / SLOTS_AT_ONCE
}

/// What a turn of a loop is for.
#[derive(Clone, Copy)]
enum Phase {
    /// The head's state rises.
    Rising,
    /// The head's state stands; the loops inside begin again.
    Again,
    /// The head's state was narrowed.
    Narrowing,
    /// The head's state is again what it was before it was narrowed.
    Back,
}

/// A loop that is gone around.
#[derive(Drop)]
struct Active {
    number: usize,
    found: Loop,
    phase: Phase,
    /// Whether the states inside were forgotten when it began.
    is_fresh: bool,
    may_narrow: bool,
    turns: u32,
    narrowed: u32,
    before: LabelState,
    thresholds: Thresholds,
}

impl Active {
    /// Whether a loop inside begins anew.
    fn is_inside_fresh(&self) -> bool {
        match self.phase {
            Phase::Rising => self.is_fresh && self.turns == 0,
            Phase::Again | Phase::Narrowing | Phase::Back => true,
        }
    }
}

/// The states of a function's labels as they are found.
#[derive(Drop)]
pub struct Settler<'a> {
    task: Task<'a>,
    nest: &'a Nest,
    sums: Sums,
    /// By labels.
    states: Vec<LabelState>,
    /// By loops, how often the head's state changed.
    changes: Vec<u32>,
    active: Vec<Active>,
    /// Where blocks are gone over.
    room: Option<Box<State>>,
    /// Where states of heads are compared and joined.
    old: Box<State>,
    new: Box<State>,
    /// How many blocks may be gone over before bounds are moved to extremes at once.
    patience: usize,
    /// The work since it was last told, in slots.
    work: usize,
    /// Whether half of the work that the search may do is done.
    is_late: bool,
}

impl<'a> Visitor for Settler<'a> {
    type Stop = AllocError;

    fn before(&mut self, _slot: u32, insn: &Insn, state: &State) -> Result<(), AllocError> {
        self.work = self.work.saturating_add(touch_work(insn, state));
        if !matches!(insn, Insn::JumpIf { .. }) {
            return Ok(());
        }
        for active in self.active.iter_mut() {
            if active.turns < LEARNED_TURNS {
                active.thresholds.learn(insn, state)?;
            }
        }
        Ok(())
    }

    fn edge(&mut self, edge: BlockEdge, state: &State) -> Result<(), AllocError> {
        let depth = self.nest.common_depth(edge.from, edge.to);
        let work = self.sums.add(edge.to, depth, state)?;
        self.work = self.work.saturating_add(work);
        Ok(())
    }
}

impl<'a> Settler<'a> {
    /// Nothing is known but that a function begins in a state.
    pub fn new(task: Task<'a>, nest: &'a Nest) -> Result<Settler<'a>, AllocError> {
        let alloc = task.alloc;
        let patience = nest.labels().saturating_mul(400).saturating_add(2000);
        Ok(Settler {
            task,
            nest,
            sums: Sums::new(alloc, nest)?,
            states: vacant(alloc, nest.labels())?,
            changes: vec![in alloc; 0; nest.loops()]?,
            active: Vec::new(alloc),
            room: None,
            old: Box::new(alloc, State::blank())?,
            new: Box::new(alloc, State::blank())?,
            patience: patience.min(MOST_PATIENCE),
            work: 0,
            is_late: false,
        })
    }

    /// A label is also reached in a state.
    pub fn seed(&mut self, label: usize, state: &State) -> Result<(), AllocError> {
        let _work = self.sums.add(label, 0, state)?;
        Ok(())
    }

    /// Finds the states. I1 at the first slot if a limit is passed before.
    pub fn settle<W: Watch>(
        mut self,
        meter: &mut Meter<'_, W>,
    ) -> Result<Vec<LabelState>, SearchStop> {
        let first = self.task.blocks.first();
        let mut place = 0;
        for _ in 0..meter.most() {
            match self.step(place)? {
                Some(next) => place = next,
                None => return Ok(self.states),
            }
            meter.tell(1, self.work);
            self.work = 0;
            self.is_late = meter.is_low();
            if let Some(limit) = meter.limit().or(self.sums.limit()) {
                return Err(SearchStop::unstable(first, limit));
            }
        }
        Err(SearchStop::unstable(first, Limit::Work { most: meter.most() }))
    }

    /// Goes over the label at a place, or ends the turn of a loop there. The place to go on from; None at the end.
    fn step(&mut self, place: usize) -> Result<Option<usize>, AllocError> {
        if let Some(active) = self.active.last() {
            if place >= active.found.end {
                return Ok(Some(self.end_turn()?));
            }
        }
        if place >= self.nest.labels() {
            return Ok(None);
        }
        match self.nest.headed(place) {
            Some(number) => self.open(number)?,
            None => self.reach(place)?,
        }
        Ok(Some(place.saturating_add(1)))
    }

    /// Goes over a label that is no loop's head.
    fn reach(&mut self, place: usize) -> Result<(), AllocError> {
        let label = self.nest.label(place);
        let state = if self.active.is_empty() {
            self.sums.take(label)
        } else {
            self.sums.total(label)?
        };
        put(&mut self.states, label, state);
        self.walk(label)
    }

    /// Goes over a label's block, if the label has a state.
    fn walk(&mut self, label: usize) -> Result<(), AllocError> {
        self.patience = self.patience.saturating_sub(1);
        self.work = self.work.saturating_add(LABEL_WORK);
        let mut room = match self.room.take() {
            Some(room) => room,
            None => Box::new(self.task.alloc, State::blank())?,
        };
        if load_at(&self.states, label, &mut *room) {
            let task = self.task;
            let slots = task
                .blocks
                .block_end(label)
                .saturating_sub(task.blocks.label(label));
            self.work = self.work.saturating_add(slots as usize);
            let _reached = task.walk(label, &mut *room, self)?;
        }
        self.room = Some(room);
        Ok(())
    }

    // ---- the turns of a loop

    /// Whether bounds are moved to their extremes at once: half of the work is done, or patience is at its end.
    fn is_tired(&self) -> bool {
        self.is_late || self.patience == 0
    }

    /// Begins to go around a loop.
    fn open(&mut self, number: usize) -> Result<(), AllocError> {
        let Some(found) = self.nest.loop_at(number) else {
            return Ok(());
        };
        let is_fresh = self
            .active
            .last()
            .is_none_or(|around| around.is_inside_fresh());
        let thresholds = self.thresholds_of(found)?;
        self.active.push(Active {
            number,
            found,
            phase: Phase::Rising,
            is_fresh,
            may_narrow: is_fresh,
            turns: 0,
            narrowed: 0,
            before: None,
            thresholds,
        })?;
        if is_fresh {
            self.forget(found);
            put(&mut self.changes, number, 0);
        }
        let head = self.nest.label(found.head);
        if let Some(sum) = self.sums.total(head)? {
            // What comes from outside is held back by the loops around.
            let reach = if self.is_tired() {
                WideningReach::Extreme
            } else {
                WideningReach::Nowhere
            };
            self.rise(head, sum, reach)?;
        }
        self.begin_turn(found)
    }

    /// The thresholds of a loop's jumps.
    fn thresholds_of(&self, found: Loop) -> Result<Thresholds, AllocError> {
        let mut thresholds = Thresholds::new(self.task.alloc);
        thresholds.add_length(self.task.least)?;
        thresholds.add_length(self.task.most)?;
        for place in found.head..found.end {
            let label = self.nest.label(place);
            let blocks = self.task.blocks;
            for slot in blocks.label(label)..blocks.block_end(label) {
                if let Some(insn) = self.task.program.at(slot) {
                    thresholds.add_constant(insn)?;
                }
            }
        }
        Ok(thresholds)
    }

    /// Forgets all that was found inside of a loop.
    fn forget(&mut self, found: Loop) {
        for place in found.head..found.end {
            let label = self.nest.label(place);
            self.sums.forget_inside(label, found.depth);
            put(&mut self.states, label, None);
        }
    }

    /// How far bounds are moved on that a turn of a loop moved. The change is counted.
    fn reach_of(&mut self, number: usize) -> WideningReach {
        let changes = get_or(&self.changes, number, 0).saturating_add(1);
        put(&mut self.changes, number, changes);
        if self.is_tired() || changes > MOST_CHANGES {
            WideningReach::Extreme
        } else if changes > PLAIN_CHANGES {
            WideningReach::Stop
        } else {
            WideningReach::Nowhere
        }
    }

    /// Makes the state of a loop's head one that a sum lies in.
    fn rise(&mut self, head: usize, sum: Entries, reach: WideningReach) -> Result<(), AllocError> {
        let Some(state) = held(&self.states, head) else {
            put(&mut self.states, head, Some(sum));
            return Ok(());
        };
        sum.put_into(&mut *self.new);
        if self.new.entails_entries(state) {
            return Ok(());
        }
        state.put_into(&mut *self.old);
        if let Some(active) = self.active.last_mut() {
            active.thresholds.widen(&mut *self.old, &*self.new, reach)?;
        }
        let risen = Entries::of(self.task.alloc, &*self.old)?;
        put(&mut self.states, head, Some(risen));
        Ok(())
    }

    /// Whether a state lies in that of a loop's head. False if the head isn't reached.
    fn lies_in(&mut self, sum: &Entries, head: usize) -> bool {
        sum.put_into(&mut *self.new);
        held(&self.states, head).is_some_and(|state| self.new.entails_entries(state))
    }

    /// Whether a state says more than that of a loop's head, which it lies in.
    fn says_more(&mut self, sum: &Entries, head: usize) -> bool {
        match held(&self.states, head) {
            Some(state) => {
                state.put_into(&mut *self.old);
                !self.old.entails_entries(sum)
            }
            None => false,
        }
    }

    /// Goes over the head of a loop; what led back to labels of the loop in the turn before is forgotten.
    fn begin_turn(&mut self, found: Loop) -> Result<(), AllocError> {
        for place in found.head..found.end {
            self.sums.forget(self.nest.label(place), found.depth);
        }
        self.walk(self.nest.label(found.head))
    }

    /// Ends a turn of the innermost loop. The place to go on from.
    fn end_turn(&mut self) -> Result<usize, AllocError> {
        let Some(active) = self.active.last() else {
            return Ok(self.nest.labels());
        };
        let (number, found, phase) = (active.number, active.found, active.phase);
        let head = self.nest.label(found.head);
        let Some(sum) = self.sums.total(head)? else {
            return Ok(self.close(found));
        };
        let is_closed = self.lies_in(&sum, head);
        match (phase, is_closed) {
            (Phase::Rising, true) => self.end_rising(found, head, sum),
            (Phase::Again | Phase::Narrowing, true) => self.narrow(found, head, sum),
            (Phase::Back, true) => Ok(self.close(found)),
            (Phase::Narrowing, false) => self.go_back(found, head),
            (_, false) => {
                let reach = self.reach_of(number);
                self.rise(head, sum, reach)?;
                self.turn(found, Phase::Rising)
            }
        }
    }

    /// Ends the innermost loop. The place to go on from.
    fn close(&mut self, found: Loop) -> usize {
        let _active = self.active.pop();
        found.end
    }

    /// Goes around once more. The place to go on from.
    fn turn(&mut self, found: Loop, phase: Phase) -> Result<usize, AllocError> {
        if let Some(active) = self.active.last_mut() {
            if matches!(phase, Phase::Rising) && !matches!(active.phase, Phase::Rising) {
                active.may_narrow = false;
            }
            active.phase = phase;
            active.turns = active.turns.saturating_add(1);
        }
        self.begin_turn(found)?;
        Ok(found.head.saturating_add(1))
    }

    /// The head's state doesn't rise any more.
    fn end_rising(&mut self, found: Loop, head: usize, sum: Entries) -> Result<usize, AllocError> {
        let may_narrow = self.active.last().is_some_and(|active| active.may_narrow);
        if !may_narrow || self.is_tired() {
            return Ok(self.close(found));
        }
        if found.has_inner {
            return self.turn(found, Phase::Again);
        }
        self.narrow(found, head, sum)
    }

    /// Takes what arrives at the head as its state, if that says more.
    fn narrow(&mut self, found: Loop, head: usize, sum: Entries) -> Result<usize, AllocError> {
        let says_more = self.says_more(&sum, head);
        let is_tired = self.is_tired();
        let Some(active) = self.active.last_mut() else {
            return Ok(found.end);
        };
        if !says_more || is_tired || active.narrowed >= NARROWINGS {
            return Ok(self.close(found));
        }
        active.narrowed = active.narrowed.saturating_add(1);
        if let Some(state) = self.states.get_mut(head) {
            active.before = state.replace(sum);
        }
        self.turn(found, Phase::Narrowing)
    }

    /// Takes back the last narrowing.
    fn go_back(&mut self, found: Loop, head: usize) -> Result<usize, AllocError> {
        if let Some(active) = self.active.last_mut() {
            let before = active.before.take();
            put(&mut self.states, head, before);
        }
        self.turn(found, Phase::Back)
    }
}
