//! The states of a program's labels: function by function, with labels for dead code, until what functions return
//! stands. This is an interprocedural data flow with one state for all calls of a function (Sharir and Pnueli, Two
//! approaches to interprocedural data flow analysis, 1981, have one for each).

mod outcome;
mod surveys;

use crate::dead::{Seeds, add_seeds};
use crate::judge::WalkReport;
use crate::nest::Nest;
use crate::settle::Settler;
use bpf_infer_base::{
    Blocks, JoinedStates, LabelState, Limit, Meter, SearchStop, Task, Watch, get_or, graph_of,
    held, put, vacant,
};
use bpf_num::Num;
use bpf_state::{Entries, State};
pub use outcome::draft;
use std::alloc::{AllocError, Global};
pub use surveys::{Survey, surveyed};

/// The most times that labels are added for dead code of a function, or their states are changed.
const DEAD_ROUNDS: u32 = 24;

/// The passes in which what functions return may be found to be less.
const PASSES: u32 = 3;

/// The most passes with those that take back what a function returns.
const MOST_PASSES: u32 = 11;

/// What was found of a function that begins in a state.
#[derive(Drop)]
struct JudgedFunction {
    entry: Entries,
    blocks: Blocks,
    states: Vec<LabelState>,
    report: WalkReport,
}

/// The functions of a program and what is known of them so far, by their numbers.
#[derive(Drop)]
struct Analysis<'a> {
    /// All their blocks. Whether walks end at faults tells whether dead code stays dead, too.
    whole: Task<'a>,
    /// What each returns.
    rets: Vec<Num>,
    /// Whether what each returns changed since all were judged.
    is_changed: Vec<bool>,
    /// The states that each begins in.
    entries: JoinedStates,
    judged: Vec<Option<JudgedFunction>>,
}

impl<'a> Analysis<'a> {
    /// Nothing is known of any function.
    fn new(whole: Task<'a>) -> Result<Analysis<'a>, AllocError> {
        let (alloc, count) = (whole.alloc, whole.cfg.functions.count());
        Ok(Analysis {
            whole,
            rets: vec![in alloc; Num::top(); count]?,
            is_changed: vec![in alloc; false; count]?,
            entries: JoinedStates::new(alloc, count)?,
            judged: vacant(alloc, count)?,
        })
    }

    /// What a walk over a function is given.
    fn task<'b>(&'b self, blocks: &'b Blocks) -> Task<'b> {
        Task {
            blocks,
            rets: &self.rets,
            ..self.whole
        }
    }

    // ---- one function

    /// Judges a function that begins in a state. I1 at its first slot if its states don't settle.
    fn judge<W: Watch>(
        &self,
        function: usize,
        entry: &State,
        meter: &mut Meter<'_, W>,
    ) -> Result<JudgedFunction, SearchStop> {
        let first = self.whole.cfg.first_slot(function);
        let end = self.whole.cfg.first_slot(function.saturating_add(1));
        let mut seeds = Seeds::new(self.whole.alloc, first, end)?;
        let mut judged = self.judge_once(first, end, entry, &seeds, meter)?;
        if self.whole.stops {
            return Ok(judged);
        }
        for _ in 0..DEAD_ROUNDS {
            if !self.improve(&judged, &mut seeds)? {
                break;
            }
            judged = self.judge_once(first, end, entry, &seeds, meter)?;
        }
        Ok(judged)
    }

    /// Adds labels for what isn't reached; where all is, changes the states of those that were added, if something is wrong.
    /// Whether there was anything to do.
    fn improve(&self, judged: &JudgedFunction, seeds: &mut Seeds) -> Result<bool, AllocError> {
        let task = self.task(&judged.blocks);
        if judged.report.unreached(task).is_some() {
            add_seeds(task, &judged.states, &judged.report, seeds)?;
            return Ok(true);
        }
        match judged.report.fault {
            Some(fault) => seeds.repair(task, fault),
            None => Ok(false),
        }
    }

    /// Judges the function from one slot to another with the labels that it has so far.
    fn judge_once<W: Watch>(
        &self,
        first: u32,
        end: u32,
        entry: &State,
        seeds: &Seeds,
        meter: &mut Meter<'_, W>,
    ) -> Result<JudgedFunction, SearchStop> {
        let extra = seeds.slots()?;
        let blocks = Blocks::cut_by_jumps(
            self.whole.alloc,
            self.whole.program,
            first,
            end,
            &extra,
        )?;
        let states = self.states_of(&blocks, entry, seeds, meter)?;
        let report = WalkReport::of(self.task(&blocks), &states)?;
        Ok(JudgedFunction {
            entry: Entries::of(self.whole.alloc, entry)?,
            blocks,
            states,
            report,
        })
    }

    /// The states of a function's labels. I1 at its first slot if they don't settle.
    fn states_of<W: Watch>(
        &self,
        blocks: &Blocks,
        entry: &State,
        seeds: &Seeds,
        meter: &mut Meter<'_, W>,
    ) -> Result<Vec<LabelState>, SearchStop> {
        let graph = graph_of(self.whole.alloc, self.whole.program, blocks)?;
        let Some(nest) = Nest::of(self.whole.alloc, &graph)? else {
            return Err(SearchStop::unstable(blocks.first(), Limit::Depth));
        };
        let mut settler = Settler::new(self.task(blocks), &nest)?;
        settler.seed(0, entry)?;
        for label in 0..blocks.count() {
            if let Some(known) = seeds.at(blocks.label(label)) {
                settler.seed(label, &known.state())?;
            }
        }
        settler.settle(meter)
    }

    // ---- all functions

    /// Whether a function was judged with this entry, and with what its callees return.
    fn is_current(&self, function: usize, entry: &State) -> bool {
        let Some(judged) = held(&self.judged, function) else {
            return false;
        };
        let mut entries = judged.report.entries.list.iter().zip(&self.is_changed);
        if entries.any(|(entry, is_changed)| entry.is_some() && *is_changed) {
            return false;
        }
        entry.entails_entries(&judged.entry) && judged.entry.state().entails(entry)
    }

    /// Judges a function that is reached. I1 at its first slot if its states don't settle.
    fn visit<W: Watch>(
        &mut self,
        function: usize,
        meter: &mut Meter<'_, W>,
    ) -> Result<(), SearchStop> {
        let Some(entry) = self.entries.at(function).map(|entry| entry.state()) else {
            return Ok(());
        };
        if !self.is_current(function, &entry) {
            let judged = self.judge(function, &entry, meter)?;
            put(&mut self.judged, function, Some(judged));
        }
        self.enter_callees(function)?;
        Ok(())
    }

    /// Takes note of the states in which a function calls others.
    fn enter_callees(&mut self, function: usize) -> Result<(), AllocError> {
        let Some(judged) = held(&self.judged, function) else {
            return Ok(());
        };
        for (callee, entry) in judged.report.entries.list.iter().enumerate() {
            if let Some(entry) = entry {
                let _is_changed = self.entries.add(callee, &entry.state(), None)?;
            }
        }
        Ok(())
    }

    /// Judges all functions, callers before callees. I1 at one whose states don't settle.
    fn pass<W: Watch>(
        &mut self,
        start: &State,
        meter: &mut Meter<'_, W>,
    ) -> Result<(), SearchStop> {
        self.entries = JoinedStates::new(self.whole.alloc, self.judged.len())?;
        let _is_changed = self.entries.add(0, start, None)?;
        let cfg = self.whole.cfg;
        for function in &cfg.callers_first {
            self.visit(*function, meter)?;
        }
        Ok(())
    }

    /// Makes each function return what its EXITs say, if that says more and may be taken; where they say less, any number.
    /// Whether something changed.
    fn update_rets(&mut self, may_fall: bool) -> bool {
        let mut has_changed = false;
        for function in 0..self.judged.len() {
            let old = get_or(&self.rets, function, Num::top());
            let exit = held(&self.judged, function).and_then(|judged| judged.report.exit);
            let new = exit.unwrap_or(Num::top());
            let next = if !new.entails(old) {
                Num::top()
            } else if may_fall {
                new
            } else {
                old
            };
            let is_changed = !(old.entails(next) && next.entails(old));
            has_changed = has_changed || is_changed;
            put(&mut self.is_changed, function, is_changed);
            put(&mut self.rets, function, next);
        }
        has_changed
    }

    /// Judges all functions until what they return stands. I1 at a function whose states don't settle, and at slot 0 if what
    /// they return doesn't.
    fn settle<W: Watch>(
        &mut self,
        start: &State,
        meter: &mut Meter<'_, W>,
    ) -> Result<(), SearchStop> {
        for pass in 0..MOST_PASSES {
            self.pass(start, meter)?;
            if !self.update_rets(pass < PASSES) {
                return Ok(());
            }
        }
        let passes = MOST_PASSES;
        Err(SearchStop::unstable(0, Limit::Returns { passes }))
    }
}
