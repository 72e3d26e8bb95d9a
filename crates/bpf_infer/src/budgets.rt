//! Budgets: how many instructions may still be done from each label on. They are linear ranking functions (Podelski and
//! Rybalchenko, A complete method for the synthesis of linear ranking functions, 2004), by the longest paths.

use crate::loops::{LoopBlocks, Loops, loops_of};
use crate::rounds::Rounds;
use bpf_cert::{MAX_BASE, MAX_WEIGHT};
use bpf_infer_base::{
    BlockEdge, CalledFunction, Counter, InferError, LinearTerm, NumberSpan, Visitor, get_or,
    load_at, place, put,
};
use bpf_insn::Insn;
use bpf_state::{State, Tag};
use std::alloc::AllocError;

/// What the place of an edge's target holds: an offset more than the place of the label before did, or any number of
/// some.
#[derive(Clone, Copy)]
enum PlaceChange {
    Moved(i64),
    Within(NumberSpan),
}

/// An edge into a label, or an exit, with its cost since the label before.
#[derive(Clone, Copy)]
struct PricedEdge {
    from: usize,
    to: Option<usize>,
    cost: i128,
    held: PlaceChange,
}

/// The budget at a label.
#[derive(Clone, Copy)]
struct LabelBudget {
    /// At most 2^40, where no limit is passed.
    base: i128,
    /// At a loop's head the weight of its counter, from 1 to 2^20.
    weight: i128,
    /// What the counter's place holds.
    span: NumberSpan,
    /// The numbers of the paths from here on.
    paths_from: usize,
    paths_to: usize,
}

impl LabelBudget {
    const NONE: LabelBudget = LabelBudget {
        base: 0,
        weight: 1,
        span: NumberSpan::ALL,
        paths_from: 0,
        paths_to: 0,
    };
}

/// The budgets of a program's labels.
#[derive(Drop)]
pub struct Budgets {
    loops: Loops,
    plans: Vec<LabelBudget>,
    paths: Vec<PricedEdge>,
    /// The cost since the label: its instructions, and what calls may cost.
    cost: i128,
}

impl Visitor for Budgets {
    type Stop = AllocError;

    fn before(&mut self, _slot: u32, _insn: &Insn, _state: &State) -> Result<(), AllocError> {
        self.cost = self.cost.saturating_add(1);
        Ok(())
    }

    fn edge(&mut self, edge: BlockEdge, state: &State) -> Result<(), AllocError> {
        let path = PricedEdge {
            from: edge.from,
            to: Some(edge.to),
            cost: self.cost,
            held: self.held_at(edge.to, state),
        };
        self.paths.push(path)?;
        Ok(())
    }

    fn call(&mut self, callee: CalledFunction, state: &State) -> Result<(), AllocError> {
        self.cost = self.cost.saturating_add(self.greatest(callee.block, state));
        Ok(())
    }

    fn exit(&mut self, from: usize, _state: &State) -> Result<(), AllocError> {
        let path = PricedEdge {
            from,
            to: None,
            cost: self.cost,
            held: PlaceChange::Moved(0),
        };
        self.paths.push(path)?;
        Ok(())
    }
}

impl Budgets {
    /// What is planned at a label.
    fn plan(&self, block: usize) -> LabelBudget {
        get_or(&self.plans, block, LabelBudget::NONE)
    }

    /// The base of a label's budget.
    pub fn base(&self, block: usize) -> i128 {
        self.plan(block).base
    }

    /// The counter of a label's budget, with its weight.
    pub fn counted(&self, block: usize) -> Option<(Counter, i128)> {
        let found = self.loops.at(block)?;
        Some((found.counter?, self.plan(found.head).weight))
    }

    /// The term of a label's budget, as a line over what its place holds.
    fn line_at(&self, block: usize) -> LinearTerm {
        let counted = self.counted(block);
        counted.map_or(
            LinearTerm::ZERO,
            |(counter, weight)| LinearTerm::of(counter, weight),
        )
    }

    /// What the place of a label's counter holds in a state on the way to it.
    fn held_at(&self, block: usize, state: &State) -> PlaceChange {
        let Some(counter) = self.loops.counter_at(block) else {
            return PlaceChange::Moved(0);
        };
        match state.tag(place(counter.number())) {
            Some(tag) => PlaceChange::Moved(tag.offset),
            None => PlaceChange::Within(NumberSpan::of(state, counter.number())),
        }
    }

    /// What the place of a label's counter holds in a state.
    fn span_in(&self, block: usize, state: &State) -> NumberSpan {
        let counter = self.loops.counter_at(block);
        counter.map_or(
            NumberSpan::ALL,
            |counter| NumberSpan::of(state, counter.number()),
        )
    }

    /// The greatest budget of a label over a state.
    pub fn greatest(&self, block: usize, state: &State) -> i128 {
        let most = self.line_at(block).greatest(self.span_in(block, state));
        self.base(block).saturating_add(most)
    }

    // ---- the paths from each label

    /// Tags the counter at a label.
    fn tag_counter(&self, block: usize, state: &mut State) {
        if let Some(counter) = self.loops.counter_at(block) {
            state.set_tag(place(counter.number()), Some(Tag { term: 0, offset: 0 }));
        }
    }

    /// Goes over a block, and takes note of its paths and of what its counter holds.
    fn walk_over(
        &mut self,
        rounds: &Rounds,
        block: usize,
        room: &mut State,
    ) -> Result<(), InferError> {
        if !load_at(&rounds.states.list, block, room) {
            return Ok(());
        }
        self.tag_counter(block, room);
        let span = self.span_in(block, room);
        let paths_from = self.paths.len();
        self.cost = 0;
        if let Err(fault) = rounds.task.walk(block, room, self)? {
            return Err(fault.refusal());
        }
        let plan = LabelBudget {
            span,
            paths_from,
            paths_to: self.paths.len(),
            ..LabelBudget::NONE
        };
        put(&mut self.plans, block, plan);
        Ok(())
    }

    /// Goes over the blocks from one to another.
    fn walk_all(&mut self, rounds: &Rounds, first: usize, end: usize) -> Result<(), InferError> {
        let mut room = State::blank();
        for block in first..end {
            self.walk_over(rounds, block, &mut room)?;
        }
        Ok(())
    }

    // ---- weights

    /// The greatest cost of a path from the head of a loop to itself.
    fn cost_around(&self, rounds: &Rounds, found: LoopBlocks) -> Result<i128, AllocError> {
        let count = found.last.saturating_sub(found.head).saturating_add(1);
        let mut costs = vec![in rounds.task.alloc; None; count]?;
        put(&mut costs, 0, Some(0i128));
        let mut around = 0;
        for number in self.plan(found.head).paths_from..self.plan(found.last).paths_to {
            if let Some(path) = self.paths.get(number) {
                around = around.max(follow(&mut costs, found, path));
            }
        }
        Ok(around)
    }

    /// I2 at the head of a loop with a weight above 2^20.
    fn weigh(&mut self, rounds: &Rounds, found: LoopBlocks) -> Result<(), InferError> {
        let weight = self.cost_around(rounds, found)?.max(1);
        if weight > MAX_WEIGHT as i128 {
            return Err(rounds.no_budget(found.head));
        }
        let plan = self.plan(found.head);
        put(&mut self.plans, found.head, LabelBudget { weight, ..plan });
        Ok(())
    }

    /// Weighs the counters of the loops whose heads are among the blocks from one to another.
    fn weigh_all(&mut self, rounds: &Rounds, first: usize, end: usize) -> Result<(), InferError> {
        for block in first..end {
            if let Some(found) = self.loops.headed(block) {
                self.weigh(rounds, found)?;
            }
        }
        Ok(())
    }

    // ---- bases

    /// The least base that pays a path.
    fn price(&self, path: &PricedEdge) -> i128 {
        let own = self.line_at(path.from);
        let span = self.plan(path.from).span;
        let (base, line) = match path.to {
            Some(to) => (self.base(to), self.line_at(to)),
            None => (0, LinearTerm::ZERO),
        };
        let varying = match path.held {
            PlaceChange::Moved(offset) => line.moved(offset).minus(own).greatest(span),
            PlaceChange::Within(held) => {
                let least = LinearTerm::ZERO.minus(own).greatest(span);
                line.greatest(held).saturating_add(least)
            }
        };
        path.cost.saturating_add(base).saturating_add(varying)
    }

    /// The least base that pays the paths from a label, of those that lead back only if wanted. I2 above 2^40.
    fn pay(&mut self, rounds: &Rounds, block: usize, pays_back: bool) -> Result<(), InferError> {
        let plan = self.plan(block);
        let mut base = 0;
        for number in plan.paths_from..plan.paths_to {
            if let Some(path) = self.paths.get(number) {
                let leads_back = path.to.is_some_and(|to| to <= path.from);
                if pays_back || !leads_back {
                    base = base.max(self.price(path));
                }
            }
        }
        if base > MAX_BASE as i128 {
            return Err(rounds.no_budget(block));
        }
        put(&mut self.plans, block, LabelBudget { base, ..plan });
        Ok(())
    }

    /// Pays the paths from the labels of a loop, those back to its head too.
    fn pay_back(&mut self, rounds: &Rounds, found: LoopBlocks) -> Result<(), InferError> {
        for block in (found.head.saturating_add(1)..found.last.saturating_add(1)).rev() {
            self.pay(rounds, block, true)?;
        }
        Ok(())
    }

    /// From the highest label on; the paths in a loop are paid once its head is.
    fn pay_all(&mut self, rounds: &Rounds, first: usize, end: usize) -> Result<(), InferError> {
        for block in (first..end).rev() {
            self.pay(rounds, block, false)?;
            if let Some(found) = self.loops.headed(block) {
                self.pay_back(rounds, found)?;
            }
        }
        Ok(())
    }

    // ---- functions

    /// Finds the budgets of all functions' labels, callees first.
    fn plan_all(&mut self, rounds: &Rounds) -> Result<(), InferError> {
        let cfg = rounds.task.cfg;
        for function in &cfg.callees_first {
            let first = cfg.first_block(*function);
            let end = cfg.first_block(function.saturating_add(1));
            self.walk_all(rounds, first, end)?;
            self.weigh_all(rounds, first, end)?;
            self.pay_all(rounds, first, end)?;
        }
        Ok(())
    }
}

/// Goes on along a path. The cost of the path around the loop, or 0 if it isn't at the head again.
fn follow(costs: &mut Vec<Option<i128>>, found: LoopBlocks, path: &PricedEdge) -> i128 {
    let Some(to) = path.to else {
        return 0;
    };
    let here = path.from.saturating_sub(found.head);
    let Some(Some(cost)) = costs.get(here) else {
        return 0;
    };
    let cost = cost.saturating_add(path.cost);
    if to == found.head {
        return cost;
    }
    if to > found.head && to <= found.last {
        if let Some(held) = costs.get_mut(to.saturating_sub(found.head)) {
            *held = Some(held.unwrap_or(0).max(cost));
        }
    }
    0
}

/// The budgets of a program's labels. I2 as `loops_of` has it, else at a label that is over a limit.
pub fn budgets_of(rounds: &Rounds) -> Result<Budgets, InferError> {
    let mut budgets = Budgets {
        loops: loops_of(rounds)?,
        plans: vec![in rounds.task.alloc; LabelBudget::NONE; rounds.states.list.len()]?,
        paths: Vec::new(rounds.task.alloc),
        cost: 0,
    };
    budgets.plan_all(rounds)?;
    Ok(budgets)
}
