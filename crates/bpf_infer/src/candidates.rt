//! What may count the rounds of a component. Where a number rises on one path and falls on another, heights of the
//! labels even it out: longest paths by Bellman and Ford (`graph.rt`).

use crate::components::Component;
use crate::plan::FunctionBudgets;
use bpf_infer_base::{
    Arc, Counter, Graph, PLACES, get_or, longest_paths, nodes_on_cycles, number_in, put,
};
use bpf_state::RegState;
use std::alloc::{AllocError, Global};

/// The most passes over a component for a counter that rises and falls on cycles.
const PASSES: usize = 64;

/// A counter of a component: a place at each label, whose number falls on cycles, or rises up to a limit.
#[derive(Drop)]
pub struct Candidate {
    /// By nodes.
    places: Vec<usize>,
    /// The greatest number in the place, if it rises.
    limit: Option<u64>,
    /// By arcs, how much what is counted grows, evened out so that it never does: 0 or less.
    pub changes: Vec<i128>,
    /// How often it may fall, at the most.
    range: i128,
}

impl Candidate {
    /// What it counts at a node.
    pub fn counter(&self, node: usize) -> Counter {
        let number = number_in(&self.places, node);
        match self.limit {
            Some(limit) => Counter::Rising(number, limit),
            None => Counter::Falling(number),
        }
    }

    /// The arcs on which it doesn't fall, of those that are left.
    pub fn without_strict(&self, alloc: Global, left: &[usize]) -> Result<Vec<usize>, AllocError> {
        let is_left = |number: &usize| get_or(&self.changes, *number, 0) >= 0;
        left.iter().copied().filter(is_left).collect(alloc)
    }
}

// ---- measures

/// What is counted, with the heights of the nodes added.
fn level(graph: &Graph, heights: &[i128], changes: &mut Vec<i128>) {
    for (arc, change) in graph.arcs().iter().zip(changes.iter_mut()) {
        let start = get_or(heights, arc.from, 0);
        let end = get_or(heights, arc.to, 0);
        *change = change.saturating_add(end).saturating_sub(start);
    }
}

/// Changes of a component such that none is above 0, and the sums on cycles are the same. False if a cycle has a sum above 0.
fn even_out(alloc: Global, graph: &Graph, changes: &mut Vec<i128>) -> Result<bool, AllocError> {
    if changes.iter().all(|change| *change <= 0) {
        return Ok(true);
    }
    // Each arc lies on a cycle: where none falls and one grows, a cycle grows.
    if changes.iter().all(|change| *change >= 0) {
        return Ok(false);
    }
    let heights = vec![in alloc; 0; graph.count()]?;
    match longest_paths(graph, changes, heights, PASSES) {
        Some(heights) => {
            level(graph, &heights, changes);
            Ok(true)
        }
        None => Ok(false),
    }
}

/// The least by which something falls, where it does.
pub fn least_step(changes: &[i128]) -> Option<i128> {
    let falls = changes.iter().filter(|change| **change < 0);
    falls.map(|change| 0i128.saturating_sub(*change)).min()
}

// ---- following a place backwards

/// What counts a component is sought by following places along its arcs.
#[derive(Clone, Copy)]
struct CandidateSearch<'a> {
    plan: &'a FunctionBudgets<'a>,
    component: &'a Component,
}

impl<'a> CandidateSearch<'a> {
    /// Whether a place is counted already at the label of a node.
    fn is_counted(&self, node: usize, number: usize) -> bool {
        self.plan.is_counted(self.component.label(node), number)
    }

    /// The place that holds the counter at the start of an arc.
    fn place_before(&self, places: &[usize], arc: &Arc) -> Option<usize> {
        let tag = self.plan.paths.source(arc.path, number_in(places, arc.to))?;
        let number = tag.term as usize;
        (!self.is_counted(arc.from, number)).then_some(number)
    }

    /// By nodes, the places that hold the counter that a place holds at the first label. None if it isn't the same from all
    /// sides.
    fn places_of(&self, number: usize) -> Result<Option<Vec<usize>>, AllocError> {
        let mut places = vec![in self.plan.alloc; number; self.component.labels.len()]?;
        for arc in &self.component.tree {
            let Some(before) = self.place_before(&places, arc) else {
                return Ok(None);
            };
            put(&mut places, arc.from, before);
        }
        Ok(Some(places))
    }

    /// How much the counter grows on an arc.
    fn growth(&self, places: &[usize], arc: &Arc) -> Option<i128> {
        let tag = self.plan.paths.source(arc.path, number_in(places, arc.to))?;
        let is_followed = tag.term as usize == number_in(places, arc.from);
        is_followed.then_some(tag.offset as i128)
    }

    /// By arcs, how much the counter grows. None if it isn't followed on one.
    fn growths(&self, places: &[usize]) -> Result<Option<Vec<i128>>, AllocError> {
        let arcs = self.component.graph.arcs();
        let mut list = Vec::with_capacity(self.plan.alloc, arcs.len())?;
        for arc in arcs {
            let Some(growth) = self.growth(places, arc) else {
                return Ok(None);
            };
            list.push(growth)?;
        }
        Ok(Some(list))
    }

    /// The least and the greatest number in the place of a counter at the labels of a component.
    fn span_over(&self, places: &[usize]) -> (u64, u64) {
        let mut least = u64::MAX;
        let mut most = 0;
        for (label, number) in self.component.labels.iter().zip(places) {
            let span = self.plan.span(*label, *number);
            least = least.min(span.lo);
            most = most.max(span.hi);
        }
        (least, most)
    }

    /// The counter of places that falls, or rises, if no cycle turns it and some path changes it.
    fn candidate_of(
        &self,
        places: &[usize],
        growths: &[i128],
        rises: bool,
    ) -> Result<Option<Candidate>, AllocError> {
        let alloc = self.plan.alloc;
        let sign = if rises { -1i128 } else { 1 };
        let signed = growths.iter().map(|growth| growth.saturating_mul(sign));
        let mut changes: Vec<i128> = signed.collect(alloc)?;
        if !even_out(alloc, &self.component.graph, &mut changes)? {
            return Ok(None);
        }
        let Some(step) = least_step(&changes) else {
            return Ok(None);
        };
        let (least, most) = self.span_over(places);
        let (limit, range) = if rises {
            (Some(most), most.saturating_sub(least))
        } else {
            (None, most)
        };
        Ok(Some(Candidate {
            places: places.to_vec(alloc)?,
            limit,
            changes,
            range: (range as i128).checked_div(step).unwrap_or(0),
        }))
    }

    /// Adds the counters that a place at the first label gives.
    fn add(&self, number: usize, list: &mut Vec<Candidate>) -> Result<(), AllocError> {
        let Some(places) = self.places_of(number)? else {
            return Ok(());
        };
        let Some(growths) = self.growths(&places)? else {
            return Ok(());
        };
        for rises in [false, true] {
            if let Some(found) = self.candidate_of(&places, &growths, rises)? {
                list.push(found)?;
            }
        }
        Ok(())
    }
}

/// All that may count the rounds of a component.
pub fn candidates_of<'x>(
    plan: &'x FunctionBudgets<'x>,
    component: &'x Component,
) -> Result<Vec<Candidate>, AllocError> {
    let search = CandidateSearch { plan, component };
    let mut list = Vec::new(plan.alloc);
    for number in 0..PLACES {
        let is_number = matches!(plan.said(component.label(0), number), RegState::Num(_));
        if is_number && !search.is_counted(0, number) {
            search.add(number, &mut list)?;
        }
    }
    Ok(list)
}

// ---- choosing

/// A candidate by its number, and how many labels stay on cycles.
#[derive(Clone, Copy)]
pub struct RankedCandidate {
    pub number: usize,
    pub cyclic: usize,
    range: i128,
}

/// The candidate that leaves the fewest labels on cycles, and of these the one that falls least often, the first of equal
/// ones.
pub fn choose(
    alloc: Global,
    component: &Component,
    candidates: &[Candidate],
    left: &[usize],
) -> Result<Option<RankedCandidate>, AllocError> {
    let mut best: Option<RankedCandidate> = None;
    for (number, candidate) in candidates.iter().enumerate() {
        let numbers = candidate.without_strict(alloc, left)?;
        let choice = RankedCandidate {
            number,
            cyclic: nodes_on_cycles(alloc, &component.part(alloc, &numbers)?)?,
            range: candidate.range,
        };
        if best.is_none_or(|best| (choice.cyclic, choice.range) < (best.cyclic, best.range)) {
            best = Some(choice);
        }
    }
    Ok(best)
}
