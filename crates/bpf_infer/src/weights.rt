//! How often the counters of a group are counted: longest paths to their steps, and bisection for the least weights.

use crate::candidates::least_step;
use crate::groups::{CounterGroup, GroupCounter};
use crate::plan::FunctionBudgets;
use bpf_cert::MAX_WEIGHT;
use bpf_infer_base::{Arc, Graph, Limit, Obstacle, SearchStop, get_or, longest_paths, put};
use std::alloc::{AllocError, Global};

/// The most labels of a component whose weights are made least.
const FEW_LABELS: usize = 64;

/// The most passes over a component.
const MOST_PASSES: usize = 1024;

/// How often a number from 1 to the greatest weight may be halved.
const HALVINGS: usize = 20;

/// By arcs, what bases have to pay beside one another.
fn lengths_of(plan: &FunctionBudgets, graph: &Graph) -> Result<Vec<i128>, AllocError> {
    let length_of = |arc: &Arc| plan.paths.at(arc.path).map_or(0, |path| plan.length(path));
    graph.arcs().iter().map(length_of).collect(plan.alloc)
}

/// Adds what a counter grows by, so many times.
fn add_changes(sums: &mut Vec<i128>, counted: &GroupCounter, weight: i128) {
    for (sum, change) in sums.iter_mut().zip(&counted.changes) {
        *sum = sum.saturating_add(change.saturating_mul(weight));
    }
}

/// By arcs, how much the counters of a group grow together: 0 or less.
fn changes_of(alloc: Global, group: &CounterGroup) -> Result<Vec<i128>, AllocError> {
    let mut sums = vec![in alloc; 0; group.component.graph.arcs().len()]?;
    for counted in &group.counters {
        add_changes(&mut sums, counted, 1);
    }
    Ok(sums)
}

/// By nodes, the length of the longest arc from each on which something falls.
fn heights_of(
    alloc: Global,
    graph: &Graph,
    lengths: &[i128],
    changes: &[i128],
) -> Result<Vec<i128>, AllocError> {
    let mut heights = vec![in alloc; 0; graph.count()]?;
    for ((arc, length), change) in graph.arcs().iter().zip(lengths).zip(changes) {
        if *change < 0 {
            let height = (*length).max(get_or(&heights, arc.from, 0));
            put(&mut heights, arc.from, height);
        }
    }
    Ok(heights)
}

/// How many passes a graph of so many nodes is given.
pub fn passes_over(count: usize) -> usize {
    count.saturating_add(2).min(MOST_PASSES)
}

/// A weight with which a step pays the longest path to it, and the path of the step. None if there is no longest one.
fn weight_of(
    alloc: Global,
    group: &CounterGroup,
    lengths: &[i128],
) -> Result<Option<i128>, AllocError> {
    let changes = changes_of(alloc, group)?;
    let graph = &group.component.graph;
    let heights = heights_of(alloc, graph, lengths, &changes)?;
    let step = least_step(&changes).unwrap_or(i128::MAX);
    // What is left are the arcs on which nothing falls.
    let is_left = |number: &usize| get_or(&changes, *number, 0) >= 0;
    let left: Vec<usize> = (0..changes.len()).filter(is_left).collect(alloc)?;
    let length_of = |number: &usize| get_or(lengths, *number, 0);
    let lengths: Vec<i128> = left.iter().map(length_of).collect(alloc)?;
    let graph = group.component.part(alloc, &left)?;
    let Some(heights) = longest_paths(&graph, &lengths, heights, passes_over(graph.count())) else {
        return Ok(None);
    };
    let greatest = heights.iter().copied().max().unwrap_or(0).max(0);
    let rounded = greatest.saturating_add(step.saturating_sub(1));
    Ok(Some(rounded.checked_div(step).unwrap_or(1).max(1)))
}

// ---- the least weights

/// Whether no cycle costs more than the counters pay.
fn is_paid(
    plan: &FunctionBudgets,
    group: &CounterGroup,
    lengths: &[i128],
) -> Result<bool, AllocError> {
    let mut sums = lengths.to_vec(plan.alloc)?;
    for counted in &group.counters {
        add_changes(&mut sums, counted, plan.weight(counted.weight));
    }
    let graph = &group.component.graph;
    let heights = vec![in plan.alloc; 0; graph.count()]?;
    Ok(longest_paths(graph, &sums, heights, passes_over(graph.count())).is_some())
}

/// Makes a weight the least with which cycles are paid.
fn lower(
    plan: &mut FunctionBudgets,
    group: &CounterGroup,
    lengths: &[i128],
    number: usize,
) -> Result<(), AllocError> {
    let mut most = plan.weight(number);
    let mut least = 1i128;
    for _ in 0..HALVINGS {
        if least >= most {
            break;
        }
        let middle = least.saturating_add(most).checked_div(2).unwrap_or(least);
        plan.set_weight(number, middle);
        if is_paid(plan, group, lengths)? {
            most = middle;
        } else {
            least = middle.saturating_add(1);
        }
    }
    plan.set_weight(number, most);
    Ok(())
}

/// Gives the counters of a group their weights; those of inner groups have theirs. I2 at the lowest label of a group with
/// a weight above 2^20.
pub fn weigh(plan: &mut FunctionBudgets, group: &CounterGroup) -> Result<(), SearchStop> {
    let lengths = lengths_of(plan, &group.component.graph)?;
    let slot = plan.slot(group.component.label(0));
    let Some(weight) = weight_of(plan.alloc, group, &lengths)? else {
        return Err(SearchStop::no_budget(slot, Obstacle::Over(Limit::Passes)));
    };
    if weight > MAX_WEIGHT as i128 {
        let wanted = u64::try_from(weight).unwrap_or(u64::MAX);
        return Err(SearchStop::no_budget(slot, Obstacle::Over(Limit::Weight { wanted })));
    }
    for counted in &group.counters {
        plan.set_weight(counted.weight, weight);
    }
    if group.component.labels.len() <= FEW_LABELS {
        for counted in &group.counters {
            lower(plan, group, &lengths, counted.weight)?;
        }
    }
    Ok(())
}
