//! The calls of a program: how deep they go, by longest paths of the call graph, and whether one leads back.

use crate::blocks::Blocks;
use crate::condition::ForeseenCondition;
use crate::error::InferError;
use crate::fault::SlotFailure;
use crate::flow::Flow;
use crate::graph::{Arc, Components, Graph};
use crate::lists::{get_or, put};
use bpf_cert::MAX_DEPTH;
use bpf_insn::{Insn, Program};
use std::alloc::{AllocError, Global};

/// A call: its slot, and the slot that it leads to.
#[derive(Clone, Copy)]
pub struct Call {
    pub slot: u32,
    pub target: u32,
}

/// The calls of a program, by their slots.
pub fn calls_of(alloc: Global, program: &Program) -> Result<Vec<Call>, AllocError> {
    let mut calls = Vec::new(alloc);
    for slot in 0..program.slots() {
        if let Some(Flow::Call(target)) = Flow::at(program, slot) {
            calls.push(Call { slot, target })?;
        }
    }
    Ok(calls)
}

/// The arcs from function to function for some calls, each numbered by its slot.
fn arcs_of(alloc: Global, functions: &Blocks, calls: &[Call]) -> Result<Vec<Arc>, AllocError> {
    let arc_of = |call: &Call| {
        let (from, to) = (
            functions.block_of(call.slot),
            functions.block_of(call.target),
        );
        Arc::numbered(from, to, call.slot as usize)
    };
    calls.iter().map(arc_of).collect(alloc)
}

/// The slot of the lowest call that leads back to its function: one within a component. Calls rise by their slots, and so by
/// the functions that they stand in.
fn first_recursion(
    alloc: Global,
    functions: &Blocks,
    calls: Vec<Arc>,
) -> Result<Option<u32>, AllocError> {
    let graph = Graph::of(alloc, functions.count(), calls)?;
    let components = Components::of(alloc, &graph)?;
    let found = graph.arcs().iter().find(|call| components.contains(call));
    Ok(found.and_then(|call| u32::try_from(call.path).ok()))
}

// ---- depths

/// Makes each caller deeper than its callees.
fn deepen(depths: &mut Vec<u32>, calls: &[Arc]) {
    for call in calls {
        let depth = get_or(depths, call.to, 0).saturating_add(1);
        let deepest = depth.max(get_or(depths, call.from, 0));
        put(depths, call.from, deepest);
    }
}

/// The depth of each function: 1 plus the greatest depth of those that it calls. I3 at the lowest call of a recursion;
/// I2 at the first slot of the lowest function with a depth above 8.
pub fn depths_of(
    alloc: Global,
    functions: &Blocks,
    calls: &[Call],
) -> Result<Vec<u32>, InferError> {
    let arcs = arcs_of(alloc, functions, calls)?;
    let mut depths = vec![in alloc; 1; functions.count()]?;
    for _ in 0..MAX_DEPTH {
        deepen(&mut depths, &arcs);
    }
    let Some(deep) = depths.iter().position(|depth| *depth > MAX_DEPTH) else {
        return Ok(depths);
    };
    let slot = functions.label(deep);
    match first_recursion(alloc, functions, arcs)? {
        Some(slot) => Err(InferError::Recursion { slot }),
        None => Err(InferError::NoBudget { slot }),
    }
}

/// The functions' numbers by their depths: those that are called before those that call them.
pub fn callees_first(alloc: Global, depths: &[u32]) -> Result<Vec<usize>, AllocError> {
    let mut order: Vec<usize> = (0..depths.len()).collect(alloc)?;
    order.sort_by_key(|function| get_or(depths, *function, 0))?;
    Ok(order)
}

/// The functions' numbers by their depths: those that call others before these.
pub fn callers_first(alloc: Global, depths: &[u32]) -> Result<Vec<usize>, AllocError> {
    let mut order: Vec<usize> = (0..depths.len()).collect(alloc)?;
    order.sort_by_key(|function| MAX_DEPTH.saturating_sub(get_or(depths, *function, 0)))?;
    Ok(order)
}

// ---- bounds

/// Whether the instruction at a slot jumps out of its function, or goes on into the next one.
fn leaves_function(program: &Program, functions: &Blocks, slot: u32, insn: &Insn) -> bool {
    let function = functions.block_of(slot);
    let leaves = |way: u32| way < program.slots() && functions.block_of(way) != function;
    Flow::ways(slot, insn).into_iter().flatten().any(leaves)
}

/// I4 (C12) at the lowest instruction that jumps out of its function, or goes on into the next one.
pub fn check_bounds(program: &Program, functions: &Blocks) -> Result<(), InferError> {
    for slot in 0..program.slots() {
        if let Some(insn) = program.at(slot) {
            if leaves_function(program, functions, slot, insn) {
                let condition = ForeseenCondition::LeavesFunction;
                return Err(SlotFailure { slot, condition }.refusal());
            }
        }
    }
    Ok(())
}
