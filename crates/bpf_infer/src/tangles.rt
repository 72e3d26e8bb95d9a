//! Diagnosis of loops that overlap, which the plain search doesn't count: whether a loop that begins in another one is nested there, or leads back
//! into its middle, or the other one is no loop.

use crate::loops::LoopBlocks;
use crate::rounds::Rounds;
use bpf_infer_base::{Arc, BlockEdge, Flow, Graph, Tangle, Task, Visitor};
use bpf_state::State;
use std::alloc::AllocError;

/// The edges from block to block.
#[derive(Drop)]
struct Arcs(Vec<Arc>);

impl Visitor for Arcs {
    type Stop = AllocError;

    fn edge(&mut self, edge: BlockEdge, _state: &State) -> Result<(), AllocError> {
        self.0.push(Arc::of(edge.from, edge.to))?;
        Ok(())
    }
}

/// The blocks that were reached, and the edges between them as far as nothing is refused.
fn graph_of(rounds: &Rounds) -> Result<Graph, AllocError> {
    let mut arcs = Arcs(Vec::new(rounds.task.alloc));
    rounds.task.walk_all(&rounds.states.list, &mut arcs)?;
    Graph::of(rounds.task.alloc, rounds.states.list.len(), arcs.0)
}

/// The slot of the last jump that leads back to a loop's head.
fn way_back(task: &Task, found: LoopBlocks) -> u32 {
    let head = task.blocks.label(found.head);
    let mut last = task.blocks.label(found.last);
    for slot in last..task.blocks.block_end(found.last) {
        if Flow::at(task.program, slot).and_then(Flow::jump) == Some(head) {
            last = slot;
        }
    }
    last
}

/// What a loop is that begins between the head of another one and the last way back to it.
pub fn tangle_of(
    rounds: &Rounds,
    outer: LoopBlocks,
    inner: LoopBlocks,
) -> Result<Tangle, AllocError> {
    let (task, graph) = (&rounds.task, graph_of(rounds)?);
    let (from, back) = (way_back(task, inner), way_back(task, outer));
    if !graph.leads(task.alloc, outer.head, outer.head, None)? {
        return Ok(Tangle::Backward { from: back });
    }
    let is_inner = graph.leads(task.alloc, inner.head, inner.head, Some(outer.head))?
        && graph.leads(task.alloc, inner.head, outer.head, None)?;
    let to = task.blocks.label(inner.head);
    if is_inner && from <= back {
        Ok(Tangle::Nested { inner: to })
    } else {
        Ok(Tangle::Middle { from, to, back })
    }
}
