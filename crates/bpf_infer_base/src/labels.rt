//! What is known at labels, and the labels of a certificate with it.

use crate::blocks::Blocks;
use crate::lists::held;
use arrayvec::ArrayVec;
use bpf_cert::{Budget, Label};
use bpf_state::{Entries, State};
use std::alloc::{AllocError, Global};

/// What is known where a label is reached; None where it isn't. Entries take memory for what is known alone.
pub type LabelState = Option<Entries>;

/// Makes a state what is known, with its numbers tightened. False if no state is such.
pub fn load(known: &Entries, room: &mut State) -> bool {
    known.put_into(room);
    room.tighten()
}

/// As `load` for what is known at an index of a list. False if that is nothing.
pub fn load_at(states: &[LabelState], index: usize, room: &mut State) -> bool {
    held(states, index).is_some_and(|known| load(known, room))
}

/// The labels of the blocks from one to before another that were reached, each with a budget of 0; their states are taken.
pub fn labels_of(
    alloc: Global,
    blocks: &Blocks,
    states: &mut Vec<LabelState>,
    first: usize,
    end: usize,
) -> Result<Vec<Label>, AllocError> {
    let mut labels = Vec::with_capacity(alloc, end.saturating_sub(first))?;
    for block in first..end {
        if let Some(Some(state)) = states.get_mut(block).map(|held| held.take()) {
            labels.push(Label {
                slot: blocks.label(block),
                state,
                budget: Budget {
                    base: 0,
                    terms: ArrayVec::new(),
                },
            })?;
        }
    }
    Ok(labels)
}
