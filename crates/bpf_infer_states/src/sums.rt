//! What arrives at labels over their edges.

use crate::nest::Nest;
use bpf_infer_base::{JoinedStates, LabelState, Limit, get_or};
use bpf_state::State;
use std::alloc::{AllocError, Global};

/// For each label the states over its edges joined, apart by the innermost loop that an edge is in.
#[derive(Drop)]
pub struct Sums {
    /// By labels, the place of the first of its sums; at the end how many there are. A label in k loops has k + 1.
    starts: Vec<usize>,
    sums: JoinedStates,
}

impl Sums {
    /// Nothing arrives.
    pub fn new(alloc: Global, nest: &Nest) -> Result<Sums, AllocError> {
        let mut starts = Vec::with_capacity(alloc, nest.labels().saturating_add(1))?;
        let mut count = 0usize;
        for label in 0..nest.labels() {
            starts.push(count)?;
            count = count.saturating_add(nest.depth(label)).saturating_add(1);
        }
        starts.push(count)?;
        let sums = JoinedStates::new(alloc, count)?;
        Ok(Sums { starts, sums })
    }

    /// The index of a label's first sum.
    fn start(&self, label: usize) -> usize {
        get_or(&self.starts, label, 0)
    }

    /// The index behind a label's last sum.
    fn end(&self, label: usize) -> usize {
        self.start(label.saturating_add(1))
    }

    /// The limit that is passed where the sums have more entries than may be kept.
    pub fn limit(&self) -> Option<Limit> {
        self.sums.limit()
    }

    /// A state arrives at a label over an edge in so many loops. The work, in slots.
    pub fn add(&mut self, label: usize, depth: usize, state: &State) -> Result<usize, AllocError> {
        let index = self.start(label).saturating_add(depth);
        let is_changed = self.sums.add(index, state, None)?;
        Ok(self.sums.work(index, is_changed))
    }

    /// Forgets what arrives at a label over edges in so many loops.
    pub fn forget(&mut self, label: usize, depth: usize) {
        let index = self.start(label).saturating_add(depth);
        self.sums.forget(index);
    }

    /// Forgets what arrives at a label over edges in so many loops or more.
    pub fn forget_inside(&mut self, label: usize, depth: usize) {
        for index in self.start(label).saturating_add(depth)..self.end(label) {
            self.sums.forget(index);
        }
    }

    /// What arrives at a label.
    pub fn total(&mut self, label: usize) -> Result<LabelState, AllocError> {
        let (start, end) = (self.start(label), self.end(label));
        self.sums.total(start, end)
    }

    /// What arrives at a label from outside of loops; it is forgotten.
    pub fn take(&mut self, label: usize) -> LabelState {
        let index = self.start(label);
        self.sums.list.get_mut(index)?.take()
    }
}
