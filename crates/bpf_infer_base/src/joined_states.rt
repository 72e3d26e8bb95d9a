//! States that others are joined into, and how many entries they have.

use crate::joins::join;
use crate::labels::LabelState;
use crate::lists::{get_or, held, put, vacant};
use crate::places::places_known;
use crate::sketch::Limit;
use crate::widen::Stops;
use bpf_state::{Entries, State};
use std::alloc::{AllocError, Global};

/// The most entries that a search keeps at a time.
const MOST_ENTRIES: usize = 1 << 20;

/// Makes a sum one that a state lies in too, in room of another state; with stops, bounds that move are moved on. Whether it
/// changes.
fn take_in(
    alloc: Global,
    room: &mut State,
    sum: &mut LabelState,
    state: &State,
    stops: Option<&Stops>,
) -> Result<bool, AllocError> {
    let joined = match sum {
        Some(old) if state.entails_entries(old) => return Ok(false),
        Some(old) => {
            old.put_into(room);
            join(room, state, stops);
            Entries::of(alloc, room)?
        }
        None => Entries::of(alloc, state)?,
    };
    *sum = Some(joined);
    Ok(true)
}

/// Some states, each one in which all lie that were added to it.
#[derive(Drop)]
pub struct JoinedStates {
    alloc: Global,
    pub list: Vec<LabelState>,
    /// How many entries each had when it began.
    counts: Vec<u8>,
    /// All of these together.
    kept: usize,
    /// Where states are joined.
    room: Box<State>,
    other: Box<State>,
}

impl JoinedStates {
    /// So many of which none has begun.
    pub fn new(alloc: Global, count: usize) -> Result<JoinedStates, AllocError> {
        Ok(JoinedStates {
            alloc,
            list: vacant(alloc, count)?,
            counts: vec![in alloc; 0; count]?,
            kept: 0,
            room: Box::new(alloc, State::blank())?,
            other: Box::new(alloc, State::blank())?,
        })
    }

    /// The state at an index, if it has begun.
    pub fn at(&self, index: usize) -> Option<&Entries> {
        held(&self.list, index)
    }

    /// How many entries the state at an index had when it began.
    fn entries(&self, index: usize) -> usize {
        usize::from(get_or(&self.counts, index, 0))
    }

    /// The state at an index begins with so many entries.
    fn begin(&mut self, index: usize, entries: usize) {
        let before = self.entries(index);
        self.kept = self.kept.saturating_sub(before).saturating_add(entries);
        let count = u8::try_from(entries).unwrap_or(u8::MAX);
        put(&mut self.counts, index, count);
    }

    /// Makes the state at an index one that another lies in too; with stops, bounds that move are moved on. Whether it changes.
    pub fn add(
        &mut self,
        index: usize,
        state: &State,
        stops: Option<&Stops>,
    ) -> Result<bool, AllocError> {
        if self.at(index).is_none() {
            self.begin(index, places_known(state));
        }
        match self.list.get_mut(index) {
            Some(sum) => take_in(self.alloc, &mut *self.room, sum, state, stops),
            None => Ok(false),
        }
    }

    /// Forgets the state at an index.
    pub fn forget(&mut self, index: usize) {
        put(&mut self.list, index, None);
        self.begin(index, 0);
    }

    /// Those from one to before another joined.
    pub fn total(&mut self, first: usize, end: usize) -> Result<LabelState, AllocError> {
        let mut total = None;
        for index in first..end {
            if let Some(state) = held(&self.list, index) {
                if total.is_none() {
                    total = Some(state.copy(self.alloc)?);
                } else {
                    state.put_into(&mut *self.other);
                    let _is_changed = take_in(
                        self.alloc,
                        &mut *self.room,
                        &mut total,
                        &*self.other,
                        None,
                    )?;
                }
            }
        }
        Ok(total)
    }

    /// The work to add to the state at an index, in slots: to look at an entry takes an eighth of what a slot does.
    pub fn work(&self, index: usize, is_changed: bool) -> usize {
        let entries = self.entries(index);
        if is_changed {
            entries / 2 + 4
        } else {
            entries / 8 + 1
        }
    }

    /// The limit that is passed where more entries are kept than may be.
    pub fn limit(&self) -> Option<Limit> {
        let most = MOST_ENTRIES as u64;
        (self.kept > MOST_ENTRIES).then_some(Limit::Entries { most })
    }
}
