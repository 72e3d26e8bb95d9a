//! The loops of a program, and what counts their rounds.

use crate::rounds::Rounds;
use bpf_infer_base::{
    BlockEdge, Counter, InferError, PLACES, Shift, Visitor, get_or, load_at, number_at, place, put,
    tag_own, tight_number,
};
use bpf_state::State;
use std::alloc::AllocError;

/// A loop: the blocks from its head to the last one that leads back to it.
#[derive(Clone, Copy)]
pub struct LoopBlocks {
    pub head: usize,
    pub last: usize,
    /// What falls on each way from the head to itself; None if there is no such way.
    pub counter: Option<Counter>,
}

/// The loops of a program by their heads, and the number of the one that each block is in.
#[derive(Drop)]
pub struct Loops {
    loops: Vec<LoopBlocks>,
    loop_of: Vec<Option<usize>>,
}

impl Loops {
    /// The loop that a block is in.
    pub fn at(&self, block: usize) -> Option<LoopBlocks> {
        let number = get_or(&self.loop_of, block, None)?;
        self.loops.get(number).copied()
    }

    /// The loop whose head is a block.
    pub fn headed(&self, block: usize) -> Option<LoopBlocks> {
        self.at(block).filter(|found| found.head == block)
    }

    /// What is counted in the loop that a block is in.
    pub fn counter_at(&self, block: usize) -> Option<Counter> {
        self.at(block)?.counter
    }

    /// Takes note of the loop that a block is in, the last one that began.
    fn continue_to(&mut self, block: usize) -> Result<(), AllocError> {
        let number = match self.loops.last() {
            Some(open) if block <= open.last => self.loops.len().checked_sub(1),
            _ => None,
        };
        self.loop_of.push(number)?;
        Ok(())
    }
}

/// The loop whose head is a block, if a way leads back to it.
pub fn loop_from(rounds: &Rounds, head: usize) -> Option<LoopBlocks> {
    let last = get_or(&rounds.backs, head, None)?;
    Some(LoopBlocks {
        head,
        last,
        counter: None,
    })
}

/// The lowest loop between whose ends another one begins, and that one.
pub fn first_crossing(rounds: &Rounds) -> Option<(LoopBlocks, LoopBlocks)> {
    let mut open: Option<LoopBlocks> = None;
    for head in 0..rounds.backs.len() {
        if let Some(found) = loop_from(rounds, head) {
            match open {
                Some(open) if head <= open.last => return Some((open, found)),
                _ => open = Some(found),
            }
        }
    }
    None
}

// ---- how places move

/// By places, by how much each has moved on the ways to a label.
pub type Moves = [Shift; PLACES];

/// The same ways with one more block.
fn moved(mut moves: Moves, offsets: &[i64; PLACES]) -> Moves {
    for i in 0..PLACES {
        moves[i] = moves[i].moved(offsets[i]);
    }
    moves
}

/// These ways and those that are held.
fn taken_in(held: Option<Moves>, mut moves: Moves) -> Moves {
    if let Some(held) = held {
        for i in 0..PLACES {
            moves[i] = moves[i].or(held[i]);
        }
    }
    moves
}

/// A walk over the blocks of a loop that looks where its places go.
#[derive(Drop)]
pub struct LoopWalk<'a> {
    rounds: &'a Rounds<'a>,
    head: usize,
    last: usize,
    /// Whether each place holds on each edge what it held at the label before, and an offset more.
    pub is_tagged: [bool; PLACES],
    /// The moves from the head to each block from it on, None where no way leads.
    moves: Vec<Option<Moves>>,
    /// The moves on all ways from the head to itself.
    pub around: Option<Moves>,
}

impl<'a> Visitor for LoopWalk<'a> {
    type Stop = AllocError;

    fn edge(&mut self, edge: BlockEdge, state: &State) -> Result<(), AllocError> {
        if edge.to < self.head || edge.to > self.last {
            return Ok(());
        }
        let offsets = self.offsets_in(state);
        let Some(before) = self.moves_to(edge.from) else {
            return Ok(());
        };
        let moves = moved(before, &offsets);
        if edge.to == self.head {
            self.around = Some(taken_in(self.around, moves));
        } else {
            let joined = taken_in(self.moves_to(edge.to), moves);
            let index = edge.to.saturating_sub(self.head);
            put(&mut self.moves, index, Some(joined));
        }
        Ok(())
    }
}

impl<'a> LoopWalk<'a> {
    /// The moves on the ways to a block.
    fn moves_to(&self, block: usize) -> Option<Moves> {
        let index = block.saturating_sub(self.head);
        get_or(&self.moves, index, None)
    }

    /// How much more than at the label before each place holds; places of which that isn't known are given up.
    fn offsets_in(&mut self, state: &State) -> [i64; PLACES] {
        let mut offsets = [0; PLACES];
        for i in 0..PLACES {
            match state.tag(place(i)) {
                Some(tag) if tag.term as usize == i => offsets[i] = tag.offset,
                _ => self.is_tagged[i] = false,
            }
        }
        offsets
    }

    /// Tags each place with its own number; places that hold no number are given up.
    fn tag_all(&mut self, state: &mut State) {
        for i in 0..PLACES {
            if number_at(state, i).is_some() {
                tag_own(state, i);
            } else {
                self.is_tagged[i] = false;
            }
        }
    }

    /// Goes over all blocks of the loop.
    fn walk_over(&mut self) -> Result<(), InferError> {
        let rounds = self.rounds;
        let mut state = State::blank();
        for block in self.head..self.last.saturating_add(1) {
            if load_at(&rounds.states.list, block, &mut state) {
                self.tag_all(&mut state);
                if let Err(fault) = rounds.task.walk(block, &mut state, self)? {
                    return Err(fault.refusal());
                }
            }
        }
        Ok(())
    }

    /// The first place that falls on each way around, or rises.
    fn counter(&self, around: &Moves) -> Option<Counter> {
        for i in 0..PLACES {
            if self.is_tagged[i] && around[i].greatest < 0 {
                return Some(Counter::Falling(i));
            }
            if self.is_tagged[i] && around[i].least > 0 {
                return Some(Counter::Rising(i, self.limit(i)));
            }
        }
        None
    }

    /// The greatest number that a place holds at a label of the loop.
    fn limit(&self, number: usize) -> u64 {
        let blocks = self.head..self.last.saturating_add(1);
        let states = &self.rounds.states;
        let held = blocks.filter_map(|block| tight_number(states.at(block)?, number));
        held.map(|held| held.unsigned().hi()).max().unwrap_or(0)
    }
}

/// Where the places of a loop go on the ways from its head to itself.
pub fn searched<'a>(rounds: &'a Rounds<'a>, found: LoopBlocks) -> Result<LoopWalk<'a>, InferError> {
    let count = found.last.saturating_sub(found.head).saturating_add(1);
    let mut search = LoopWalk {
        rounds,
        head: found.head,
        last: found.last,
        is_tagged: [true; PLACES],
        moves: vec![in rounds.task.alloc; None; count]?,
        around: None,
    };
    put(&mut search.moves, 0, Some([Shift::NONE; PLACES]));
    search.walk_over()?;
    Ok(search)
}

/// What falls on each way from the head of a loop to itself, or rises up to a limit. I2 at the head if nothing does.
fn counter_of(rounds: &Rounds, found: LoopBlocks) -> Result<Option<Counter>, InferError> {
    let search = searched(rounds, found)?;
    let Some(around) = search.around else {
        return Ok(None);
    };
    match search.counter(&around) {
        Some(counter) => Ok(Some(counter)),
        None => Err(rounds.no_budget(found.head)),
    }
}

/// The loops of a program with their counters. I2 at the head of the lowest loop in which another one begins, else of
/// the lowest one without a counter.
pub fn loops_of(rounds: &Rounds) -> Result<Loops, InferError> {
    if let Some((open, _)) = first_crossing(rounds) {
        return Err(rounds.no_budget(open.head));
    }
    let mut loops = Loops {
        loops: Vec::new(rounds.task.alloc),
        loop_of: Vec::new(rounds.task.alloc),
    };
    for block in 0..rounds.backs.len() {
        if let Some(found) = loop_from(rounds, block) {
            let counter = counter_of(rounds, found)?;
            loops.loops.push(LoopBlocks { counter, ..found })?;
        }
        loops.continue_to(block)?;
    }
    Ok(loops)
}
