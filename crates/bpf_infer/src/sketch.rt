//! Diagnosis where no certificate is found: the states at a program's labels, from one more run of the plain search's rounds, and what was in its
//! way, as a loop without a counter.

ghost use Rattle.std.specs.Prelude.{◌≤◌};
ghost use Rattle.bpf_insn.specs.Limits.{max_context};

use crate::loops::{LoopBlocks, first_crossing, loop_from, searched};
use crate::rounds::Rounds;
use crate::tangles::tangle_of;
use crate::walkers::walker_at;
use bpf_infer_base::{
    Cfg, CounterTrial, ForeseenCondition, InferError, Meter, Move, Obstacle, PLACES, PLAIN_WORK,
    Quest, Sketch, Task, Unwatched, losses_in, place,
};
use bpf_state::StateFault;
use std::alloc::Global;

/// The places of a loop's head that hold numbers, or pointers that are changed, with what they do in a round; None if no round
/// leads back to the head, or something is refused before.
fn trials_of(rounds: &Rounds, found: LoopBlocks) -> Result<Option<Vec<CounterTrial>>, InferError> {
    let search = match searched(&*rounds, found) {
        Ok(search) => search,
        Err(InferError::Memory) => return Err(InferError::Memory),
        Err(_) => return Ok(None),
    };
    let Some(around) = &search.around else {
        return Ok(None);
    };
    let blocks: Vec<usize> = (found.head..found.last.saturating_add(1)).collect(rounds.task.alloc)?;
    let losses = losses_in(rounds.task, &blocks, |block| rounds.states.at(block))?;
    let mut trials = Vec::new(rounds.task.alloc);
    for number in 0..PLACES {
        let shift = search.is_tagged[number].then_some(around[number]);
        let said = rounds.said(found.head, number);
        if let Some(moves) = Move::of(said, shift, losses[number]) {
            trials.push(CounterTrial {
                place: place(number),
                moves,
            })?;
        }
    }
    Ok(Some(trials))
}

/// Why a loop has no budget.
fn obstacle_in(rounds: &Rounds, found: LoopBlocks) -> Result<Obstacle, InferError> {
    match trials_of(rounds, found)? {
        Some(trials) if !trials.iter().any(|trial| trial.moves.counts()) => {
            Ok(Obstacle::NoCounter(trials))
        }
        _ => Ok(Obstacle::Limit),
    }
}

/// Why there is no budget at a slot.
fn obstacle_at(rounds: &Rounds, slot: u32) -> Result<Obstacle, InferError> {
    if let Some((outer, inner)) = first_crossing(rounds) {
        return Ok(Obstacle::Tangled(tangle_of(rounds, outer, inner)?));
    }
    let blocks = rounds.task.blocks;
    let block = blocks.block_of(slot);
    match loop_from(rounds, block) {
        Some(found) if blocks.label(block) == slot => obstacle_in(rounds, found),
        _ => Ok(Obstacle::Limit),
    }
}

/// What is in the way where a refusal says so.
fn obstacle_of(rounds: &Rounds, error: InferError) -> Result<Option<Obstacle>, InferError> {
    match error {
        InferError::NoBudget { slot } => Ok(Some(obstacle_at(rounds, slot)?)),
        InferError::Fault {
            slot,
            condition: ForeseenCondition::State(StateFault::OutOfBounds),
        } => Ok(walker_at(rounds, slot)),
        InferError::Unstable { .. } => Ok(rounds.limit.map(Obstacle::Over)),
        _ => Ok(None),
    }
}

/// What the inferrer has of a program when it stops, and what is in the way of a refusal. It is refused as by
/// `plain_proposal` where that stops before it has states, and I5 if memory runs out.
pub fn sketch_of(alloc: Global, quest: Quest<'_>, error: InferError) -> Result<Sketch, InferError>
    requires order { quest.least ≤ quest.most }
    requires short { quest.most ≤ max_context }
{
    let cfg = Cfg::of(alloc, quest.program)?;
    let task = Task::whole(alloc, quest, &cfg);
    let mut rounds = Rounds::new(task)?;
    let mut nobody = Unwatched;
    let mut meter = Meter::new(&mut nobody, PLAIN_WORK);
    // The rounds count as far as they go.
    if let Err(InferError::Memory) = rounds.settle_all(&task.start(), &mut meter) {
        return Err(InferError::Memory);
    }
    let obstacle = obstacle_of(&rounds, error)?;
    let functions = rounds.take_functions()?;
    Ok(Sketch::of(quest.least, quest.most, functions, obstacle))
}
