//! Where a loop loses track of what its places held.

use crate::labels::load;
use crate::lists::get_or;
use crate::places::{PLACES, place, tag_own};
use crate::sketch::Loss;
use crate::task::{BlockEdge, Task, Visitor};
use bpf_insn::{AluOp, Insn, Operand, Reg, Width};
use bpf_num::Num;
use bpf_state::{Entries, Place, RegState, State, Tag};
use std::alloc::AllocError;

/// By places, why each isn't followed; None of one that is.
pub type Losses = [Option<Loss>; PLACES];

/// How many numbers tags have: each place's own, that of its number lost in its own register, and lost elsewhere.
const TERMS: usize = 3 * PLACES;

/// An instruction that may lose what the tag in a register stands for.
#[derive(Clone, Copy)]
struct Doubt {
    dst: Reg,
    term: usize,
    loss: Loss,
}

/// Why the sum or difference of two numbers isn't followed, where it isn't.
fn loss_of_sum(slot: u32, op: AluOp, a: Num, b: Num) -> Loss {
    if !b.is_constant() {
        return Loss::Varying { slot };
    }
    let constant = b.bits().value().cast_signed() as i128;
    let by = match op {
        AluOp::Sub => 0i128.saturating_sub(constant),
        _ => constant,
    };
    let (least, most) = (a.unsigned().lo(), a.unsigned().hi());
    if (most as i128).saturating_add(by) > u64::MAX as i128 {
        Loss::Above { slot, least, most }
    } else if (least as i128).saturating_add(by) < 0 {
        Loss::Below { slot, least, most }
    } else {
        Loss::Far { slot }
    }
}

/// Why the number in a register isn't followed through an instruction, where it isn't; None if it is given another value.
fn loss_at(slot: u32, op: AluOp, width: Width, a: RegState, b: RegState) -> Option<Loss> {
    match (op, width) {
        (AluOp::Add | AluOp::Sub | AluOp::Mov, Width::W32) => Some(Loss::Short { slot }),
        (AluOp::Add | AluOp::Sub, Width::W64) => {
            Some(loss_of_sum(slot, op, a.number()?, b.number()?))
        }
        _ => None,
    }
}

/// What an instruction may lose, if its result is a number that is followed, moved by another one.
fn doubt_at(slot: u32, insn: &Insn, state: &State) -> Option<Doubt> {
    let Insn::Alu {
        op,
        width,
        dst,
        src,
    } = *insn
    else {
        return None;
    };
    let followed = match (op, src) {
        (AluOp::Mov, Operand::Reg(src)) => src,
        (AluOp::Mov, Operand::Imm(_imm)) => return None,
        _ => dst,
    };
    let tag = state.tag(Place::Register(followed))?;
    let loss = loss_at(slot, op, width, state.reg(dst), state.operand(src))?;
    Some(Doubt {
        dst,
        term: tag.term as usize,
        loss,
    })
}

/// A walk over a loop, from each of its labels to the next ones, that looks where the numbers of its places are lost.
#[derive(Drop)]
struct Tracker<'a> {
    /// The loop's blocks, rising.
    blocks: &'a [usize],
    /// By places, why each isn't followed through the loop.
    losses: Losses,
    /// By the numbers of tags, why what they stand for was lost in this block.
    lost: [Option<Loss>; TERMS],
    /// What the instruction that is done may lose.
    doubt: Option<Doubt>,
}

impl<'a> Tracker<'a> {
    /// Takes note that a place is lost. That it is given another value is told first.
    fn lose(&mut self, number: usize, loss: Loss) {
        if let Some(held) = self.losses.get_mut(number) {
            if held.is_none() || matches!(loss, Loss::Given) {
                *held = Some(loss);
            }
        }
    }

    /// Tags each place that holds a number or a pointer with its own number; others are given up.
    fn begin(&mut self, state: &mut State) {
        self.lost = [None; TERMS];
        for number in 0..PLACES {
            match state.held(place(number)) {
                RegState::Any => self.lose(number, Loss::Given),
                RegState::Num(_) | RegState::Ptr(_) => tag_own(state, number),
            }
        }
    }

    /// Tags a register anew of which a number was lost, so that what becomes of it is still seen.
    fn note(&mut self, doubt: Doubt, state: &mut State) {
        if state.tag(Place::Register(doubt.dst)).is_some() {
            return;
        }
        let origin = doubt.term % PLACES;
        let term = if doubt.term >= PLACES {
            doubt.term
        } else if doubt.dst as usize == origin {
            origin.saturating_add(PLACES)
        } else {
            origin.saturating_add(2 * PLACES)
        };
        if let Some(held) = self.lost.get_mut(term) {
            *held = held.or(Some(doubt.loss));
        }
        if let Ok(term) = u8::try_from(term) {
            let tag = Tag { term, offset: 0 };
            state.set_tag(Place::Register(doubt.dst), Some(tag));
        }
    }

    /// Why a place isn't followed up to here; None if it is.
    fn loss(&self, state: &State, number: usize) -> Option<Loss> {
        match state.tag(place(number)) {
            Some(tag) if tag.term as usize == number => None,
            Some(tag) if tag.term as usize % PLACES == number => {
                get_or(&self.lost, tag.term as usize, None).or(Some(Loss::Given))
            }
            _ => Some(Loss::Given),
        }
    }
}

impl<'a> Visitor for Tracker<'a> {
    type Stop = AllocError;

    fn before(&mut self, slot: u32, insn: &Insn, state: &State) -> Result<(), AllocError> {
        self.doubt = doubt_at(slot, insn, state);
        Ok(())
    }

    fn after(&mut self, state: &mut State) {
        if let Some(doubt) = self.doubt {
            self.note(doubt, state);
        }
    }

    fn edge(&mut self, edge: BlockEdge, state: &State) -> Result<(), AllocError> {
        if self.blocks.binary_search(&edge.to).is_err() {
            return Ok(());
        }
        for number in 0..PLACES {
            if let Some(loss) = self.loss(state, number) {
                self.lose(number, loss);
            }
        }
        Ok(())
    }
}

/// By places, why each isn't followed through a loop of blocks that rise, by what is known at their labels. Callees may return any
/// number.
pub fn losses_in<'k, F: Fn(usize) -> Option<&'k Entries>>(
    task: Task,
    blocks: &[usize],
    known: F,
) -> Result<Losses, AllocError>
    requires { F.IsAlwaysCallable known }
{
    let task = Task { rets: &[], ..task };
    let mut tracker = Tracker {
        blocks,
        losses: [None; PLACES],
        lost: [None; TERMS],
        doubt: None,
    };
    let mut room = State::blank();
    for block in blocks {
        if known(*block).is_some_and(|known| load(known, &mut room)) {
            tracker.begin(&mut room);
            let _reached = task.walk(*block, &mut room, &mut tracker)?;
        }
    }
    Ok(tracker.losses)
}
