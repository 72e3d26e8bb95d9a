//! What a search has when it stops, for who explains it.

use crate::counter::Shift;
use crate::error::InferError;
use bpf_cert::{Certificate, Function};
use bpf_insn::Reg;
use bpf_state::{Place, RegState};
use std::alloc::AllocError;

/// Why a place doesn't hold, on each way, what it held before and a constant more.
#[derive(Clone, Copy)]
pub enum Loss {
    /// On some way it is given another value.
    Given,
    /// The instruction at the slot computes it in 32 bits.
    Short { slot: u32 },
    /// The instruction at the slot adds or takes what isn't a constant.
    Varying { slot: u32 },
    /// The sum at the slot may pass 2^64. In front it is from `least` to `most`.
    Above { slot: u32, least: u64, most: u64 },
    /// The difference at the slot may pass 0. In front it is from `least` to `most`.
    Below { slot: u32, least: u64, most: u64 },
    /// The instruction at the slot moves it farther than is followed.
    Far { slot: u32 },
}

/// What a place does in a round of a loop.
#[derive(Clone, Copy)]
pub enum Move {
    /// It moves by a number from the least to the greatest.
    By { least: i64, greatest: i64 },
    /// It holds a number, and doesn't hold on each way the number from before and a constant more.
    Lost(Loss),
    /// It holds a pointer, and isn't left as it is.
    Pointer,
}

impl Move {
    /// What a place does of which the loop's label says so much: how it is shifted, if it is followed, and else why it isn't. None
    /// of one that holds nothing, or a pointer that is left as it is.
    pub fn of(said: RegState, shift: Option<Shift>, loss: Option<Loss>) -> Option<Move> {
        match (said, shift) {
            (RegState::Num(_), Some(Shift { least, greatest })) => {
                Some(Move::By { least, greatest })
            }
            (RegState::Num(_), None) => Some(Move::Lost(loss.unwrap_or(Loss::Given))),
            (RegState::Ptr(_), _) if loss.is_some() => Some(Move::Pointer),
            (RegState::Any | RegState::Ptr(_), _) => None,
        }
    }

    /// Whether it counts rounds: it falls in each, or rises in each.
    pub fn counts(self) -> bool {
        match self {
            Move::By { least, greatest } => greatest < 0 || least > 0,
            Move::Lost(_) | Move::Pointer => false,
        }
    }
}

/// A place that was tried as the counter of a loop.
#[derive(Clone, Copy)]
pub struct CounterTrial {
    pub place: Place,
    pub moves: Move,
}

/// What begins between a slot and the last way back to it. All are slots.
#[derive(Clone, Copy)]
pub enum Tangle {
    /// A loop in the loop.
    Nested { inner: u32 },
    /// The jump at `from` leads back to `to`, which lies in front of the way back at `back`.
    Middle { from: u32, to: u32, back: u32 },
    /// Nothing leads from the slot to the way back to it, which is the jump at `from`: there is no loop.
    Backward { from: u32 },
}

/// A limit of certificates or of a search that is passed. The slot is the refusal's.
#[derive(Clone, Copy)]
pub enum Limit {
    /// So many instructions would have to be counted for a round of the loop at the slot, and at most 1,048,576 can be.
    Weight { wanted: u64 },
    /// The base of the budget at the slot would have to be so much, and at most 1,099,511,627,776 can be.
    Base { wanted: u64 },
    /// A run may take so many instructions, and at most 4,294,967,295 can be promised.
    Steps { wanted: u64 },
    /// The loop at the slot lies in loops whose counters take all four terms of its budget.
    Terms,
    /// What the ways through the loop at the slot cost wasn't found in 1,024 passes.
    Passes,
    /// In the function at the slot loops lie in one another more than 32 deep.
    Depth,
    /// The search went over so many slots, and hadn't settled the function at the slot.
    Work { most: u64 },
    /// At the labels of the function at the slot more is known than in so many entries.
    Entries { most: u64 },
    /// What the functions return isn't settled after so many passes over the program.
    Returns { passes: u32 },
}

/// What stands in the way of a certificate.
#[derive(Drop)]
pub enum Obstacle {
    /// A limit of certificates is passed.
    Limit,
    /// A limit is passed, and it is known which.
    Over(Limit),
    /// Something begins between the slot and the last way back to it.
    Tangled(Tangle),
    /// None of the places that hold numbers falls or rises in each round.
    NoCounter(Vec<CounterTrial>),
    /// The loop at the slot moves the pointer in the register, and that one is refused.
    Walking { reg: Reg, head: u32 },
}

/// What a search has when it stops.
#[derive(Drop)]
pub struct Sketch {
    /// The functions that were reached, with the states at their labels and budgets of 0.
    pub certificate: Option<Certificate>,
    /// What is in the way, where that isn't told by the states alone.
    pub obstacle: Option<Obstacle>,
}

impl Sketch {
    /// Nothing.
    pub fn nothing() -> Sketch {
        Sketch {
            certificate: None,
            obstacle: None,
        }
    }

    /// The states at the labels of functions, on contexts of `least` to `most` bytes.
    pub fn of(
        least: u32,
        most: u32,
        functions: Vec<Function>,
        obstacle: Option<Obstacle>,
    ) -> Sketch {
        Sketch {
            certificate: Certificate::new(2, least, most, 1, functions).ok(),
            obstacle,
        }
    }
}

/// A refusal of a search, and what it had then: what is in the way, and the states; these are those in which the refused instruction was seen, or
/// with which no budget was found. There are none where it stopped before it had states, or memory ran out.
#[derive(Drop)]
pub struct SearchStop {
    pub error: InferError,
    pub sketch: Sketch,
}

impl SearchStop {
    /// I1 at a slot, for a limit.
    pub fn unstable(slot: u32, limit: Limit) -> SearchStop {
        SearchStop::of(InferError::Unstable { slot }, Some(Obstacle::Over(limit)))
    }

    /// I2 at a slot, for an obstacle.
    pub fn no_budget(slot: u32, obstacle: Obstacle) -> SearchStop {
        SearchStop::of(InferError::NoBudget { slot }, Some(obstacle))
    }

    /// A refusal without states.
    fn of(error: InferError, obstacle: Option<Obstacle>) -> SearchStop {
        let certificate = None;
        SearchStop {
            error,
            sketch: Sketch {
                certificate,
                obstacle,
            },
        }
    }

    /// The same with the states at the labels of functions, on contexts of `least` to `most` bytes.
    pub fn with_states(self, least: u32, most: u32, functions: Vec<Function>) -> SearchStop {
        let SearchStop { error, sketch } = self;
        SearchStop {
            error,
            sketch: Sketch::of(least, most, functions, sketch.obstacle),
        }
    }
}

impl From<InferError> for SearchStop {
    fn from(error: InferError) -> SearchStop {
        SearchStop::of(error, None)
    }
}

impl From<AllocError> for SearchStop {
    fn from(_error: AllocError) -> SearchStop {
        SearchStop::from(InferError::Memory)
    }
}
