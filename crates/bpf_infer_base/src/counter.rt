//! What counts the rounds of a loop, and by how much places move.

use crate::places::place;
use bpf_cert::{Measure, Term};

/// A place by its number that falls to 0, or that rises to a limit.
#[derive(Clone, Copy)]
pub enum Counter {
    Falling(usize),
    Rising(usize, u64),
}

impl Counter {
    /// The number of the place.
    pub fn number(self) -> usize {
        match self {
            Counter::Falling(number) | Counter::Rising(number, _) => number,
        }
    }

    /// The term of a budget that counts it so many times.
    pub fn term(self, weight: i128) -> Term {
        let measure = match self {
            Counter::Falling(number) => Measure::Down(place(number)),
            Counter::Rising(number, limit) => Measure::Up(place(number), limit),
        };
        Term {
            weight: u32::try_from(weight).unwrap_or(u32::MAX),
            measure,
        }
    }
}

/// By how much a place has moved, at the least and at the most.
#[derive(Clone, Copy)]
pub struct Shift {
    pub least: i64,
    pub greatest: i64,
}

impl Shift {
    /// Not at all.
    pub const NONE: Shift = Shift {
        least: 0,
        greatest: 0,
    };

    /// Moved further.
    pub fn moved(self, by: i64) -> Shift {
        Shift {
            least: self.least.saturating_add(by),
            greatest: self.greatest.saturating_add(by),
        }
    }

    /// As on either of two ways.
    pub fn or(self, other: Shift) -> Shift {
        Shift {
            least: self.least.min(other.least),
            greatest: self.greatest.max(other.greatest),
        }
    }
}
