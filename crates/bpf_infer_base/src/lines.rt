//! Terms of budgets as lines over what their places hold.

use crate::counter::Counter;
use crate::places::number_at;
use bpf_num::Num;
use bpf_state::State;

/// Numbers from `lo` to `hi`.
#[derive(Clone, Copy)]
pub struct NumberSpan {
    pub lo: u64,
    pub hi: u64,
}

impl NumberSpan {
    /// Any number.
    pub const ALL: NumberSpan = NumberSpan {
        lo: 0,
        hi: u64::MAX,
    };

    /// What a place may hold.
    pub fn of(state: &State, number: usize) -> NumberSpan {
        NumberSpan::of_number(number_at(state, number))
    }

    /// What is known of a number, if something is.
    pub fn of_number(number: Option<Num>) -> NumberSpan {
        match number {
            Some(held) => NumberSpan {
                lo: held.unsigned().lo(),
                hi: held.unsigned().hi(),
            },
            None => NumberSpan::ALL,
        }
    }
}

/// A term of a budget: a constant and a slope times what its place holds.
#[derive(Clone, Copy)]
pub struct LinearTerm {
    constant: i128,
    slope: i128,
}

impl LinearTerm {
    /// Nothing.
    pub const ZERO: LinearTerm = LinearTerm {
        constant: 0,
        slope: 0,
    };

    /// A constant and a slope.
    fn new(constant: i128, slope: i128) -> LinearTerm {
        LinearTerm { constant, slope }
    }

    /// What a counter still allows, so many times.
    pub fn of(counter: Counter, weight: i128) -> LinearTerm {
        match counter {
            Counter::Falling(_) => LinearTerm::new(0, weight),
            Counter::Rising(_, limit) => LinearTerm::new(
                weight.saturating_mul(limit as i128),
                0,
            ).minus(LinearTerm::new(0, weight)),
        }
    }

    /// The line at a place that holds an offset more.
    pub fn moved(self, offset: i64) -> LinearTerm {
        let more = self.slope.saturating_mul(offset as i128);
        self.plus(LinearTerm::new(more, 0))
    }

    /// Both together.
    pub fn plus(self, other: LinearTerm) -> LinearTerm {
        LinearTerm::new(
            self.constant.saturating_add(other.constant),
            self.slope.saturating_add(other.slope),
        )
    }

    /// What is left of it beside another.
    pub fn minus(self, other: LinearTerm) -> LinearTerm {
        LinearTerm::new(
            self.constant.saturating_sub(other.constant),
            self.slope.saturating_sub(other.slope),
        )
    }

    /// The greatest that it gives.
    pub fn greatest(self, span: NumberSpan) -> i128 {
        let at_lo = self.slope.saturating_mul(span.lo as i128);
        let at_hi = self.slope.saturating_mul(span.hi as i128);
        self.constant.saturating_add(at_lo.max(at_hi))
    }
}
