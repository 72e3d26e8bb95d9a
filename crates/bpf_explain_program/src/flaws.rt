//! Which conditions fail.

use bpf_state::Condition;

/// How many conditions there are: C1 to C13.
pub const CONDITIONS: u32 = 13;

/// The conditions that fail, each a bit at its number.
#[derive(Clone, Copy)]
pub struct Flaws {
    held: u16,
}

impl Flaws {
    /// No condition fails.
    pub const NONE: Flaws = Flaws { held: 0 };

    /// A condition alone fails.
    pub fn of(condition: Condition) -> Flaws {
        let number = condition.number() % 16;
        Flaws { held: 1 << number }
    }

    /// Adds a condition if it fails.
    pub fn add_if(&mut self, fails: bool, condition: Condition) {
        if fails {
            self.add_all(Flaws::of(condition));
        }
    }

    /// Adds the conditions that others hold.
    pub fn add_all(&mut self, others: Flaws) {
        self.held |= others.held;
    }

    /// Whether a condition fails.
    pub fn has(self, condition: Condition) -> bool {
        self.held & Flaws::of(condition).held != 0
    }

    /// Whether a condition fails, and no other.
    pub fn is_only(self, condition: Condition) -> bool {
        self.held == Flaws::of(condition).held
    }

    /// Whether no condition fails.
    pub fn is_empty(self) -> bool {
        self.held == 0
    }
}
