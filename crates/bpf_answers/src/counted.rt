//! The work of a check, as it is told.

ghost use Rattle.std.specs.Prelude.{◌≡◌};

use bpf_state::Work;
use std::marker::Model;

/// How many transfers and comparisons a check made.
#[derive(Drop)]
pub struct Counted {
    transfers: u32,
    comparisons: u32,
}

impl Model for Counted {
    ghost use Rattle.bpf_state.specs.Work.{Counts};

    ghost Value = { Counts };

    ghost view = { λ c. record { transfers = c.transfers; comparisons = c.comparisons } };
}

impl Counted {
    /// Those of a check's work.
    pub fn of(work: &Work) -> Self
        ensures { result ≡ work.now }
    {
        Counted {
            transfers: work.transfers(),
            comparisons: work.comparisons(),
        }
    }

    pub fn transfers(&self) -> u32
        ensures { result ≡ self.now.transfers }
    {
        self.transfers
    }

    pub fn comparisons(&self) -> u32
        ensures { result ≡ self.now.comparisons }
    {
        self.comparisons
    }
}
