//! What a search may cost: it is counted, and so the same on every machine.

use crate::sketch::Limit;
use crate::watch::Watch;

/// The most that the plain search goes over, in slots. A label counts as a few slots, and so does what arrives over an edge.
pub const PLAIN_WORK: u64 = 16_000_000;

/// The same of the deep search.
pub const DEEP_WORK: u64 = 40_000_000;

/// The work for a label beside its slots.
pub const LABEL_WORK: usize = 3;

/// Counts the work of a search, and tells it to who watches.
#[derive(Drop)]
pub struct Meter<'w, W: Watch> {
    watch: &'w mut W,
    most: u64,
    left: u64,
}

impl<'w, W: Watch> Meter<'w, W> {
    /// Nothing was done yet of the work that may be done.
    pub fn new(watch: &'w mut W, most: u64) -> Self {
        Meter {
            watch,
            most,
            left: most,
        }
    }

    /// The work that may be done.
    pub fn most(&self) -> u64 {
        self.most
    }

    /// So many labels were gone over, with so much work.
    pub fn tell(&mut self, labels: usize, work: usize) {
        self.watch.tell(labels);
        self.left = self.left.saturating_sub(work as u64);
    }

    /// Whether less than half of the work is left.
    pub fn is_low(&self) -> bool {
        self.left < self.most / 2
    }

    /// The limit that is passed where no work is left.
    pub fn limit(&self) -> Option<Limit> {
        (self.left == 0).then_some(Limit::Work { most: self.most })
    }
}
