//! The progress of a search, and who watches it.

/// Is told the progress of a search. What is found doesn't depend on it.
pub trait Watch {
    /// So many more labels were gone over.
    fn tell(&mut self, labels: usize);

    /// The search is over.
    fn end(&mut self);
}

/// Nobody.
#[derive(Drop)]
pub struct Unwatched;

impl Watch for Unwatched {
    fn tell(&mut self, _labels: usize) {}

    fn end(&mut self) {}
}
