//! What the certificate of a program promises, as the text tells it.

/// The lengths of contexts in bytes, from `least` to `most`, and how many instructions are done at most.
#[derive(Clone, Copy)]
pub struct Promise {
    pub least: u32,
    pub most: u32,
    pub bound: u32,
}
