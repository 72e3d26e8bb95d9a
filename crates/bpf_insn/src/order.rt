//! Byte orders (RFC 9669, section 3.1).

/// The byte order of a machine, its memory and its images.
#[derive(Clone, Copy, Debug, PartialEq, Eq)]
pub enum Order {
    Little,
    Big,
}
