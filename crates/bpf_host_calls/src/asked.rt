//! The struct of numbers by which C asks for the image of a filter: byte orders, and the form and the size of contexts.

/// Which image is to be made of a filter, and how the filter's bytes are read, as C hands it over.
#[repr(C)]
#[derive(Clone, Copy)]
pub struct ConvertAsked {
    /// The byte order of the numbers in the filter, 0 little-endian or 1 big-endian.
    pub filter_order: u32,
    /// In the low 16 bits the form of contexts: 0 blocks, 1 packets, 2 `struct seccomp_data`, 3 blocks with Linux's words. In the high 16 how often a
    /// run may jump back, 0 as often as is usual.
    pub form: u32,
    /// How many bytes a context has.
    pub size: u32,
    /// The byte order of the image, 0 little-endian or 1 big-endian.
    pub order: u32,
}
