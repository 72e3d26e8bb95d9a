//! What is asked of the calls, as C hands it over, and what is shown of two images. Each call says which numbers it takes.

use crate::certification::BpfWish;

/// The lengths of contexts for which a certificate is searched, in bytes, and how it is searched.
#[derive(Clone, Copy)]
pub struct RangeAsked {
    /// From 0 to `most`.
    pub least: u32,
    /// From `least` to 4,096.
    pub most: u32,
    /// 1 for the deep search, 0 for the plain one.
    pub deep: u32,
}

/// An old image and a new one, and the texts that are to show that the new one keeps the meaning of the old one.
#[derive(Clone, Copy)]
pub struct FollowAsked<'a> {
    pub old: &'a [u8],
    pub new: &'a [u8],
    /// The byte order of both images, 0 little-endian or 1 big-endian.
    pub order: u32,
    pub notes: &'a [u8],
    /// A certificate of the new image.
    pub certificate: &'a [u8],
}

/// On which contexts and runs a new image keeps the meaning of an old one, and its bound, as C sees them.
#[repr(C)]
#[derive(Clone, Copy)]
pub struct BpfFollowing {
    /// How many bytes a context has, from 0 to 4,096.
    pub size: u32,
    /// 1 where contexts are blocks, else 0.
    pub padded: u32,
    /// How often a run of the old image may come to an instruction.
    pub turns: u64,
    /// How many of the lowest bytes of each frame are left to r10.
    pub untouched: u32,
    /// The greatest number of instructions that a run of the new image takes.
    pub bound: u32,
}

/// A run of an image on a context, and the notes by which it is told whether it ends at a trap.
#[derive(Clone, Copy)]
pub struct TrapAsked<'a> {
    pub image: &'a [u8],
    /// The byte order of the image, 0 little-endian or 1 big-endian.
    pub order: u32,
    pub notes: &'a [u8],
    pub context: &'a [u8],
    /// How many instructions are done at most.
    pub most: u64,
}

/// What is asked of a hardening, as C hands it over.
#[repr(C)]
#[derive(Clone, Copy)]
pub struct HardenAsked {
    /// How many bytes a context has, from 0 to 4,096.
    pub size: u32,
    /// How often a loop that nothing counts turns at most.
    pub turns: u32,
    /// r0 where a trap ends the program.
    pub otherwise: u64,
    /// 1 where contexts are blocks, else 0.
    pub padded: u32,
    /// 1 where a hardened image is wanted that isn't shown to keep the meaning, too; else 0.
    pub unproved: u32,
    /// How many of the lowest bytes of each frame the old program leaves to r10, from 0 to 512.
    pub untouched: u32,
}

/// What is asked of a certification, as C hands it over.
#[repr(C)]
#[derive(Clone, Copy)]
pub struct CertifyAsked {
    /// The byte order of the image, 0 little-endian or 1 big-endian.
    pub order: u32,
    /// How many bytes a context has, from 0 to 4,096.
    pub size: u32,
    /// What C asks of it by its own struct.
    pub wish: BpfWish,
}

/// What is shown of an image.
#[derive(Clone, Copy)]
pub struct ExplainAsked<'a> {
    /// The byte order of the image, 0 little-endian or 1 big-endian.
    pub order: u32,
    /// 0 the listing, 1 the instruction at `slot`, 2 the graph.
    pub shown: u32,
    /// The slot of that instruction.
    pub slot: u32,
    /// The table of the source's lines, which may be empty.
    pub lines: &'a [u8],
}
