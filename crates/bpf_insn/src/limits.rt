//! How large programs, and what they work on, may be. RFC 9669 leaves it open. Contracts have the same by name: `specs/Limits`.

/// The most slots of a program.
pub const MAX_SLOTS: usize = 65_536;

/// The most bytes of an image: 8 for each slot.
pub const MAX_IMAGE: usize = 8 * MAX_SLOTS;

/// The most bytes of a context.
pub const MAX_CONTEXT: usize = 4_096;

/// The bytes of a frame.
pub const FRAME_BYTES: usize = 512;

/// The most frames, the outermost one among them.
pub const MAX_FRAMES: usize = 8;

/// The registers: r0 to r10.
pub const REGISTERS: usize = 11;

/// The slots of eight bytes of a frame.
pub const FRAME_SLOTS: usize = FRAME_BYTES / 8;

/// The places that hold a value: the registers, and the slots of a frame.
pub const PLACES: usize = REGISTERS + FRAME_SLOTS;
