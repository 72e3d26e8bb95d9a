//! What the machine's registers hold (RFC 9669, sections 2.1 and 4).

/// A region of memory: the context, or the stack frame at a depth from 0 to 7.
#[derive(Clone, Copy, Debug, PartialEq, Eq)]
pub enum Region {
    Context,
    Frame(u8),
}

/// What a register holds: a number, or a pointer into a region at an offset. The offset is in bytes: from the context's first
/// byte, or from the frame's end, so that -512 to -1 are the frame's bytes.
#[derive(Clone, Copy, Debug, PartialEq, Eq)]
pub enum Value {
    Number(u64),
    Pointer(Region, i64),
}
