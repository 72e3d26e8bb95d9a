//! Packets in blocks: the run of a program on a packet, and the same run inside of a block that holds the packet.

/// How many bytes of a block stand in front of its packet: they tell the packet's length.
pub const HEAD_BYTES: u32 = 8;
