//! Packets in blocks: eight bytes that tell a packet's length, the packet, and zeros.

ghost use Rattle.std.specs.Prelude.{◌≡◌, ◌+◌, ◌-◌, ◌≤◌, ◌++◌, IfOk, IfErr, length, drop, min};
ghost use Rattle.bpf_insn.specs.Order.{bytes_of};
ghost use Rattle.bpf_semantics.specs.Blocks.{head_bytes};
ghost use Rattle.bpf_captures.specs.Block.{BlockHolds, kept_in};
ghost use Rattle.bpf_captures.specs.Taken.{IsRefusedRecord, TakesBlock};

use crate::capture::next_packet;
use crate::error::CaptureError;
use bpf_insn::instruction::Size;
use bpf_insn::{Order, put_number};
use bpf_semantics::block_of_frame;
use std::io::Read;

/// The bytes of a block in front of its packet.
const HEAD: usize = bpf_semantics::HEAD_BYTES as usize;

/// Puts a length in front of a packet of which so many bytes as fit stand in a block, and zeros behind it.
fn finish(order: Order, count: usize, block: &mut [u8])
    requires { head_bytes ≤ length block.old }
    ensures { block.new ≡ bytes_of order head_bytes count ++ kept_in (length block.old - head_bytes) count (drop head_bytes block.old) }
{
    let kept = count.min(block.len() - HEAD);
    block[HEAD + kept..].fill(0);
    put_number(order, Size::DW, block, count as u64);
}

/// Takes the next record of a capture file in a byte order from a reader, and makes the block of its packet, whose length stands there in the
/// other byte order that is given. How many bytes of the packet were captured; None at the end. P4, P5.
pub fn next_block<R: Read>(
    reader: &mut R,
    order: Order,
    block_order: Order,
    block: &mut [u8],
) -> Result<Option<usize>, CaptureError>
    requires { head_bytes ≤ length block.old }
    ensures ok { IfOk result (TakesBlock order block_order (R.remaining reader.old) (R.remaining reader.new) (length block.old) block.new) }
    ensures err { IfErr result (IsRefusedRecord order (R.remaining reader.old)) }
{
    match next_packet(reader, order, &mut block[HEAD..]) {
        Ok(Some(count)) => {
            finish(block_order, count, block);
            Ok(Some(count))
        }
        Ok(None) => Ok(None),
        Err(error) => Err(error),
    }
}

/// The block of a packet holds the packet, cut to the room that is there.
pub fn block_holds()
    ensures { BlockHolds }
{
    block_of_frame();
}
