//! The next packet of a capture file, and where its packets end.

ghost use Rattle.std.specs.Prelude.{◌≡◌, ◌+◌, ◌≤◌, [], IfOk, IfErr, IfSome, length};
ghost use Rattle.bpf_semantics.specs.Blocks.{head_bytes};
ghost use Rattle.bpf_captures.specs.Taken.{TakesHeader};
ghost use Rattle.bpf_captures.specs.Stops.{StopsBy, TurnsTo};
ghost use Rattle.bpf_insn.specs.declared.order.Order.TheVariants.{Little};

use crate::answerer::{Answerer, BlockLayout};
use crate::block::next_block;
use crate::capture::read_header;
use crate::error::{CaptureError, CaptureRefusal};
use bpf_insn::Order;
use std::io::Read;

/// The bytes of a file's header, at which the first record begins.
pub const FIRST: u64 = 24;

/// The bytes of a record in front of its packet.
const FRONT: u64 = 16;

/// Where the packets of a capture file end.
#[derive(Clone, Copy)]
pub enum CaptureEnd {
    /// At the end of the file.
    End,
    /// The file is refused.
    Refused(CaptureRefusal),
    /// Its reader failed.
    Failed,
}

/// What became of the next record.
#[derive(Clone, Copy)]
pub enum Turn {
    /// The block of its packet, of which so many bytes were captured, gave a number.
    Value { value: u64, count: usize },
    /// There is none.
    End,
    /// It isn't whole.
    Broken,
    /// The reader failed.
    Failed,
}

/// Takes the header of a file, and gives the byte order of the file's numbers, or why there are no packets.
pub fn first_of<R: Read>(reader: &mut R) -> Result<Order, CaptureEnd>
    ensures ok { IfOk result (TakesHeader (R.remaining reader.old) (R.remaining reader.new)) }
    ensures err { IfErr result (StopsBy Little (R.remaining reader.old) []) }
{
    match read_header(reader) {
        Ok(order) => Ok(order),
        Err(CaptureError::Unreadable) => Err(CaptureEnd::Failed),
        Err(error) => Err(CaptureEnd::Refused(CaptureRefusal {
            error,
            packet: 0,
            byte: 0,
        })),
    }
}

/// Takes the next record, and runs on the block of its packet.
pub fn next_value<R: Read, Q: Answerer>(
    reader: &mut R,
    order: Order,
    answerer: &Q,
    blocks: BlockLayout,
    block: &mut [u8],
) -> Turn
    requires taken { Q.takes answerer.now blocks.size }
    requires size { length block.old ≡ blocks.size }
    requires room { head_bytes ≤ blocks.size }
    ensures { TurnsTo (Q.gives answerer.now) blocks order (R.remaining reader.old) (R.remaining reader.new) result }
{
    match next_block(reader, order, blocks.order, block) {
        Ok(Some(count)) => Turn::Value {
            value: answerer.run(block),
            count,
        },
        Ok(None) => Turn::End,
        Err(CaptureError::ShortRecord) => Turn::Broken,
        Err(_) => Turn::Failed,
    }
}

/// The byte behind the record that begins at this one and has a packet of so many bytes; None beyond what a number holds.
pub fn behind(byte: u64, count: usize) -> Option<u64>
    ensures { IfSome result (λ next. next ≡ byte + (16 + count)) }
{
    byte.checked_add(FRONT)?.checked_add(count as u64)
}
