//! A line for each packet.

ghost use Rattle.std.specs.Prelude.{◌≡◌, ◌≤◌, [], IfOk, IfErr};
ghost use Rattle.bpf_insn.specs.Limits.{max_context};
ghost use Rattle.bpf_insn.specs.Written.{AppendsBeginning, Gathers};
ghost use Rattle.bpf_semantics.specs.Blocks.{head_bytes};
ghost use Rattle.bpf_captures.specs.Stops.{ReplaysEach};
ghost use Rattle.bpf_captures.specs.declared.turn.CaptureEnd.TheVariants.{Failed};

use crate::answerer::{Answerer, BlockLayout};
use crate::answers::ReplayFault;
use crate::error::{CaptureError, CaptureRefusal};
use crate::lines::put_value;
use crate::turn::{CaptureEnd, FIRST, Turn, behind, first_of, next_value};
use bpf_insn::MAX_CONTEXT;
use bpf_insn::written::Pending;
use std::io::{Read, Write};

/// Answers each packet of a capture file in a line, until there is no more. Takes no memory.
pub fn print_each<R: Read, Q: Answerer, W: Write>(
    reader: &mut R,
    out: &mut W,
    pending: &mut Pending,
    answerer: &Q,
    blocks: BlockLayout,
) -> Result<CaptureEnd, ReplayFault>
    requires taken { Q.takes answerer.now blocks.size }
    requires room { head_bytes ≤ blocks.size }
    requires short { blocks.size ≤ max_context }
    requires nothing { pending.old ≡ [] }
    ensures ok { IfOk result (ReplaysEach (Q.gives answerer.now) blocks (R.remaining reader.old)
        (Gathers (W.contents out.old) (W.contents out.new) [] pending.new)) }
    ensures err { IfErr result (λ _. ReplaysEach (Q.gives answerer.now) blocks (R.remaining reader.old)
        (AppendsBeginning (W.contents out.old) (W.contents out.new)) Failed) }
{
    let order = match first_of(reader) {
        Ok(order) => order,
        Err(stop) => return Ok(stop),
    };
    let mut block = [0; MAX_CONTEXT];
    let mut byte = FIRST;
    'packets: for before in 0..u64::MAX {
        match next_value(reader, order, answerer, blocks, &mut block[..blocks.size]) {
            Turn::Value { value, count } => {
                match put_value(out, pending, value) {
                    Ok(()) => {}
                    Err(_) => return Err(ReplayFault::Output),
                }
                let Some(next) = behind(byte, count) else {
                    return Err(ReplayFault::Memory);
                };
                byte = next;
            }
            Turn::End => return Ok(CaptureEnd::End),
            Turn::Broken => return Ok(CaptureEnd::Refused(CaptureRefusal {
                error: CaptureError::ShortRecord,
                packet: before + 1,
                byte,
            })),
            Turn::Failed => return Ok(CaptureEnd::Failed),
        }
    }
    // No file has as many packets as that.
    Err(ReplayFault::Memory)
}
