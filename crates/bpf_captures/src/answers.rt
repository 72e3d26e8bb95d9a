//! The answers to the packets of a capture file.

ghost use Rattle.std.specs.Prelude.{◌≡◌, ◌≤◌, [], IfOk, IfErr, true};
ghost use Rattle.std.specs.Io.KnownBytes.{Appends};
ghost use Rattle.bpf_insn.specs.Limits.{max_context};
ghost use Rattle.bpf_insn.specs.Written.{AppendsBeginning, Gathers};
ghost use Rattle.bpf_semantics.specs.Blocks.{head_bytes};
ghost use Rattle.bpf_captures.specs.Stops.{Replays};
ghost use Rattle.bpf_captures.specs.declared.turn.CaptureEnd.TheVariants.{Failed};

use crate::answerer::{Answerer, BlockLayout};
use crate::counting::{Counts, count_each, print_counts};
use crate::printing::print_each;
use crate::turn::CaptureEnd;
use bpf_insn::written::Pending;
use std::alloc::Global;
use std::io::{Read, Write};

/// Why answers end before the packets do.
#[derive(Clone, Copy)]
pub enum ReplayFault {
    /// The writer failed.
    Output,
    /// Memory ran out.
    Memory,
}

/// Counts the answers to the packets of a capture file, and puts a line for each different one behind those that wait.
fn tell_counts<R: Read, Q: Answerer, W: Write>(
    alloc: Global,
    reader: &mut R,
    out: &mut W,
    pending: &mut Pending,
    answerer: &Q,
    blocks: BlockLayout,
) -> Result<CaptureEnd, ReplayFault>
    requires taken { Q.takes answerer.now blocks.size }
    requires room { head_bytes ≤ blocks.size }
    requires short { blocks.size ≤ max_context }
    requires nothing { pending.old ≡ [] }
    ensures ok { IfOk result (Replays (Q.gives answerer.now) blocks (R.remaining reader.old) true
        (Gathers (W.contents out.old) (W.contents out.new) [] pending.new)) }
    ensures err { IfErr result (λ _. Replays (Q.gives answerer.now) blocks (R.remaining reader.old) true
        (AppendsBeginning (W.contents out.old) (W.contents out.new)) Failed) }
{
    let mut counts = Counts::new(alloc);
    let stop = match count_each(reader, &mut counts, answerer, blocks) {
        Ok(stop) => stop,
        Err(fault) => return Err(fault),
    };
    match print_counts(out, pending, &counts) {
        Ok(()) => Ok(stop),
        Err(_) => Err(ReplayFault::Output),
    }
}

/// The same, or a line for each packet.
fn tell_each<R: Read, Q: Answerer, W: Write>(
    alloc: Global,
    reader: &mut R,
    out: &mut W,
    pending: &mut Pending,
    answerer: &Q,
    blocks: BlockLayout,
    counts: bool,
) -> Result<CaptureEnd, ReplayFault>
    requires taken { Q.takes answerer.now blocks.size }
    requires room { head_bytes ≤ blocks.size }
    requires short { blocks.size ≤ max_context }
    requires nothing { pending.old ≡ [] }
    ensures ok { IfOk result (Replays (Q.gives answerer.now) blocks (R.remaining reader.old) counts
        (Gathers (W.contents out.old) (W.contents out.new) [] pending.new)) }
    ensures err { IfErr result (λ _. Replays (Q.gives answerer.now) blocks (R.remaining reader.old) counts
        (AppendsBeginning (W.contents out.old) (W.contents out.new)) Failed) }
{
    if counts {
        tell_counts(alloc, reader, out, pending, answerer, blocks)
    } else {
        print_each(reader, out, pending, answerer, blocks)
    }
}

/// Answers the packets of a capture file that a reader gives, each in a line, or each different answer once with how often it came, in
/// ascending order. The file's end, its refusal or the reader's fault ends it; the packets before are answered. After a fault standard output
/// has a beginning of the answers to the first packets.
pub fn replay<R: Read, Q: Answerer, W: Write>(
    alloc: Global,
    reader: &mut R,
    out: &mut W,
    answerer: &Q,
    blocks: BlockLayout,
    counts: bool,
) -> Result<CaptureEnd, ReplayFault>
    requires taken { Q.takes answerer.now blocks.size }
    requires room { head_bytes ≤ blocks.size }
    requires short { blocks.size ≤ max_context }
    ensures ok { IfOk result (Replays (Q.gives answerer.now) blocks (R.remaining reader.old) counts (Appends (W.contents out.old) (W.contents out.new))) }
    ensures err { IfErr result (λ _. Replays (Q.gives answerer.now) blocks (R.remaining reader.old) counts
        (AppendsBeginning (W.contents out.old) (W.contents out.new)) Failed) }
{
    let mut pending = Pending::new();
    let stop = match tell_each(alloc, reader, out, &mut pending, answerer, blocks, counts) {
        Ok(stop) => stop,
        Err(fault) => return Err(fault),
    };
    match pending.flush(out) {
        Ok(()) => Ok(stop),
        Err(_) => Err(ReplayFault::Output),
    }
}
