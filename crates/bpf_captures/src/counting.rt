//! How often each answer came.

ghost use Rattle.std.specs.Prelude.{◌≡◌, ◌≤◌, ℕ, List, [], ◌∷◌, ◌++◌, IfOk, OnOk, OnErr, flat_map, unwrap_or};
ghost use Rattle.std.specs.BTreeMap.{get};
ghost use Rattle.std.specs.Ordering.{nat_cmp};
ghost use Rattle.bpf_insn.specs.Limits.{max_context};
ghost use Rattle.bpf_insn.specs.Written.{AppendsBeginning, Gathers};
ghost use Rattle.bpf_semantics.specs.Blocks.{head_bytes};
ghost use Rattle.bpf_captures.specs.Lines.{AreCounts, count_line};
ghost use Rattle.bpf_captures.specs.Stops.{Replayed};

use crate::answerer::{Answerer, BlockLayout};
use crate::answers::ReplayFault;
use crate::error::{CaptureError, CaptureRefusal};
use crate::lines::put_count;
use crate::turn::{CaptureEnd, FIRST, Turn, behind, first_of, next_value};
use bpf_insn::MAX_CONTEXT;
use bpf_insn::written::Pending;
use std::alloc::AllocError;
use std::collections::BTreeMap;
use std::io::{self, Read, Write};

/// How often each number came.
pub type Counts = BTreeMap<u64, u64>;

/// How often a number came.
fn times_of(counts: &Counts, value: u64) -> u64
    ensures { result ≡ unwrap_or (get nat_cmp counts.now value) 0 }
{
    counts.get(&value).copied().unwrap_or(0)
}

/// Counts a number once more. Takes memory for one that is new alone.
fn count(counts: &mut Counts, value: u64) -> Result<(), AllocError>
    ensures { OnOk result ((values : List ℕ) → AreCounts values counts.old.entries → AreCounts (values ++ value ∷ []) counts.new.entries) }
{
    let Some(times) = times_of(counts, value).checked_add(1) else {
        return Err(AllocError);
    };
    match counts.insert(value, times) {
        Ok(_) => Ok(()),
        Err(_) => Err(AllocError),
    }
}

/// Counts the answers to the packets of a capture file, until there is no more.
pub fn count_each<R: Read, Q: Answerer>(
    reader: &mut R,
    counts: &mut Counts,
    answerer: &Q,
    blocks: BlockLayout,
) -> Result<CaptureEnd, ReplayFault>
    requires taken { Q.takes answerer.now blocks.size }
    requires room { head_bytes ≤ blocks.size }
    requires short { blocks.size ≤ max_context }
    requires nothing { AreCounts [] counts.old.entries }
    ensures { IfOk result (λ stop. (values : List ℕ) × Replayed (Q.gives answerer.now) blocks (R.remaining reader.old) stop values
        × AreCounts values counts.new.entries) }
{
    let order = match first_of(reader) {
        Ok(order) => order,
        Err(stop) => return Ok(stop),
    };
    let mut block = [0; MAX_CONTEXT];
    let mut byte = FIRST;
    'packets: for before in 0..u64::MAX {
        match next_value(reader, order, answerer, blocks, &mut block[..blocks.size]) {
            Turn::Value {
                value,
                count: taken,
            } => {
                match count(counts, value) {
                    Ok(()) => {}
                    Err(_) => return Err(ReplayFault::Memory),
                }
                let Some(next) = behind(byte, taken) else {
                    return Err(ReplayFault::Memory);
                };
                byte = next;
            }
            Turn::End => return Ok(CaptureEnd::End),
            Turn::Broken => return Ok(CaptureEnd::Refused(CaptureRefusal {
                error: CaptureError::ShortRecord,
                packet: before + 1,
                byte,
            })),
            Turn::Failed => return Ok(CaptureEnd::Failed),
        }
    }
    // No file has as many packets as that.
    Err(ReplayFault::Memory)
}

/// Puts a line for each number behind those that wait, in ascending order.
pub fn print_counts<W: Write>(out: &mut W, pending: &mut Pending, counts: &Counts) -> io::Result<()>
    requires { pending.old ≡ [] }
    ensures ok { OnOk result (Gathers (W.contents out.old) (W.contents out.new) [] pending.new (flat_map count_line counts.now.entries)) }
    ensures err { OnErr result (AppendsBeginning (W.contents out.old) (W.contents out.new) (flat_map count_line counts.now.entries)) }
{
    'counts: for (value, times) in counts.iter() {
        put_count(out, pending, *value, *times)?;
    }
    Ok(())
}
