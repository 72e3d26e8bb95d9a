//! Handles: a verdict's numbers in front of the prepared program that it is about, in memory that the caller gives.

ghost use Rattle.std.specs.Prelude.{◌≡◌, ◌≤◌, ◌+◌, ◌*◌, ◌↔◌, IsTrue, IsSome, IfSome, List, length, drop};
ghost use Rattle.bpf_insn.specs.Limits.{max_slots};
ghost use Rattle.bpf_insn.specs.Laws.{IsImageOfProgram};
ghost use Rattle.bpf_insn.specs.declared.instruction.Insn.{Insn as Instruction};
ghost use Rattle.bpf_host_calls.specs.Prepared.{IsFoundIn, prepared_head};
ghost use Rattle.bpf_host_calls.specs.Loaded.{handle_head, handle_length, IsLoaded, IsMarkedHandle, IsWholeHandle, HasRange, loaded_least, loaded_most};

use crate::answers::BpfVerdict;
use crate::prepared::{OrderedImage, found_in, has_room, put, size_for};
use bpf_insn::Order;
use byteorder::{ByteOrder, LittleEndian};

/// How many bytes stand before the prepared program: the verdict's three numbers, each of eight bytes.
const RANGE: usize = 24;

/// How many bytes the handle of an image takes.
pub(crate) fn handle_size(len: usize) -> usize
    requires { len ≤ 8 * max_slots }
    ensures { result ≡ handle_length len }
{
    RANGE + size_for(len)
}

/// Whether memory is as large as the handle of an image of `len` bytes.
pub(crate) fn has_handle_room(memory: &[u8], len: usize) -> bool
    ensures { IsTrue result ↔ (length memory.now ≡ handle_length len) }
{
    memory.len() >= RANGE && has_room(&memory[RANGE..], len)
}

/// Writes a verdict's numbers.
fn put_range(verdict: BpfVerdict, memory: &mut [u8])
    requires { 24 ≤ length memory.old }
    ensures numbers { HasRange verdict.least verdict.most verdict.bound memory.new }
    ensures as_long { length memory.new ≡ length memory.old }
{
    LittleEndian::write_u64(memory, u64::from(verdict.least));
    LittleEndian::write_u64(&mut memory[8..], u64::from(verdict.most));
    LittleEndian::write_u64(&mut memory[16..], u64::from(verdict.bound));
}

/// Writes the handle of the image of a program.
pub(crate) fn put_loaded(image: &[u8], order: Order, verdict: BpfVerdict, memory: &mut [u8])
    requires room { length memory.old ≡ handle_length (length image.now) }
    requires program { (is : List Instruction) × IsImageOfProgram order image.now is }
    ensures { IsLoaded order image.now verdict.least verdict.most verdict.bound memory.new }
{
    put_range(verdict, memory);
    put(image, order, &mut memory[RANGE..]);
}

/// Whether a context's length is in the range of a handle.
pub(crate) fn takes(memory: &[u8], len: usize) -> bool
    requires { prepared_head ≤ length memory.now }
    ensures { IsTrue result ↔ ((loaded_least memory.now ≤ len) × (len ≤ loaded_most memory.now)) }
{
    let len = len as u64;
    LittleEndian::read_u64(memory) <= len && len <= LittleEndian::read_u64(&memory[8..])
}

/// What stands prepared in a handle; None where another version wrote it, or words of it aren't there.
pub(crate) fn found_loaded(memory: &[u8]) -> Option<OrderedImage<'_>>
    requires { handle_head ≤ length memory.now }
    ensures found { IfSome result (IsFoundIn (drop 24 memory.now)) }
    ensures known { IsSome result ↔ (IsMarkedHandle memory.now × IsWholeHandle memory.now) }
{
    found_in(&memory[RANGE..])
}
