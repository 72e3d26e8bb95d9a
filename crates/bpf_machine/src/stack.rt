//! The stack of a frame: 512 bytes, each a byte of a number, a part of a pointer, or uninitialised.

ghost use Rattle.std.specs.Prelude.{◌≡◌, ◌==◌, ◌+◌, ◌^◌, ◌%◌, ◌<◌, ◌≤◌, IfOk, IfErr, IfSome, take, drop, option_map, get_or, slice_set, replicate, [], ◌∷◌, Some, None, if◌then◌else◌};
ghost use Rattle.bpf_insn.specs.Order.{number_of, bytes_of};
ghost use Rattle.bpf_insn.specs.Instruction.{byte_count};
ghost use Rattle.bpf_semantics.specs.State.{Cell, cell, empty_stack, frame_bytes, max_frames};
ghost use Rattle.bpf_semantics.specs.State.Cell.{Byte};
ghost use Rattle.bpf_semantics.specs.Memory.{bytes_in, pointer_in, with_bytes, with_parts};
ghost use Rattle.bpf_semantics.specs.Stuck.{first_unreadable};
ghost use Rattle.bpf_machine.specs.code.PackedStack.{IsMask, region_of_code};

use bpf_insn::{FRAME_BYTES, MAX_FRAMES, Order, Size, number_in, put_number};
use bpf_semantics::{Reason, Region, Value};
use std::marker::Model;

/// How many slots of eight bytes there are.
const SLOTS: usize = bpf_insn::FRAME_SLOTS;

/// The number of a slot that holds no pointer.
const NO_REGION: u16 = 0;

/// A stack by slots: the bytes, those of each slot that hold a number, and the regions of the pointers, whose offsets
/// are the numbers in the slots' bytes then, the lowest first. What no mask has and no region is may hold anything.
/// Regions are kept as numbers, so that a stack is cleared at once: 1 is the context, and 2 more than its depth a frame.
#[derive(Drop)]
pub(crate) struct Stack {
    bytes: [u8; FRAME_BYTES],
    masks: [u8; SLOTS],
    regions: [u16; SLOTS],
}

/// The number of a pointer's region.
#[inline(always)]
fn code_of(region: Region) -> u16
    ensures { region_of_code result ≡ Some region }
{
    match region {
        Region::Context => 1,
        Region::Frame(depth) => 2 + u16::from(depth),
    }
}

/// The region that a slot's number stands for.
#[inline(always)]
fn region_of(code: u16) -> Option<Region>
    ensures { result ≡ region_of_code code }
{
    match code {
        NO_REGION => None,
        1 => Some(Region::Context),
        _ => Some(Region::Frame(((code - 2) % 256) as u8)),
    }
}

/// The mask of some bytes of a slot, from a place in it on.
#[inline(always)]
fn mask_of(place: usize, count: usize) -> u8
    requires some { 0 < count }
    requires inside { place + count ≤ 8 }
    ensures { IsMask place count result }
{
    (u8::MAX >> (8 - count)) << place
}

impl Model for Stack {
    ghost use Rattle.std.specs.Prelude.{List, Option, map};
    ghost use Rattle.bpf_semantics.specs.State.{Cell};
    ghost use Rattle.bpf_machine.specs.code.PackedStack.{packed_cells, region_of_code};

    ghost Value = { List (Option Cell) };

    ghost view = { λ s. packed_cells s.bytes s.masks (map region_of_code s.regions) };
}

impl Stack {
    /// A stack that holds nothing.
    #[tactic(auto, using(crate::proofs::StackLemmas::empty_cells))]
    pub(crate) fn new() -> Self
        ensures { result ≡ empty_stack }
    {
        Stack {
            bytes: [0; FRAME_BYTES],
            masks: [0; SLOTS],
            regions: [NO_REGION; SLOTS],
        }
    }

    /// Makes all uninitialised; the bytes stay.
    #[tactic(auto, using(crate::proofs::StackLemmas::empty_cells))]
    pub(crate) fn clear(&mut self)
        ensures { self.new ≡ empty_stack }
    {
        self.masks = [0; SLOTS];
        self.regions = [NO_REGION; SLOTS];
    }

    /// The byte of a number at an address; else why it can't be read.
    #[inline(always)]
    fn byte(&self, at: usize) -> Result<u8, Reason>
        requires { at < frame_bytes }
        ensures ok { IfOk result (λ b. cell self.now at ≡ Some (Byte b)) }
        ensures err { IfErr result (λ reason. first_unreadable (cell self.now at ∷ []) ≡ Some reason) }
    {
        if (self.masks[at / 8] >> (at % 8)) % 2 == 1 {
            return Ok(self.bytes[at]);
        }
        match region_of(self.regions[at / 8]) {
            Some(_region) => Err(Reason::OperandKind),
            None => Err(Reason::UnsetByte),
        }
    }

    /// The bytes of a number at an address, at the front of eight; else why the first that can't be read can't.
    #[inline(always)]
    fn bytes(&self, at: usize, count: usize) -> Result<[u8; 8], Reason>
        requires inside { at + count ≤ frame_bytes }
        requires few { count ≤ 8 }
        ensures ok { IfOk result (λ bytes. bytes_in (take count (drop at self.now)) ≡ Some (take count bytes)) }
        ensures err { IfErr result (λ reason. first_unreadable (take count (drop at self.now)) ≡ Some reason) }
    {
        let _ = &self.bytes;
        let mut bytes = [0; 8];
        for i in 0..count {
            match self.byte(at + i) {
                Ok(byte) => bytes[i] = byte,
                Err(reason) => return Err(reason),
            }
        }
        Ok(bytes)
    }

    /// The number in the bytes at an address; else why the first that can't be read can't.
    #[inline(always)]
    pub(crate) fn number(&self, order: Order, at: usize, size: Size) -> Result<u64, Reason>
        requires { at + byte_count size ≤ frame_bytes }
        ensures ok { IfOk result (λ x. option_map (number_of order (byte_count size)) (bytes_in (take (byte_count size) (drop at self.now))) ≡ Some x) }
        ensures err { IfErr result (λ reason. first_unreadable (take (byte_count size) (drop at self.now)) ≡ Some reason) }
        ensures fits { IfOk result (λ x. x < 256 ^ byte_count size) }
    {
        match self.number_in_slot(order, at, size) {
            Some(x) => Ok(x),
            None => self.number_by_bytes(order, at, size),
        }
    }

    /// The number in the bytes at an address, where they lie in one slot and are all a number's.
    #[inline(always)]
    pub(crate) fn number_in_slot(&self, order: Order, at: usize, size: Size) -> Option<u64>
        requires { at + byte_count size ≤ frame_bytes }
        ensures number { IfSome result (λ x. option_map (number_of order (byte_count size)) (bytes_in (take (byte_count size) (drop at self.now))) ≡ Some x) }
        ensures fits { IfSome result (λ x. x < 256 ^ byte_count size) }
    {
        let count = usize::from(size.bytes());
        if at % 8 + count > 8 {
            return None;
        }
        let wanted = mask_of(at % 8, count);
        if self.masks[at / 8] & wanted == wanted {
            Some(number_in(order, size, &self.bytes[at..]))
        } else {
            None
        }
    }

    /// The number in the bytes at an address, byte by byte; else why the first that can't be read can't.
    #[inline(never)]
    fn number_by_bytes(&self, order: Order, at: usize, size: Size) -> Result<u64, Reason>
        requires { at + byte_count size ≤ frame_bytes }
        ensures ok { IfOk result (λ x. option_map (number_of order (byte_count size)) (bytes_in (take (byte_count size) (drop at self.now))) ≡ Some x) }
        ensures err { IfErr result (λ reason. first_unreadable (take (byte_count size) (drop at self.now)) ≡ Some reason) }
        ensures fits { IfOk result (λ x. x < 256 ^ byte_count size) }
    {
        match self.bytes(at, usize::from(size.bytes())) {
            Ok(bytes) => Ok(number_in(order, size, &bytes)),
            Err(reason) => Err(reason),
        }
    }

    /// The pointer that the slot at an address holds, if it is a slot and holds one.
    #[inline(always)]
    pub(crate) fn pointer(&self, at: usize) -> Option<Value>
        requires { at < frame_bytes }
        ensures { result ≡ (if at % 8 == 0 then pointer_in (cell self.now at) else None) }
    {
        if at % 8 != 0 || self.masks[at / 8] % 2 == 1 {
            return None;
        }
        match region_of(self.regions[at / 8]) {
            Some(region) => {
                let number = number_in(Order::Little, Size::DW, &self.bytes[at..]);
                Some(Value::Pointer(region, number.cast_signed()))
            }
            None => None,
        }
    }

    /// Writes a byte of a number. A pointer that the slot held is gone.
    #[inline(always)]
    fn store_byte(&mut self, at: usize, byte: u8)
        requires { at < frame_bytes }
        ensures { self.new ≡ with_bytes (byte ∷ []) at self.old }
    {
        self.bytes[at] = byte;
        self.masks[at / 8] |= mask_of(at % 8, 1);
        self.regions[at / 8] = NO_REGION;
    }

    /// Writes the lowest bytes of a number, byte by byte. Pointers that the slots held are gone.
    #[inline(never)]
    fn store_by_bytes(&mut self, order: Order, at: usize, size: Size, x: u64)
        requires { at + byte_count size ≤ frame_bytes }
        ensures { self.new ≡ with_bytes (bytes_of order (byte_count size) x) at self.old }
    {
        let mut bytes = [0; 8];
        put_number(order, size, &mut bytes, x);
        self.store_byte(at, bytes[0]);
        for i in 1..usize::from(size.bytes()) {
            self.store_byte(at + i, bytes[i]);
        }
    }

    /// Writes the lowest bytes of a number to a slot. A pointer that it held is gone.
    #[inline(always)]
    fn store_in_slot(&mut self, order: Order, at: usize, size: Size, x: u64)
        requires inside { at < frame_bytes }
        requires slot { at % 8 + byte_count size ≤ 8 }
        ensures { self.new ≡ with_bytes (bytes_of order (byte_count size) x) at self.old }
    {
        put_number(order, size, &mut self.bytes[at..], x);
        self.masks[at / 8] |= mask_of(at % 8, usize::from(size.bytes()));
        self.regions[at / 8] = NO_REGION;
    }

    /// Writes the lowest bytes of a number at an address. Pointers that the slots held are gone.
    #[inline(always)]
    pub(crate) fn store_number(&mut self, order: Order, at: usize, size: Size, x: u64)
        requires { at + byte_count size ≤ frame_bytes }
        ensures { self.new ≡ with_bytes (bytes_of order (byte_count size) x) at self.old }
    {
        if at % 8 + usize::from(size.bytes()) <= 8 {
            self.store_in_slot(order, at, size, x);
        } else {
            self.store_by_bytes(order, at, size, x);
        }
    }

    /// Makes the slot at an address a pointer's.
    #[inline(always)]
    pub(crate) fn store_pointer(&mut self, at: usize, region: Region, off: i64)
        requires inside { at + 8 ≤ frame_bytes }
        requires slot { at % 8 ≡ 0 }
        ensures { self.new ≡ with_parts region off at self.old }
    {
        let number = off.cast_unsigned();
        put_number(Order::Little, Size::DW, &mut self.bytes[at..], number);
        self.masks[at / 8] = 0;
        self.regions[at / 8] = code_of(region);
    }
}

/// The stacks of the frames at depths 0 to 7.
#[derive(Drop)]
pub(crate) struct Stacks {
    by_depth: [Stack; MAX_FRAMES],
}

impl Model for Stacks {
    ghost use Rattle.std.specs.Prelude.{List, Option};
    ghost use Rattle.bpf_semantics.specs.State.{Cell};

    ghost Value = { List (List (Option Cell)) };

    ghost view = { λ s. s.by_depth };

    ghost use Rattle.std.specs.Prelude.{◌≡◌, length};
    ghost use Rattle.bpf_semantics.specs.State.{max_frames};

    ghost invariant = { λ s. length s.by_depth ≡ max_frames };
}

impl Stacks {
    /// Stacks that hold nothing.
    pub(crate) fn new() -> Self
        ensures { result ≡ replicate max_frames empty_stack }
    {
        Stacks {
            by_depth: [
                Stack::new(),
                Stack::new(),
                Stack::new(),
                Stack::new(),
                Stack::new(),
                Stack::new(),
                Stack::new(),
                Stack::new(),
            ],
        }
    }

    /// Makes the stack at a depth uninitialised.
    pub(crate) fn clear(&mut self, depth: usize)
        requires { depth < max_frames }
        ensures { self.new ≡ slice_set self.old depth empty_stack }
    {
        self.by_depth[depth].clear();
    }

    /// The number in the bytes at an address; else why the first that can't be read can't.
    #[inline(always)]
    pub(crate) fn number(
        &self,
        depth: usize,
        order: Order,
        at: usize,
        size: Size,
    ) -> Result<u64, Reason>
        requires live { depth < max_frames }
        requires inside { at + byte_count size ≤ frame_bytes }
        ensures ok { IfOk result (λ x. option_map (number_of order (byte_count size)) (bytes_in (take (byte_count size) (drop at (get_or self.now depth empty_stack)))) ≡ Some x) }
        ensures err { IfErr result (λ reason. first_unreadable (take (byte_count size) (drop at (get_or self.now depth empty_stack))) ≡ Some reason) }
        ensures fits { IfOk result (λ x. x < 256 ^ byte_count size) }
    {
        self.by_depth[depth].number(order, at, size)
    }

    /// The number in the bytes at an address, where they lie in one slot and are all a number's.
    #[inline(always)]
    pub(crate) fn number_in_slot(
        &self,
        depth: usize,
        order: Order,
        at: usize,
        size: Size,
    ) -> Option<u64>
        requires live { depth < max_frames }
        requires inside { at + byte_count size ≤ frame_bytes }
        ensures { IfSome result (λ x. option_map (number_of order (byte_count size)) (bytes_in (take (byte_count size) (drop at (get_or self.now depth empty_stack)))) ≡ Some x) }
    {
        self.by_depth[depth].number_in_slot(order, at, size)
    }

    /// The pointer that the slot at an address holds, if it is a slot and holds one.
    #[inline(always)]
    pub(crate) fn pointer(&self, depth: usize, at: usize) -> Option<Value>
        requires live { depth < max_frames }
        requires inside { at < frame_bytes }
        ensures { result ≡ (if at % 8 == 0 then pointer_in (cell (get_or self.now depth empty_stack) at) else None) }
    {
        self.by_depth[depth].pointer(at)
    }

    /// Writes the lowest bytes of a number at an address.
    #[inline(always)]
    pub(crate) fn store_number(&mut self, depth: usize, order: Order, at: usize, size: Size, x: u64)
        requires live { depth < max_frames }
        requires inside { at + byte_count size ≤ frame_bytes }
        ensures { self.new ≡ slice_set self.old depth (with_bytes (bytes_of order (byte_count size) x) at (get_or self.old depth empty_stack)) }
    {
        self.by_depth[depth].store_number(order, at, size, x);
    }

    /// Makes the slot at an address a pointer's.
    #[inline(always)]
    pub(crate) fn store_pointer(&mut self, depth: usize, at: usize, region: Region, off: i64)
        requires live { depth < max_frames }
        requires inside { at + 8 ≤ frame_bytes }
        requires slot { at % 8 ≡ 0 }
        ensures { self.new ≡ slice_set self.old depth (with_parts region off at (get_or self.old depth empty_stack)) }
    {
        self.by_depth[depth].store_pointer(at, region, off);
    }
}
