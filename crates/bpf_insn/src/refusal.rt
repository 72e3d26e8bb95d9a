//! Why bytes are no image, and why instructions are no program (RFC 9669, sections 3 to 5).

ghost use Rattle.std.specs.Prelude.{◌≡◌, ◌<◌, ◌≤◌, ◌↔◌, [], IsSome, IfSome, MatchOption, get_or, length};
ghost use Rattle.bpf_insn.specs.RefusalNumbers.{slot_fault_number, build_number, build_slot, decode_number, decode_slot, image_texts};

use crate::uses::FieldSet;
use thiserror::Error;

/// What this profile leaves out.
#[derive(Clone, Copy, Debug, PartialEq, Eq)]
pub enum LeftOut {
    /// Packet access (RFC 9669, section 5.5).
    Packet,
    /// A 64-bit constant that names a map or a variable (RFC 9669, section 5.4).
    Constant,
    /// A call of a helper (RFC 9669, section 4.3.1).
    Helper,
    /// A call of a function of the kernel (RFC 9669, section 4.3.1).
    KernelFunction,
}

/// What is told of the refusal of an image with a number, without the slot.
fn text_of(number: u8) -> &'static str
    ensures { result.now ≡ get_or image_texts number [] }
{
    match DecodeError::text_numbered(u32::from(number)) {
        Some(text) => text,
        None => "",
    }
}

/// Why no instruction begins at a slot of an image.
#[derive(Clone, Copy, Debug, PartialEq, Eq, Error)]
#[error("{}", text_of(self.number()))]
pub enum SlotFault {
    /// E2: no instruction of RFC 9669 has this opcode.
    Opcode,
    /// E3: a register field, used or not, is above 10.
    Register,
    /// E4: fields that the instruction doesn't use, or reserved bits of a wide one, aren't zero.
    Unused { fields: FieldSet },
    /// E5: a field that selects the operation has a value that isn't defined for the opcode.
    Selector,
    /// E6: the second slot of a wide instruction is missing.
    Truncated,
    /// E7: this profile leaves the instruction out: packet access, helper calls, maps and variables.
    LeftOut { what: LeftOut },
}

impl SlotFault {
    /// The number of the refusal, from 2 to 7.
    pub fn number(&self) -> u8
        ensures { result ≡ slot_fault_number self.now }
    {
        match self {
            SlotFault::Opcode => 2,
            SlotFault::Register => 3,
            SlotFault::Unused { .. } => 4,
            SlotFault::Selector => 5,
            SlotFault::Truncated => 6,
            SlotFault::LeftOut { .. } => 7,
        }
    }
}

/// Why a list of instructions is no program.
#[derive(Clone, Copy, Debug, PartialEq, Eq, Error)]
pub enum BuildError {
    /// E1: there is no slot, or more than 65,536.
    #[error("program has no slot, or more than 65,536")]
    Length,
    /// E5: the instruction at the slot has no encoding.
    #[error("at slot {slot}: instruction has no encoding")]
    NoEncoding { slot: u32 },
    /// E8: the jump or call at the slot leads to no instruction's first slot.
    #[error("at slot {slot}: {}", text_of(self.number()))]
    Target { slot: u32 },
    /// E9: memory ran out.
    #[error("{}", text_of(self.number()))]
    Memory,
}

impl BuildError {
    /// The number of the refusal: 1, 5, 8 or 9.
    pub fn number(&self) -> u8
        ensures { result ≡ build_number self.now }
    {
        match self {
            BuildError::Length => 1,
            BuildError::NoEncoding { .. } => 5,
            BuildError::Target { .. } => 8,
            BuildError::Memory => 9,
        }
    }

    /// The slot that is refused; 0 where none is.
    pub fn slot(&self) -> u32
        ensures { result ≡ build_slot self.now }
    {
        match *self {
            BuildError::NoEncoding { slot } | BuildError::Target { slot } => slot,
            BuildError::Length | BuildError::Memory => 0,
        }
    }
}

/// Why bytes are not decoded.
#[derive(Clone, Copy, Debug, PartialEq, Eq, Error)]
pub enum DecodeError {
    /// E1: the length is zero, no multiple of 8, or above 524,288 bytes.
    #[error("{}", text_of(self.number()))]
    Length,
    /// E2 to E7: no instruction begins at the slot.
    #[error("at slot {slot}: {fault}")]
    Slot { slot: u32, fault: SlotFault },
    /// E8: the jump or call at the slot leads to no instruction's first slot.
    #[error("at slot {slot}: {}", text_of(self.number()))]
    Target { slot: u32 },
    /// E9: memory ran out.
    #[error("{}", text_of(self.number()))]
    Memory,
    /// E10: the reader failed in the bytes of the slot.
    #[error("at slot {slot}: {}", text_of(self.number()))]
    Read { slot: u32 },
}

impl DecodeError {
    /// The number of the refusal, from 1 to 10.
    pub fn number(&self) -> u8
        ensures { result ≡ decode_number self.now }
    {
        match self {
            DecodeError::Length => 1,
            DecodeError::Slot { fault, .. } => fault.number(),
            DecodeError::Target { .. } => 8,
            DecodeError::Memory => 9,
            DecodeError::Read { .. } => 10,
        }
    }

    /// What is told of the refusal with a number, without the slot; None where that isn't from 1 to 10.
    pub fn text_numbered(number: u32) -> Option<&'static str>
        ensures numbered { IsSome result ↔ ((1 ≤ number) × (number ≤ 10)) }
        ensures told { IfSome result (λ text. 0 < length text.now) }
        ensures text { MatchOption result (get_or image_texts number [] ≡ []) (λ text. text.now ≡ get_or image_texts number []) }
    {
        match number {
            1 => Some("length is zero, no multiple of 8, or above 524,288 bytes"),
            2 => Some("unknown opcode"),
            3 => Some("register above r10"),
            4 => Some("unused field is not zero"),
            5 => Some("undefined value of a selecting field"),
            6 => Some("second slot of a wide instruction is missing"),
            7 => Some("instruction is left out of this profile"),
            8 => Some("target of the jump is no instruction"),
            9 => Some("out of memory"),
            10 => Some("reading failed"),
            _ => None,
        }
    }

    /// The slot that is refused; 0 where none is.
    pub fn slot(&self) -> u32
        ensures { result ≡ decode_slot self.now }
    {
        match *self {
            DecodeError::Slot { slot, .. }
            | DecodeError::Target { slot }
            | DecodeError::Read { slot } => slot,
            DecodeError::Length | DecodeError::Memory => 0,
        }
    }
}
