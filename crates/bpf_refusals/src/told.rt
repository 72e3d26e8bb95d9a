//! What is told of a refusal.

ghost use Rattle.std.specs.Prelude.{◌≡◌};
ghost use Rattle.bpf_refusals.specs.Told.{at_number, named, told_at, told_not_shown, told_too_dear, told_uncertified};

use crate::letter::Letter;
use bpf_check::Refusal;
use bpf_kept::Mismatch;

/// B9: memory ran out while a filter was read or converted.
pub const FILTER_MEMORY: u8 = 9;

/// H13: a hardened program isn't shown to keep the meaning.
pub const NOT_SHOWN: u8 = 13;

/// H14: a bound is above the one that is asked for.
pub const TOO_DEAR: u8 = 14;

/// H15: the checker refuses the certificate that was found.
pub const UNCERTIFIED: u8 = 15;

/// Where what is refused stands.
#[derive(Clone, Copy)]
pub enum At {
    /// Nowhere, since it is refused as a whole, or memory ran out.
    Nowhere,
    /// At a slot of a program.
    Slot(u32),
    /// In a line of a text, counted from 1.
    Line(u64),
    /// At an instruction of a filter of classic BPF, counted from 0.
    Instruction(u64),
    /// In the record of a packet of a capture, counted from 1, which begins at a byte of the file, counted from 0.
    Packet { packet: u64, byte: u64 },
}

impl At {
    /// The number of the slot, the line, the instruction or the packet; 0 of nothing.
    pub fn number(self) -> u64
        ensures { result ≡ at_number self }
    {
        match self {
            At::Nowhere => 0,
            At::Slot(slot) => u64::from(slot),
            At::Line(line) => line,
            At::Instruction(at) => at,
            At::Packet { packet, .. } => packet,
        }
    }
}

/// What is told of a refusal.
#[derive(Clone, Copy)]
pub struct Told {
    pub letter: Letter,
    /// From 1.
    pub number: u8,
    pub at: At,
    /// Of I4, H7 and H15 the number of the condition of the checker that fails (C), of H13 that of what of notes fails (M), of A6 that of why the
    /// instructions are no program (E), of H14 the bound; else None.
    pub condition: Option<u32>,
}

impl Told {
    /// A refusal that names no condition.
    pub fn new(letter: Letter, number: u8, at: At) -> Told
        ensures { result ≡ told_at letter number at }
    {
        Told {
            letter,
            number,
            at,
            condition: None,
        }
    }

    /// The condition that is named; 0 of none.
    pub fn named(&self) -> u64
        ensures { result ≡ named self.now.condition }
    {
        match self.condition {
            Some(condition) => u64::from(condition),
            None => 0,
        }
    }

    /// H13: the hardened program isn't shown to keep the meaning, since this of its notes fails.
    pub fn not_shown(mismatch: Mismatch) -> Told
        ensures { result ≡ told_not_shown mismatch }
    {
        Told {
            letter: Letter::Hardening,
            number: NOT_SHOWN,
            at: At::Slot(mismatch.slot()),
            condition: Some(u32::from(mismatch.number())),
        }
    }

    /// H14: the bound is above the one that is asked for.
    pub fn too_dear(bound: u32) -> Told
        ensures { result ≡ told_too_dear bound }
    {
        Told {
            letter: Letter::Hardening,
            number: TOO_DEAR,
            at: At::Nowhere,
            condition: Some(bound),
        }
    }

    /// H15: the checker refuses the certificate that was found.
    pub fn uncertified(refusal: Refusal) -> Told
        ensures { result ≡ told_uncertified refusal }
    {
        Told {
            letter: Letter::Hardening,
            number: UNCERTIFIED,
            at: At::Nowhere,
            condition: Some(u32::from(refusal.number())),
        }
    }
}

/// An error that is a refusal.
pub trait Tells {
    ghost use Rattle.bpf_refusals.specs.declared.told.Told.{Told};

    /// What is told of it.
    ghost told_of: { Self → Told };

    /// What is told of it.
    fn told(&self) -> Told
        ensures { result ≡ told_of self.now };
}
