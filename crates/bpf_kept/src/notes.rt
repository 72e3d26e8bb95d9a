//! Notes: which instruction of the new program stands for which one of the old one, and what registers and slots of the frame hold there by the old
//! one's.

use bpf_insn::{Insn, Reg};

/// How far a number of the new program is from one of the old one, modulo 2^64: the address where the frame begins is taken away so often, and a
/// constant is added. That the address of the context is taken away is a constant of 2^63.
#[derive(Clone, Copy)]
pub struct Term {
    pub frames: u64,
    pub moved: u64,
}

/// How many slots a frame has. Slot n has the eight bytes from 8n on, counted from the frame's first byte.
pub const SLOTS: usize = 64;

/// What holds a number: a register, or a slot of the function's own frame, from 0 to 63. The packet's length is one that no program has to hold: how
/// many bytes the old one is given.
#[derive(Clone, Copy)]
pub enum Holder {
    Register(Reg),
    Slot(u8),
    Length,
}

/// What the new program has in a place (None: 0), by what the old one has in a place (None: 0): it is so far from that, or their low halves are the
/// same (None).
#[derive(Clone, Copy)]
pub struct Fact {
    pub of: Option<Holder>,
    pub base: Option<Holder>,
    pub by: Option<Term>,
}

/// A place of the new program counts turns: it holds as many as are left of those that the old program may come to an instruction in one call, less
/// those that are taken ahead.
#[derive(Clone, Copy)]
pub struct TurnsLeft {
    pub of: Holder,
    /// The old slot of the instruction.
    pub head: u32,
    /// How many turns are taken ahead: 1 between where the counter is taken down and the instruction.
    pub taken: u32,
}

/// How many counters are noted in front of an instruction.
pub const COUNTERS: usize = 64;

/// How many facts are noted in front of an instruction. That 0 is 0 fills what is left.
pub const FACTS: usize = 24;

/// The greatest number of extra instructions in front of one.
pub const MOST_EXTRAS: u32 = 128;

/// How many facts are noted of what a function gives back.
pub const BACK: usize = 2;

/// What is noted of an instruction of the new program.
#[derive(Clone, Copy)]
pub struct Note {
    /// The old slot in front of which the old program stands meanwhile.
    pub old: u32,
    /// How many extra instructions stand from here on in front of the one that stands for the old one: 0 where this is it.
    pub extras: u32,
    /// In which slots of the frame the new program may have something else than the old one.
    pub apart: [bool; SLOTS],
    /// In which slots of the frame the old program has 0.
    pub zeros: [bool; SLOTS],
    /// What holds in front of it.
    pub facts: [Fact; FACTS],
    /// What counts turns there.
    pub counters: [Option<TurnsLeft>; COUNTERS],
    /// What the function gives back: at each EXIT to which it comes from here, this holds of r0, and so behind a call of it.
    pub back: [Fact; BACK],
    /// A number that the new function never gives back at such an EXIT: the one that its trap answers.
    pub spare: Option<u64>,
    /// A number that r0 of the new program isn't here, as it never is behind a call.
    pub barred: Option<u64>,
}

/// What an instruction changes in registers and in the frame.
#[derive(Clone, Copy)]
pub enum Change {
    /// Nothing.
    Kept,
    /// Both programs put a number into a place, and then this holds. If a term is given, what the old one has there and the term are 0.
    Put { fact: Fact, pin: Option<Term> },
    /// Both programs store the same bytes at one address. In the own frame that may be any from one byte on, below another.
    Stored { from: u32, to: u32 },
    /// They do, and both put what was there, which is the same, into a register.
    Fetched { from: u32, to: u32, into: Reg },
    /// The new program alone puts what the instruction makes into a place.
    Made { into: Holder, insn: Insn },
}

/// What a guard needs of an access behind it, by a pointer.
#[derive(Clone, Copy)]
pub enum Need {
    /// It begins at this offset from the pointer or below.
    Below { offset: i128 },
    /// It ends at this one or above.
    Above { offset: i128 },
}
