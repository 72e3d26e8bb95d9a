//! Notes of what was done to a program.

use bpf_insn::Reg;
use bpf_state::Place;

/// What new instructions do that the old program didn't have, or what became of an old one.
#[derive(Clone, Copy, Debug, PartialEq, Eq)]
pub enum Change {
    /// Keeps where the context begins, and makes r1 the offset of what it pointed to.
    Base,
    /// Reads the length of a block's packet, and cuts it to what the block has room for.
    Length,
    /// Sets what the loops may still turn.
    Turns,
    /// Sets eight bytes of the frame to 0.
    Zero,
    /// Sets r0 to 0.
    Result,
    /// Hands on where the context begins to a called function.
    Handed,
    /// Leads to the trap where an access would leave its region.
    Guard,
    /// Leads to the trap where a loop has no turn left, and takes one.
    Turn,
    /// Saves a register in the frame, or restores it.
    Save,
    /// Makes an offset a pointer for an access, or the other way round.
    Address,
    /// The access itself, by a pointer that was made for it.
    Access,
    /// A 32-bit operation that can't wrap, as a 64-bit one.
    Widened,
    /// A constant in the place of the frame pointer: frames' pointers are offsets, from 0 to 512.
    Offset,
    /// A test of offsets with their signs in the place of an order of pointers into the context without, or the other way round.
    Order,
    /// Leads to the trap in the place of code that nothing reaches, or of an access that always leaves its region.
    Always,
    /// Tests whether a called function came back from its trap.
    Returned,
    /// The trap of a function.
    Trap,
}

/// What was done, at which slot of the old program, and where it stands in the new one.
#[derive(Clone, Copy, Debug)]
pub struct Note {
    /// The old slot that it belongs to; of what stands at a function's entry or end, the function's first.
    pub old: u32,
    pub new: u32,
    pub change: Change,
}

/// How a function was hardened.
#[derive(Clone, Copy, Debug)]
pub struct FunctionNote {
    /// Its first slot in the old program, and in the new one.
    pub old: u32,
    pub new: u32,
    /// How many bytes of its frame registers other than r10 may reach.
    pub reach: u32,
    /// Where the pointer to the context's start is kept.
    pub base: Option<Place>,
    /// Where the end of a block's packet is kept, as an offset.
    pub end: Option<Place>,
    /// The register in which the pointer to the context's start is handed to it.
    pub handed: Option<Reg>,
    /// What its trap answers its caller, who tests it. None where the answer ends the program, or can't be told from others.
    pub spare: Option<i32>,
}
