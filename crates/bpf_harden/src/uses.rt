//! What the functions of a program use.

use bpf_infer_base::PlaceSet;
use bpf_insn::{Access, FRAME_BYTES, FRAME_SLOTS, Reg};
use bpf_state::{FRAME_START, RegState};

/// The registers that a program may write, in the order in which one is chosen that holds nothing: those first that calls
/// overwrite.
pub const BY_CHOICE: [Reg; 10] = [
    Reg::R0,
    Reg::R5,
    Reg::R4,
    Reg::R3,
    Reg::R2,
    Reg::R1,
    Reg::R9,
    Reg::R8,
    Reg::R7,
    Reg::R6,
];

/// How many bytes of a frame there are from an offset on, a multiple of 8.
fn bytes_from(offset: i64) -> u32 {
    let below = 0i64.saturating_sub(offset).max(0).min(FRAME_BYTES as i64);
    let slots = u32::try_from(below.saturating_add(7) >> 3).unwrap_or(FRAME_SLOTS as u32);
    slots.min(FRAME_SLOTS as u32) * 8
}

/// What a function uses by itself.
#[derive(Clone, Copy)]
pub struct FunctionUses {
    /// Its first slot, and the one behind its last.
    pub first: u32,
    pub end: u32,
    /// The registers that it reads or changes, or is given.
    pub registers: PlaceSet,
    /// The arguments that it reads.
    pub arguments: PlaceSet,
    /// Whether it calls another one.
    pub calls: bool,
    /// How many bytes of its frame it uses, a multiple of 8.
    pub depth: u32,
    /// How many bytes there are from the lowest one on whose address is put into a register, a multiple of 8. What lies below is reached
    /// by r10 alone, as what a compiler spills.
    pub reach: u32,
    /// Whether a pointer of which nothing is known but its frame is moved down.
    pub walks_down: bool,
    /// Whether something is written to its frame that nothing bounds.
    pub is_wild: bool,
    /// Whether it, or one that it calls, accesses the context.
    pub needs_context: bool,
}

impl FunctionUses {
    /// A function of which nothing is known but its slots and arguments.
    pub fn new(first: u32, end: u32, arguments: PlaceSet) -> FunctionUses {
        FunctionUses {
            first,
            end,
            registers: arguments,
            arguments,
            calls: false,
            depth: 0,
            reach: 0,
            walks_down: false,
            is_wild: false,
            needs_context: false,
        }
    }

    /// Takes note of an access by what is known of its base. Where nothing bounds it, reads touch no byte that wasn't written,
    /// and writes may touch any.
    pub fn add_access(&mut self, access: Access, base: RegState) {
        match base {
            RegState::Ptr(pointer) if pointer.area.is_frame() => {
                let lowest = pointer.lo.saturating_add(access.off as i64);
                if lowest >= FRAME_START {
                    self.deepen(lowest);
                    if access.base != Reg::R10 {
                        self.extend(lowest);
                    }
                } else if access.writes {
                    self.is_wild = true;
                }
            }
            RegState::Ptr(_) => self.needs_context = true,
            RegState::Any | RegState::Num(_) => {}
        }
    }

    /// Takes note of a constant that is added to what is known of a register.
    pub fn add_move(&mut self, moved: RegState, distance: i64) {
        match moved {
            RegState::Ptr(pointer) if pointer.area.is_frame() => {
                if pointer.lo == pointer.hi {
                    self.extend(pointer.lo.saturating_add(distance));
                } else if distance < 0 {
                    self.walks_down = true;
                }
            }
            RegState::Ptr(_) | RegState::Any | RegState::Num(_) => {}
        }
    }

    /// How many bytes of its frame registers other than r10 reach, of so many that may be theirs.
    pub fn reach_of(&self, frame: u32) -> u32 {
        if self.walks_down || self.reach == 0 || self.reach >= self.depth {
            frame
        } else {
            self.reach.min(frame)
        }
    }

    /// The byte of the frame at an offset is within reach of a register.
    fn extend(&mut self, offset: i64) {
        self.reach = self.reach.max(bytes_from(offset));
    }

    /// The byte of the frame at an offset is used.
    fn deepen(&mut self, offset: i64) {
        self.depth = self.depth.max(bytes_from(offset));
    }
}
