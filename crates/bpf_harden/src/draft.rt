//! Where new instructions stand, and programs of them: the distances of jumps, once all places are known, as the second
//! pass of an assembler finds them.

use crate::parts::displacement;
use crate::piece::{Goal, Piece};
use crate::writer::TextWriter;
use bpf_infer_base::{Change, HardenError, get_or};
use bpf_insn::{Insn, MAX_SLOTS, Order, Program};
use std::alloc::{AllocError, Global};

/// A new program, and which old slots its instructions belong to.
#[derive(Drop)]
pub struct Draft {
    pub program: Program,
    /// By slots of the new program, the old slot and what was done.
    owners: Vec<Owner>,
    /// By old slots, where what stands in its place begins.
    pub starts: Vec<Option<u32>>,
    /// By functions' numbers, where the entry begins.
    pub entries: Vec<Option<u32>>,
}

/// The old slot that a new instruction belongs to, and what it does.
#[derive(Clone, Copy, Default)]
pub struct Owner {
    pub old: u32,
    pub change: Option<Change>,
    /// Whether an instruction begins at the slot.
    pub is_first: bool,
}

impl Draft {
    /// The program that was written. H4 if it is too long, H9 if a jump would lead too far.
    pub fn of(alloc: Global, writer: TextWriter) -> Result<Draft, HardenError> {
        let last = writer.old.program.slots().saturating_sub(1);
        if writer.at as usize > MAX_SLOTS {
            return Err(HardenError::TooLong { slot: last });
        }
        let order = writer.old.program.order();
        let program = resolved(alloc, &writer, order)?;
        let owners = owners_of(alloc, &writer.pieces)?;
        Ok(Draft {
            program,
            owners,
            starts: writer.starts,
            entries: writer.entries,
        })
    }

    /// To which old slot the new instruction at a slot belongs, and what it does.
    pub fn owner(&self, slot: u32) -> Owner {
        get_or(&self.owners, slot as usize, Owner::default())
    }

    /// Where what stands in the place of the old instruction at a slot begins.
    pub fn start(&self, slot: u32) -> Option<u32> {
        get_or(&self.starts, slot as usize, None)
    }
}

/// By new slots, the owners of the instructions.
fn owners_of(alloc: Global, pieces: &[Piece]) -> Result<Vec<Owner>, AllocError> {
    let mut owners = Vec::new(alloc);
    for piece in pieces {
        let owner = Owner {
            old: piece.old,
            change: piece.change,
            is_first: true,
        };
        owners.push(owner)?;
        if let Insn::LoadImm64 { .. } = piece.insn {
            owners.push(Owner {
                is_first: false,
                ..owner
            })?;
        }
    }
    Ok(owners)
}

/// The slot that a goal stands for.
fn slot_of(writer: &TextWriter, goal: Goal) -> Option<u32> {
    match goal {
        Goal::Next => None,
        Goal::Old(slot) => get_or(&writer.starts, slot as usize, None),
        Goal::Trap(function) => get_or(&writer.traps, function, None),
        Goal::Entry(function) => get_or(&writer.entries, function, None),
    }
}

/// The program of what was written, with the distances of its jumps.
fn resolved(alloc: Global, writer: &TextWriter, order: Order) -> Result<Program, HardenError> {
    let mut list = Vec::with_capacity(alloc, writer.pieces.len())?;
    let mut at = 0u32;
    for piece in &writer.pieces {
        let insn = match slot_of(writer, piece.goal) {
            Some(target) => led(piece, distance(at, target))?,
            None => piece.insn,
        };
        list.push(insn)?;
        at = at.saturating_add(piece.insn.slots());
    }
    Program::new(alloc, list, order).map_err(|_error| HardenError::Memory)
}

/// How far it is from the instruction behind a slot to another one.
fn distance(at: u32, target: u32) -> i32 {
    let far = i64::from(target)
        .saturating_sub(i64::from(at))
        .saturating_sub(1);
    i32::try_from(far).unwrap_or(0)
}

/// An instruction that leads so far. H9 if it can't.
fn led(piece: &Piece, distance: i32) -> Result<Insn, HardenError> {
    let off = displacement(i64::from(distance));
    let is_near = i32::from(off) == distance;
    match piece.insn {
        Insn::Ja { .. } if is_near => Ok(Insn::Ja { off }),
        Insn::Ja { .. } | Insn::JaLong { .. } => Ok(Insn::JaLong { off: distance }),
        Insn::CallLocal { .. } => Ok(Insn::CallLocal { off: distance }),
        Insn::JumpIf {
            cond,
            width,
            dst,
            src,
            ..
        } => if is_near {
            Ok(Insn::JumpIf {
                cond,
                width,
                dst,
                src,
                off,
            })
        } else {
            Err(HardenError::FarJump { slot: piece.old })
        },
        Insn::Alu { .. } | Insn::Neg { .. } | Insn::MovSx { .. } | Insn::End { .. } => {
            Ok(piece.insn)
        }
        Insn::LoadImm64 { .. } | Insn::Load { .. } | Insn::LoadSx { .. } => Ok(piece.insn),
        Insn::Store { .. } | Insn::StoreImm { .. } | Insn::Atomic { .. } | Insn::Exit => {
            Ok(piece.insn)
        }
    }
}
