//! Exits of the new program that stand for those of the old one.

ghost use Rattle.std.specs.Prelude.{◌≡◌, ◌↔◌, IsTrue, Some};
ghost use Rattle.bpf_insn.specs.Instruction.{insn_at};
ghost use Rattle.bpf_insn.specs.declared.instruction.Insn.TheVariants.{Exit};
ghost use Rattle.bpf_kept.specs.Matching.{StandsForExit};

use crate::code::insn_at;
use crate::edges::note_at;
use crate::notes::Note;
use bpf_insn::{Code, Insn};

/// Whether an EXIT stands at a slot.
fn exits_at<C: Code>(code: &C, slot: u32) -> bool
    ensures { IsTrue result ↔ (insn_at (C.program code.now).list slot ≡ Some Exit) }
{
    match insn_at(code, slot) {
        Some(insn) => matches!(insn, Insn::Exit),
        None => false,
    }
}

/// Whether what stands at a slot of the new program stands for an EXIT of the old one.
pub fn stands_for_exit<O: Code>(old: &O, notes: &[Option<Note>], slot: u32) -> bool
    ensures { IsTrue result ↔ StandsForExit (O.program old.now) notes.now slot }
{
    match note_at(notes, slot) {
        Some(note) => note.extras == 0 && exits_at(old, note.old),
        None => false,
    }
}
