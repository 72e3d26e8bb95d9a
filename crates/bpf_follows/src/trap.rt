//! Whether a run ends at a trap, by notes.

ghost use Rattle.std.specs.Prelude.{◌≡◌, ◌≤◌, ℕ, length};
ghost use Rattle.bpf_insn.specs.Limits.{max_context};
ghost use Rattle.bpf_semantics.specs.Run.{IsDone};
ghost use Rattle.bpf_follows.specs.Traps.{is_trap, EndsByNotes, RunsToTrap};

use crate::exit::exit_slot;
use bpf_insn::Code;
use bpf_kept::Note;
use bpf_machine::{Outcome, run};

/// Whether an EXIT at this slot is a trap: the notes don't have it stand for an instruction of the old program.
pub fn is_trap(notes: &[Option<Note>], slot: u32) -> bool
    ensures { result ≡ is_trap notes.now slot }
{
    match notes.get(slot as usize) {
        Some(Some(note)) => note.extras != 0,
        Some(None) | None => true,
    }
}

/// Whether a run that ends within so many steps ends at a trap; false of a run that doesn't.
pub fn ends_at_trap<C: Code>(code: &C, context: &[u8], most: u64, notes: &[Option<Note>]) -> bool
    requires short { length context.now ≤ max_context }
    ensures run { RunsToTrap (C.program code.now) context.now notes.now most result }
    ensures ends { (v k : ℕ) → IsDone (C.program code.now) context.now v k → k ≤ most → EndsByNotes (C.program code.now) context.now notes.now v k result }
{
    match run(code, context, most) {
        Outcome::Done { steps, .. } => is_trap(notes, exit_slot(code, context, steps)),
        Outcome::Fault { .. } => false,
        Outcome::OutOfFuel => false,
    }
}
