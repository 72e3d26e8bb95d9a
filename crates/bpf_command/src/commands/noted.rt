//! Judges by the notes of a program whether its checked run ends at a trap. Without notes no run is said to.

ghost use Rattle.std.specs.Prelude.{◌≡◌, ◌≤◌, ℕ, length};
ghost use Rattle.bpf_insn.specs.Limits.{max_context};
ghost use Rattle.bpf_flat.specs.Runs.{RunsTo};
ghost use Rattle.bpf_command.specs.Noted.{EndsAsNoted, noted_in};

use bpf_check::Checked;
use bpf_follows::ends_at_trap;
use bpf_insn::Code;
use bpf_kept::Note;

/// Whether a checked program, which ends on a context with a number, does so at a trap.
pub(crate) fn is_trapped<C: Code>(
    program: &C,
    checked: &Checked<'_, C>,
    context: &[u8],
    notes: Option<&[Option<Note>]>,
) -> bool
    requires short { length context.now ≤ max_context }
    requires same { checked.now.program ≡ C.program program.now }
    ensures { (v : ℕ) → RunsTo checked.now.program checked.now.certificate.steps context.now v → EndsAsNoted (noted_in notes.entry) checked.now.program context.now v result }
{
    match notes {
        Some(notes) => ends_at_trap(program, context, u64::from(checked.bound()), notes),
        None => false,
    }
}
