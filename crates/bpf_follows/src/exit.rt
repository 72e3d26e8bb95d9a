//! At which EXIT a run ends.

ghost use Rattle.std.specs.Prelude.{◌≤◌, ℕ, length};
ghost use Rattle.bpf_insn.specs.Limits.{max_context};
ghost use Rattle.bpf_semantics.specs.Run.{IsDone};
ghost use Rattle.bpf_follows.specs.Exits.{IsDoneAt};

use bpf_insn::Code;
use bpf_machine::Machine;
use bpf_semantics::{finish_is_last, runs_are_one, stuck_has_reason};

/// The slot of the EXIT at which a run ends that takes so many steps. The run is made once more, step by step.
pub fn exit_slot<C: Code>(code: &C, context: &[u8], steps: u64) -> u32
    requires short { length context.now ≤ max_context }
    requires ends { (v : ℕ) × IsDone (C.program code.now) context.now v steps }
    ensures { (v : ℕ) → IsDone (C.program code.now) context.now v steps → IsDoneAt (C.program code.now) context.now result v steps }
{
    let _slots = code.slots();
    finish_is_last();
    stuck_has_reason();
    runs_are_one();
    let mut machine = Machine::start(code, context);
    let last = steps.saturating_sub(1);
    'steps: for done in 0..last {
        let _ = machine.step();
    }
    machine.slot()
}
