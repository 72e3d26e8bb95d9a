//! Instructions of a program, by their slots.

ghost use Rattle.std.specs.Prelude.{◌≡◌, ◌<◌, Some};
ghost use Rattle.bpf_insn.specs.Limits.{max_slots};
ghost use Rattle.bpf_insn.specs.Instruction.{insn_at};
ghost use Rattle.bpf_insn.specs.declared.instruction.Insn.{Insn};

use bpf_insn::{Code, Insn};

/// The instruction at a slot, if one begins there. Slots are below 65,536.
#[tactic(auto, using(crate::proofs::InsideLemmas::none_past))]
pub fn insn_at<C: Code>(code: &C, slot: u32) -> Option<Insn>
    ensures is { result ≡ insn_at (C.program code.now).list slot }
    ensures below { (i : Insn) → result ≡ Some i → slot < max_slots }
{
    if slot < code.slots() {
        code.insn(slot)
    } else {
        None
    }
}
