//! Where the jumps and calls of a program lead (RFC 9669, section 4.3).

ghost use Rattle.std.specs.Prelude.{◌≡◌, ◌<◌, Some};
ghost use Rattle.bpf_insn.specs.Instruction.{target};
ghost use Rattle.bpf_insn.specs.Limits.{max_slots};
ghost use Rattle.bpf_semantics.specs.Targets.{LeadsToSlot};

/// The slot at a distance from the next one, where it is known to be one of a program's (RFC 9669, section 4.3).
#[inline(always)]
pub fn target_of(slot: u32, off: i32) -> u32
    requires here { slot < max_slots }
    requires led { LeadsToSlot slot off }
    ensures { target slot off ≡ Some result }
{
    (i64::from(slot) + 1 + i64::from(off)) as u32
}
