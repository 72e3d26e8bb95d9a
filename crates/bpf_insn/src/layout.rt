//! Instructions laid out by slots (RFC 9669, section 3), and the targets of their jumps (section 4.3).

ghost use Rattle.std.specs.Prelude.{◌≡◌, ◌↔◌, ◌<◌, ◌≤◌, List, Option, IsTrue, IfSome, IfNone, is_some, option_and_then, length};
ghost use Rattle.bpf_insn.specs.Instruction.{insn_in, distance, EachSlot, FailsFirst};
ghost use Rattle.bpf_insn.specs.Image.{LeadsInside, HasTarget};
ghost use Rattle.bpf_insn.specs.Limits.{max_slots};
ghost use Rattle.bpf_insn.specs.declared.instruction.Insn.{Insn};

use crate::instruction::Insn;

/// At most 65,536 slots, each with the instruction that begins there, in whatever form they are kept.
pub trait Layout {
    /// The instruction in each slot; None in the second slot of a wide one.
    ghost cells: { Self → List (Option Insn) };

    /// How many slots there are.
    fn count(&self) -> u32
        ensures count { result ≡ length (cells self.now) }
        ensures few { result ≤ max_slots };

    /// The instruction that begins at the slot.
    fn insn(&self, slot: u32) -> Option<Insn>
        ensures { result ≡ insn_in (cells self.now) slot };

    /// Whether an instruction begins at the slot.
    fn is_first(&self, slot: u32) -> bool
        ensures { result ≡ is_some (insn_in (cells self.now) slot) };

    /// How far the instruction at the slot leads, if it leads anywhere.
    fn distance(&self, slot: u32) -> Option<i32>
        ensures { result ≡ option_and_then distance (insn_in (cells self.now) slot) }
    {
        match self.insn(slot) {
            Some(insn) => insn.distance(),
            None => None,
        }
    }
}

/// Whether an instruction begins at this distance from the one after the slot.
fn leads_inside<L: Layout>(layout: &L, slot: u32, off: i32) -> bool
    requires { slot < max_slots }
    ensures { IsTrue result ↔ LeadsInside (L.cells layout.now) slot off }
{
    let target = slot as i64 + 1 + off as i64;
    target >= 0 && layout.is_first(target as u32)
}

/// The lowest slot of a jump or call that leads to no instruction.
pub fn first_without_target<L: Layout>(layout: &L) -> Option<u32>
    ensures found { IfSome result (λ slot. FailsFirst (HasTarget (L.cells layout.now)) (L.cells layout.now) slot) }
    ensures none { IfNone result (EachSlot (HasTarget (L.cells layout.now)) (L.cells layout.now)) }
{
    for slot in 0..layout.count() {
        if let Some(off) = layout.distance(slot) {
            if !leads_inside(layout, slot, off) {
                return Some(slot);
            }
        }
    }
    None
}
