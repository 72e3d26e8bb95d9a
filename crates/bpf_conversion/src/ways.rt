//! How long the longest way from each slot of a converted filter is, in instructions: to its end or to where it jumps back.

ghost use Rattle.std.specs.Prelude.{◌≡◌, ◌+◌, ◌<◌, ◌≤◌, ℕ, get_or, option_copied, IfOk};
ghost use Rattle.bpf_insn.specs.Limits.{max_slots};
ghost use Rattle.bpf_classic.specs.Longest.{longest_ways, longest_turn};
ghost use Rattle.bpf_conversion.specs.Outline.{IsNarrow, longest_if, way_ahead, way_back, back_if};

use bpf_insn::{Insn, Program};
use std::alloc::{AllocError, Global};

fn way_at(ways: &[u32], at: usize) -> u32
    ensures { result ≡ get_or ways.now at 0 }
{
    match ways.get(at) {
        Some(count) => *count,
        None => 0,
    }
}

/// How long the way is from where a jump leads forward, by those from the instructions behind it.
fn way_ahead(behind: &[u32], off: i16) -> u32
    ensures { result ≡ way_ahead behind.now off }
{
    if off < 0 {
        return 0;
    }
    way_at(behind, usize::from(off.unsigned_abs()))
}

/// The longest way from an instruction, by those from the ones behind it; a jump back ends a way.
fn longest(behind: &[u32], insn: Option<&Insn>) -> u32
    requires { (at : ℕ) → get_or behind.now at 0 ≤ max_slots }
    ensures { result ≡ longest_if behind.now (option_copied insn.entry) }
{
    let Some(insn) = insn else {
        return 0;
    };
    match *insn {
        Insn::Exit => 1,
        Insn::Ja { off } => way_ahead(behind, off) + 1,
        Insn::JumpIf { off, .. } => way_at(behind, 0).max(way_ahead(behind, off)) + 1,
        Insn::Alu { .. } | Insn::Neg { .. } | Insn::MovSx { .. } => way_at(behind, 0) + 1,
        Insn::End { .. } | Insn::LoadImm64 { .. } | Insn::Load { .. } => way_at(behind, 0) + 1,
        Insn::LoadSx { .. } | Insn::Store { .. } | Insn::StoreImm { .. } => way_at(behind, 0) + 1,
        Insn::Atomic { .. } | Insn::JaLong { .. } | Insn::CallLocal { .. } => way_at(behind, 0) + 1,
    }
}

/// The longest way from each slot.
pub fn longest_ways(alloc: Global, program: &Program) -> Result<Vec<u32>, AllocError>
    requires { IsNarrow program.now.list }
    ensures { IfOk result (λ ways. ways.items ≡ longest_ways program.now.list) }
{
    let count = program.slots();
    let mut ways = vec![in alloc; 0u32; count as usize]?;
    'back: for back in 0..count {
        let slot = count - 1 - back;
        let most = longest(&ways[slot as usize + 1..], program.at(slot));
        ways[slot as usize] = most;
    }
    Ok(ways)
}

/// The longest way from where a jump back leads, by those from all slots.
fn way_back(ways: &[u32], slot: u32, off: i16) -> u32
    ensures { result ≡ way_back ways.now slot off }
{
    if off >= 0 {
        return 0;
    }
    let over = u32::from(off.unsigned_abs().saturating_sub(1));
    way_at(ways, slot.saturating_sub(over) as usize)
}

fn turn_of(ways: &[u32], slot: u32, insn: Option<&Insn>) -> u32
    ensures { result ≡ back_if ways.now slot (option_copied insn.entry) }
{
    let Some(insn) = insn else {
        return 0;
    };
    match *insn {
        Insn::Ja { off } => way_back(ways, slot, off),
        Insn::Alu { .. } | Insn::Neg { .. } | Insn::MovSx { .. } | Insn::End { .. } => 0,
        Insn::LoadImm64 { .. } | Insn::Load { .. } | Insn::LoadSx { .. } => 0,
        Insn::Store { .. } | Insn::StoreImm { .. } | Insn::Atomic { .. } => 0,
        Insn::JaLong { .. } | Insn::JumpIf { .. } | Insn::CallLocal { .. } | Insn::Exit => 0,
    }
}

/// The longest way from wherever a jump back leads to the next one or to the end, by those from all slots; 0 where there is none.
pub fn longest_turn(program: &Program, ways: &[u32]) -> u32
    requires { IsNarrow program.now.list }
    ensures { result ≡ longest_turn ways.now 0 program.now.list }
{
    let mut most = 0;
    for slot in 0..program.slots() {
        most = turn_of(ways, slot, program.at(slot)).max(most);
    }
    most
}
