//! The leaders of a program's basic blocks (Aho, Sethi and Ullman, Compilers, 1986, section 9.4), which are the slots that want a label: the first one,
//! those to which a jump leads, and those behind a jump, a test or an exit. A test may always go one way, so what passes it may reach no slot.

ghost use Rattle.std.specs.Prelude.{◌≡◌, ◌<◌, ◌≤◌, ◌||◌, ℕ, false, length, get_or, option_copied, IfOk};
ghost use Rattle.bpf_insn.specs.Limits.{max_slots};
ghost use Rattle.bpf_conversion.specs.Leaders.{jump_to, behind_end, is_slot};
ghost use Rattle.bpf_conversion.specs.Outline.{IsNarrow, AreLed, AreMarkedFrom};

use bpf_insn::{Insn, Program, target};
use std::alloc::{AllocError, Global};

/// The slot to which an instruction may jump.
fn jump_to(slot: u32, insn: &Insn) -> Option<u32>
    requires { slot ≤ max_slots }
    ensures { result ≡ jump_to slot insn.now }
{
    match *insn {
        Insn::Ja { off } => target(slot, i32::from(off)),
        Insn::JumpIf { off, .. } => target(slot, i32::from(off)),
        Insn::Alu { .. } | Insn::Neg { .. } | Insn::MovSx { .. } | Insn::End { .. } => None,
        Insn::LoadImm64 { .. } | Insn::Load { .. } | Insn::LoadSx { .. } => None,
        Insn::Store { .. } | Insn::StoreImm { .. } | Insn::Atomic { .. } => None,
        Insn::JaLong { .. } | Insn::CallLocal { .. } | Insn::Exit => None,
    }
}

/// The slot behind the end of a block.
fn behind_end(slot: u32, insn: &Insn) -> Option<u32>
    requires { slot ≤ max_slots }
    ensures { result ≡ behind_end slot insn.now }
{
    if insn.is_straight() {
        return None;
    }
    Some(slot + 1)
}

/// Makes a slot a leader, if there is one.
fn mark(wanted: &mut Vec<bool>, slot: Option<u32>)
    ensures long { length wanted.new.items ≡ length wanted.old.items }
    ensures each { (to : ℕ) → to < length wanted.old.items → get_or wanted.new.items to false ≡ (is_slot slot to || get_or wanted.old.items to false) }
{
    let Some(slot) = slot else {
        return;
    };
    if slot as usize >= wanted.len() {
        return;
    }
    wanted[slot as usize] = true;
}

/// Makes leaders of the slots to which an instruction leads, or behind which it ends a block.
fn mark_from(wanted: &mut Vec<bool>, slot: u32, insn: Option<&Insn>)
    requires { slot ≤ max_slots }
    ensures long { length wanted.new.items ≡ length wanted.old.items }
    ensures each { AreMarkedFrom slot (option_copied insn.entry) wanted.old.items wanted.new.items }
{
    let Some(insn) = insn else {
        return;
    };
    mark(wanted, behind_end(slot, insn));
    mark(wanted, jump_to(slot, insn));
}

/// Whether each slot is a leader.
pub fn leaders(alloc: Global, program: &Program) -> Result<Vec<bool>, AllocError>
    requires { IsNarrow program.now.list }
    ensures { IfOk result (λ wanted. AreLed program.now.list (length program.now.list) wanted.items) }
{
    let count = program.slots();
    let mut wanted = vec![in alloc; false; count as usize]?;
    mark(&mut wanted, Some(0));
    for slot in 0..count {
        mark_from(&mut wanted, slot, program.at(slot));
    }
    Ok(wanted)
}
