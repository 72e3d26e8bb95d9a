//! Which ways of a test neither program goes: by the numbers that the old one has, which is conditional constant propagation (Wegman and Zadeck, 1991),
//! or by what is known of the new one's.

ghost use Rattle.std.specs.Prelude.{◌≡◌};
ghost use Rattle.bpf_kept.specs.Knowns.{known_of};
ghost use Rattle.bpf_kept.specs.Ways.{answer, surely_jumps, surely_falls, surely_not, never_answers, is_dead};

use crate::known::KnownHere;
use crate::notes::Fact;
use crate::pins::old_number;
use crate::states::{held_number, operand_number};
use bpf_insn::{Insn, Operand};
use bpf_num::Num;

/// What a test of the old program surely answers.
fn answer(facts: &[Fact], insn: &Insn) -> Option<bool>
    ensures { result ≡ answer facts.now insn.now }
{
    let Insn::JumpIf {
        cond,
        width,
        dst,
        src,
        off: _off,
    } = *insn
    else {
        return None;
    };
    let a = old_number(facts, Operand::Reg(dst))?;
    let b = old_number(facts, src)?;
    Some(cond.holds(width, a, b))
}

/// Whether it jumps always.
fn surely_jumps(facts: &[Fact], insn: &Insn) -> bool
    ensures { result ≡ surely_jumps facts.now insn.now }
{
    match answer(facts, insn) {
        Some(taken) => taken,
        None => false,
    }
}

/// Whether it never jumps.
fn surely_falls(facts: &[Fact], insn: &Insn) -> bool
    ensures { result ≡ surely_falls facts.now insn.now }
{
    match answer(facts, insn) {
        Some(taken) => !taken,
        None => false,
    }
}

/// Whether it never answers so.
fn surely_not(facts: &[Fact], insn: &Insn, taken: bool) -> bool
    ensures { result ≡ surely_not facts.now insn.now taken }
{
    if taken {
        surely_falls(facts, insn)
    } else {
        surely_jumps(facts, insn)
    }
}

/// Whether a test of the new program never answers so, by what is known of its numbers.
fn never_answers(known: &KnownHere<'_>, insn: &Insn, taken: bool) -> bool
    ensures { result ≡ never_answers (known_of known.now) insn.now taken }
{
    let Insn::JumpIf {
        cond,
        width,
        dst,
        src,
        off: _off,
    } = *insn
    else {
        return false;
    };
    let left = held_number(known.state, dst);
    Num::refine(cond, width, taken, left, operand_number(known.state, src)).is_none()
}

/// Whether neither program goes a way of two tests that answer alike: the one where they hold (`taken`), or where they fail.
#[tactic(auto, unfolding(crate::specs::Ways::is_dead))]
pub fn is_dead(known: &KnownHere<'_>, insn: &Insn, moved: &Insn, taken: bool) -> bool
    ensures { result ≡ is_dead (known_of known.now) insn.now moved.now taken }
{
    match *insn {
        Insn::JumpIf { .. } => {
            surely_not(known.facts, insn, taken) || never_answers(known, moved, taken)
        }
        Insn::Alu { .. } | Insn::Neg { .. } | Insn::MovSx { .. } | Insn::End { .. } => false,
        Insn::LoadImm64 { .. } | Insn::Load { .. } | Insn::LoadSx { .. } => false,
        Insn::Store { .. } | Insn::StoreImm { .. } | Insn::Atomic { .. } => false,
        Insn::Ja { .. } | Insn::JaLong { .. } | Insn::CallLocal { .. } | Insn::Exit => false,
    }
}
