//! Straight code: instructions that go on at the next one alone, and no label at either. Of all conditions on an instruction
//! those on its registers and memory are left, so nothing is looked up.

ghost use Rattle.std.specs.Prelude.{◌≡◌, ◌+◌, ◌≤◌, IfSome, Some};
ghost use Rattle.bpf_insn.specs.Limits.{greatest_slot};
ghost use Rattle.bpf_insn.specs.Instruction.{slots, slot_count};
ghost use Rattle.bpf_check.specs.code.Arrivals.{walk_of, IsReaching};
ghost use Rattle.bpf_check.specs.code.Counting.{worked_at};
ghost use Rattle.bpf_check.specs.code.Least.{IsLeastRefusal};
ghost use Rattle.bpf_check.specs.code.Sites.{IsSpot};
ghost use Rattle.bpf_check.specs.code.Straight.{IsStep, IsStepFrom, step_visit_of};
ghost use Rattle.bpf_check.specs.code.Visits.{passed_after, visit_flaws};

use crate::arrival::{Here, Walk, one_more};
use crate::index::Index;
use crate::least::refused_if;
use crate::refusal::Refusal;
use crate::site::Spot;
use bpf_insn::{Code, Insn};
use bpf_state::{Condition, Work};

/// A step of straight code: an instruction, with its slot, the next one, and what reaches it.
#[derive(Clone, Copy)]
pub struct Step<'a> {
    pub certificate: &'a Index<'a>,
    pub insn: Insn,
    pub slot: u32,
    pub next: u32,
    pub reached: Here<'a>,
}

impl<'a> Step<'a> {
    /// The step that an instruction is in a program of so many slots, if it is known to be one.
    #[inline(always)]
    pub fn of(
        certificate: &'a Index<'a>,
        end: u32,
        here: &Spot<'a>,
        insn: Insn,
        reached: Option<Here<'a>>,
    ) -> Option<Step<'a>>
        requires few { here.now.slot ≤ greatest_slot }
        requires spot { IsSpot certificate.now here.now }
        ensures step { IfSome result (λ s. IsStep end s) }
        ensures from { IfSome result (λ s. IsStepFrom certificate.now here.now.slot insn reached.entry s) }
    {
        let slot = here.slot;
        let next = slot + insn.slots();
        if here.until <= next {
            return None;
        }
        if end <= next {
            return None;
        }
        if !insn.is_straight() {
            return None;
        }
        if here.label.is_some() {
            return None;
        }
        let Some(reached) = reached else {
            return None;
        };
        Some(Step {
            certificate,
            insn,
            slot,
            next,
            reached,
        })
    }
}

/// Visits an instruction of straight code, and makes the walk what goes on from it.
#[inline(always)]
pub fn visit_straight<'a, P: Code>(
    program: &P,
    step: &Step<'a>,
    walk: &mut Walk<'a>,
    work: &mut Work,
) -> Option<Refusal>
    requires step { IsStep (slots (P.program program.now).list) step.now }
    requires reached { walk.old.here ≡ Some step.now.reached }
    requires valid { IsReaching step.now.slot step.now.reached }
    ensures refusal { IsLeastRefusal (visit_flaws (P.program program.now) step.now.certificate.now (step_visit_of step.now (walk_of walk.old))) result }
    ensures passed { walk_of walk.new ≡ passed_after (P.program program.now) step.now.certificate.now step.now.slot step.now.insn (walk_of walk.old) }
    ensures work { work.new ≡ worked_at (P.program program.now) step.now.certificate.now (step_visit_of step.now (walk_of walk.old)) work.old }
    ensures valid { IfSome walk.new.here (λ h. IsReaching (step.now.slot + slot_count step.now.insn) h) }
{
    let reached = step.reached;
    // Of its own, so that the step needs no place in memory.
    let insn = step.insn;
    let alive = match work.transfer_counted(
        &insn,
        step.certificate.least(),
        program.order(),
        &mut walk.state,
    ) {
        Ok(alive) => alive,
        Err(fault) => {
            walk.here = None;
            return refused_if(true, step.slot, Condition::State(fault));
        }
    };
    if !alive {
        walk.here = None;
        return None;
    }
    let cost = one_more(step.slot, reached.cost);
    walk.here = Some(Here {
        label: reached.label,
        cost,
    });
    None
}
