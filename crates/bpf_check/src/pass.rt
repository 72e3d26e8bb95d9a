//! One pass over a program's instructions.

ghost use Rattle.std.specs.Prelude.{◌≡◌, ◌+◌, ◌≤◌, None, IfSome};
ghost use Rattle.bpf_insn.specs.Instruction.{slot_count};
ghost use Rattle.std.specs.List.{flat_map};
ghost use Rattle.bpf_insn.specs.Limits.{greatest_slot};
ghost use Rattle.bpf_safety.specs.Flow.{visits};
ghost use Rattle.bpf_check.specs.code.Least.{IsLeastRefusal};
ghost use Rattle.bpf_check.specs.code.Arrivals.{walk_of, IsReaching};
ghost use Rattle.bpf_check.specs.code.Counting.{worked_at, worked_in_pass};
ghost use Rattle.bpf_check.specs.code.Sites.{IsSpot};
ghost use Rattle.bpf_check.specs.code.Visits.{passed_after, visit_of, visit_flaws};

use crate::arrival::Walk;
use crate::index::Index;
use crate::refusal::Refusal;
use crate::site::{Site, Spot};
use crate::straight::{Step, visit_straight};
use crate::visit::visit;
use bpf_insn::{Code, Insn};
use bpf_state::Work;

/// Visits an instruction at a spot with all that is looked up for it, and makes the spot the next one.
#[inline(never)]
fn visit_spot<'a, P: Code>(
    program: &P,
    certificate: &'a Index<'a>,
    here: &mut Spot<'a>,
    insn: Insn,
    walk: &mut Walk<'a>,
    work: &mut Work,
) -> Option<Refusal>
    requires few { here.old.slot ≤ greatest_slot }
    requires here { IsSpot certificate.now here.old }
    requires valid { IfSome walk.old.here (λ h. IsReaching here.old.slot h) }
    ensures refusal { IsLeastRefusal (visit_flaws (P.program program.now) certificate.now (visit_of certificate.now here.old.slot insn (walk_of walk.old))) result }
    ensures passed { walk_of walk.new ≡ passed_after (P.program program.now) certificate.now here.old.slot insn (walk_of walk.old) }
    ensures work { work.new ≡ worked_at (P.program program.now) certificate.now (visit_of certificate.now here.old.slot insn (walk_of walk.old)) work.old }
    ensures valid { IfSome walk.new.here (λ h. IsReaching (here.old.slot + slot_count insn) h) }
    ensures slot { here.new.slot ≡ here.old.slot + slot_count insn }
    ensures spot { IsSpot certificate.now here.new }
{
    let site = Site::of(certificate, *here, insn);
    let refusal = visit(program, &site, walk, work);
    *here = site.next;
    refusal
}

/// Visits an instruction at a spot, and makes the spot the next one: as a step of straight code where it is one. Of the spot
/// only the slot changes then, and nothing else of it is written.
#[inline(always)]
fn pass_over<'a, P: Code>(
    program: &P,
    certificate: &'a Index<'a>,
    here: &mut Spot<'a>,
    insn: Insn,
    walk: &mut Walk<'a>,
    work: &mut Work,
) -> Option<Refusal>
    requires few { here.old.slot ≤ greatest_slot }
    requires here { IsSpot certificate.now here.old }
    requires valid { IfSome walk.old.here (λ h. IsReaching here.old.slot h) }
    ensures refusal { IsLeastRefusal (visit_flaws (P.program program.now) certificate.now (visit_of certificate.now here.old.slot insn (walk_of walk.old))) result }
    ensures passed { walk_of walk.new ≡ passed_after (P.program program.now) certificate.now here.old.slot insn (walk_of walk.old) }
    ensures work { work.new ≡ worked_at (P.program program.now) certificate.now (visit_of certificate.now here.old.slot insn (walk_of walk.old)) work.old }
    ensures valid { IfSome walk.new.here (λ h. IsReaching (here.old.slot + slot_count insn) h) }
    ensures slot { here.new.slot ≡ here.old.slot + slot_count insn }
    ensures spot { IsSpot certificate.now here.new }
{
    let end = program.slots();
    if let Some(step) = Step::of(certificate, end, &*here, insn, walk.here) {
        let refusal = visit_straight(program, &step, walk, work);
        here.slot = step.next;
        return refusal;
    }
    visit_spot(program, certificate, here, insn, walk, work)
}

/// The least refusal of a program's instructions, by a walk that nothing has reached: the slots are visited in their order, so the first is the
/// least.
pub fn visit_flaw<'a, P: Code>(
    program: &P,
    certificate: &'a Index<'a>,
    walk: &mut Walk<'a>,
    work: &mut Work,
) -> Option<Refusal>
    requires { walk.old.here ≡ None }
    ensures refusal { IsLeastRefusal (flat_map (visit_flaws (P.program program.now) certificate.now) (visits (P.program program.now) certificate.now)) result }
    ensures work { work.new ≡ worked_in_pass (P.program program.now) certificate.now work.old }
{
    let _ = program.slots();
    let mut here = Spot::of(certificate, 0);
    'visits: while let Some(insn) = program.insn(here.slot) {
        let refusal = pass_over(program, certificate, &mut here, insn, walk, work);
        if refusal.is_some() {
            return refusal;
        }
    }
    None
}
