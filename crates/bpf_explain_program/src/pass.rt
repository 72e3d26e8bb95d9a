//! The checker's pass, with all that it finds at each instruction.

ghost use Rattle.std.specs.Prelude.{◌≡◌, ◌+◌, IfSome};
ghost use Rattle.bpf_insn.specs.Instruction.{slot_count};
ghost use Rattle.bpf_check.specs.code.Arrivals.{IsReaching};
ghost use Rattle.bpf_check.specs.code.Sites.{IsSite};

use crate::sight::{Sight, is_test};
use bpf_cert::LAST_SLOT;
use bpf_check::{
    Index, Site, Spot, Walk, arrive, calls_no_deeper, judge_reached, lacks_label, way_out,
};
use bpf_insn::{Code, MAX_SLOTS};
use bpf_state::{Condition, branch};

/// What is found without a state.
fn see_shape<C: Code>(site: &Site, sight: &mut Sight<'_, C>)
    requires { IsSite site.now }
{
    sight.flaws.add_if(lacks_label(site), Condition::NoLabel);
    sight
        .flaws
        .add_if(calls_no_deeper(site), Condition::NoDeeper);
    sight.way_out = way_out(sight.program, site);
    sight
        .flaws
        .add_if(sight.way_out.is_some(), Condition::LeavesFunction);
}

/// Sees an instruction with what goes on to it, and makes the walk what goes on from it.
fn see<'a, C: Code>(site: &Site<'a>, walk: &mut Walk<'a>, sight: &mut Sight<'a, C>)
    requires site { IsSite site.now }
    requires valid { IfSome walk.old.here (λ h. IsReaching site.now.here.slot h) }
    ensures valid { IfSome walk.new.here (λ h. IsReaching (site.now.here.slot + slot_count site.now.insn) h) }
{
    sight.turn_to(*site);
    see_shape(site, sight);
    sight.is_never = arrive(&site.here, walk);
    sight.flaws.add_if(sight.is_never, Condition::FallsOff);
    sight.here = walk.here;
    let Some(here) = walk.here else {
        return;
    };
    sight.before.copy_from(&walk.state);
    match judge_reached(sight.program, site, here, walk, &mut sight.work) {
        Ok(seen) => {
            sight.note(seen);
            sight.behind.copy_from(&walk.state);
            if is_test(&site.insn) {
                sight.if_so.copy_from(&sight.before);
                let _live = branch(&site.insn, true, &mut sight.if_so);
            }
        }
        Err(fault) => sight.flaws.add_if(true, Condition::State(fault)),
    }
}

/// Who is told what the pass sees.
pub trait Observer<C: Code> {
    /// An instruction was seen. Whether the pass goes on.
    fn observe(&mut self, sight: &Sight<'_, C>) -> bool;
}

/// Goes over the instructions of a program. The slot behind the last one that was seen.
pub fn pass_over<C: Code, O: Observer<C>>(
    program: &C,
    certificate: &Index,
    has_budgets: bool,
    observer: &mut O,
) -> u32 {
    let mut sight = Sight::new(program, &*certificate, has_budgets);
    let mut walk = Walk::new();
    let mut here = Spot::of(&*certificate, 0);
    'visits: for _ in 0..MAX_SLOTS as u32 {
        let Some(insn) = program.insn(here.slot) else {
            break;
        };
        if here.slot > LAST_SLOT {
            break;
        }
        let site = Site::of(&*certificate, here, insn);
        see(&site, &mut walk, &mut sight);
        here = site.next;
        if !observer.observe(&sight) {
            break;
        }
    }
    here.slot
}
