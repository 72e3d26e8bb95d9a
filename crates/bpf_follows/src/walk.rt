//! The certificate's walk over the new program, instruction by instruction.

ghost use Rattle.std.specs.Prelude.{◌≡◌, ◌+◌, option_map, option_copied, IfSome};
ghost use Rattle.bpf_insn.specs.Instruction.{slot_count};
ghost use Rattle.bpf_check.specs.code.Arrivals.{walk_of, IsReaching};
ghost use Rattle.bpf_check.specs.code.Sites.{IsSite};
ghost use Rattle.bpf_check.specs.code.Visits.{passed_with};

use bpf_check::{Site, Walk, judge_reached};
use bpf_insn::Code;
use bpf_state::{State, Work};

/// The state with which the walk stands in front of an instruction, if one reaches it.
pub fn stated<'a>(walk: &'a Walk<'_>) -> Option<&'a State>
    ensures { option_copied result ≡ option_map (λ a. a.state) (walk_of walk.now) }
{
    match walk.here {
        Some(_) => Some(&walk.state),
        None => None,
    }
}

/// Makes the walk what goes on from an instruction in front of which it stands.
pub fn go_on<'a, N: Code>(new: &N, site: &Site<'a>, walk: &mut Walk<'a>, work: &mut Work)
    requires site { IsSite site.now }
    requires valid { IfSome walk.old.here (λ h. IsReaching site.now.here.slot h) }
    ensures passed { walk_of walk.new ≡ passed_with (N.program new.now) site.now.certificate.now site.now.here.slot site.now.insn (walk_of walk.old) }
    ensures valid { IfSome walk.new.here (λ h. IsReaching (site.now.here.slot + slot_count site.now.insn) h) }
{
    let Some(here) = walk.here else {
        return;
    };
    match judge_reached(new, site, here, walk, work) {
        Ok(_seen) => {}
        Err(_fault) => {}
    }
}
