//! What an edge takes of a budget, part by part.

ghost use Rattle.std.specs.Prelude.{◌≡◌, ◌^◌, IfSome, IsSome, IsTrue, Some, option_map, option_and_then};
ghost use Rattle.bpf_cert.specs.View.{label_view};
ghost use Rattle.bpf_cert.specs.Limits.{is_limited_label};
ghost use Rattle.bpf_safety.specs.Budget.{budget, least_slack};
ghost use Rattle.bpf_safety.specs.Flow.{label_state};
ghost use Rattle.bpf_check.specs.code.Slack.{at_label, kept_of, free_of, IsWithin};

use crate::budget::{base_left, free, kept, slack_of};
use bpf_cert::Label;
use bpf_state::State;

/// What is left of a label's budget on an edge into another label: the old base, less the cost and the new base, with what is kept and
/// without what is taken. The edge isn't paid where that is below 0.
#[derive(Clone, Copy, Debug)]
pub struct Slack {
    pub left: i128,
    /// The least that the old terms keep, when the new terms that count the same places took their share.
    pub kept: i128,
    /// The greatest that the other new terms take.
    pub free: i128,
}

/// What is left of an old label's budget on an edge into a new one, after a cost; None where a term's place holds no number there.
pub fn slack_on(old: &Label, cost: i128, edge: &State, new: &Label) -> Option<Slack>
    requires old { IsTrue (is_limited_label (label_view old.now)) }
    requires alive { IsSome (label_state (label_view old.now)) }
    requires new { IsTrue (is_limited_label (label_view new.now)) }
    requires cost { IsWithin (2 ^ 112) cost }
    ensures left { option_map (λ s. s.left) result ≡ least_slack (budget (label_view old.now)) (at_label (label_view old.now)) cost edge.now (budget (label_view new.now)) }
    ensures kept { IfSome result (λ s. Some s.kept ≡ kept_of (label_view old.now) edge.now (label_view new.now)) }
    ensures free { IfSome result (λ s. Some s.free ≡ free_of edge.now (label_view new.now)) }
{
    let Some(kept) = kept(old, edge, new) else {
        return None;
    };
    let Some(free) = free(edge, new) else {
        return None;
    };
    let base = base_left(old.budget.base, cost, new.budget.base);
    let left = slack_of(base, kept, free);
    Some(Slack { left, kept, free })
}
