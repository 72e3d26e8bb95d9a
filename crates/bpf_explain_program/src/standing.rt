//! Which conditions fail at the labels and functions that stand at a slot, and at the start, by what the checker sees of them.

use crate::flaws::Flaws;
use bpf_check::{Index, SeenLabel, SeenStart, Standing};
use bpf_state::Condition;

/// Which conditions fail at a label.
pub fn label_flaws<'a>(seen: &SeenLabel<'a>) -> Flaws {
    let mut flaws = Flaws::NONE;
    flaws.add_if(seen.is_misplaced, Condition::MisplacedLabel);
    flaws.add_if(seen.bad.is_some(), Condition::OverBudget);
    flaws.add_if(seen.is_outside || seen.is_empty, Condition::Misshapen);
    flaws
}

/// Which conditions fail at what a function has at a slot.
pub fn standing_flaws<'a>(standing: &Standing<'a>) -> Flaws {
    let mut flaws = match &standing.label {
        Some(seen) => label_flaws(seen),
        None => Flaws::NONE,
    };
    flaws.add_if(standing.lacks_label, Condition::Misshapen);
    flaws
}

/// Which conditions fail at the start.
pub fn start_flaws(seen: &SeenStart) -> Flaws {
    let mut flaws = Flaws::NONE;
    flaws.add_if(seen.is_elsewhere || seen.is_outside, Condition::Misshapen);
    flaws.add_if(seen.over.is_some(), Condition::OverBudget);
    flaws
}

/// The last slot at which a label or function of a certificate stands.
pub fn last_slot(certificate: &Index) -> u32 {
    let mut last = 0;
    for function in certificate.functions() {
        last = last.max(function.first);
        if let Some(label) = function.labels.last() {
            last = last.max(label.slot);
        }
    }
    last
}
