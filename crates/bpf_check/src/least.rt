//! The least of refusals.

ghost use Rattle.std.specs.Prelude.{◌≡◌, ℕ, ◌⊎◌, List, ◌++◌, Option};
ghost use Rattle.bpf_safety.specs.Flaw.{at, fails};
ghost use Rattle.bpf_check.specs.code.Least.{IsAtMost, IsLeastRefusal};
ghost use Rattle.bpf_check.specs.RefusalNumbers.{flaw_of};

use crate::refusal::Refusal;
use bpf_state::Condition;

/// The refusal for a condition at a slot, if it fails.
pub fn refused_if(is_failed: bool, slot: u32, condition: Condition) -> Option<Refusal>
    ensures { IsLeastRefusal (at slot (fails condition is_failed)) result }
{
    if is_failed {
        Some(Refusal { slot, condition })
    } else {
        None
    }
}

/// The one at the lower slot, and at one slot the one with the lower number.
fn lower(a: Refusal, b: Refusal) -> Refusal
    ensures one { (result ≡ a) ⊎ (result ≡ b) }
    ensures first { IsAtMost (flaw_of result) (flaw_of a) }
    ensures second { IsAtMost (flaw_of result) (flaw_of b) }
{
    if b.slot < a.slot || (b.slot == a.slot && b.number() < a.number()) {
        b
    } else {
        a
    }
}

/// The least refusal of two lists of flaws, from the least of each.
pub fn lesser(a: Option<Refusal>, b: Option<Refusal>) -> Option<Refusal>
    ensures { (xs ys : List (ℕ × ℕ)) → IsLeastRefusal xs a → IsLeastRefusal ys b → IsLeastRefusal (xs ++ ys) result }
{
    match (a, b) {
        (Some(a), Some(b)) => Some(lower(a, b)),
        (Some(a), None) => Some(a),
        (None, b) => b,
    }
}
