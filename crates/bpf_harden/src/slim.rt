//! Elimination of redundant checks (Gupta, Optimizing array bound checks using flow analysis, 1993): tests that never
//! lead to the trap are taken away, all at once. What holds behind a test that never fails holds in front of it.

use crate::judge::JudgedText;
use crate::plan::{Guard, Plan};
use bpf_infer_base::Change;
use bpf_insn::{Cond, Insn, Operand};

/// The bounds of what is compared with.
fn bounds(trial: &JudgedText, new: u32, src: Operand) -> (u64, u64) {
    match src {
        Operand::Imm(imm) => {
            let number = i64::from(imm).cast_unsigned();
            (number, number)
        }
        Operand::Reg(r) => trial.survey.bounds(new, r).unwrap_or((u64::MIN, u64::MAX)),
    }
}

/// Whether the lower end is tested behind the test of the upper one. It isn't where no offset lies below it.
fn tests_low_behind(trial: &JudgedText, new: u32) -> bool {
    let next = new.saturating_add(1);
    let owner = trial.draft.owner(next);
    let is_same = owner.change == Some(Change::Guard) && owner.old == trial.draft.owner(new).old;
    let Some(Insn::JumpIf { cond, .. }) = trial.draft.program.at(next) else {
        return false;
    };
    is_same && *cond == Cond::Lt
}

/// The guard without a test at a slot of the new text, if that never holds.
fn without(trial: &JudgedText, new: u32, guard: Guard) -> Guard {
    let Some(Insn::JumpIf { cond, dst, src, .. }) = trial.draft.program.at(new) else {
        return guard;
    };
    let (cond, dst, src) = (*cond, *dst, *src);
    let held = bounds(trial, new, Operand::Reg(dst));
    let limit = bounds(trial, new, src);
    match cond {
        Cond::Gt if held.1 <= limit.0 => Guard {
            high: false,
            low: guard.low && tests_low_behind(trial, new),
            ..guard
        },
        Cond::Lt if held.0 >= limit.1 => Guard {
            low: false,
            ..guard
        },
        _ => guard,
    }
}

/// Takes away the tests of guards that never hold. Whether there was one.
pub fn slim(plan: &mut Plan, trial: &JudgedText) -> bool {
    let mut is_changed = false;
    for new in 0..trial.draft.program.slots() {
        let owner = trial.draft.owner(new);
        if owner.change == Some(Change::Guard) && plan.at(owner.old).constant.is_none() {
            if let Some(guard) = plan.at(owner.old).guard {
                let left = without(trial, new, guard);
                if left.low != guard.low || left.high != guard.high {
                    plan.set_guard(owner.old, left.kept());
                    is_changed = true;
                }
            }
        }
    }
    is_changed
}
