//! 32-bit operations that can't wrap, as 64-bit ones, which counters may use.

use crate::draft::Draft;
use crate::old::Old;
use crate::plan::Plan;
use bpf_infer_states::Survey;
use bpf_insn::{AluOp, Insn, Operand, Width};

/// The bounds of a second operand, as a signed distance.
fn operand_bounds(survey: &Survey, new: u32, src: Operand) -> Option<(i128, i128)> {
    match src {
        Operand::Imm(imm) => Some((i128::from(imm), i128::from(imm))),
        Operand::Reg(r) => {
            let (lo, hi) = survey.bounds(new, r)?;
            Some((i128::from(lo), i128::from(hi)))
        }
    }
}

/// Whether numbers between two bounds are the same at 32 bits as at 64.
fn is_low(lo: i128, hi: i128) -> bool {
    0 <= lo && hi <= i128::from(u32::MAX)
}

/// Whether an instruction is a 32-bit sum, difference or move that does the same at 64 bits.
fn can_widen(survey: &Survey, new: u32, insn: &Insn) -> bool {
    let Insn::Alu {
        op,
        width: Width::W32,
        dst,
        src,
    } = *insn
    else {
        return false;
    };
    let Some((low, high)) = operand_bounds(survey, new, src) else {
        return false;
    };
    if op == AluOp::Mov {
        return is_low(low, high);
    }
    let Some((lo, hi)) = operand_bounds(survey, new, Operand::Reg(dst)) else {
        return false;
    };
    let is_from_low = is_low(lo, hi);
    match op {
        AluOp::Add => { is_from_low && is_low(lo.saturating_add(low), hi.saturating_add(high)) }
        AluOp::Sub => { is_from_low && is_low(lo.saturating_sub(high), hi.saturating_sub(low)) }
        _ => false,
    }
}

/// Makes the 32-bit operations of a program 64-bit ones that do the same so. Whether there was one.
pub fn widen_all(old: &Old, plan: &mut Plan, draft: &Draft, survey: &Survey) -> bool {
    let mut is_changed = false;
    for slot in 0..old.program.slots() {
        if let (Some(insn), Some(new)) = (old.kept(slot), draft.start(slot)) {
            if can_widen(survey, new, insn) {
                is_changed = plan.widen(slot) || is_changed;
            }
        }
    }
    is_changed
}
