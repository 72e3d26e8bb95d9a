//! What is changed where the new text is refused: the refinement in counterexample-guided refinement (`rounds.rt`). All
//! faults of a round are mended together.

use crate::judge::JudgedText;
use crate::kinds::RegisterKind;
use crate::old::Old;
use crate::plan::{ByteSpan, Guard, Plan};
use crate::sums::GuardedSum;
use bpf_infer_base::{Change, ForeseenCondition, HardenError};
use bpf_insn::{Access, Insn, Reg};
use bpf_state::{RegState, StateFault};

/// A fault of the new text, by the old instruction that it belongs to.
#[derive(Clone, Copy)]
struct Flaw {
    slot: u32,
    insn: Insn,
    fault: StateFault,
}

/// The offsets that are folded into accesses, or that stand in a base before a sum, are below this.
pub const MOST_CONSTANT: u64 = 8192;

/// How many instructions may lie between accesses that are tested together.
const LONGEST_SPAN: u32 = 32;

/// An old program and what is said of a text of it: what plans are mended by.
#[derive(Clone, Copy)]
pub struct Mender<'a> {
    pub old: &'a Old<'a>,
    pub trial: &'a JudgedText,
}

impl<'a> Mender<'a> {
    /// The fault at a slot of the new text.
    fn flaw(&self, new: u32) -> Option<Flaw> {
        let ForeseenCondition::State(fault) = self.trial.survey.fault(new)? else {
            return None;
        };
        let slot = self.trial.draft.owner(new).old;
        Some(Flaw {
            slot,
            insn: *self.old.kept(slot)?,
            fault,
        })
    }

    /// Whether a fault asks for pointers of a kind as offsets.
    fn asks_for(&self, flaw: &Flaw, kind: RegisterKind) -> bool {
        if !matches!(flaw.fault, StateFault::WrongKinds | StateFault::OutOfBounds) {
            return false;
        }
        match flaw.insn.access() {
            Some(access) => {
                access.base != Reg::R10 && self.old.kind(flaw.slot, access.base) == kind
            }
            None => self.old.reads_kind(flaw.slot, &flaw.insn, kind),
        }
    }

    /// Whether some fault asks for pointers of a kind as offsets.
    fn is_asked_for(&self, kind: RegisterKind) -> bool {
        let mut flaws = (0..self.trial.draft.program.slots()).filter_map(|new| self.flaw(new));
        flaws.any(|flaw| self.asks_for(&flaw, kind))
    }

    /// Changes the plan so that faults may go away. Whether something was changed.
    pub fn mend(&self, plan: &mut Plan) -> bool {
        if !plan.offsets && self.is_asked_for(RegisterKind::Context) {
            plan.offsets = true;
            return true;
        }
        let mut is_changed = self.fold(plan);
        for new in 0..self.trial.draft.program.slots() {
            if let Some(flaw) = self.flaw(new) {
                is_changed = self.mend_flaw(plan, &flaw) || is_changed;
            }
        }
        if !is_changed && !plan.frames && self.is_asked_for(RegisterKind::Frame) {
            plan.frames = true;
            return true;
        }
        is_changed
    }

    /// Changes the plan so that a fault may go away. Whether something was changed.
    fn mend_flaw(&self, plan: &mut Plan, flaw: &Flaw) -> bool {
        let function = self.old.function(flaw.slot);
        match flaw.fault {
            StateFault::UnsetRegister => {
                matches!(&flaw.insn, Insn::Exit) && plan.clear(function)
            }
            StateFault::UnsetByte => plan.zero(function) || self.guard(plan, flaw),
            StateFault::WrongKinds | StateFault::OutOfBounds => self.guard(plan, flaw),
            StateFault::Protected => false,
        }
    }

    /// Puts a guard in front of an access by an offset. Whether there was none.
    fn guard(&self, plan: &mut Plan, flaw: &Flaw) -> bool {
        let Some(access) = flaw.insn.access() else {
            return false;
        };
        let kind = self.old.kind(flaw.slot, access.base);
        if !plan.is_offset(kind, access.base) || plan.at(flaw.slot).guard.is_some() {
            return false;
        }
        let span = if plan.options.padded {
            ByteSpan::of(access)
        } else {
            self.span(flaw.slot, access)
        };
        let sum = GuardedSum {
            mender: *self,
            access: flaw.slot,
            base: access.base,
            span,
        };
        let is_exact = self.may_wrap(flaw.slot, access.base, span.from)
            || !plan.options.padded && span.from > 0 && sum.adds_untold();
        let guard = match sum.early(plan) {
            Some((slot, early)) => {
                if let Some(planned) = plan.at_mut(slot) {
                    planned.early = Some(early);
                }
                Guard {
                    early: true,
                    ..Guard::both(span, false)
                }
            }
            None => Guard::both(span, is_exact),
        };
        plan.set_guard(flaw.slot, Some(guard));
        true
    }

    /// The bytes of an access and of those by the same base that surely follow it: where one of them leaves its region, the run
    /// has done nothing in between that could be seen, so all are tested at once.
    fn span(&self, slot: u32, access: Access) -> ByteSpan {
        let mut span = ByteSpan::of(access);
        let mut last = slot;
        for _ in 0..LONGEST_SPAN {
            if self.writes(last, access.base) {
                break;
            }
            let Some(next) = self.old.following(last) else {
                break;
            };
            last = next;
            span = match self.old.access(last) {
                Some(other) if other.base == access.base => span.with(ByteSpan::of(other)),
                _ => span,
            };
        }
        span
    }

    /// Whether the instruction at a slot writes a register.
    fn writes(&self, slot: u32, r: Reg) -> bool {
        self.old
            .kept(slot)
            .is_none_or(|insn| insn.register_written() == Some(r))
    }

    /// Whether a register may hold an offset before its region that a displacement leads back into it. Only bounds of 32 bits count: notes
    /// know of no others.
    fn may_wrap(&self, slot: u32, base: Reg, off: i64) -> bool {
        let is_bounded = match self.held(slot, base) {
            RegState::Num(number) => number.unsigned().hi() <= u64::from(u32::MAX),
            RegState::Any | RegState::Ptr(_) => false,
        };
        off > 0 && !is_bounded
    }

    /// Tests the base itself again where a guard is exact, and by now no offset lies before the region. Whether there is one.
    pub fn loosen(&self, plan: &mut Plan) -> bool {
        let mut is_changed = false;
        for slot in 0..self.old.program.slots() {
            if let (Some(access), Some(guard)) = (self.old.access(slot), plan.at(slot).guard) {
                let may_wrap = self.may_wrap(slot, access.base, guard.span.from);
                if guard.exact && !may_wrap && !self.is_untold(plan, slot, access.base, guard) {
                    plan.set_guard(slot, Some(Guard::both(guard.span, false)));
                    is_changed = true;
                }
            }
        }
        is_changed
    }

    /// Whether notes don't tell of the base of an access that it isn't before its region, and a guard tests it.
    fn is_untold(&self, plan: &Plan, slot: u32, base: Reg, guard: Guard) -> bool {
        let sum = GuardedSum {
            mender: *self,
            access: slot,
            base,
            span: guard.span,
        };
        !plan.options.padded && (guard.low || guard.high) && sum.adds_untold()
    }

    /// What is known of a register in front of what stands in the place of an old instruction.
    pub fn held(&self, slot: u32, r: Reg) -> RegState {
        let start = self.trial.draft.start(slot);
        start.map_or(RegState::Any, |new| self.trial.survey.register(new, r))
    }

    /// Takes note of constant offsets. Whether one is new.
    pub fn fold(&self, plan: &mut Plan) -> bool {
        let mut is_changed = false;
        for slot in 0..self.old.program.slots() {
            if let (Some(insn), None) = (self.old.kept(slot), plan.at(slot).constant) {
                is_changed = self.fold_at(plan, slot, insn) || is_changed;
            }
        }
        is_changed
    }

    /// Takes note of the offset of an access, if it is a constant.
    fn fold_at(&self, plan: &mut Plan, slot: u32, insn: &Insn) -> bool {
        let Some(access) = insn.access() else {
            return false;
        };
        if !plan.is_offset(self.old.kind(slot, access.base), access.base) {
            return false;
        }
        let Some(number) = self.held(slot, access.base).number() else {
            return false;
        };
        let offset = number.unsigned().lo();
        let is_constant = offset == number.unsigned().hi() && offset < MOST_CONSTANT;
        if !is_constant || !self.is_fixed(slot, access.base) {
            return false;
        }
        if let Some(planned) = plan.at_mut(slot) {
            planned.constant = i64::try_from(offset).ok();
        }
        true
    }

    /// Whether the old program's states tell where the pointer in a register points. Notes know no more: a test of offsets tells them
    /// nothing.
    fn is_fixed(&self, slot: u32, base: Reg) -> bool {
        match self.old.survey.register(slot, base) {
            RegState::Ptr(pointer) => pointer.lo == pointer.hi,
            RegState::Any | RegState::Num(_) => false,
        }
    }

    /// Leaves out what the new text doesn't reach. Whether there is something.
    pub fn leave_out(&self, plan: &mut Plan) -> bool {
        let mut is_changed = false;
        for slot in 0..self.old.program.slots() {
            if let Some(new) = self.trial.draft.start(slot) {
                if !self.trial.survey.is_reached(new) {
                    is_changed = plan.leave_out(slot) || is_changed;
                }
            }
        }
        self.give_up_accesses(plan) || is_changed
    }

    /// Gives the accesses up that no run comes to behind their guards. Whether there is one.
    fn give_up_accesses(&self, plan: &mut Plan) -> bool {
        let mut is_changed = false;
        for new in 0..self.trial.draft.program.slots() {
            let owner = self.trial.draft.owner(new);
            let is_access = owner.change == Some(Change::Access);
            if is_access && !self.trial.survey.is_reached(new) {
                is_changed = plan.give_up(owner.old) || is_changed;
            }
        }
        is_changed
    }

    /// Why a text is refused that nothing mends.
    pub fn refusal(&self) -> HardenError {
        let Some(new) = self.trial.survey.lowest_fault() else {
            return HardenError::Unstable { slot: 0 };
        };
        let slot = self.trial.draft.owner(new).old;
        if let Some(access) = self.old.program.at(slot).and_then(|insn| insn.access()) {
            if self.old.kind(slot, access.base) == RegisterKind::Unknown {
                return self.old.unknown_base(slot);
            }
        }
        match self.trial.survey.fault(new) {
            Some(ForeseenCondition::State(StateFault::UnsetRegister)) => HardenError::MixedKinds {
                slot,
            },
            Some(condition) => HardenError::Fault { slot, condition },
            None => HardenError::Unstable { slot },
        }
    }
}
