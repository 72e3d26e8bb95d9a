//! Rounds: the new text is written and judged, and the plan mended by what is said of it, until it has a certificate.
//! This is counterexample-guided refinement (Clarke and others, Counterexample-guided abstraction refinement, 2000): of
//! the program, and not of the abstraction.

use crate::emit::emitted;
use crate::heads::{heads_of, loop_heads};
use crate::inner::InnerLoops;
use crate::judge::{JudgedText, LoopVerdict};
use crate::kinds::RegisterKind;
use crate::mend::Mender;
use crate::old::Old;
use crate::pay::Payer;
use crate::plan::{ByteSpan, Guard, Plan};
use crate::record::recorded;
use crate::rooms::Rooms;
use crate::slim::slim;
use crate::wide::widen_all;
use bpf_infer_base::{Flow, HardenError, Hardened, Meter, Watch, get_or, put};
use std::alloc::{AllocError, Global};

/// The most rounds. A round mends all faults or counts all loops of a depth, so few are needed.
const ROUNDS: u32 = 48;

/// How often a text that has a certificate is trimmed at most.
const TRIMS: u32 = 4;

/// How many loops are tried one by one with a counter though they have one of their own.
const MOST_DEAR: usize = 8;

/// How many times operations are tried as 32-bit ones again.
const NARROWINGS: u32 = 32;

/// A plan, and whether its operations were made wider.
#[derive(Drop)]
struct WidenedPlan<'a> {
    alloc: Global,
    old: &'a Old<'a>,
    plan: Plan,
    is_widened: bool,
    /// By the lowest slots of loops, at which heads their turns were counted first.
    heads: Vec<Option<u32>>,
    /// Which counted loops may still be looked at.
    inner: InnerLoops,
}

impl<'a> WidenedPlan<'a> {
    /// Changes the plan by what is said of its text. The refusal where nothing helps.
    fn change(&mut self, trial: &JudgedText) -> Result<(), HardenError> {
        let is_changed = match &trial.verdict {
            LoopVerdict::Yes(_) => true,
            LoopVerdict::Faults => self.mend(trial)?,
            LoopVerdict::Uncounted(loops) => {
                self.count(trial, loops)?
                    || self.inner.renew(self.alloc, self.old, &mut self.plan)?
                    || self.share(trial, loops)
            }
            LoopVerdict::TooGreat => count_all(self.old, &mut self.plan),
        };
        if is_changed {
            return Ok(());
        }
        // At the first loop that isn't counted though it has a counter of turns.
        let label = match &trial.verdict {
            LoopVerdict::Uncounted(loops) => loops.first(),
            _ => None,
        };
        let slot = label.map_or(0, |label| trial.draft.owner(*label).old);
        Err(HardenError::NoBudget { slot })
    }

    /// Mends all faults; where nothing does, leaves out what the text doesn't reach: its states lead on into code that is reached.
    fn mend(&mut self, trial: &JudgedText) -> Result<bool, HardenError> {
        let old = self.old;
        let mender = Mender { old, trial };
        if mender.mend(&mut self.plan) || mender.leave_out(&mut self.plan) {
            Ok(true)
        } else {
            Err(mender.refusal())
        }
    }

    /// Makes operations wider, or else counts the turns of loops. Whether something was changed.
    fn count(&mut self, trial: &JudgedText, loops: &[u32]) -> Result<bool, HardenError> {
        if !self.is_widened {
            self.is_widened = true;
            if widen_all(self.old, &mut self.plan, &trial.draft, &trial.survey) {
                return Ok(true);
            }
        }
        let lowest = old_slots(self.alloc, trial, loops)?;
        let heads = heads_of(self.alloc, self.old, &self.plan, &lowest)?;
        let mut is_changed = false;
        for (slot, head) in lowest.iter().zip(heads.iter()) {
            is_changed = self.count_at(*slot, *head) || is_changed;
        }
        Ok(is_changed)
    }

    /// Counts the turns of a loop at its head; or at its lowest slot, where it is still not counted: then a loop around it was
    /// taken for it. Whether something was changed.
    fn count_at(&mut self, lowest: u32, head: u32) -> bool {
        let tried = get_or(&self.heads, lowest as usize, None);
        let next = if tried.is_some() { lowest } else { head };
        if let Some(other) = tried {
            if other != next {
                self.plan.uncount(other);
            }
        }
        put(&mut self.heads, lowest as usize, Some(next));
        self.plan.count(next)
    }

    /// Counts the turns of all loops of a function together, where they jump into one another. Whether something was changed.
    fn share(&mut self, trial: &JudgedText, loops: &[u32]) -> bool {
        let mut is_changed = false;
        for label in loops {
            let function = self.old.function(trial.draft.owner(*label).old);
            if self.plan.share(function) {
                let _ = count_in(self.old, &mut self.plan, function);
                is_changed = true;
            }
        }
        is_changed
    }

    /// The first text that has a certificate.
    fn run<W: Watch>(&mut self, meter: &mut Meter<'_, W>) -> Result<JudgedText, HardenError> {
        for _ in 0..ROUNDS {
            let trial = JudgedText::of(self.alloc, self.old, &self.plan, meter)?;
            if trial.verdict.bound().is_some() {
                return Ok(trial);
            }
            self.change(&trial)?;
        }
        Err(HardenError::NoBudget { slot: 0 })
    }

    /// Takes the tests away that never hold, and folds constant offsets; where there is nothing of these, loosens
    /// guards. Whether there was something.
    fn trim(&mut self, trial: &JudgedText) -> bool {
        let old = self.old;
        let mender = Mender { old, trial };
        let is_slimmer = slim(&mut self.plan, trial);
        let is_folded = mender.fold(&mut self.plan);
        is_slimmer || is_folded || mender.loosen(&mut self.plan)
    }

    /// The last of the trimmed texts that has a certificate.
    fn trimmed<W: Watch>(
        &mut self,
        mut trial: JudgedText,
        meter: &mut Meter<'_, W>,
    ) -> Result<JudgedText, HardenError> {
        for _ in 0..TRIMS {
            if !self.trim(&trial) {
                break;
            }
            match JudgedText::of(self.alloc, self.old, &self.plan, meter) {
                Ok(slimmer) if slimmer.verdict.bound().is_some() => trial = slimmer,
                _ => break,
            }
        }
        Ok(trial)
    }
}

impl<'a> WidenedPlan<'a> {
    /// The text of the plan, if it has a certificate with a bound of at most so much.
    fn within<W: Watch>(&self, most: u32, meter: &mut Meter<'_, W>) -> Option<JudgedText> {
        let trial = JudgedText::of(self.alloc, self.old, &self.plan, meter).ok()?;
        (trial.verdict.bound()? <= most).then_some(trial)
    }

    /// Counts the turns of loops too whose own numbers give them greater budgets: of all, at fewer heads if that does, and else not of those without
    /// whose counters the bound is smaller; or else of each for which that gives a smaller bound.
    fn paid<W: Watch>(
        &mut self,
        mut trial: JudgedText,
        meter: &mut Meter<'_, W>,
    ) -> Result<JudgedText, HardenError> {
        let payer = Payer {
            old: self.old,
            plan: &self.plan,
            trial: &trial,
        };
        let dear = payer.dear(self.alloc)?;
        if dear.is_empty() {
            return Ok(trial);
        }
        let heads = loop_heads(self.alloc, self.old, &self.plan)?;
        let are_counted = match self.counted(&trial, &dear, true, meter) {
            Some(cheaper) => {
                trial = cheaper;
                true
            }
            None => false,
        };
        if are_counted && heads.len() < dear.len() {
            if let Some(cheaper) = self.moved(&trial, &dear, &heads, meter) {
                return Ok(cheaper);
            }
        }
        for slot in dear.iter().take(MOST_DEAR) {
            if let Some(cheaper) = self.counted(&trial, &[*slot], !are_counted, meter) {
                trial = cheaper;
            }
        }
        Ok(trial)
    }

    /// Puts counters at these slots, or takes them away.
    fn put_counters(&mut self, slots: &[u32], are_there: bool) {
        for slot in slots {
            if are_there {
                self.plan.count(*slot);
            } else {
                self.plan.uncount(*slot);
            }
        }
    }

    /// The text with counters at other slots in the place of these, if it has a smaller bound; else the plan stays.
    fn moved<W: Watch>(
        &mut self,
        trial: &JudgedText,
        from: &[u32],
        to: &[u32],
        meter: &mut Meter<'_, W>,
    ) -> Option<JudgedText> {
        let less = trial.verdict.bound()?.checked_sub(1)?;
        self.put_counters(from, false);
        self.put_counters(to, true);
        let cheaper = self.within(less, meter);
        if cheaper.is_none() {
            self.put_counters(to, false);
            self.put_counters(from, true);
        }
        cheaper
    }

    /// The text with counters at these slots, or without them, if it has a smaller bound; else the plan stays.
    fn counted<W: Watch>(
        &mut self,
        trial: &JudgedText,
        slots: &[u32],
        are_there: bool,
        meter: &mut Meter<'_, W>,
    ) -> Option<JudgedText> {
        let less = trial.verdict.bound()?.checked_sub(1)?;
        self.put_counters(slots, are_there);
        let cheaper = self.within(less, meter);
        if cheaper.is_none() {
            self.put_counters(slots, !are_there);
        }
        cheaper
    }

    /// The old slots of the operations that were made wider.
    fn widened(&self) -> Result<Vec<u32>, AllocError> {
        (0..self.old.program.slots())
            .filter(|slot| self.plan.at(*slot).widens)
            .collect(self.alloc)
    }

    /// Leaves operations 32-bit ones that no counter needs as 64-bit ones: all of them, else of each half those that can be. What comes out
    /// has a certificate whose bound is no greater.
    fn narrowed<W: Watch>(
        &mut self,
        mut trial: JudgedText,
        meter: &mut Meter<'_, W>,
    ) -> Result<JudgedText, HardenError> {
        let wide = self.widened()?;
        let mut halves = vec![in self.alloc; Half::all(&wide)]?;
        for _ in 0..NARROWINGS {
            let (Some(half), Some(bound)) = (halves.pop(), trial.verdict.bound()) else {
                break;
            };
            for slot in half.of(&wide) {
                self.plan.narrow(*slot);
            }
            match self.within(bound, meter) {
                Some(narrower) => trial = narrower,
                None => {
                    for slot in half.of(&wide) {
                        self.plan.widen(*slot);
                    }
                    half.split(&mut halves)?;
                }
            }
        }
        Ok(trial)
    }
}

/// Some of the operations that were made wider, one behind the other.
#[derive(Clone, Copy)]
struct Half {
    first: usize,
    end: usize,
}

impl Half {
    /// All of them.
    fn all(wide: &[u32]) -> Half {
        Half {
            first: 0,
            end: wide.len(),
        }
    }

    /// Their slots.
    fn of<'a>(&self, wide: &'a [u32]) -> &'a [u32] {
        wide.get(self.first..self.end).unwrap_or(&[])
    }

    /// Puts its halves to others, if it has more than one.
    fn split(&self, halves: &mut Vec<Half>) -> Result<(), AllocError> {
        let count = self.end.saturating_sub(self.first);
        if count > 1 {
            let middle = self.first.saturating_add(count / 2);
            halves.push(Half {
                first: self.first,
                end: middle,
            })?;
            halves.push(Half {
                first: middle,
                end: self.end,
            })?;
        }
        Ok(())
    }
}

/// The old slots that labels of the new text belong to.
fn old_slots(alloc: Global, trial: &JudgedText, labels: &[u32]) -> Result<Vec<u32>, AllocError> {
    labels
        .iter()
        .map(|label| trial.draft.owner(*label).old)
        .collect(alloc)
}

/// A program rewritten under a plan until it has a certificate.
pub fn certified<W: Watch>(
    alloc: Global,
    old: &Old,
    plan: Plan,
    meter: &mut Meter<'_, W>,
) -> Result<Hardened, HardenError> {
    let mut rounds = WidenedPlan {
        alloc,
        old,
        plan,
        is_widened: false,
        heads: vec![in alloc; None; old.program.slots() as usize]?,
        inner: InnerLoops::new(),
    };
    let trial = rounds.run(meter)?;
    let trial = rounds.paid(trial, meter)?;
    let trial = rounds.trimmed(trial, meter)?;
    let trial = rounds.narrowed(trial, meter)?;
    let JudgedText {
        draft,
        rooms,
        verdict,
        ..
    } = trial;
    let certificate = match verdict {
        LoopVerdict::Yes(certificate) => Some(certificate),
        LoopVerdict::Faults | LoopVerdict::Uncounted(_) | LoopVerdict::TooGreat => None,
    };
    recorded(alloc, old, &rooms, draft, certificate)
}

/// Plans a counter of turns in front of each target of a jump backward in a function. Whether one is new.
fn count_in(old: &Old, plan: &mut Plan, function: usize) -> bool {
    let uses = old.uses(function);
    let mut is_changed = false;
    for slot in uses.first..uses.end {
        if let Some(target) = old.kept(slot).and_then(|insn| Flow::of(slot, insn).jump()) {
            if target <= slot && old.kept(target).is_some() {
                is_changed = plan.count(target) || is_changed;
            }
        }
    }
    is_changed
}

/// As `count_in` for all functions.
fn count_all(old: &Old, plan: &mut Plan) -> bool {
    let mut is_changed = false;
    for function in 0..old.count() {
        is_changed = count_in(old, plan, function) || is_changed;
    }
    is_changed
}

/// Plans a guard in front of each access by an offset.
pub fn guard_all(old: &Old, plan: &mut Plan) {
    for slot in 0..old.program.slots() {
        if let Some(access) = old.access(slot) {
            if plan.is_offset(old.kind(slot, access.base), access.base) {
                plan.set_guard(
                    slot,
                    Some(Guard::both(ByteSpan::of(access), access.off != 0)),
                );
            }
        }
    }
}

/// H1 or H2 at the first access by a register that isn't known to hold a pointer of one kind. One that looks like a number may
/// come from an instruction that reads such a register.
fn first_unknown(old: &Old) -> Result<(), HardenError> {
    for slot in 0..old.program.slots() {
        if let Some(access) = old.access(slot) {
            if matches!(
                old.kind(slot, access.base),
                RegisterKind::Unknown | RegisterKind::Number
            ) {
                return Err(old.unknown_base(slot));
            }
        }
    }
    Ok(())
}

/// A program with guards and counters wherever one can be, whether it has a certificate or not.
pub fn guarded_everywhere(
    alloc: Global,
    old: &Old,
    mut plan: Plan,
) -> Result<Hardened, HardenError> {
    plan.frames = true;
    first_unknown(old)?;
    guard_all(old, &mut plan);
    count_all(old, &mut plan);
    let rooms = Rooms::of(alloc, old, &plan)?;
    let draft = emitted(alloc, old, &plan, &rooms)?;
    recorded(alloc, old, &rooms, draft, None)
}
