//! For how many turns a program is hardened where what its runs may take is given: the bound grows with the turns, mostly by as much for
//! each, so the greatest number is sought by the rule of false position, in turn with halving.

ghost use Rattle.bpf_insn.specs.Limits.{max_context};
ghost use Rattle.std.specs.Prelude.{◌≤◌};

use crate::hardener::{lengths, work_for};
use crate::old::Old;
use crate::plan::Plan;
use crate::rounds::{certified, guard_all};
use bpf_infer_base::{DEEP_WORK, HardenError, Hardened, Meter, Options, Quest, Unwatched, Watch};
use bpf_insn::Program;
use std::alloc::Global;

/// The most hardenings for one program.
const TRIES: u32 = 24;

/// A hardened program, and for how many turns of its loops.
#[derive(Drop)]
pub struct Fitted {
    pub hardened: Hardened,
    pub turns: u32,
}

/// Why a program isn't hardened for a bound.
#[derive(Clone, Copy)]
pub enum Unfit {
    /// It isn't hardened.
    Refused(HardenError),
    /// With so many turns its bound is this one, which is above what is given.
    TooDear { turns: u32, bound: u32 },
}

impl From<HardenError> for Unfit {
    ghost use Rattle.std.specs.Prelude.{◌≡◌};
    ghost use Rattle.bpf_harden.specs.declared.turns.Unfit.TheVariants.{Refused};

    ghost from_gives = { λ e why. why ≡ Refused e };

    fn from(error: HardenError) -> Unfit {
        Unfit::Refused(error)
    }
}

/// A program that is hardened for several numbers of turns.
#[derive(Drop)]
struct Fitting<'a> {
    alloc: Global,
    old: &'a Old<'a>,
    options: Options,
    length: u32,
    /// The greatest bound.
    bound: u32,
}

/// A number of turns, and the bound with them. None where that isn't known to be within the limits of a certificate.
#[derive(Clone, Copy)]
struct PricedTurns {
    turns: u32,
    bound: Option<u32>,
}

/// What comes of a number of turns.
#[derive(Drop)]
enum Tried {
    Fits(Fitted),
    Dear(PricedTurns),
}

/// The bound of a hardened program.
fn bound_of(hardened: &Hardened) -> Option<u32> {
    Some(hardened.certificate.as_ref()?.steps())
}

impl<'a> Fitting<'a> {
    /// The program hardened for a number of turns.
    fn hardened<W: Watch>(
        &self,
        turns: u32,
        meter: &mut Meter<'_, W>,
    ) -> Result<Hardened, HardenError> {
        let options = Options {
            turns,
            ..self.options
        };
        let slots = self.old.program.slots();
        let mut plan = Plan::new(self.alloc, options, self.length, slots, self.old.count())?;
        if options.padded {
            guard_all(self.old, &mut plan);
        }
        certified(self.alloc, self.old, plan, meter)
    }

    /// What comes of a number of turns.
    fn tried<W: Watch>(&self, turns: u32, meter: &mut Meter<'_, W>) -> Result<Tried, HardenError> {
        let hardened = match self.hardened(turns, meter) {
            Ok(hardened) => hardened,
            Err(HardenError::NoBudget { .. } | HardenError::Unstable { .. }) => {
                return Ok(Tried::Dear(PricedTurns { turns, bound: None }));
            }
            Err(error) => return Err(error),
        };
        let bound = bound_of(&hardened);
        if bound.is_some_and(|bound| bound <= self.bound) {
            Ok(Tried::Fits(Fitted { hardened, turns }))
        } else {
            Ok(Tried::Dear(PricedTurns { turns, bound }))
        }
    }

    /// The program hardened for exactly so many turns.
    fn exactly<W: Watch>(&self, turns: u32, meter: &mut Meter<'_, W>) -> Result<Fitted, Unfit> {
        let hardened = self.hardened(turns, meter)?;
        match bound_of(&hardened) {
            Some(bound) if bound > self.bound => Err(Unfit::TooDear { turns, bound }),
            _ => Ok(Fitted { hardened, turns }),
        }
    }

    /// The number of turns to be tried between one that fits and one that is too dear: where the line through both bounds comes to the greatest,
    /// or else half way between their digits.
    fn between(&self, fits: &Fitted, dear: PricedTurns, is_halved: bool) -> Option<u32> {
        let low = u64::from(fits.turns);
        let high = u64::from(dear.turns);
        let room = high.checked_sub(low)?.checked_sub(1)?;
        if room == 0 {
            return None;
        }
        let least = u64::from(bound_of(&fits.hardened)?);
        let step = match dear.bound {
            Some(bound) if !is_halved => {
                let most = u64::from(bound).saturating_sub(least);
                let left = u64::from(self.bound).saturating_sub(least);
                let by_line = u128::from(left) * u128::from(high.saturating_sub(low));
                let step = by_line.checked_div(u128::from(most)).unwrap_or(0);
                u64::try_from(step).unwrap_or(room)
            }
            _ => half_way(low, high).saturating_sub(low),
        };
        u32::try_from(low.saturating_add(step.max(1).min(room))).ok()
    }

    /// The greatest number of turns that is found to fit, from the given one on.
    fn greatest<W: Watch>(
        &self,
        mut fits: Fitted,
        mut dear: PricedTurns,
        meter: &mut Meter<'_, W>,
    ) -> Result<Fitted, Unfit> {
        for count in 0..TRIES {
            // Where the line stays, one more turn is too dear.
            let is_halved = count % 3 == 2;
            let Some(turns) = self.between(&fits, dear, is_halved) else {
                break;
            };
            if meter.is_low() {
                break;
            }
            match self.tried(turns, meter)? {
                Tried::Fits(better) => fits = better,
                Tried::Dear(other) => dear = other,
            }
        }
        Ok(fits)
    }

    /// The program hardened for the greatest number of turns with which its bound is within the given one.
    fn fitted<W: Watch>(&self, meter: &mut Meter<'_, W>) -> Result<Fitted, Unfit> {
        // A turn takes an instruction at least, so more turns than that don't matter.
        let dear = match self.tried(self.bound.max(1), meter)? {
            Tried::Fits(fitted) => return Ok(fitted),
            Tried::Dear(dear) => dear,
        };
        let fits = self.exactly(1, meter)?;
        self.greatest(fits, dear, meter)
    }
}

/// The number half way between the digits of two others.
fn half_way(low: u64, high: u64) -> u64 {
    let width = low.leading_zeros().saturating_sub(high.leading_zeros());
    if width > 1 {
        low.checked_shl(width / 2).unwrap_or(low)
    } else {
        low.saturating_add(high.saturating_sub(low) / 2)
    }
}

/// A program made to do what the old one does, as by `harden`, also where that has a certificate as it stands, with a certificate whose bound is at
/// most the given one: for so many turns, or for the greatest number of turns that is found.
pub fn fit(
    alloc: Global,
    program: &Program,
    length: u32,
    options: &Options,
    bound: u32,
    turns: Option<u32>,
) -> Result<Fitted, Unfit>
    requires { length ≤ max_context }
{
    let (least, most) = lengths(length, options)?;
    let quest = Quest {
        program,
        least,
        most,
    };
    let mut unwatched = Unwatched;
    let mut seen = Meter::new(&mut unwatched, DEEP_WORK);
    let old = Old::of(alloc, quest, &mut seen)?;
    let fitting = Fitting {
        alloc,
        old: &old,
        options: *options,
        length,
        bound,
    };
    let mut unseen = Unwatched;
    let mut meter = Meter::new(&mut unseen, work_for(program.slots()).saturating_mul(2));
    match turns {
        Some(turns) => fitting.exactly(turns, &mut meter),
        None => fitting.fitted(&mut meter),
    }
}
