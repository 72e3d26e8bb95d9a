//! Images hardened.

ghost use Rattle.std.specs.Prelude.{◌≡◌, ◌≤◌, ◌==◌, IfOk, IfErr, IsOk, false};
ghost use Rattle.bpf_insn.specs.Limits.{max_context};
ghost use Rattle.bpf_host_calls.specs.Hardened.{bounds_asked, IsKeptBy, IsHardenedAs, IsNotHardened, IsUnshown};
ghost use Rattle.bpf_host_calls.specs.ToldAdvice.{IsTold};

use crate::answers::{refusal_of, told_refusal};
use crate::explanation::Given;
use crate::host_advice_asked::HardenAsked;
use crate::outputs::image_of;
use crate::refusals::{Unmade, of_hardening};
use bpf_certify::evidence_for;
use bpf_harden::{Hardened, Options, harden};
use bpf_insn::{DecodeError, Program, decode};
use bpf_kept::Bounds;
use bpf_refusals::Told;
use std::alloc::Global;

/// For which contexts and runs it is asked.
fn bounds_asked(asked: HardenAsked) -> Bounds
    ensures { result ≡ bounds_asked asked }
{
    Bounds {
        length: asked.size,
        padded: asked.padded == 1,
        turns: u64::from(asked.turns),
        untouched: asked.untouched,
    }
}

/// Whether a hardened program is shown to keep the meaning of the old one, unless nobody asks for that.
fn shown(
    alloc: Global,
    old: &Program,
    new: &Hardened,
    runs: Bounds,
    unproved: bool,
) -> Result<(), Unmade>
    ensures ok { IsOk result → unproved ≡ false → IsKeptBy old.now new.now.program runs }
    ensures err { IfErr result (IsTold (IsUnshown old.now new.now.program runs unproved)) }
{
    if unproved {
        return Ok(());
    }
    let Ok(evidence) = evidence_for(alloc, old, new, runs) else {
        return Err(Unmade::Memory);
    };
    match evidence.mismatch {
        None => Ok(()),
        Some(mismatch) => Err(Unmade::Refused(told_refusal(Told::not_shown(mismatch)))),
    }
}

/// The image of what the program of an image becomes.
pub(crate) fn hardened(
    alloc: Global,
    given: Given<'_>,
    asked: HardenAsked,
) -> Result<Vec<u8>, Unmade>
    requires { asked.size ≤ max_context }
    ensures ok { IfOk result (λ bytes. IsHardenedAs given.entry.order given.entry.image.now (bounds_asked asked) (asked.unproved == 1) bytes.items) }
    ensures err { IfErr result (IsTold (IsNotHardened given.entry.order given.entry.image.now (bounds_asked asked) (asked.unproved == 1))) }
{
    let program = match decode(alloc, given.image, given.order) {
        Ok(program) => program,
        Err(DecodeError::Memory) => return Err(Unmade::Memory),
        Err(error) => return Err(Unmade::Refused(refusal_of(&error))),
    };
    let runs = bounds_asked(asked);
    let options = Options {
        turns: asked.turns,
        otherwise: asked.otherwise,
        padded: runs.padded,
        everywhere: false,
    };
    let made = match of_hardening(harden(alloc, &program, runs.length, &options)) {
        Ok(made) => made,
        Err(unmade) => return Err(unmade),
    };
    match shown(alloc, &program, &made, runs, asked.unproved == 1) {
        Ok(()) => {}
        Err(unmade) => return Err(unmade),
    }
    match image_of(alloc, &made.program) {
        Some(bytes) => Ok(bytes),
        None => Err(Unmade::Memory),
    }
}
