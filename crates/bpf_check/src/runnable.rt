//! Runs of a checked program, one after another.

ghost use Rattle.std.specs.Prelude.{◌≡◌};
ghost use Rattle.bpf_safety.specs.Describes.{LengthWithin};
ghost use Rattle.bpf_flat.specs.Runs.{RunsTo};

use crate::checked::Checked;
use bpf_flat::Prepared;
use bpf_insn::Code;
use bpf_safety::{certified_is_flat_safe, certified_is_safe};
use std::alloc::Global;
use std::marker::Model;

/// A checked program, made ready for its runs where memory has room for that.
#[derive(Drop)]
pub struct Runnable<'a, 'p, C: Code> {
    checked: &'a Checked<'p, C>,
    prepared: Option<Prepared<'p, C>>,
}

impl<'a, 'p, C: Code> Model for Runnable<'a, 'p, C> {
    ghost use Rattle.std.specs.Prelude.{◌≡◌, IfSome};
    ghost use Rattle.bpf_check.specs.CheckedProgram.{CheckedProgram};

    ghost Value = { CheckedProgram };

    ghost view = { λ r. r.checked.now };

    ghost invariant = { λ r. IfSome r.prepared (λ p. p ≡ r.checked.now.program) };
}

impl<'a, 'p, C: Code> Runnable<'a, 'p, C> {
    /// Makes a checked program ready. Where memory has no room, its runs take longer, and end the same.
    pub fn of(alloc: Global, checked: &'a Checked<'p, C>) -> Self
        ensures { result ≡ checked.now }
    {
        Runnable {
            checked,
            prepared: Prepared::of(alloc, checked.program).ok(),
        }
    }

    /// The checked program.
    pub fn checked(&self) -> &'a Checked<'p, C>
        ensures { result.now ≡ self.now }
    {
        self.checked
    }

    /// The number with which the program ends on a context of `least()` to `most()` bytes, as [`Checked::run`] tells it.
    pub fn run(&self, context: &[u8]) -> u64
        requires { LengthWithin self.now.certificate.least self.now.certificate.most context.now }
        ensures { RunsTo self.now.program self.now.certificate.steps context.now result }
    {
        certified_is_safe();
        certified_is_flat_safe();
        self.checked.valid();
        match &self.prepared {
            Some(prepared) => prepared.run(context, self.checked.bound()),
            None => self.checked.run(context),
        }
    }
}
