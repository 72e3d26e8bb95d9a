//! Programs that were checked.

ghost use Rattle.std.specs.Prelude.{◌≡◌};
ghost use Rattle.bpf_safety.specs.Describes.{LengthWithin};
ghost use Rattle.bpf_check.specs.CheckedProgram.{IsCertifiedBy, IsChecked, work_of};
ghost use Rattle.bpf_flat.specs.Runs.{RunsTo};

use bpf_cert::Certificate;
use bpf_flat::run;
use bpf_insn::Code;
use bpf_safety::{certified_is_flat_safe, certified_is_safe};
use bpf_state::Work;
use std::marker::Model;

/// The number with which a certified program ends on a context.
fn result_of<C: Code>(program: &C, certificate: &Certificate, context: &[u8]) -> u64
    requires certified { IsCertifiedBy (C.program program.now) certificate.now }
    requires length { LengthWithin certificate.now.least certificate.now.most context.now }
    ensures { RunsTo (C.program program.now) certificate.now.steps context.now result }
{
    certified_is_safe();
    certified_is_flat_safe();
    certificate.valid();
    run(program, context, certificate.steps())
}

/// A program with the certificate that certifies it.
#[derive(Drop)]
pub struct Checked<'a, C: Code> {
    pub(crate) program: &'a C,
    pub(crate) certificate: &'a Certificate,
    pub(crate) work: Work,
}

impl<'a, C: Code> Model for Checked<'a, C> {
    ghost use Rattle.bpf_check.specs.CheckedProgram.{CheckedProgram, IsChecked};

    ghost Value = { CheckedProgram };

    ghost view = { λ s. record { program = C.program s.program.now; certificate = s.certificate.now; work = s.work } };

    ghost invariant = { λ s. IsChecked (record { program = C.program s.program.now; certificate = s.certificate.now; work = s.work }) };
}

impl<'a, C: Code> Checked<'a, C> {
    /// The certificate certifies the program, and the work is exactly what that takes.
    pub fn valid(&self)
        ensures { IsChecked self.now }
    {
        let _program = &self.program;
    }

    /// The least length in bytes of the contexts that the program may run on, from 0 to 4,096.
    pub fn least(&self) -> u32
        ensures { result ≡ self.now.certificate.least }
    {
        self.certificate.least()
    }

    /// The greatest length in bytes of the contexts that the program may run on, from `least()` to 4,096.
    pub fn most(&self) -> u32
        ensures { result ≡ self.now.certificate.most }
    {
        self.certificate.most()
    }

    /// The greatest number of instructions that a run takes, from 1 to 2^32 - 1.
    pub fn bound(&self) -> u32
        ensures { result ≡ self.now.certificate.steps }
    {
        self.certificate.steps()
    }

    /// The work of the check: as many transfers as the program has instructions, and one comparison for the start, for
    /// each live edge into a label, for each CALL and for each EXIT.
    pub fn work(&self) -> &Work
        ensures { result.now ≡ work_of self.now.program self.now.certificate }
    {
        &self.work
    }

    /// The number with which the program ends on a context of `least()` to `most()` bytes: within `bound()`
    /// instructions, without a fault, on this machine and on plain addresses.
    pub fn run(&self, context: &[u8]) -> u64
        requires { LengthWithin self.now.certificate.least self.now.certificate.most context.now }
        ensures { RunsTo self.now.program self.now.certificate.steps context.now result }
    {
        result_of(self.program, self.certificate, context)
    }
}
