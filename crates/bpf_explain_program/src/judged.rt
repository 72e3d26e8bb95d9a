//! What the checker answers.

ghost use Rattle.std.specs.Prelude.{IfSome, IfNone};
ghost use Rattle.bpf_safety.specs.Certified.{IsLeastFlaw};
ghost use Rattle.bpf_check.specs.CheckedProgram.{IsCertifiedBy};
ghost use Rattle.bpf_check.specs.RefusalNumbers.{refusal_number, refusal_slot};

use bpf_cert::Certificate;
use bpf_check::{Refusal, check};
use bpf_insn::Code;

/// What the checker answers: None if the certificate certifies the program, else the least flaw.
pub fn refusal_of<C: Code>(program: &C, certificate: &Certificate) -> Option<Refusal>
    ensures accepted { IfNone result (IsCertifiedBy (C.program program.now) certificate.now) }
    ensures refused { IfSome result (λ r. IsLeastFlaw (C.program program.now) certificate.now (refusal_slot r) (refusal_number r)) }
{
    match check(program, certificate) {
        Ok(_checked) => None,
        Err(refusal) => Some(refusal),
    }
}
