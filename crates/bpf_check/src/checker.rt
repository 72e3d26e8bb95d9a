//! The judgement of a program by a certificate.

ghost use Rattle.std.specs.Prelude.{◌≡◌, IfOk, IfErr};
ghost use Rattle.bpf_safety.specs.Certified.{IsLeastFlaw};
ghost use Rattle.bpf_safety.specs.Flaw.{flaws};
ghost use Rattle.bpf_safety.specs.Work.{compared_at_start};
ghost use Rattle.bpf_check.specs.code.Counting.{compared, worked_in_pass};
ghost use Rattle.bpf_check.specs.code.Least.{IsLeastRefusal};
ghost use Rattle.bpf_check.specs.CheckedProgram.{IsCertifiedBy, checked};
ghost use Rattle.bpf_check.specs.RefusalNumbers.{refusal_number, refusal_slot};

use crate::arrival::Walk;
use crate::checked::Checked;
use crate::index::Index;
use crate::least::lesser;
use crate::pass::visit_flaw;
use crate::refusal::Refusal;
use crate::shape::label_flaw;
use crate::start::start_flaw;
use bpf_cert::Certificate;
use bpf_insn::Code;
use bpf_safety::{certified_work, comparisons_are_few};
use bpf_state::Work;

/// The least flaw of a program and a certificate. The states are large, so the start and the labels are judged with those of the walk.
fn least_flaw<C: Code>(program: &C, certificate: &Index, work: &mut Work) -> Option<Refusal>
    ensures flaw { IsLeastRefusal (flaws (C.program program.now) certificate.now) result }
    ensures work { work.new ≡ worked_in_pass (C.program program.now) certificate.now (compared (compared_at_start certificate.now) work.old) }
{
    let mut walk = Walk::new();
    let start = start_flaw(certificate, &mut walk.state, work);
    let visits = visit_flaw(program, &*certificate, &mut walk, work);
    let labels = label_flaw(program, certificate, &mut walk.state);
    lesser(lesser(start, visits), labels)
}

/// Judges whether a certificate certifies a program, in one pass over the program and without memory. C1 to C13 at the
/// lowest slot where a condition fails, and there the lowest number, if it doesn't.
pub fn check<'a, C: Code>(
    program: &'a C,
    certificate: &'a Certificate,
) -> Result<Checked<'a, C>, Refusal>
    ensures ok { IfOk result (λ c. c ≡ checked (C.program program.now) certificate.now) }
    ensures certified { IfOk result (λ c. IsCertifiedBy (C.program program.now) certificate.now) }
    ensures err { IfErr result (λ r. IsLeastFlaw (C.program program.now) certificate.now (refusal_slot r) (refusal_number r)) }
{
    // A program and a certificate are valid by themselves.
    let _slots = program.slots();
    certificate.valid();
    certified_work();
    comparisons_are_few();
    let mut work = Work::new();
    let index = Index::of(certificate);
    match least_flaw(program, &index, &mut work) {
        Some(refusal) => Err(refusal),
        None => Ok(Checked {
            program,
            certificate,
            work,
        }),
    }
}
