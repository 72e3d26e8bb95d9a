//! Refusals of searches, hardenings and certifications, as C sees them. What was answered is an argument, so that the clauses can say that nothing else is
//! told.

ghost use Rattle.std.specs.Prelude.{◌≡◌, Ok, IsErrAnd, MatchResult};
ghost use Rattle.bpf_host_calls.specs.ToldAdvice.{TellsSearch, TellsHarden, TellsCertify};

use crate::answers::{BpfRefusal, refusal_of};
use bpf_cert::Certificate;
use bpf_certify::{Certified, CertifyError};
use bpf_harden::{HardenError, Hardened};
use bpf_infer::InferError;

/// Why nothing is made of an image, no certificate and no hardened one, or no image of a filter.
#[derive(Clone, Copy)]
pub(crate) enum Unmade {
    /// Memory ran out.
    Memory,
    /// The image or its program is refused, or the filter.
    Refused(BpfRefusal),
}

/// What a search answered, its refusal as it is told.
pub(crate) fn of_search(found: Result<Certificate, InferError>) -> Result<Certificate, Unmade>
    ensures { MatchResult found (λ certificate. result ≡ Ok certificate) (λ error. IsErrAnd result (TellsSearch error)) }
{
    match found {
        Ok(certificate) => Ok(certificate),
        Err(InferError::Memory) => Err(Unmade::Memory),
        Err(error) => Err(Unmade::Refused(refusal_of(&error))),
    }
}

/// What a hardening answered, its refusal as it is told.
pub(crate) fn of_hardening(made: Result<Hardened, HardenError>) -> Result<Hardened, Unmade>
    ensures { MatchResult made (λ hardened. result ≡ Ok hardened) (λ error. IsErrAnd result (TellsHarden error)) }
{
    match made {
        Ok(hardened) => Ok(hardened),
        Err(HardenError::Memory) => Err(Unmade::Memory),
        Err(error) => Err(Unmade::Refused(refusal_of(&error))),
    }
}

/// What a certification answered, its refusal as it is told.
pub(crate) fn of_certifying(found: Result<Certified, CertifyError>) -> Result<Certified, Unmade>
    ensures { MatchResult found (λ certified. result ≡ Ok certified) (λ error. IsErrAnd result (TellsCertify error)) }
{
    match found {
        Ok(certified) => Ok(certified),
        Err(CertifyError::Unhardened(HardenError::Memory)) => Err(Unmade::Memory),
        Err(error) => Err(Unmade::Refused(refusal_of(&error))),
    }
}
