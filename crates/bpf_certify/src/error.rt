//! Why a program isn't certified.

ghost use Rattle.std.specs.Prelude.{◌≡◌};
ghost use Rattle.bpf_certify.specs.Certified.{certify_slot};

use bpf_check::Refusal;
use bpf_harden::HardenError;
use bpf_kept::Mismatch;
use bpf_refusals::{Tells, Told};

/// Why a program isn't certified within a bound, with a slot of it.
#[derive(Clone, Copy, Debug, PartialEq, Eq)]
pub enum CertifyError {
    /// H1 to H12: it isn't hardened.
    Unhardened(HardenError),
    /// H13: the hardened program isn't shown to keep the meaning: this of its notes fails.
    Unshown(Mismatch),
    /// H14: with so many turns its bound is this one, which is above what is asked for. The slot is 0.
    TooDear { turns: u32, bound: u32 },
    /// H15: the checker refuses the certificate that was found.
    Uncertified(Refusal),
}

impl CertifyError {
    /// The slot that is named, of the program that was given: 0 where none is.
    pub fn slot(&self) -> u32
        ensures { result ≡ certify_slot self.now }
    {
        match self {
            CertifyError::Unhardened(error) => error.slot(),
            CertifyError::Unshown(mismatch) => mismatch.slot(),
            CertifyError::TooDear { .. } | CertifyError::Uncertified(_) => 0,
        }
    }
}

/// H1 to H15.
impl Tells for CertifyError {
    ghost use Rattle.bpf_certify.specs.Certified.{told_certifying};

    ghost told_of = { told_certifying };

    fn told(&self) -> Told {
        match self {
            CertifyError::Unhardened(error) => error.told(),
            CertifyError::Unshown(mismatch) => Told::not_shown(*mismatch),
            CertifyError::TooDear { bound, .. } => Told::too_dear(*bound),
            CertifyError::Uncertified(refusal) => Told::uncertified(*refusal),
        }
    }
}
