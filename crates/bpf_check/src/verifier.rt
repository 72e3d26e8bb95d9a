//! Images and certificates from outside.

ghost use Rattle.std.specs.Prelude.{IfOk, IfErr, IfSome, MatchResult};
ghost use Rattle.bpf_cert.specs.View.{CertificateView};
ghost use Rattle.bpf_check.specs.Verdicts.{Verified, Promises, IsVerdictOf, IsImageJudged, IsRefusedBy, Certifies, IsUnread};

use crate::checker::check;
use crate::refusal::Refusal;
use bpf_cert::{CertError, read};
use bpf_insn::{DecodeError, Order, ProgramView, image_is_injective, never_both};
use bpf_safety::{certified_is_flat_safe, certified_is_safe};
use std::alloc::Global;
use std::io::Read;
use thiserror::Error;

/// What is promised of an image: on every context of `least` to `most` bytes it ends within so many instructions.
#[derive(Clone, Copy, Debug, PartialEq, Eq)]
pub struct Verdict {
    /// From 0 to 4,096.
    pub least: u32,
    /// From `least` to 4,096.
    pub most: u32,
    /// From 1 to 2^32 - 1.
    pub bound: u32,
}

/// Why an image and a certificate are refused.
#[derive(Clone, Copy, Debug, PartialEq, Eq, Error)]
pub enum VerifyError {
    /// The bytes are the image of no program.
    #[error("the image is refused: {0}")]
    Image(DecodeError),
    /// The text is no certificate.
    #[error("the certificate is refused: {0}")]
    Cert(CertError),
    /// The certificate doesn't certify the program.
    #[error("the program is not certified: {0}")]
    Check(Refusal),
}

/// Judges whether a certificate certifies the program of an image in a byte order: yes exactly where it does, want of memory and faults
/// of the reader aside. A yes promises that the image is that of exactly one program, and that on every context of
/// `least` to `most` bytes the machine is never stuck on it, and comes to its end with a number within `bound`
/// instructions.
///
/// Refused is the image first (E1 to E8), then the certificate (K1 to K5), then the one by the other (C1 to C13). The
/// program takes no memory.
pub fn verify<R: Read + Drop>(
    alloc: Global,
    image: &[u8],
    order: Order,
    certificate: R,
) -> Result<Verdict, VerifyError>
    ensures ok { IfOk result (λ v. Verified order image.now v.least v.most v.bound) }
    ensures promised { IfOk result (λ v. IfSome (R.remaining certificate) (λ text. Promises order image.now text v.least v.most v.bound)) }
    ensures err_image { IfErr result (λ e. IsImageJudged order image.now e) }
    ensures err { IfErr result (λ e. IfSome (R.remaining certificate) (λ text. IsRefusedBy order image.now text e)) }
    ensures accepts { IfSome (R.remaining certificate) (λ text. (c : CertificateView) → Certifies order image.now text c → MatchResult result (IsVerdictOf c) IsUnread) }
{
    image_is_injective();
    never_both();
    certified_is_safe();
    certified_is_flat_safe();
    let program = match ProgramView::of(image, order) {
        Ok(program) => program,
        Err(error) => return Err(VerifyError::Image(error)),
    };
    let certificate = match read(alloc, certificate) {
        Ok(certificate) => certificate,
        Err(error) => return Err(VerifyError::Cert(error)),
    };
    match check(&program, &certificate) {
        Ok(checked) => {
            Ok(Verdict {
                least: checked.least(),
                most: checked.most(),
                bound: checked.bound(),
            })
        }
        Err(refusal) => Err(VerifyError::Check(refusal)),
    }
}
