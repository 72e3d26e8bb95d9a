//! Certificates proposed for images.

ghost use Rattle.std.specs.Prelude.{◌≤◌, IfOk, IfErr};
ghost use Rattle.bpf_insn.specs.Limits.{max_context};
ghost use Rattle.bpf_host_calls.specs.Explained.{IsSomeImage};
ghost use Rattle.bpf_host_calls.specs.Proposals.{IsProposal, IsNotProposed};
ghost use Rattle.bpf_host_calls.specs.ToldAdvice.{IsTold};

use crate::answers::refusal_of;
use crate::outputs::text_of;
use crate::refusals::{Unmade, of_search};
use bpf_infer::{Unwatched, WantedCertificate, propose};
use bpf_insn::{DecodeError, Order, decode};
use std::alloc::Global;

/// The text of a certificate that is proposed for the program of an image.
pub(crate) fn proposal(
    alloc: Global,
    image: &[u8],
    order: Order,
    wanted: WantedCertificate,
) -> Result<Vec<u8>, Unmade>
    requires order { wanted.least ≤ wanted.most }
    requires short { wanted.most ≤ max_context }
    ensures ok { IfOk result (λ text. IsProposal wanted.least wanted.most text.items) }
    ensures image { IfOk result (λ _. IsSomeImage order image.now) }
    ensures err { IfErr result (IsTold (IsNotProposed order image.now)) }
{
    let program = match decode(alloc, image, order) {
        Ok(program) => program,
        Err(DecodeError::Memory) => return Err(Unmade::Memory),
        Err(error) => return Err(Unmade::Refused(refusal_of(&error))),
    };
    let certificate = match of_search(propose(alloc, &program, wanted, &mut Unwatched)) {
        Ok(certificate) => certificate,
        Err(unmade) => return Err(unmade),
    };
    match text_of(alloc, &certificate) {
        Some(text) => Ok(text),
        None => Err(Unmade::Memory),
    }
}
