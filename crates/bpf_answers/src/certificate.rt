//! Certificates at a name.

ghost use Rattle.std.specs.Prelude.{IfOk, IfErr};
ghost use Rattle.bpf_answers.specs.Loaded.{CertificateFails, ReadsCertificateAt, Tried};
ghost use Rattle.bpf_answers.specs.Told.{IsQuiet};

use crate::error::PlaceError;
use crate::failure::Failure;
use crate::places::Places;
use bpf_cert::{CertError, Certificate, read};
use std::alloc::Global;

/// The certificate at a name, or why it is refused.
pub fn certificate_at<'a, P: Places>(
    alloc: Global,
    places: &mut P,
    name: &'a str,
) -> Result<Result<Certificate, CertError>, Failure<'a>>
    ensures ok { IfOk result (ReadsCertificateAt P.opens places.old name.entry.now places.new) }
    ensures err { IfErr result (CertificateFails P.opens places.old name.entry.now places.new) }
    ensures quiet { IfErr result IsQuiet }
    ensures names { Tried P.opens places.old name.entry.now places.new }
{
    let reader = match places.open(name) {
        Ok(reader) => reader,
        Err(PlaceError::Refused) => return Err(Failure::CannotRead(name)),
        Err(PlaceError::Memory) => return Err(Failure::NoMemory),
    };
    match read(alloc, reader) {
        Err(CertError::Read { .. }) => Err(Failure::CannotRead(name)),
        answer => Ok(answer),
    }
}
