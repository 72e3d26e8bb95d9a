//! Which names of a request lead to one file where they may not.

ghost use Rattle.std.specs.Prelude.{◌≡◌, IfOk, Some};
ghost use Rattle.bpf_command.specs.Obstacles.{AreLinesInTheWay, IsAnyInTheWay, IsCertificateInTheWay, IsConversionInTheWay, IsHardeningInTheWay, IsInTheWay, MeetEither, MeetsOne, Obstructs};

use crate::request::{Certifying, Converting, Hardening, Request};
use bpf_answers::Places;
use std::alloc::AllocError;

/// Whether what is written for a name, if it is given, comes to stand in the place of what is written for another one.
fn meets_one<P: Places>(places: &P, first: &str, second: Option<&str>) -> Result<bool, AllocError>
    ensures { IfOk result (MeetsOne P.meets places.now first.now second.entry) }
{
    match second {
        Some(second) => places.lead_to_one(first, second),
        None => Ok(false),
    }
}

/// The same where neither may be given.
fn meet_either<P: Places>(
    places: &P,
    first: Option<&str>,
    second: Option<&str>,
) -> Result<bool, AllocError>
    ensures { IfOk result (MeetEither P.meets places.now first.entry second.entry) }
{
    match first {
        Some(first) => meets_one(places, first, second),
        None => Ok(false),
    }
}

/// Whether the notes or the changes of a hardening would come in the place of other things that are written, or of the image.
fn is_in_the_way<P: Places>(places: &P, asked: Hardening<'_>) -> Result<bool, AllocError>
    ensures { IfOk result (IsInTheWay P.meets places.now asked.entry) }
{
    let notes = meets_one(places, asked.output, asked.notes)?;
    let changes = meets_one(places, asked.output, asked.changes)?;
    let both = meet_either(places, asked.notes, asked.changes)?;
    let image = meets_one(places, asked.input, asked.notes)?;
    let source = meets_one(places, asked.input, asked.changes)?;
    Ok(notes | changes | both | image | source)
}

/// Whether a certificate, if a name for it is given, would.
fn is_certificate_in_the_way<P: Places>(
    places: &P,
    certificate: Option<&str>,
    asked: Hardening<'_>,
) -> Result<bool, AllocError>
    ensures { IfOk result (IsCertificateInTheWay P.meets places.now certificate.entry asked.entry) }
{
    let output = meet_either(places, certificate, Some(asked.output))?;
    let notes = meet_either(places, certificate, asked.notes)?;
    let changes = meet_either(places, certificate, asked.changes)?;
    let image = meets_one(places, asked.input, certificate)?;
    Ok(output | notes | changes | image)
}

/// Whether what is written of a hardening would come in the place of other things that are, or of the image.
fn is_hardening_in_the_way<P: Places>(places: &P, asked: Hardening<'_>) -> Result<bool, AllocError>
    ensures { IfOk result (IsHardeningInTheWay P.meets places.now asked.entry) }
{
    let texts = is_in_the_way(places, asked)?;
    let certificate = is_certificate_in_the_way(places, asked.certificate, asked)?;
    Ok(texts | certificate)
}

/// Whether something that is written would come in the place of the lines of the source.
fn are_lines_in_the_way<P: Places>(places: &P, asked: Certifying<'_>) -> Result<bool, AllocError>
    ensures { IfOk result (AreLinesInTheWay P.meets places.now asked.entry) }
{
    let output = meets_one(places, asked.output, asked.lines)?;
    let certificate = meets_one(places, asked.certificate, asked.lines)?;
    let notes = meet_either(places, asked.notes, asked.lines)?;
    let changes = meet_either(places, asked.changes, asked.lines)?;
    Ok(output | certificate | notes | changes)
}

/// Whether what is written of a certification would come in the place of other things that are, or of what is read.
fn is_any_in_the_way<P: Places>(places: &P, asked: Certifying<'_>) -> Result<bool, AllocError>
    ensures { IfOk result (IsAnyInTheWay P.meets places.now asked.entry) }
{
    let hardened = is_in_the_way(places, asked.hardening())?;
    let certificate = is_certificate_in_the_way(
        places,
        Some(asked.certificate),
        asked.hardening(),
    )?;
    let lines = are_lines_in_the_way(places, asked)?;
    Ok(hardened | certificate | lines)
}

/// Whether what is written of a conversion would come in the place of other things that are, or of the filter.
fn is_conversion_in_the_way<P: Places>(
    places: &P,
    asked: Converting<'_>,
) -> Result<bool, AllocError>
    ensures { IfOk result (IsConversionInTheWay P.meets places.now asked.entry) }
{
    let both = places.lead_to_one(asked.certificate, asked.output)?;
    let image = places.lead_to_one(asked.input, asked.output)?;
    let certificate = places.lead_to_one(asked.input, asked.certificate)?;
    let output = meets_one(places, asked.output, asked.listing)?;
    let beside = meets_one(places, asked.certificate, asked.listing)?;
    let filter = meets_one(places, asked.input, asked.listing)?;
    Ok(both | image | certificate | output | beside | filter)
}

/// Whether names of a request lead to one file where they may not.
pub fn obstructs<P: Places>(places: &P, request: Request<'_>) -> Result<bool, AllocError>
    ensures { IfOk result (Obstructs P.meets places.now request.entry) }
{
    match request {
        Request::Harden(asked) => is_hardening_in_the_way(places, asked),
        Request::Certify(asked) => is_any_in_the_way(places, asked),
        Request::Convert(asked) => is_conversion_in_the_way(places, asked),
        Request::Groups(_) | Request::Asm(_) | Request::List(_) => Ok(false),
        Request::Run(_) | Request::Check(_) | Request::RunChecked(_) => Ok(false),
        Request::Replay(_) | Request::Infer(_) | Request::Explain(_) => Ok(false),
        Request::ToC(_) | Request::Follows(_) | Request::Migrate(_) => Ok(false),
    }
}
