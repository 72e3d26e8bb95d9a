//! What is put at the names of a conversion: the image, its certificate, and a listing where one is asked for.

ghost use Rattle.std.specs.Prelude.{◌≡◌, ◌⊎◌, IfOk, IfErr};
ghost use Rattle.bpf_answers.specs.Both.Put.{Both};
ghost use Rattle.bpf_answers.specs.declared.failure.Failure.TheVariants.{CannotWrite, NoMemory};
ghost use Rattle.bpf_command.specs.Converted.{ListedPairFails, NotAll, PairFails, Stand, listed_pair, pair_of};
ghost use Rattle.bpf_command.specs.Standing.{placing};
ghost use Rattle.bpf_command.specs.Standing.Standing.{Whole};

use crate::request::Converting;
use bpf_answers::{Content, Failure, PlaceError, Places, put_both};
use bpf_classic::Raw;
use bpf_conversion::{Made, listed};
use std::alloc::Global;

/// Puts the image and its certificate.
fn put_pair<'a, P: Places>(
    places: &mut P,
    asked: Converting<'a>,
    made: &Made,
) -> Result<(), Failure<'a>>
    ensures ok { IfOk result (λ _. pair_of P.creates P.ends P.Writer.contents asked.entry made.now Both places.old places.new) }
    ensures err { IfErr result (PairFails asked.entry
        (λ put. pair_of P.creates P.ends P.Writer.contents asked.entry made.now put places.old places.new)) }
{
    let program = made.converted.program();
    match put_both(
        places,
        asked.output,
        program,
        asked.certificate,
        &made.certificate,
    ) {
        Ok(_) => Ok(()),
        Err(failure) => Err(failure),
    }
}

/// Why nothing can be made at a name.
fn unmade<'a>(error: PlaceError, name: &'a str) -> Failure<'a>
    ensures { (result ≡ CannotWrite name.entry) ⊎ (result ≡ NoMemory) }
{
    match error {
        PlaceError::Refused => Failure::CannotWrite(name),
        PlaceError::Memory => Failure::NoMemory,
    }
}

/// Puts a listing beside the image and its certificate. It is made and written before either of them, and finished behind both.
fn put_beside<'a, P: Places>(
    places: &mut P,
    asked: Converting<'a>,
    made: &Made,
    name: &'a str,
    lines: &Vec<u8>,
) -> Result<(), Failure<'a>>
    ensures ok { IfOk result (λ _. listed_pair P.creates P.ends P.Writer.contents asked.entry made.now name.entry lines.now.items
        places.old Whole places.new) }
    ensures err { IfErr result (ListedPairFails P.creates P.ends P.Writer.contents asked.entry made.now name.entry lines.now.items
        places.old places.new) }
{
    let mut writer = match places.create(name) {
        Ok(writer) => writer,
        Err(error) => return Err(unmade(error, name)),
    };
    if lines.write_to(&mut writer).is_err() {
        places.discard(writer);
        return Err(Failure::CannotWrite(name));
    }
    if let Err(failure) = put_pair(places, asked, made) {
        places.discard(writer);
        return Err(failure);
    }
    match places.finish(writer) {
        Ok(()) => Ok(()),
        Err(_) => Err(Failure::CannotWrite(name)),
    }
}

/// Puts whatever is asked for at its name. All is made and written before any of it is finished, so that a failure leaves what stood at the names. But where
/// finishing one fails, those that were finished before stand: the image comes first, then its certificate, then the listing.
pub(crate) fn put_all<'a, P: Places>(
    alloc: Global,
    places: &mut P,
    asked: Converting<'a>,
    raws: &[Raw],
    made: &Made,
) -> Result<(), Failure<'a>>
    ensures ok { IfOk result (λ _. Stand (placing P.creates P.ends P.Writer.contents) places.old asked.entry raws.now made.now Whole places.new) }
    ensures err { IfErr result (NotAll (placing P.creates P.ends P.Writer.contents) places.old asked.entry raws.now made.now places.new) }
{
    let Some(name) = asked.listing else {
        return put_pair(places, asked, made);
    };
    match listed(alloc, &made.converted, raws) {
        Ok(lines) => put_beside(places, asked, made, name, &lines),
        Err(_) => Err(Failure::NoMemory),
    }
}
