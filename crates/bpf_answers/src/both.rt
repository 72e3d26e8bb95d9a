//! Two things that are put at names of their own, both or neither: a file and its certificate.

ghost use Rattle.std.specs.Prelude.{◌≡◌, ◌⊎◌, IfOk, IfErr};
ghost use Rattle.bpf_answers.specs.Both.{NotPutBoth, PutBoth, pairing};
ghost use Rattle.bpf_answers.specs.declared.failure.Failure.TheVariants.{CannotWrite, NoMemory};

use crate::error::PlaceError;
use crate::failure::{DONE, Failure};
use crate::output::Content;
use crate::places::Places;

/// Why nothing can be made at a name.
fn unmade<'a>(error: PlaceError, name: &'a str) -> Failure<'a>
    ensures { (result ≡ CannotWrite name.entry) ⊎ (result ≡ NoMemory) }
{
    match error {
        PlaceError::Refused => Failure::CannotWrite(name),
        PlaceError::Memory => Failure::NoMemory,
    }
}

/// Puts two contents at two names, whole. Both are made and written before either is finished, so that a failure leaves what stood at both names. But where
/// finishing the second fails, the first stands already. `NoMemory` where there is none to make them.
pub fn put_both<'a, P: Places, C: Content, D: Content>(
    places: &mut P,
    first: &'a str,
    content: &C,
    second: &'a str,
    beside: &D,
) -> Result<u8, Failure<'a>>
    ensures ok { IfOk result (PutBoth (pairing P.creates P.ends P.Writer.contents) places.old first.entry (C.bytes content.now)
        second.entry (D.bytes beside.now) places.new) }
    ensures err { IfErr result (NotPutBoth (pairing P.creates P.ends P.Writer.contents) places.old first.entry (C.bytes content.now)
        second.entry (D.bytes beside.now) places.new) }
{
    let mut writer = match places.create(first) {
        Ok(writer) => writer,
        Err(error) => return Err(unmade(error, first)),
    };
    let mut other = match places.create(second) {
        Ok(other) => other,
        Err(error) => {
            places.discard(writer);
            return Err(unmade(error, second));
        }
    };
    if content.write_to(&mut writer).is_err() {
        places.discard(writer);
        places.discard(other);
        return Err(Failure::CannotWrite(first));
    }
    if beside.write_to(&mut other).is_err() {
        places.discard(writer);
        places.discard(other);
        return Err(Failure::CannotWrite(second));
    }
    if places.finish(writer).is_err() {
        places.discard(other);
        return Err(Failure::CannotWrite(first));
    }
    match places.finish(other) {
        Ok(()) => Ok(DONE),
        Err(_) => Err(Failure::CannotWrite(second)),
    }
}
