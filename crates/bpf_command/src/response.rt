//! From words to a status.

ghost use Rattle.std.specs.Prelude.{◌≡◌, None};
ghost use Rattle.bpf_answers.specs.Told.{IsTold, Tells};
ghost use Rattle.bpf_command.specs.Conflicts.{conflict_of};
ghost use Rattle.bpf_command.specs.Response.{Carries, Performs, Responds, Serves, names};

use crate::advice::after_failure;
use crate::aside::Aside;
use crate::commands::{
    Trace, assembled, certified, checked, converted, emitted, explained, followed, grouped,
    hardened, inferred, listed, migrated, ran_checked_on, ran_on, replayed,
};
use crate::conflicts::conflict_in;
use crate::finding::Finding;
use crate::found::finding_of;
use crate::obstacles::obstructs;
use crate::remark::remark_of;
use crate::request::{Request, request_of};
use crate::sentences::tell_remark;
use crate::shown::tell_mistake;
use bpf_answers::{BAD_WORDS, CLOSED, Cause, FAILED, Failure, Places, tell};
use clap::error::ErrorKind;
use std::alloc::Global;
use std::io::Write;

/// Finds what is asked for, and prints what is answered as it is found: to contexts, to packets, and in words.
fn carry_out<'a, P: Places, W: Write, H: Aside>(
    alloc: Global,
    request: Request<'a>,
    places: &mut P,
    out: &mut W,
    aside: &mut H,
) -> Result<Finding, Failure<'a>>
    requires { conflict_of request ≡ None }
    ensures { Carries (names P.meets P.opens P.creates P.ends P.Writer.contents places.old places.new) (W.contents out.old) (W.contents out.new)
        request.entry result }
{
    match request {
        Request::Groups(asked) => finding_of(grouped(alloc, places, asked)),
        Request::Asm(asked) => finding_of(assembled(alloc, places, asked)),
        Request::List(asked) => finding_of(listed(alloc, places, asked)),
        Request::Run(asked) => {
            let trace = Trace {
                aside: &*aside,
                lines: asked.trace,
            };
            finding_of(ran_on(alloc, places, out, &trace, asked))
        }
        Request::Check(asked) => finding_of(checked(alloc, places, asked)),
        Request::RunChecked(asked) => finding_of(ran_checked_on(alloc, places, out, asked)),
        Request::Replay(asked) => finding_of(replayed(alloc, places, out, asked)),
        Request::Infer(asked) => finding_of(inferred(alloc, places, aside, asked)),
        Request::Harden(asked) => finding_of(hardened(alloc, places, asked)),
        Request::Certify(asked) => finding_of(certified(alloc, places, asked)),
        Request::Convert(asked) => finding_of(converted(alloc, places, asked)),
        Request::ToC(asked) => finding_of(emitted(alloc, places, asked)),
        Request::Follows(asked) => finding_of(followed(alloc, places, asked)),
        Request::Explain(asked) => finding_of(explained(alloc, places, out, aside, asked)),
        Request::Migrate(asked) => finding_of(migrated(alloc, places, asked)),
    }
}

/// Finds what is asked for, unless two words can't stand together or two names lead to one file.
fn perform<'a, P: Places, W: Write, H: Aside>(
    alloc: Global,
    request: Request<'a>,
    places: &mut P,
    out: &mut W,
    aside: &mut H,
) -> Result<Finding, Failure<'a>>
    ensures { Performs (names P.meets P.opens P.creates P.ends P.Writer.contents places.old places.new) (W.contents out.old) (W.contents out.new)
        request.entry result }
{
    match conflict_in(request) {
        Some(conflict) => Err(conflict),
        None => match obstructs(&*places, request) {
            Ok(false) => carry_out(alloc, request, places, out, aside),
            Ok(true) => Err(Failure::NotTogether),
            Err(_no_memory) => Err(Failure::NoMemory),
        },
    }
}

/// Tells a failure with its cause, and answers its status; 3 where standard error fails as well, for there is nowhere left to tell that.
/// Of a closed pipe, as before `head -1`, nothing is told.
pub fn fail<E: Write>(failure: Failure<'_>, cause: Cause, err: &mut E) -> u8
    ensures exact { Tells failure.entry cause result (E.contents err.old) (E.contents err.new) }
    ensures told { IsTold failure.entry result (E.contents err.old) (E.contents err.new) }
{
    if failure.is_closed(cause) {
        return CLOSED;
    }
    match tell(failure, cause, err) {
        Ok(()) => failure.status(),
        Err(_) => FAILED,
    }
}

/// Tells a failure with its cause, and then what helps, and answers its status.
fn tell_failure<P: Places, E: Write, H: Aside>(
    failure: Failure<'_>,
    request: Request<'_>,
    places: &P,
    err: &mut E,
    aside: &H,
) -> u8
    ensures { IsTold failure.entry result (E.contents err.old) (E.contents err.new) }
{
    let status = fail(failure, places.cause(), err);
    after_failure(aside, request, failure);
    status
}

/// Finds what the request asks for, prints it, and then tells what helps. The status is that of the answer, or of the failure that is told.
fn serve<P: Places, W: Write, E: Write, H: Aside>(
    alloc: Global,
    asked: Request<'_>,
    places: &mut P,
    out: &mut W,
    err: &mut E,
    aside: &mut H,
) -> u8
    ensures { Serves (names P.meets P.opens P.creates P.ends P.Writer.contents places.old places.new) W.contents out.old out.new
        asked.entry result E.contents err.old err.new }
{
    let found = match perform(alloc, asked, places, out, aside) {
        Ok(found) => found,
        Err(failure) => return tell_failure(failure, asked, &*places, err, &*aside),
    };
    match found.print(out) {
        Ok(status) => {
            let remark = remark_of(asked, &found);
            tell_remark(alloc, &*aside, asked, &found, remark);
            status
        }
        Err(failure) => tell_failure(failure, asked, &*places, err, &*aside),
    }
}

/// Does what the words ask for, the command's own name first, and answers the status. 0: done. 1: refused. 2: the words are not understood. 3: a file, the
/// output or memory failed. 141: whoever was to read the answer has gone. On the side people are told how far a search is, and the steps of a run.
pub fn respond<P: Places, W: Write, E: Write, H: Aside>(
    alloc: Global,
    words: &[String],
    places: &mut P,
    out: &mut W,
    err: &mut E,
    aside: &mut H,
) -> u8
    ensures { Responds (names P.meets P.opens P.creates P.ends P.Writer.contents places.old places.new) W.contents out.old out.new
        words.now result E.contents err.old err.new }
{
    match request_of(alloc, words) {
        Ok(request) => serve(alloc, request, places, out, err, aside),
        Err(error) if error.kind() == ErrorKind::OutOfMemory => {
            fail(Failure::NoMemory, Cause::Unknown, err)
        }
        Err(error) => {
            tell_mistake(alloc, words, &error, err);
            BAD_WORDS
        }
    }
}
