//! `bpf follows OLD NEW NOTES CERT`.

ghost use Rattle.std.specs.Prelude.{IfOk, IfErr, ◌∷◌, []};
ghost use Rattle.bpf_check.specs.CheckedProgram.{IsCertifiedBy, checked};
ghost use Rattle.bpf_answers.specs.Loaded.{CertificateFails, OpensFirst};
ghost use Rattle.bpf_answers.specs.Told.{IsQuiet};
ghost use Rattle.bpf_command.specs.Followed.{FollowsFails, FollowsSays, NotedFails, NotedSays, PairSays, RewrittenFails, RewrittenSays};
ghost use Rattle.bpf_command.specs.Printed.{JudgedSays};

use crate::request::Following;
use bpf_answers::{Answer, Failure, Places, certificate_at, notes_at, program_at};
use bpf_cert::Certificate;
use bpf_check::check;
use bpf_follows::{NotesOfRuns, follows};
use bpf_insn::Program;
use bpf_kept::turns_shown;
use std::alloc::Global;

/// An old program, a new one, and what is noted of it.
#[derive(Clone, Copy)]
struct NotedPair<'a> {
    old: &'a Program,
    new: &'a Program,
    noted: &'a NotesOfRuns,
}

/// Whether the notes beside a certificate of the new program show that it keeps the meaning of the old one.
fn shown(pair: NotedPair<'_>, certificate: &Certificate) -> Answer
    requires { IsCertifiedBy pair.new.now certificate.now }
    ensures { PairSays pair.entry (checked pair.entry.new.now certificate.now) result }
{
    let noted = pair.noted;
    match follows(pair.old, pair.new, &noted.notes, certificate, noted.runs) {
        Ok(()) => Answer::Follows {
            bounds: noted.runs,
            turns: turns_shown(&noted.notes, noted.runs.turns),
            bound: certificate.steps(),
        },
        Err(mismatch) => Answer::NotFollowed(mismatch),
    }
}

/// Reads the certificate at a name, and judges whether it certifies the new program. Then it answers whether the notes beside it show that this keeps the
/// meaning of the old one.
fn beside<'a, P: Places>(
    alloc: Global,
    places: &mut P,
    certificate: &'a str,
    pair: NotedPair<'_>,
) -> Result<Answer, Failure<'a>>
    ensures ok { IfOk result (JudgedSays P.opens places.old certificate.entry.now places.new pair.entry.new.now (PairSays pair.entry)) }
    ensures err { IfErr result (CertificateFails P.opens places.old certificate.entry.now places.new) }
    ensures quiet { IfErr result IsQuiet }
    ensures opened { OpensFirst P.opens (certificate.entry.now ∷ []) places.old places.new }
{
    let certificate = match certificate_at(alloc, places, certificate)? {
        Ok(certificate) => certificate,
        Err(error) => return Ok(Answer::NoCertificate(error)),
    };
    match check(pair.new, &certificate) {
        Ok(_) => Ok(shown(pair, &certificate)),
        Err(refusal) => Ok(Answer::NotCertified(refusal)),
    }
}

/// Reads the notes at their name, and compares the new program with the old one by them.
fn noted<'a, P: Places>(
    alloc: Global,
    places: &mut P,
    asked: Following<'a>,
    old: &Program,
    new: &Program,
) -> Result<Answer, Failure<'a>>
    ensures ok { IfOk result (NotedSays P.opens places.old asked.entry places.new old.now new.now) }
    ensures err { IfErr result (NotedFails P.opens places.old asked.entry places.new) }
    ensures quiet { IfErr result IsQuiet }
    ensures opened { OpensFirst P.opens (asked.entry.notes.now ∷ asked.entry.certificate.now ∷ []) places.old places.new }
{
    match notes_at(alloc, places, asked.notes)? {
        Ok(noted) => {
            let pair = NotedPair {
                old,
                new,
                noted: &noted,
            };
            beside(alloc, places, asked.certificate, pair)
        }
        Err(error) => Ok(Answer::NoNotes(error)),
    }
}

/// Takes the new image, and compares its program with the old one.
fn rewritten<'a, P: Places>(
    alloc: Global,
    places: &mut P,
    asked: Following<'a>,
    old: &Program,
) -> Result<Answer, Failure<'a>>
    ensures ok { IfOk result (RewrittenSays P.opens places.old asked.entry places.new old.now) }
    ensures err { IfErr result (RewrittenFails P.opens places.old asked.entry places.new) }
    ensures quiet { IfErr result IsQuiet }
    ensures opened { OpensFirst P.opens (asked.entry.rewritten.now ∷ asked.entry.notes.now ∷ asked.entry.certificate.now ∷ []) places.old places.new }
{
    match program_at(alloc, places, asked.rewritten, asked.order)? {
        Ok(new) => noted(alloc, places, asked, old, &new),
        Err(error) => Ok(Answer::NoNew(error)),
    }
}

/// Judges whether notes beside a certificate show that the program of one image keeps the meaning of another one's. It answers for which contexts and runs and
/// within which bound, or what fails first. Each name is judged before the next one is opened.
pub fn followed<'a, P: Places>(
    alloc: Global,
    places: &mut P,
    asked: Following<'a>,
) -> Result<Answer, Failure<'a>>
    ensures ok { IfOk result (FollowsSays P.opens places.old asked.entry places.new) }
    ensures err { IfErr result (FollowsFails P.opens places.old asked.entry places.new) }
    ensures quiet { IfErr result IsQuiet }
    ensures opened { OpensFirst P.opens (asked.entry.original.now ∷ asked.entry.rewritten.now ∷ asked.entry.notes.now ∷ asked.entry.certificate.now ∷ [])
        places.old places.new }
{
    match program_at(alloc, places, asked.original, asked.order)? {
        Ok(old) => rewritten(alloc, places, asked, &old),
        Err(error) => Ok(Answer::NoOld(error)),
    }
}
