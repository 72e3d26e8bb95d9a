//! `bpf migrate CERT OUT`.

ghost use Rattle.std.specs.Prelude.{IfOk, IfErr};
ghost use Rattle.bpf_answers.specs.Made.{making};
ghost use Rattle.bpf_command.specs.Printed.{MigrateSays, MigrateFails, NotMigrated};

use crate::request::Migrating;
use bpf_answers::{Answer, Failure, Places, certificate_at, put};
use bpf_cert::migrate;
use std::alloc::Global;

/// Writes a certificate once more as version 2. The place for it is made only where there is one.
pub fn migrated<'a, P: Places>(
    alloc: Global,
    places: &mut P,
    asked: Migrating<'a>,
) -> Result<Answer, Failure<'a>>
    ensures ok { IfOk result (MigrateSays P.opens (making P.creates P.ends P.Writer.contents) places.old asked.entry.certificate.now
        asked.entry.output.now places.new) }
    ensures err { IfErr result (MigrateFails P.opens (making P.creates P.ends P.Writer.contents) places.old asked.entry.certificate.now
        asked.entry.output.now places.new) }
    ensures names { IfErr result (λ _. NotMigrated P.opens (making P.creates P.ends P.Writer.contents) places.old asked.entry.certificate.now
        asked.entry.output.now places.new) }
{
    let certificate = match certificate_at(alloc, places, asked.certificate)? {
        Ok(certificate) => certificate,
        Err(error) => return Ok(Answer::NoCertificate(error)),
    };
    let migrated = match migrate(alloc, &certificate) {
        Ok(migrated) => migrated,
        Err(error) => return Ok(Answer::NoCertificate(error)),
    };
    match put(places, asked.output, &migrated) {
        Ok(_) => Ok(Answer::Written),
        Err(failure) => Err(failure),
    }
}
