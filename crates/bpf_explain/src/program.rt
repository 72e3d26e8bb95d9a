//! A program with a certificate, explained.

ghost use Rattle.std.specs.Prelude.{◌≡◌, IfOk, IfSome, IfNone};
ghost use Rattle.bpf_safety.specs.Certified.{IsLeastFlaw};
ghost use Rattle.bpf_check.specs.CheckedProgram.{IsCertifiedBy};
ghost use Rattle.bpf_check.specs.RefusalNumbers.{refusal_number, refusal_slot};

use bpf_cert::Certificate;
use bpf_check::Refusal;
use bpf_explain_program::{Shown, refusal_of, write_shown};
use bpf_insn::Code;
use std::io::{self, Write};

/// Writes a program with a certificate in words, and gives the checker's answer back: None if the certificate certifies the
/// program, else the least flaw, at whatever slot. A fault of the writer, or a write of no bytes, ends it. It takes no memory,
/// and writes pieces of up to 4,096 bytes.
pub fn explain<C: Code, W: Write>(
    program: &C,
    certificate: &Certificate,
    shown: Shown<'_>,
    out: &mut W,
) -> io::Result<Option<Refusal>>
    ensures accepted { IfOk result (λ o. IfNone o (IsCertifiedBy (C.program program.now) certificate.now)) }
    ensures refused { IfOk result (λ o. IfSome o (λ r. IsLeastFlaw (C.program program.now) certificate.now (refusal_slot r) (refusal_number r))) }
{
    let refusal = refusal_of(program, certificate);
    write_shown(program, certificate, shown, refusal, out)?;
    Ok(refusal)
}
