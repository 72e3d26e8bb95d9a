//! The program of a filter, and its certificate.

ghost use Rattle.std.specs.Prelude.{◌≡◌, ◌≤◌, ◌⊎◌, IfOk, IfErr};
ghost use Rattle.bpf_insn.specs.Limits.{max_context};
ghost use Rattle.bpf_classic.specs.Meaning.{HasStarts, KeepsAnswers, insns};
ghost use Rattle.bpf_classic.specs.Template.{head};
ghost use Rattle.bpf_classic.specs.declared.refusal.FilterRefusal.TheVariants.{Memory, Unshown};
ghost use Rattle.bpf_conversion.specs.Claim.{IsConversion};
ghost use Rattle.bpf_conversion.specs.Made.{Certifies, IsMade, IsRefusedFor, kind_of};

use crate::claims::{certificate, valid};
use crate::law::certified_at_once;
use bpf_cert::Certificate;
use bpf_classic::{Converted, Filter, FilterRefusal, Form, Kind, Raw, Wanted, convert};
use std::alloc::Global;

/// A filter's program, and a certificate that certifies it.
#[derive(Drop)]
pub struct Made {
    pub converted: Converted,
    pub certificate: Certificate,
}

/// What a filter is for that is given such contexts.
pub fn kind_of(form: Form) -> Kind
    ensures { result ≡ kind_of form }
{
    match form {
        Form::Blocks | Form::Plain => Kind::Packets,
        Form::Seccomp => Kind::Seccomp,
        Form::Extended => Kind::Extended,
    }
}

/// The certificate of a filter's program, which certifies it by a law: the checker isn't asked.
fn certified(alloc: Global, converted: &Converted) -> Result<Certificate, FilterRefusal>
    requires conversion { IsConversion converted.now }
    requires room { head converted.now.layout.form ≤ converted.now.layout.length }
    ensures certified { IfOk result (Certifies converted.now.program) }
    ensures length { IfOk result (λ c. (c.least ≡ converted.now.layout.length) × (c.most ≡ converted.now.layout.length)) }
    ensures err { IfErr result (λ e. e ≡ Memory) }
{
    certified_at_once();
    valid(converted.program());
    match certificate(alloc, converted) {
        Ok(certificate) => Ok(certificate),
        Err(_no_memory) => Err(FilterRefusal::Memory),
    }
}

/// The program of a filter.
fn program_of(alloc: Global, filter: &Filter, wanted: Wanted) -> Result<Converted, FilterRefusal>
    requires { wanted.length ≤ max_context }
    ensures answers { IfOk result (λ c. KeepsAnswers filter.now.list c.layout c.program) }
    ensures same { IfOk result (λ c. insns c.marked ≡ filter.now.list) }
    ensures starts { IfOk result (λ c. HasStarts c.layout c.marked c.starts) }
    ensures layout { IfOk result (λ c. (c.layout.form ≡ wanted.form) × (c.layout.length ≡ wanted.length) × (c.layout.order ≡ wanted.order)) }
    ensures turns { IfOk result (λ c. c.layout.turns ≡ wanted.turns) }
    ensures order { IfOk result (λ c. c.program.order ≡ wanted.order) }
    ensures conversion { IfOk result IsConversion }
    ensures err { IfErr result (λ e. (e ≡ Memory) ⊎ (e ≡ Unshown)) }
{
    match convert(alloc, filter, wanted) {
        Ok(converted) => Ok(converted),
        Err(refusal) => Err(refusal),
    }
}

/// The program of instructions as they are written, for contexts of `wanted.length` bytes in a form: from 0 to 4,096, of blocks at least 8, with
/// extensions 72, of seccomp 64; and a certificate that certifies it for contexts of this length alone. B1 to B7 where they are no filter, B9 where
/// memory runs out, B10 where the program isn't shown to keep the filter's answers.
pub fn converted(alloc: Global, raws: &[Raw], wanted: Wanted) -> Result<Made, FilterRefusal>
    requires short { wanted.length ≤ max_context }
    requires room { head wanted.form ≤ wanted.length }
    ensures ok { IfOk result (IsMade raws.now wanted) }
    ensures err { IfErr result (IsRefusedFor raws.now wanted.form) }
{
    let filter = match Filter::new(alloc, kind_of(wanted.form), raws) {
        Ok(filter) => filter,
        Err(refusal) => return Err(refusal),
    };
    let converted = match program_of(alloc, &filter, wanted) {
        Ok(converted) => converted,
        Err(refusal) => return Err(refusal),
    };
    let certificate = match certified(alloc, &converted) {
        Ok(certificate) => certificate,
        Err(refusal) => return Err(refusal),
    };
    Ok(Made {
        converted,
        certificate,
    })
}
