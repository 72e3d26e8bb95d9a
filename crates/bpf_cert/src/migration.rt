//! A certificate once more, as version 2.

ghost use Rattle.std.specs.Prelude.{◌≡◌, map, IfOk, IfErr};
ghost use Rattle.bpf_cert.specs.View.{label_view, function_view};
ghost use Rattle.bpf_cert.specs.declared.error.CertError.TheVariants.{Memory};

use crate::certificate::{Budget, Certificate, Function, Label, Term};
use crate::error::CertError;
use crate::header::Header;
use arrayvec::ArrayVec;
use std::alloc::{AllocError, Global};

// Each of these makes a copy that says the same.

fn same_terms(terms: &ArrayVec<Term, 4>) -> ArrayVec<Term, 4>
    ensures { result.items ≡ terms.now.items }
{
    let mut copies = ArrayVec::new();
    match copies.try_extend_from_slice(terms.as_slice()) {
        Ok(()) => copies,
        Err(_) => unreachable!(),
    }
}

fn same_label(alloc: Global, label: &Label) -> Result<Label, AllocError>
    ensures { IfOk result (λ copy. label_view copy ≡ label_view label.now) }
{
    Ok(Label {
        slot: label.slot,
        state: label.state.copy(alloc)?,
        budget: Budget {
            base: label.budget.base,
            terms: same_terms(&label.budget.terms),
        },
    })
}

fn same_labels(alloc: Global, labels: &[Label]) -> Result<Vec<Label>, AllocError>
    ensures { IfOk result (λ copies. map label_view copies.items ≡ map label_view labels.now) }
{
    let mut copies = Vec::with_capacity(alloc, labels.len())?;
    for label in labels {
        copies.push(same_label(alloc, label)?)?;
    }
    Ok(copies)
}

fn same_function(alloc: Global, function: &Function) -> Result<Function, AllocError>
    ensures { IfOk result (λ copy. function_view copy ≡ function_view function.now) }
{
    Ok(Function {
        first: function.first,
        depth: function.depth,
        ret: function.ret,
        labels: same_labels(alloc, &function.labels)?,
    })
}

fn same_functions(alloc: Global, functions: &[Function]) -> Result<Vec<Function>, AllocError>
    ensures { IfOk result (λ copies. map function_view copies.items ≡ map function_view functions.now) }
{
    let mut copies = Vec::with_capacity(alloc, functions.len())?;
    for function in functions {
        copies.push(same_function(alloc, function)?)?;
    }
    Ok(copies)
}

/// The certificate with the same content as version 2. K4 if memory runs out.
pub fn migrate(alloc: Global, certificate: &Certificate) -> Result<Certificate, CertError>
    ensures ok { IfOk result (λ c. c ≡ record certificate.now { version = 2 }) }
    ensures err { IfErr result (λ e. e ≡ Memory) }
{
    certificate.valid();
    let header = Header {
        version: 2,
        ..certificate.header()
    };
    match same_functions(alloc, certificate.functions()) {
        Ok(functions) => Ok(Certificate::of_parts(header, functions)),
        Err(_) => Err(CertError::Memory),
    }
}
