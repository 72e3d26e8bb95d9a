//! Certificates in which a label is found by its slot.

ghost use Rattle.std.specs.Prelude.{◌≡◌};
ghost use Rattle.bpf_cert.specs.View.{function_view};
ghost use Rattle.bpf_check.specs.LabelIndex.{holds_labels, are_in_place};

use crate::shape::is_outside;
use bpf_cert::{Certificate, Function};
use std::marker::Model;

/// A certificate. Where each label lies in the function that it belongs to, a label is looked for in one function alone.
#[derive(Drop)]
pub struct Index<'a> {
    certificate: &'a Certificate,
    /// Whether each label lies in its function.
    in_place: bool,
}

impl<'a> Model for Index<'a> {
    ghost use Rattle.std.specs.Prelude.{◌≡◌};
    ghost use Rattle.bpf_cert.specs.View.{CertificateView};
    ghost use Rattle.bpf_check.specs.LabelIndex.{are_in_place};

    ghost Value = { CertificateView };

    ghost view = { λ x. x.certificate.now };

    ghost invariant = { λ x. x.in_place ≡ are_in_place x.certificate.now };
}

impl<'a> Index<'a> {
    ghost use Rattle.std.specs.Prelude.{◌≡◌, map};
    ghost use Rattle.bpf_cert.specs.View.{function_view};
    ghost use Rattle.bpf_cert.specs.Limits.{IsCertificate};
    ghost use Rattle.bpf_check.specs.LabelIndex.{are_in_place};

    /// The certificate, after a look at where each label lies.
    pub fn of(certificate: &'a Certificate) -> Index<'a>
        ensures { result ≡ certificate.now }
    {
        Index {
            certificate,
            in_place: labels_are_in_place(certificate),
        }
    }

    /// The certificate itself.
    pub(crate) fn certificate(&self) -> &Certificate
        ensures { result.now ≡ self.now }
    {
        self.certificate
    }

    /// Whether each label lies in its function.
    pub(crate) fn is_in_place(&self) -> bool
        ensures { result ≡ are_in_place self.now }
    {
        self.in_place
    }

    /// The functions, by their first slots.
    pub fn functions(&self) -> &[Function]
        ensures { map function_view result.now ≡ self.now.functions }
    {
        self.certificate.functions()
    }

    /// The least length in bytes of the contexts, from 0 to 4,096.
    pub fn least(&self) -> u32
        ensures { result ≡ self.now.least }
    {
        self.certificate.least()
    }

    /// The greatest length in bytes of the contexts, from the least to 4,096.
    pub fn most(&self) -> u32
        ensures { result ≡ self.now.most }
    {
        self.certificate.most()
    }

    /// The greatest number of instructions that a run may take, from 1 to 2^32 - 1.
    pub fn steps(&self) -> u32
        ensures { result ≡ self.now.steps }
    {
        self.certificate.steps()
    }

    /// A certificate is in its order and within the limits.
    pub fn valid(&self)
        ensures { IsCertificate self.now }
    {
        self.certificate.valid();
    }
}

/// Whether each label of a function lies in it.
fn has_labels_inside(certificate: &Certificate, function: &Function) -> bool
    ensures { result ≡ holds_labels certificate.now (function_view function.now) }
{
    let labels = function.labels.as_slice();
    for label in labels {
        if is_outside(certificate, function, label) {
            return false;
        }
    }
    true
}

/// Whether each label lies in its function.
fn labels_are_in_place(certificate: &Certificate) -> bool
    ensures { result ≡ are_in_place certificate.now }
{
    let functions = certificate.functions();
    for function in functions {
        if !has_labels_inside(certificate, function) {
            return false;
        }
    }
    true
}
