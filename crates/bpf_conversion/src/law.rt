//! The law, as the contract of a function.

ghost use Rattle.bpf_conversion.specs.Accepted.{CertifiedAtOnce};

/// The certificate that is made by templates certifies the program of a filter, for contexts that are long enough for their form.
pub fn certified_at_once()
    ensures { CertifiedAtOnce }
{}
