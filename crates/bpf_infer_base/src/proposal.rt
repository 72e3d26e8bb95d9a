//! What is found for a certificate.

use bpf_cert::Function;

/// The functions of a certificate, and the steps that it is to promise.
#[derive(Drop)]
pub struct Proposal {
    pub steps: u32,
    pub functions: Vec<Function>,
}
