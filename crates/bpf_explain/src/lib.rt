//! Diagnostics in words: why an input is refused or a search finds nothing, the listing of a program with what the checker knows at each
//! instruction, and what hardening makes of a program. A function that writes that a program is accepted requires that the certificate certifies it.
#![tactic(auto)]

mod certificate;
mod hardened;
mod image;
mod inferred;
mod lines;
mod obstacles;
mod program;
mod refusal;
mod text;
mod texts;

pub use bpf_explain_program::{Shown, is_table, write_alone};
pub use certificate::write_fault;
pub use hardened::{HardenedProgram, HardeningAsked, explain_hardening};
pub use image::write_refusal;
pub use inferred::{CertificateSearch, FoundCertificate, explain_search, may_be_found};
pub use program::explain;
pub use refusal::{Unhardened, Unshown};
pub use text::{write_program, write_text_refusal};
