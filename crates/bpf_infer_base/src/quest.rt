//! For what a certificate is sought.

use bpf_insn::Program;

/// A program for which a certificate is sought, on contexts of `least` to `most` bytes.
#[derive(Clone, Copy)]
pub struct Quest<'a> {
    pub program: &'a Program,
    pub least: u32,
    pub most: u32,
}
