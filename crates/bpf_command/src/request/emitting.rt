//! What a command line wants as C.

use bpf_insn::Order;

/// The text of a function of C: of which program, by which certificate, under which name, and where it goes.
#[derive(Clone, Copy)]
pub struct Emitting<'a> {
    /// The name of the image.
    pub input: &'a str,
    /// The name of its certificate.
    pub certificate: &'a str,
    /// Where the text goes.
    pub output: &'a str,
    /// The function's name, which may be none that C has.
    pub name: &'a str,
    pub order: Order,
}
