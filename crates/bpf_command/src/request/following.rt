//! What a command line wants compared.

use bpf_insn::Order;

/// Two images, notes and a certificate: whether they show that the one program keeps the meaning of the other.
#[derive(Clone, Copy)]
pub struct Following<'a> {
    /// The name of the image of the program whose meaning is kept.
    pub original: &'a str,
    /// The name of the image of the one that keeps it.
    pub rewritten: &'a str,
    /// The name of the notes, which say for which contexts and runs they are.
    pub notes: &'a str,
    /// The name of the certificate of the one that keeps it, beside which the notes stand.
    pub certificate: &'a str,
    pub order: Order,
}
