//! Which packets a command line wants run.

use crate::request::contexts::Contexts;
use bpf_insn::Order;

/// A replay: of the packets of which capture, by which certified image, and what is told of their answers.
#[derive(Clone, Copy)]
pub struct Replaying<'a> {
    /// The name of the image.
    pub input: &'a str,
    /// The name of its certificate.
    pub certificate: &'a str,
    /// The name of the capture; None where only its counts are asked for.
    pub packets: Option<&'a str>,
    /// The contexts that are given beside it: none, where the words go together.
    pub contexts: Contexts<'a>,
    /// Each different answer is told once, with how often it came; else each packet's answer is.
    pub counts: bool,
    /// The name of notes: none, where the words go together.
    pub notes: Option<&'a str>,
    pub order: Order,
}
