//! What a command line asks of images, texts and certificates, where a name or two and flags tell all.

use crate::request::contexts::Contexts;
use crate::request::subject::Subject;
use bpf_insn::Order;

/// Which image's conformance groups are wanted.
#[derive(Clone, Copy)]
pub struct Grouping<'a> {
    pub input: &'a str,
    pub order: Order,
}

/// Which text is to be assembled, and where its image goes.
#[derive(Clone, Copy)]
pub struct Assembling<'a> {
    pub input: &'a str,
    pub output: &'a str,
    pub order: Order,
}

/// Which image is to be listed, and whether each instruction's slot and bytes stand in comments.
#[derive(Clone, Copy)]
pub struct Listing<'a> {
    pub input: &'a str,
    pub slots: bool,
    pub bytes: bool,
    pub order: Order,
}

/// Which image is to be run, on which contexts, for at most so many instructions each, how many lines are told of each run's last steps, and the
/// name of the notes by which traps are told.
#[derive(Clone, Copy)]
pub struct Running<'a> {
    pub input: &'a str,
    pub contexts: Contexts<'a>,
    pub steps: u32,
    pub trace: Option<u32>,
    pub notes: Option<&'a str>,
    pub order: Order,
}

/// Which certificate is to be judged for which image, and whether the work of that is wanted.
#[derive(Clone, Copy)]
pub struct Checking<'a> {
    pub input: &'a str,
    pub certificate: &'a str,
    pub work: bool,
    pub order: Order,
}

/// Which image is to be run, on which contexts, once its certificate certifies it, and the name of the notes by which traps are told.
#[derive(Clone, Copy)]
pub struct CheckedRunning<'a> {
    pub input: &'a str,
    pub certificate: &'a str,
    pub contexts: Contexts<'a>,
    pub notes: Option<&'a str>,
    pub order: Order,
}

/// For which image a certificate is to be found, for contexts of `least` to `most` bytes, by the deep search where that is asked for, and
/// where it goes. `most` may be below `least`.
#[derive(Clone, Copy)]
pub struct Inferring<'a> {
    pub input: &'a str,
    pub least: u32,
    pub most: u32,
    pub deep: bool,
    pub output: &'a str,
    pub order: Order,
}

/// What is to be explained of a program, with the lines of its source at a name.
#[derive(Clone, Copy)]
pub struct Explaining<'a> {
    pub input: &'a str,
    pub subject: Subject<'a>,
    pub lines: Option<&'a str>,
    pub order: Order,
}

/// Which certificate is to be written as the newest version, and where that goes.
#[derive(Clone, Copy)]
pub struct Migrating<'a> {
    pub certificate: &'a str,
    pub output: &'a str,
}
