//! What a command line wants certified.

ghost use Rattle.std.specs.Prelude.{◌≡◌};
ghost use Rattle.bpf_command.specs.CommandLine.{hardening_of};

use crate::request::hardening::Hardening;
use bpf_insn::Order;

/// A certification: of which image, for which contexts, within which bound, how, and where the answers go.
#[derive(Clone, Copy)]
pub struct Certifying<'a> {
    /// The name of the image.
    pub input: &'a str,
    /// The length of the contexts in bytes, at most 4,096.
    pub length: u32,
    /// Where the image goes that is certified.
    pub output: &'a str,
    /// Where its certificate goes.
    pub certificate: &'a str,
    /// How many instructions a run may take at most; the usual number where none is given.
    pub bound: Option<u32>,
    /// How often a loop that gets a counter may turn in one call of its function, at least once; as often as the bound lets it where none is given.
    pub turns: Option<u32>,
    /// The number with which a trap ends the program.
    pub otherwise: u64,
    /// Contexts are blocks: a packet's length in eight bytes, the packet, and padding.
    pub padded: bool,
    /// A hardened program goes out that isn't shown to keep the meaning, too.
    pub unproved: bool,
    /// Where the notes go by which that is shown.
    pub notes: Option<&'a str>,
    /// Where a line for each change goes.
    pub changes: Option<&'a str>,
    /// The name of the lines of the program's source.
    pub lines: Option<&'a str>,
    pub order: Order,
}

impl<'a> Certifying<'a> {
    /// The hardening that a certification comes to where the program needs one: with one turn where no number of turns is given.
    pub fn hardening(self) -> Hardening<'a>
        ensures { result ≡ hardening_of self.entry }
    {
        Hardening {
            input: self.input,
            length: self.length,
            output: self.output,
            turns: self.turns.unwrap_or(1),
            untouched: None,
            otherwise: self.otherwise,
            padded: self.padded,
            unproved: self.unproved,
            notes: self.notes,
            certificate: None,
            changes: self.changes,
            order: self.order,
        }
    }
}
