//! Text that goes out in pieces of 4,096 bytes. The writer's first fault is kept for the end, and nothing is written behind it.

ghost use Rattle.std.specs.Prelude.{◌≡◌, OnOk, OnErr, ℕ, List, Option, [], false, is_some, decimal};
ghost use Rattle.std.specs.Io.KnownBytes.{Appends};
ghost use Rattle.bpf_insn.specs.Written.{AppendsBeginning};
ghost use Rattle.bpf_c.specs.code.Says.{Sheet, Says, Stands};

use bpf_insn::written::Pending;
use itoa::Buffer;
use std::io::{self, Write};
use std::marker::Model;

/// What waits to go out, and the writer's fault, if it failed.
#[derive(Drop)]
pub struct Waiting {
    pending: Pending,
    fault: Option<io::Error>,
}

impl Model for Waiting {
    ghost Value = { Sheet };

    ghost view = { λ p. record { waits = p.pending; failed = is_some p.fault } };
}

impl Waiting {
    /// Nothing waits, and no writer failed.
    pub fn new() -> Self
        ensures { result ≡ record { waits = []; failed = false } }
    {
        Waiting {
            pending: Pending::new(),
            fault: None,
        }
    }

    /// Puts a text behind what was put.
    pub fn put<W: Write>(&mut self, out: &mut W, text: &str)
        ensures { Says (W.contents out.old) self.old text.now (W.contents out.new) self.new }
    {
        if self.fault.is_some() {
            return;
        }
        if let Err(error) = self.pending.put(out, text.as_bytes()) {
            self.fault = Some(error);
        }
    }

    /// Puts a number in decimal.
    pub fn number<W: Write>(&mut self, out: &mut W, number: u32)
        ensures { Says (W.contents out.old) self.old (decimal number) (W.contents out.new) self.new }
    {
        self.put(out, Buffer::new().format(number));
    }

    /// The same of 64 bits.
    pub fn wide<W: Write>(&mut self, out: &mut W, number: u64)
        ensures { Says (W.contents out.old) self.old (decimal number) (W.contents out.new) self.new }
    {
        self.put(out, Buffer::new().format(number));
    }

    /// Writes what waits; the writer's first fault, if it failed.
    pub fn finish<W: Write>(self, out: &mut W) -> io::Result<()>
        ensures ok { OnOk result ((start : Option (List ℕ)) → (text : List ℕ) → Stands start text (W.contents out.old) self → Appends start (W.contents out.new) text) }
        ensures err { OnErr result ((start : Option (List ℕ)) → (text : List ℕ) → Stands start text (W.contents out.old) self → AppendsBeginning start (W.contents out.new) text) }
    {
        let mut pending = self.pending;
        match self.fault {
            Some(error) => Err(error),
            None => pending.flush(out),
        }
    }
}
