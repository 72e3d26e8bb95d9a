//! A listing with comments.

ghost use Rattle.std.specs.Prelude.{◌≡◌, OnOk, OnErr};
ghost use Rattle.std.specs.Io.KnownBytes.{Appends};
ghost use Rattle.bpf_insn.specs.Image.{image};
ghost use Rattle.bpf_insn.specs.Written.{AppendsBeginning};
ghost use Rattle.bpf_text.specs.Annotated.{annotated};

use bpf_insn::Program;
use bpf_text::{Notes, annotate};
use std::io::{self, Write};
use std::marker::Model;

/// A program with its image, and the comments that its listing has.
#[derive(Drop)]
pub struct CommentedListing {
    program: Program,
    bytes: Vec<u8>,
    notes: Notes,
}

impl Model for CommentedListing {
    ghost use Rattle.std.specs.Prelude.{◌≡◌};
    ghost use Rattle.bpf_insn.specs.Image.{image};
    ghost use Rattle.bpf_answers.specs.Commented.{Commented};

    ghost Value = { Commented };

    ghost view = { λ a. record { notes = a.notes; program = a.program } };

    ghost invariant = { λ a. a.bytes.items ≡ image a.program.order a.program.list };
}

impl CommentedListing {
    /// The listing of a program, of which these are the image.
    pub fn new(program: Program, bytes: Vec<u8>, notes: Notes) -> Self
        requires { bytes.items ≡ image program.order program.list }
        ensures notes { result.notes ≡ notes }
        ensures program { result.program ≡ program }
    {
        CommentedListing {
            program,
            bytes,
            notes,
        }
    }

    /// Writes the listing. A fault of the writer ends it; what went out is then a beginning of the listing.
    pub fn write<W: Write>(&self, out: &mut W) -> io::Result<()>
        ensures ok { OnOk result (Appends (W.contents out.old) (W.contents out.new) (annotated self.now.notes self.now.program.order self.now.program.list)) }
        ensures err { OnErr result (AppendsBeginning (W.contents out.old) (W.contents out.new)
            (annotated self.now.notes self.now.program.order self.now.program.list)) }
    {
        annotate(&self.program, &self.bytes, self.notes, out)
    }
}
