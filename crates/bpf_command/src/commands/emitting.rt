//! A program that its certificate certifies, as a function of C.

ghost use Rattle.std.specs.Prelude.{◌≡◌};
ghost use Rattle.bpf_command.specs.Emitted.{promise_of};

use bpf_answers::Content;
use bpf_c::{Promise, write_c};
use bpf_check::Checked;
use bpf_insn::Code;
use std::io::{self, Write};

/// A checked program, and the function's name.
#[derive(Drop)]
pub(crate) struct Text<'a, 'p, C: Code> {
    pub program: &'a C,
    pub promise: Promise,
    pub name: &'p str,
}

/// What the certificate promises.
pub(crate) fn promise_of<C: Code>(checked: &Checked<'_, C>) -> Promise
    ensures { result ≡ promise_of checked.now.certificate }
{
    Promise {
        least: checked.least(),
        most: checked.most(),
        bound: checked.bound(),
    }
}

impl<'a, 'p, C: Code> Content for Text<'a, 'p, C> {
    ghost use Rattle.bpf_c.specs.Unit.{unit_text};

    ghost bytes = { λ t. unit_text t.name.now t.promise (C.program t.program.now) };

    fn write_to<W: Write>(&self, out: &mut W) -> io::Result<()> {
        write_c(self.program, self.name, self.promise, out)
    }
}
