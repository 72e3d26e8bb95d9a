//! Who is told how runs end.

use bpf_insn::Code;
use bpf_machine::Outcome;

/// Is told how runs end. No answer depends on what it makes of that.
pub trait Tracer {
    ghost use Rattle.std.specs.Prelude.{◌≤◌, length};
    ghost use Rattle.bpf_insn.specs.Limits.{max_context};
    ghost use Rattle.bpf_machine.specs.Answers.{IsRun};

    /// A run of the program on the context that had so much fuel ended so.
    fn tell<C: Code>(&self, program: &C, context: &[u8], outcome: Outcome, fuel: u64)
        requires short { length context.now ≤ max_context }
        requires run { IsRun (C.program program.now) context.now fuel outcome };
}
