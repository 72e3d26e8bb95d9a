//! What each instruction does.

pub(crate) mod alu;
mod atomic;
mod call;
pub(crate) mod jump;
mod memory;

ghost use Rattle.std.specs.Prelude.{◌<◌, IfSome};
ghost use Rattle.bpf_insn.specs.Limits.{max_slots};
ghost use Rattle.bpf_insn.specs.Instruction.{distance};
ghost use Rattle.bpf_semantics.specs.Targets.{LeadsToSlot};
ghost use Rattle.bpf_machine.specs.Answers.{Does, IsStep};

use crate::machine::Machine;
use crate::outcome::Step;
use bpf_insn::{Code, Insn};
use bpf_semantics::Reason;

impl<'a, C: Code> Machine<'a, C> {
    /// Does the next instruction (RFC 9669, sections 4 and 5): Moved, and the machine is in its next state; Done with
    /// the number in r0 at the exit of the outermost frame; or Fault with the first reason why the instruction can't
    /// be done. After Done and Fault the machine is as it was.
    #[tactic(auto, unfolding(bpf_semantics::specs::Step::step_of, bpf_semantics::specs::Step::finish_of, bpf_semantics::specs::Stuck::reason_of))]
    pub fn step(&mut self) -> Step
        ensures { IsStep self.old result self.new }
    {
        match self.insn() {
            Some(insn) => self.execute(insn),
            None => Step::Fault(Reason::PastEnd),
        }
    }

    fn execute(&mut self, insn: Insn) -> Step
        requires here { self.old.state.top.slot < max_slots }
        requires led { IfSome (distance insn) (λ off. LeadsToSlot self.old.state.top.slot off) }
        ensures { Does self.old insn result self.new }
    {
        match insn {
            Insn::Alu {
                op,
                width,
                dst,
                src,
            } => self.alu(op, width, dst, src),
            Insn::Neg { width, dst } => self.neg(width, dst),
            Insn::MovSx {
                width,
                bits,
                dst,
                src,
            } => self.mov_sx(width, bits, dst, src),
            Insn::End { kind, bits, dst } => self.end(kind, bits, dst),
            Insn::LoadImm64 { dst, value } => self.load_imm64(dst, value),
            Insn::Load {
                size,
                dst,
                src,
                off,
            } => self.load(size, dst, src, off),
            Insn::LoadSx {
                size,
                dst,
                src,
                off,
            } => self.load_sx(size, dst, src, off),
            Insn::Store {
                size,
                dst,
                off,
                src,
            } => self.store(size, dst, off, src),
            Insn::StoreImm {
                size,
                dst,
                off,
                imm,
            } => self.store_imm(size, dst, off, imm),
            Insn::Atomic {
                wide,
                op,
                dst,
                off,
                src,
            } => self.atomic(wide, op, dst, off, src),
            Insn::Ja { off } => self.ja(off),
            Insn::JaLong { off } => self.ja_long(off),
            Insn::JumpIf {
                cond,
                width,
                dst,
                src,
                off,
            } => self.jump_if(cond, width, dst, src, off),
            Insn::CallLocal { off } => self.call(off),
            Insn::Exit => self.exit(),
        }
    }
}
