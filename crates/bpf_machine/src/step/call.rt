//! Calls of local functions, and exits (RFC 9669, section 4.3.2).

ghost use Rattle.std.specs.Prelude.{◌<◌};
ghost use Rattle.bpf_insn.specs.Limits.{max_slots};
ghost use Rattle.bpf_semantics.specs.Targets.{LeadsToSlot};
ghost use Rattle.bpf_machine.specs.Answers.{Does};

use crate::machine::Machine;
use crate::outcome::Step;
use bpf_insn::{Code, Insn, Reg};
use bpf_semantics::{Reason, Value, target_of};

#[tactic(auto, unfolding(bpf_semantics::specs::Step::does, bpf_semantics::specs::Stuck::reason_at))]
impl<'a, C: Code> Machine<'a, C> {
    #[inline(always)]
    pub(crate) fn call(&mut self, off: i32) -> Step
        requires here { self.old.state.top.slot < max_slots }
        requires led { LeadsToSlot self.old.state.top.slot off }
        ensures { Does self.old (Insn.CallLocal off) result self.new }
    {
        if self.is_full() {
            return Step::Fault(Reason::TooManyFrames);
        }
        let to = target_of(self.slot(), off);
        self.enter(to);
        Step::Moved
    }

    #[inline(always)]
    pub(crate) fn exit(&mut self) -> Step
        ensures { Does self.old Insn.Exit result self.new }
    {
        match self.register(Reg::R0) {
            Some(Value::Number(value)) => if self.leave(value) {
                Step::Moved
            } else {
                Step::Done(value)
            },
            Some(Value::Pointer(_, _)) => Step::Fault(Reason::PointerResult),
            None => Step::Fault(Reason::UnsetRegister),
        }
    }
}
