//! Atomic operations (RFC 9669, section 5.3).

ghost use Rattle.std.specs.Prelude.{◌≡◌, ◌<◌, Some, false};
ghost use Rattle.std.specs.Option.{option_map_or};
ghost use Rattle.bpf_insn.specs.Limits.{max_slots};
ghost use Rattle.bpf_semantics.specs.Step.{fetched};
ghost use Rattle.bpf_insn.specs.Effects.{fetch_register, is_frame_pointer};
ghost use Rattle.bpf_machine.specs.Answers.{Does};

use crate::machine::{Location, Machine};
use crate::outcome::Step;
use bpf_insn::{AtomicOp, Code, Insn, Reg, Size};
use bpf_semantics::{Reason, Value, atomic_result};

/// Whether the old number would get into r10.
fn fetches_to_frame_pointer(op: AtomicOp, src: Reg) -> bool
    ensures { result ≡ option_map_or is_frame_pointer (fetch_register op src) false }
{
    match op.fetch_register(src) {
        Some(r) => r.is_frame_pointer(),
        None => false,
    }
}

#[tactic(auto, unfolding(bpf_semantics::specs::Step::does, bpf_semantics::specs::Stuck::reason_at))]
impl<'a, C: Code> Machine<'a, C> {
    pub(crate) fn atomic(&mut self, wide: bool, op: AtomicOp, dst: Reg, off: i16, src: Reg) -> Step
        requires { self.old.state.top.slot < max_slots }
        ensures { Does self.old (Insn.Atomic wide op dst off src) result self.new }
    {
        if fetches_to_frame_pointer(op, src) {
            return Step::Fault(Reason::FramePointerWrite);
        }
        let Some(base) = self.register(dst) else {
            return Step::Fault(Reason::UnsetRegister);
        };
        let Some(value) = self.register(src) else {
            return Step::Fault(Reason::UnsetRegister);
        };
        let r0 = match op {
            AtomicOp::CmpXchg => match self.register(Reg::R0) {
                Some(r0) => r0,
                None => return Step::Fault(Reason::UnsetRegister),
            },
            AtomicOp::Modify { by: _, fetch: _ } => Value::Number(0),
            AtomicOp::Xchg => Value::Number(0),
        };
        let (Value::Pointer(region, at), Value::Number(x), Value::Number(r0)) = (base, value, r0)
        else {
            return Step::Fault(Reason::OperandKind);
        };
        let size = Size::of_word(wide);
        match self.location(size, off, Value::Pointer(region, at)) {
            Some(Location::Frame(depth, first)) => {
                match self.number_at(size, Location::Frame(depth, first)) {
                    Ok(old) => {
                        let new = atomic_result(op, wide, old, x, r0);
                        self.advance();
                        self.store_number(size, depth, first, new);
                        self.fetch(op.fetch_register(src), old);
                        Step::Moved
                    }
                    Err(reason) => Step::Fault(reason),
                }
            }
            Some(Location::Context(_at)) => Step::Fault(Reason::ContextWrite),
            None => Step::Fault(Reason::OutOfBounds),
        }
    }

    /// Writes the old number to a register, if one gets it.
    fn fetch(&mut self, r: Option<Reg>, old: u64)
        requires { option_map_or is_frame_pointer r false ≡ false }
        ensures program { self.new.program ≡ self.old.program }
        ensures state { fetched r old self.old.state ≡ Some self.new.state }
    {
        if let Some(r) = r {
            self.set_register(r, Value::Number(old));
        }
    }
}
