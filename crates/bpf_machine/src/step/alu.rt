//! Arithmetic, byte swaps and the tests of jumps (RFC 9669, sections 4.1 to 4.3).

ghost use Rattle.std.specs.Prelude.{◌≡◌, ◌<◌};
ghost use Rattle.bpf_insn.specs.Limits.{max_slots};
ghost use Rattle.bpf_semantics.specs.Step.{alu_of_values, alu_result, moved, test_of_values, same_region, wrapped};
ghost use Rattle.bpf_machine.specs.Answers.{Does};

use crate::machine::Machine;
use crate::outcome::Step;
use bpf_insn::{
    AluOp, Code, Cond, EndBits, EndKind, Insn, Operand, Reg, SignBits, Width, low_half,
};
use bpf_semantics::{Reason, Region, Value};

fn is_same(a: Region, b: Region) -> bool
    ensures { result ≡ same_region a b }
{
    match (a, b) {
        (Region::Context, Region::Context) => true,
        (Region::Frame(a), Region::Frame(b)) => a == b,
        (Region::Context, Region::Frame(_)) => false,
        (Region::Frame(_), Region::Context) => false,
    }
}

/// The result of an operation on two values, where there is one: besides numbers, at 64 bits a pointer plus or minus a
/// number, and the difference of two pointers into one region.
fn alu_on(width: Width, op: AluOp, a: Value, b: Value) -> Option<Value>
    ensures { result ≡ alu_of_values width op a b }
{
    match (a, b) {
        (Value::Number(a), Value::Number(b)) => Some(Value::Number(op.compute(width, a, b))),
        (Value::Pointer(region, off), Value::Number(b)) => match (width, op) {
            (Width::W64, AluOp::Add) => {
                Some(Value::Pointer(region, off.wrapping_add(b.cast_signed())))
            }
            (Width::W64, AluOp::Sub) => {
                Some(Value::Pointer(region, off.wrapping_sub(b.cast_signed())))
            }
            _ => None,
        },
        (Value::Number(a), Value::Pointer(region, off)) => match (width, op) {
            (Width::W64, AluOp::Add) => {
                Some(Value::Pointer(region, off.wrapping_add(a.cast_signed())))
            }
            _ => None,
        },
        (Value::Pointer(region, off), Value::Pointer(other, from)) => match (width, op) {
            (Width::W64, AluOp::Sub) if is_same(region, other) => {
                Some(Value::Number(off.wrapping_sub(from).cast_unsigned()))
            }
            _ => None,
        },
    }
}

/// A moved value: at 32 bits only a number's low half.
pub(crate) fn move_of(width: Width, value: Value) -> Option<Value>
    ensures { result ≡ moved width value }
{
    match (width, value) {
        (Width::W64, value) => Some(value),
        (Width::W32, Value::Number(b)) => Some(Value::Number(u64::from(low_half(b)))),
        (Width::W32, Value::Pointer(_, _)) => None,
    }
}

/// Whether the test of a jump holds of two values, where it may be made: besides numbers, at 64 bits whether two
/// pointers into one region are equal.
pub(crate) fn test_of(width: Width, cond: Cond, a: Value, b: Value) -> Option<bool>
    ensures { result ≡ test_of_values width cond a b }
{
    match (a, b) {
        (Value::Number(a), Value::Number(b)) => Some(cond.holds(width, a, b)),
        (Value::Pointer(region, a), Value::Pointer(other, b)) => match (width, cond) {
            (Width::W64, Cond::Eq) if is_same(region, other) => Some(a == b),
            (Width::W64, Cond::Ne) if is_same(region, other) => Some(a != b),
            _ => None,
        },
        _ => None,
    }
}

#[tactic(auto, unfolding(bpf_semantics::specs::Step::does, bpf_semantics::specs::Stuck::reason_at))]
impl<'a, C: Code> Machine<'a, C> {
    #[tactic(auto, using(crate::proofs::StepLemmas::unset_operand), unfolding(bpf_semantics::specs::Step::does, bpf_semantics::specs::Stuck::reason_at))]
    pub(crate) fn alu(&mut self, op: AluOp, width: Width, dst: Reg, src: Operand) -> Step
        requires { self.old.state.top.slot < max_slots }
        ensures { Does self.old (Insn.Alu op width dst src) result self.new }
    {
        if dst.is_frame_pointer() {
            return Step::Fault(Reason::FramePointerWrite);
        }
        let Some(b) = self.operand(src) else {
            return Step::Fault(Reason::UnsetRegister);
        };
        let value = match op {
            AluOp::Mov => move_of(width, b),
            _ => {
                let Some(a) = self.register(dst) else {
                    return Step::Fault(Reason::UnsetRegister);
                };
                alu_on(width, op, a, b)
            }
        };
        match value {
            Some(value) => {
                self.put(dst, value);
                Step::Moved
            }
            None => Step::Fault(Reason::OperandKind),
        }
    }

    pub(crate) fn neg(&mut self, width: Width, dst: Reg) -> Step
        requires { self.old.state.top.slot < max_slots }
        ensures { Does self.old (Insn.Neg width dst) result self.new }
    {
        if dst.is_frame_pointer() {
            return Step::Fault(Reason::FramePointerWrite);
        }
        match self.register(dst) {
            Some(Value::Number(a)) => {
                self.put(dst, Value::Number(AluOp::Sub.compute(width, 0, a)));
                Step::Moved
            }
            Some(Value::Pointer(_, _)) => Step::Fault(Reason::OperandKind),
            None => Step::Fault(Reason::UnsetRegister),
        }
    }

    pub(crate) fn mov_sx(&mut self, width: Width, bits: SignBits, dst: Reg, src: Reg) -> Step
        requires { self.old.state.top.slot < max_slots }
        ensures { Does self.old (Insn.MovSx width bits dst src) result self.new }
    {
        if dst.is_frame_pointer() {
            return Step::Fault(Reason::FramePointerWrite);
        }
        match self.register(src) {
            Some(Value::Number(b)) => {
                self.put(dst, Value::Number(bits.extend(width, b)));
                Step::Moved
            }
            Some(Value::Pointer(_, _)) => Step::Fault(Reason::OperandKind),
            None => Step::Fault(Reason::UnsetRegister),
        }
    }

    pub(crate) fn end(&mut self, kind: EndKind, bits: EndBits, dst: Reg) -> Step
        requires { self.old.state.top.slot < max_slots }
        ensures { Does self.old (Insn.End kind bits dst) result self.new }
    {
        if dst.is_frame_pointer() {
            return Step::Fault(Reason::FramePointerWrite);
        }
        match self.register(dst) {
            Some(Value::Number(a)) => {
                let order = self.order();
                self.put(dst, Value::Number(bits.swap(order, kind, a)));
                Step::Moved
            }
            Some(Value::Pointer(_, _)) => Step::Fault(Reason::OperandKind),
            None => Step::Fault(Reason::UnsetRegister),
        }
    }
}
