//! Constants of 64 bits, loads and stores (RFC 9669, sections 5.1, 5.2 and 5.4).

ghost use Rattle.std.specs.Prelude.{◌≡◌, ◌==◌, ◌<◌, IfOk, IfErr, Some, None, false};
ghost use Rattle.bpf_insn.specs.Limits.{max_slots};
ghost use Rattle.bpf_insn.specs.Arithmetic.{modulo};
ghost use Rattle.bpf_insn.specs.Effects.{is_frame_pointer};
ghost use Rattle.bpf_insn.specs.Instruction.{byte_count};
ghost use Rattle.bpf_semantics.specs.Memory.{pointer_at};
ghost use Rattle.bpf_semantics.specs.Step.{load};
ghost use Rattle.bpf_machine.specs.code.Locations.{location_is, IsInside, IsLocationFrom};
ghost use Rattle.bpf_machine.specs.Answers.{Does, reason_before_access};
ghost use Rattle.bpf_machine.specs.code.Stored.{may_be_stored, IsUnreadableFor};

use crate::machine::{Location, Machine, sum_of};
use crate::outcome::Step;
use bpf_insn::{Code, Insn, Reg, Size, extended};
use bpf_semantics::{Reason, Value, sign_extend_from};

fn is_multiple_of_8(z: i128) -> bool
    ensures { result ≡ (modulo z 8 == 0) }
{
    z % 8 == 0
}

/// Whether a value may be stored at an offset from a pointer: a number anywhere, a pointer in a whole slot.
fn may_store(size: Size, at: i64, off: i16, value: Value) -> bool
    ensures { result ≡ may_be_stored size at off value }
{
    match value {
        Value::Number(_number) => true,
        Value::Pointer(_region, _off) => match size {
            Size::DW => is_multiple_of_8(sum_of(at, off)),
            Size::B => false,
            Size::H => false,
            Size::W => false,
        },
    }
}

#[tactic(auto, unfolding(bpf_semantics::specs::Step::does, bpf_semantics::specs::Stuck::reason_at))]
impl<'a, C: Code> Machine<'a, C> {
    pub(crate) fn load_imm64(&mut self, dst: Reg, value: u64) -> Step
        requires { self.old.state.top.slot < max_slots }
        ensures { Does self.old (Insn.LoadImm64 dst value) result self.new }
    {
        if dst.is_frame_pointer() {
            return Step::Fault(Reason::FramePointerWrite);
        }
        self.set_register(dst, Value::Number(value));
        let slot = self.slot();
        self.go_to(slot + 2);
        Step::Moved
    }

    #[inline(always)]
    pub(crate) fn load(&mut self, size: Size, dst: Reg, src: Reg, off: i16) -> Step
        requires { self.old.state.top.slot < max_slots }
        ensures { Does self.old (Insn.Load size dst src off) result self.new }
    {
        let location = match self.location_to_load(size, dst, src, off) {
            Ok(location) => location,
            Err(reason) => return Step::Fault(reason),
        };
        match self.value_at(size, location) {
            Ok(value) => {
                self.put(dst, value);
                Step::Moved
            }
            Err(reason) => Step::Fault(reason),
        }
    }

    /// The location that a load reads; else the first reason why there is none.
    #[inline(always)]
    fn location_to_load(&self, size: Size, dst: Reg, src: Reg, off: i16) -> Result<Location, Reason>
        ensures ok { IfOk result (λ location. (is_frame_pointer dst ≡ false) × IsLocationFrom self.now.state (byte_count size) src off location) }
        ensures err { IfErr result (λ reason. reason_before_access self.now.state (Insn.Load size dst src off) ≡ Some reason) }
    {
        if dst.is_frame_pointer() {
            return Err(Reason::FramePointerWrite);
        }
        let base = match self.register(src) {
            Some(Value::Pointer(region, at)) => Value::Pointer(region, at),
            Some(Value::Number(_number)) => return Err(Reason::OperandKind),
            None => return Err(Reason::UnsetRegister),
        };
        self.location(size, off, base).ok_or(Reason::OutOfBounds)
    }

    /// The number or, in a whole slot, the pointer at a location; else why the first byte that can't be read can't.
    #[inline(always)]
    fn value_at(&self, size: Size, location: Location) -> Result<Value, Reason>
        requires { IsInside self.now.state (byte_count size) location }
        ensures ok { IfOk result (λ value. load self.now.program.order self.now.state size (location_is location) ≡ Some value) }
        ensures err { IfErr result (IsUnreadableFor self.now.state size (location_is location)) }
    {
        if matches!(size, Size::DW) {
            if let Some(pointer) = self.pointer_at(location) {
                return Ok(pointer);
            }
        }
        match self.number_at(size, location) {
            Ok(number) => Ok(Value::Number(number)),
            Err(reason) => Err(reason),
        }
    }

    pub(crate) fn load_sx(&mut self, size: Size, dst: Reg, src: Reg, off: i16) -> Step
        requires { self.old.state.top.slot < max_slots }
        ensures { Does self.old (Insn.LoadSx size dst src off) result self.new }
    {
        let location = match self.location_to_load(size, dst, src, off) {
            Ok(location) => location,
            Err(reason) => return Step::Fault(reason),
        };
        match self.number_at(size, location) {
            Ok(number) => {
                self.put(dst, Value::Number(sign_extend_from(size, number)));
                Step::Moved
            }
            Err(reason) => Step::Fault(reason),
        }
    }
}

#[tactic(auto, unfolding(bpf_semantics::specs::Step::does, bpf_semantics::specs::Stuck::reason_at, bpf_semantics::specs::Memory::store_number, bpf_semantics::specs::Memory::store_pointer))]
impl<'a, C: Code> Machine<'a, C> {
    #[inline(always)]
    pub(crate) fn store_imm(&mut self, size: Size, dst: Reg, off: i16, imm: i32) -> Step
        requires { self.old.state.top.slot < max_slots }
        ensures { Does self.old (Insn.StoreImm size dst off imm) result self.new }
    {
        let base = match self.register(dst) {
            Some(Value::Pointer(region, at)) => Value::Pointer(region, at),
            Some(Value::Number(_number)) => return Step::Fault(Reason::OperandKind),
            None => return Step::Fault(Reason::UnsetRegister),
        };
        match self.location(size, off, base) {
            Some(Location::Frame(depth, at)) => {
                self.advance();
                self.store_number(size, depth, at, extended(imm));
                Step::Moved
            }
            Some(Location::Context(_at)) => Step::Fault(Reason::ContextWrite),
            None => Step::Fault(Reason::OutOfBounds),
        }
    }

    #[inline(always)]
    pub(crate) fn store(&mut self, size: Size, dst: Reg, off: i16, src: Reg) -> Step
        requires { self.old.state.top.slot < max_slots }
        ensures { Does self.old (Insn.Store size dst off src) result self.new }
    {
        let Some(base) = self.register(dst) else {
            return Step::Fault(Reason::UnsetRegister);
        };
        let Some(value) = self.register(src) else {
            return Step::Fault(Reason::UnsetRegister);
        };
        let Value::Pointer(region, at) = base else {
            return Step::Fault(Reason::OperandKind);
        };
        if !may_store(size, at, off, value) {
            return Step::Fault(Reason::OperandKind);
        }
        match self.location(size, off, Value::Pointer(region, at)) {
            Some(Location::Frame(depth, first)) => {
                self.advance();
                match value {
                    Value::Number(number) => self.store_number(size, depth, first, number),
                    Value::Pointer(stored, from) => self.store_pointer(depth, first, stored, from),
                }
                Step::Moved
            }
            Some(Location::Context(_at)) => Step::Fault(Reason::ContextWrite),
            None => Step::Fault(Reason::OutOfBounds),
        }
    }
}
