//! The machine: a program, the context that it runs on, and its frames.

ghost use Rattle.std.specs.Prelude.{◌≡◌, ◌<◌, ◌≤◌, ◌+◌, ◌%◌, ◌^◌, [], IsTrue, false, nat_le, pos, ◌+ℤ◌, IfSome, IfOk, IfErr, length, option_map, is_some, IsSome, Some, None};
ghost use Rattle.bpf_insn.specs.Limits.{max_context, max_slots};
ghost use Rattle.bpf_insn.specs.Order.{bytes_of};
ghost use Rattle.bpf_insn.specs.Instruction.{register_number, byte_count, insn_at, distance};
ghost use Rattle.bpf_semantics.specs.declared.value.Value.TheVariants.{Number};
ghost use Rattle.bpf_semantics.specs.State.{frame_bytes, max_frames, depth, start, register, with_register, at_slot, number_of_register};
ghost use Rattle.bpf_semantics.specs.Memory.{inside, location_of, number_at, pointer_at, stack_of, with_stack, with_parts};
ghost use Rattle.bpf_semantics.specs.Step.{alu_result, operand, entered, left};
ghost use Rattle.bpf_semantics.specs.Stuck.{unreadable_at};
ghost use Rattle.bpf_machine.specs.code.Locations.{location_is, IsInside};
ghost use Rattle.bpf_machine.specs.code.Stored.{with_stored};
ghost use Rattle.bpf_semantics.specs.Targets.{LeadsToSlot};
ghost use Rattle.bpf_machine.specs.Running.{running, moved_to};

use crate::registers::{Kept, Registers};
use crate::stack::Stacks;
use arrayvec::ArrayVec;
use bpf_insn::{
    AluOp, Code, FRAME_BYTES, Insn, Operand, Order, Reg, Size, Width, extended, number_in,
};
use bpf_semantics::{Reason, Region, Value};
use std::marker::Model;

/// A location in the context, or in the stack at a depth: the index of its first byte.
#[derive(Clone, Copy)]
pub(crate) enum Location {
    Context(usize),
    Frame(usize, usize),
}

/// The index of the first of some bytes at an offset from the start of the context, if they lie inside.
#[inline(always)]
fn in_context(count: usize, len: usize, at: i64, off: i16) -> Option<usize>
    requires few { count ≤ 8 }
    requires short { len ≤ max_context }
    ensures { result ≡ inside count len (at +ℤ off) }
{
    let first = at.wrapping_add(i64::from(off));
    if first < 0 || first > len as i64 - count as i64 {
        None
    } else {
        Some(first as usize)
    }
}

/// The sum of two offsets.
pub(crate) fn sum_of(at: i64, off: i16) -> i128
    ensures { result ≡ at +ℤ off }
{
    at as i128 + off as i128
}

/// The address of the first of some bytes at an offset from the end of a stack, if they lie inside.
#[inline(always)]
fn in_frame(count: usize, at: i64, off: i16) -> Option<usize>
    requires { count ≤ 8 }
    ensures { result ≡ inside count frame_bytes ((at +ℤ off) +ℤ pos frame_bytes) }
{
    let first = at.wrapping_add(i64::from(off));
    if first < -(FRAME_BYTES as i64) || first > -(count as i64) {
        None
    } else {
        Some((first + FRAME_BYTES as i64) as usize)
    }
}

/// What a call keeps for its return: the slot after it, and r6 to r10.
#[derive(Clone, Copy)]
pub(crate) struct Caller {
    slot: u32,
    kept: Kept,
}

impl Default for Caller {
    fn default() -> Self {
        Caller {
            slot: 0,
            kept: Kept::default(),
        }
    }
}

/// A machine that runs a program on a context.
#[derive(Drop)]
pub struct Machine<'a, C: Code> {
    code: &'a C,
    context: &'a [u8],
    slot: u32,
    registers: Registers,
    callers: ArrayVec<Caller, 7>,
    stacks: Stacks,
}

impl<'a, C: Code> Model for Machine<'a, C> {
    ghost use Rattle.bpf_machine.specs.Running.{Running};

    ghost Value = { Running };

    ghost use Rattle.bpf_machine.specs.code.Frames.{state_of, IsMachine};

    ghost view = { λ m. record { program = C.program m.code.now; state = state_of m.slot m.registers m.callers.items m.stacks m.context.now } };

    ghost invariant = { λ m. IsMachine (C.program m.code.now) m.registers m.callers.items m.stacks m.context.now };
}

#[tactic(auto, unfolding(crate::specs::code::Frames::state_of))]
impl<'a, C: Code> Machine<'a, C> {
    /// The machine at the start of a run: r1 is the context, r2 its length, r10 the end of the outermost frame. The
    /// context has at most 4,096 bytes.
    pub fn start(code: &'a C, context: &'a [u8]) -> Self
        requires { length context.now ≤ max_context }
        ensures { result ≡ running (C.program code.now) (start context.now) }
    {
        let _ = code.slots();
        let mut registers = Registers::new();
        registers.set(Reg::R1, Value::Pointer(Region::Context, 0));
        registers.set_number(Reg::R2, context.len() as u64);
        registers.set(Reg::R10, Value::Pointer(Region::Frame(0), 0));
        Machine {
            code,
            context,
            slot: 0,
            registers,
            callers: ArrayVec::new(),
            stacks: Stacks::new(),
        }
    }

    /// The slot of the next instruction.
    #[inline(always)]
    pub fn slot(&self) -> u32
        ensures { result ≡ self.now.state.top.slot }
    {
        self.slot
    }

    /// The value of a register; None where it holds nothing.
    #[inline(always)]
    pub fn register(&self, r: Reg) -> Option<Value>
        ensures { result ≡ register self.now.state r }
    {
        self.registers.value(r)
    }

    /// The number in a register; None where it holds nothing or a pointer.
    #[inline(always)]
    pub(crate) fn number_of(&self, r: Reg) -> Option<u64>
        ensures { result ≡ number_of_register self.now.state r }
    {
        self.registers.number(r)
    }

    /// The second operand: a constant, sign-extended, or a register's value.
    pub(crate) fn operand(&self, src: Operand) -> Option<Value>
        ensures { result ≡ operand self.now.state src }
    {
        match src {
            Operand::Imm(imm) => Some(Value::Number(extended(imm))),
            Operand::Reg(r) => self.register(r),
        }
    }

    /// Writes a register.
    #[inline(always)]
    pub(crate) fn set_register(&mut self, r: Reg, value: Value)
        ensures { self.new ≡ moved_to self.old (with_register self.old.state (register_number r) (Some value)) }
    {
        self.registers.set(r, value);
    }

    /// Writes a number to a register.
    #[inline(always)]
    pub(crate) fn set_number(&mut self, r: Reg, x: u64)
        ensures { self.new ≡ moved_to self.old (with_register self.old.state (register_number r) (Some (Number x))) }
    {
        self.registers.set_number(r, x);
    }

    /// Writes a number to a register that holds one.
    #[inline(always)]
    pub(crate) fn update_number(&mut self, r: Reg, x: u64)
        requires { IsSome (number_of_register self.old.state r) }
        ensures { self.new ≡ moved_to self.old (with_register self.old.state (register_number r) (Some (Number x))) }
    {
        self.registers.update(r, x);
    }

    /// Adds to what a register holds, a number or the offset of a pointer.
    #[inline(always)]
    pub(crate) fn add_to_register(&mut self, r: Reg, x: u64)
        ensures { self.new ≡ moved_to self.old (with_register self.old.state (register_number r) (alu_result Width.W64 AluOp.Add (register self.old.state r) (Number x))) }
    {
        self.registers.add(r, x);
    }

    /// Whether a register holds a value.
    #[inline(always)]
    pub(crate) fn is_set(&self, r: Reg) -> bool
        ensures { result ≡ is_some (register self.now.state r) }
    {
        self.registers.is_set(r)
    }

    /// Copies what a register holds to another.
    #[inline(always)]
    pub(crate) fn copy_register(&mut self, to: Reg, from: Reg)
        ensures { self.new ≡ moved_to self.old (with_register self.old.state (register_number to) (register self.old.state from)) }
    {
        self.registers.copy(to, from);
    }

    /// Goes to another slot.
    #[inline(always)]
    pub(crate) fn go_to(&mut self, slot: u32)
        ensures { self.new ≡ moved_to self.old (at_slot slot self.old.state) }
    {
        self.slot = slot;
    }

    /// The byte order of the program.
    #[inline(always)]
    pub(crate) fn order(&self) -> Order
        ensures { result ≡ self.now.program.order }
    {
        self.code.order()
    }

    /// The instruction at the slot; None past the last one.
    pub(crate) fn insn(&self) -> Option<Insn>
        ensures insn { result ≡ insn_at self.now.program.list self.now.state.top.slot }
        ensures here { IfSome result (λ i. self.now.state.top.slot < max_slots) }
        ensures led { IfSome result (λ i. IfSome (distance i) (λ off. LeadsToSlot self.now.state.top.slot off)) }
    {
        self.code.insn(self.slot)
    }

    /// Where the bytes at an offset from a pointer lie, if they lie inside the context or a live frame.
    #[inline(always)]
    pub(crate) fn location(&self, size: Size, off: i16, base: Value) -> Option<Location>
        ensures location { option_map location_is result ≡ location_of self.now.state (byte_count size) off base }
        ensures inside { IfSome result (IsInside self.now.state (byte_count size)) }
    {
        let count = usize::from(size.bytes());
        match base {
            Value::Number(_number) => None,
            Value::Pointer(region, at) => match region {
                Region::Context => match in_context(count, self.context.len(), at, off) {
                    Some(first) => Some(Location::Context(first)),
                    None => None,
                },
                Region::Frame(depth) => {
                    if depth as usize > self.callers.len() {
                        return None;
                    }
                    match in_frame(count, at, off) {
                        Some(first) => Some(Location::Frame(depth as usize, first)),
                        None => None,
                    }
                }
            },
        }
    }

    /// The number in the bytes at a location; else why the first that can't be read can't.
    #[inline(always)]
    pub(crate) fn number_at(&self, size: Size, location: Location) -> Result<u64, Reason>
        requires { IsInside self.now.state (byte_count size) location }
        ensures ok { IfOk result (λ x. number_at self.now.program.order self.now.state (byte_count size) (location_is location) ≡ Some x) }
        ensures err { IfErr result (λ reason. unreadable_at self.now.state (byte_count size) (location_is location) ≡ Some reason) }
        ensures fits { IfOk result (λ x. x < 256 ^ byte_count size) }
    {
        match location {
            Location::Context(at) => Ok(number_in(self.code.order(), size, &self.context[at..])),
            Location::Frame(depth, at) => self.stacks.number(depth, self.code.order(), at, size),
        }
    }

    /// The number in the bytes at a location, where they lie in the context, or in one slot and are all a number's.
    #[inline(always)]
    pub(crate) fn number_in_slot(&self, size: Size, location: Location) -> Option<u64>
        requires { IsInside self.now.state (byte_count size) location }
        ensures { IfSome result (λ x. number_at self.now.program.order self.now.state (byte_count size) (location_is location) ≡ Some x) }
    {
        match location {
            Location::Context(at) => Some(number_in(self.code.order(), size, &self.context[at..])),
            Location::Frame(depth, at) => {
                self.stacks
                    .number_in_slot(depth, self.code.order(), at, size)
            }
        }
    }

    /// The pointer that the slot at a location holds, if it is a slot and holds one.
    #[inline(always)]
    pub(crate) fn pointer_at(&self, location: Location) -> Option<Value>
        requires { IsInside self.now.state 8 location }
        ensures { result ≡ pointer_at self.now.state (location_is location) }
    {
        match location {
            Location::Context(_) => None,
            Location::Frame(depth, at) => self.stacks.pointer(depth, at),
        }
    }

    /// Writes the lowest bytes of a number to a live stack.
    #[inline(always)]
    pub(crate) fn store_number(&mut self, size: Size, depth: usize, at: usize, x: u64)
        requires { IsInside self.old.state (byte_count size) (Location.Frame depth at) }
        ensures { self.new ≡ moved_to self.old (with_stored (bytes_of self.old.program.order (byte_count size) x) depth at self.old.state) }
    {
        let order = self.code.order();
        self.stacks.store_number(depth, order, at, size, x);
    }

    /// Makes a slot of a live stack a pointer's.
    #[inline(always)]
    pub(crate) fn store_pointer(&mut self, depth: usize, at: usize, region: Region, off: i64)
        requires inside { IsInside self.old.state 8 (Location.Frame depth at) }
        requires slot { at % 8 ≡ 0 }
        ensures { self.new ≡ moved_to self.old (with_stack self.old.state depth (with_parts region off at (stack_of self.old.state depth))) }
    {
        self.stacks.store_pointer(depth, at, region, off);
    }

    /// Goes on behind an instruction of one slot, with a register written.
    #[inline(always)]
    pub(crate) fn put(&mut self, r: Reg, value: Value)
        requires { self.old.state.top.slot < max_slots }
        ensures { self.new ≡ moved_to self.old (with_register (at_slot (self.old.state.top.slot + 1) self.old.state) (register_number r) (Some value)) }
    {
        self.registers.set(r, value);
        self.slot += 1;
    }

    /// Goes on behind an instruction of one slot.
    #[inline(always)]
    pub(crate) fn advance(&mut self)
        requires { self.old.state.top.slot < max_slots }
        ensures { self.new ≡ moved_to self.old (at_slot (self.old.state.top.slot + 1) self.old.state) }
    {
        self.slot += 1;
    }

    /// Whether all frames are live.
    pub(crate) fn is_full(&self) -> bool
        ensures { result ≡ nat_le max_frames (depth self.now.state + 1) }
    {
        self.callers.is_full()
    }

    /// Calls the instruction at a slot: r1 to r5 stay, and the frame is new. There is room for a frame.
    #[inline(always)]
    pub(crate) fn enter(&mut self, slot: u32)
        requires room { depth self.old.state + 1 < max_frames }
        requires here { self.old.state.top.slot < max_slots }
        ensures { self.new ≡ moved_to self.old (entered self.old.state slot) }
    {
        self.callers.push(Caller {
            slot: self.slot + 1,
            kept: self.registers.kept(),
        });
        let depth = self.callers.len();
        self.stacks.clear(depth);
        self.registers.enter(depth as u8);
        self.slot = slot;
    }

    /// Returns to the caller with a number in r0; false in the outermost frame, and nothing changes.
    #[inline(always)]
    pub(crate) fn leave(&mut self, value: u64) -> bool
        ensures left { IsTrue result → (self.new.program ≡ self.old.program) × (left self.old.state.waiting value self.old.state.context ≡ Some self.new.state) }
        ensures outermost { result ≡ false → (self.new ≡ self.old) × (self.old.state.waiting ≡ []) }
    {
        match self.callers.pop() {
            None => false,
            Some(caller) => {
                self.registers.leave(value, caller.kept);
                self.slot = caller.slot;
                true
            }
        }
    }
}
