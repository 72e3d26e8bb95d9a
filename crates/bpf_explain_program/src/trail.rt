//! Where what registers hold comes from, since the last label: local value numbering (Cocke and Schwartz, Programming Languages
//! and Their Compilers, 1970) over moves and sums, without states.

use arrayvec::ArrayVec;
use bpf_insn::{AluOp, Code, Cond, Insn, Operand, REGISTERS, Reg, Width};

/// A value and a constant, as `r3 + 8`.
#[derive(Clone, Copy)]
pub struct Sum {
    /// The number of the value: up to 10 what the register with this number held at the label, else what an instruction gave.
    value: u32,
    pub offset: i64,
    /// Whether it is the sum in its low 32 bits alone.
    pub is_short: bool,
    /// The tests that were made of this very copy, each a bit.
    tested: u32,
}

/// A register as the instruction at a slot takes it: as an operand of a sum of two registers, or to test it.
#[derive(Clone, Copy)]
pub struct RegisterUse {
    pub slot: u32,
    pub reg: Reg,
    pub sum: Sum,
}

impl Default for RegisterUse {
    fn default() -> Self {
        RegisterUse {
            slot: 0,
            reg: Reg::R0,
            sum: Sum::of(0),
        }
    }
}

/// What a register holds.
#[derive(Clone, Copy)]
pub struct Held {
    pub sum: Sum,
    /// The two whose sum it is, but for a constant.
    pub parts: [Option<RegisterUse>; 2],
    /// The slot of the 64-bit 0 that it is computed from.
    pub zero: Option<u32>,
}

/// What registers hold, and which of them were tested.
#[derive(Drop)]
pub struct Trail {
    held: [Held; REGISTERS],
    /// The tests by which a register is above or below something.
    tests: ArrayVec<RegisterUse, 32>,
}

/// The number of the value that the instruction at a slot gives a register.
fn value_at(slot: u32, reg: Reg) -> u32 {
    slot.saturating_add(1)
        .saturating_mul(16)
        .saturating_add(u32::from(reg as u8))
}

/// Whether a test tells what is above and what below.
fn is_order(cond: Cond) -> bool {
    !matches!(cond, Cond::Eq | Cond::Ne | Cond::Set)
}

impl Sum {
    /// A value, and no constant.
    fn of(value: u32) -> Sum {
        Sum {
            value,
            offset: 0,
            is_short: false,
            tested: 0,
        }
    }

    /// The register that held the value at the label.
    pub fn register_before(self) -> Option<Reg> {
        if self.value <= 10 {
            Some(Reg::numbered(self.value as u8))
        } else {
            None
        }
    }
}

impl Held {
    /// A value of which no more is known.
    fn of(value: u32) -> Held {
        Held {
            sum: Sum::of(value),
            parts: [None, None],
            zero: None,
        }
    }

    /// Keeps what an operation of a width keeps.
    fn cut(&mut self, width: Width) {
        if let Width::W32 = width {
            self.sum.is_short = true;
            self.parts = [None, None];
            self.zero = None;
        }
    }
}

impl Trail {
    /// At a label.
    pub fn new() -> Self {
        let mut held = [Held::of(0); REGISTERS];
        for number in 0..REGISTERS {
            held[number] = Held::of(number as u32);
        }
        let tests = ArrayVec::new();
        Trail { held, tests }
    }

    /// From the label at a slot to the instruction at another one, over instructions that each follow the one before.
    pub fn between<C: Code>(program: &C, label: u32, slot: u32) -> Self {
        let mut trail = Trail::new();
        for at in label..slot {
            if let Some(insn) = program.insn(at) {
                trail.follow(at, &insn);
            }
        }
        trail
    }

    /// What a register holds.
    pub fn held(&self, reg: Reg) -> Held {
        self.held.get(reg as usize).copied().unwrap_or(Held::of(0))
    }

    /// A register as the instruction at a slot takes it.
    pub fn used(&self, slot: u32, reg: Reg) -> RegisterUse {
        let sum = self.held(reg).sum;
        RegisterUse { slot, reg, sum }
    }

    /// Lets a register hold something.
    fn set(&mut self, reg: Reg, held: Held) {
        if let Some(place) = self.held.get_mut(reg as usize) {
            *place = held;
        }
    }

    /// A move of a register.
    fn copy(&mut self, dst: Reg, src: Reg, width: Width) {
        let mut held = self.held(src);
        held.cut(width);
        self.set(dst, held);
    }

    /// A sum with a constant.
    fn shift(&mut self, dst: Reg, by: i64, width: Width) {
        let mut held = self.held(dst);
        held.sum.offset = held.sum.offset.saturating_add(by);
        held.cut(width);
        self.set(dst, held);
    }

    /// A sum of two registers. Of one that is such a sum itself the number that was added last stands for it.
    fn join(&mut self, slot: u32, dst: Reg, src: Reg) {
        let (left, right) = (self.held(dst), self.held(src));
        let (own, added) = (self.used(slot, dst), self.used(slot, src));
        let mut sum = Held::of(value_at(slot, dst));
        sum.parts = [left.parts[1].or(Some(own)), Some(added)];
        sum.zero = left.zero.or(right.zero);
        self.set(dst, sum);
    }

    /// A test of a register.
    fn test(&mut self, slot: u32, reg: Reg) {
        let mut held = self.held(reg);
        let number = self.tests.len();
        let test = self.used(slot, reg);
        if number < 32 && self.tests.try_push(test).is_ok() {
            held.sum.tested |= 1 << number;
            self.set(reg, held);
        }
    }

    /// An operation on registers and constants.
    fn operate(&mut self, slot: u32, op: AluOp, width: Width, dst: Reg, src: Operand) {
        match (op, src, width) {
            (AluOp::Mov, Operand::Reg(src), _) => self.copy(dst, src, width),
            (AluOp::Add, Operand::Imm(by), _) => self.shift(dst, i64::from(by), width),
            (AluOp::Sub, Operand::Imm(by), _) => {
                self.shift(dst, 0i64.saturating_sub(i64::from(by)), width);
            }
            (AluOp::Add, Operand::Reg(src), Width::W64) => self.join(slot, dst, src),
            _ => self.give(slot, dst),
        }
    }

    /// The instruction at a slot gives a register a value of which no more is known.
    fn give(&mut self, slot: u32, reg: Reg) {
        self.set(reg, Held::of(value_at(slot, reg)));
    }

    /// A 64-bit constant.
    fn load_constant(&mut self, slot: u32, dst: Reg, value: u64) {
        let mut held = Held::of(value_at(slot, dst));
        if value == 0 {
            held.zero = Some(slot);
        }
        self.set(dst, held);
    }

    /// A call changes r0 to r5.
    fn forget_called(&mut self, slot: u32) {
        for number in 0..6u8 {
            self.give(slot, Reg::numbered(number));
        }
    }

    /// Follows an instruction to the next one.
    pub fn follow(&mut self, slot: u32, insn: &Insn) {
        match *insn {
            Insn::Alu {
                op,
                width,
                dst,
                src,
            } => self.operate(slot, op, width, dst, src),
            Insn::LoadImm64 { dst, value } => self.load_constant(slot, dst, value),
            Insn::CallLocal { off: _off } => self.forget_called(slot),
            Insn::JumpIf { cond, .. } => {
                if is_order(cond) {
                    for reg in insn.registers_read().into_iter().flatten() {
                        self.test(slot, reg);
                    }
                }
            }
            Insn::Neg { .. }
            | Insn::MovSx { .. }
            | Insn::End { .. }
            | Insn::Load { .. }
            | Insn::LoadSx { .. }
            | Insn::Store { .. }
            | Insn::StoreImm { .. }
            | Insn::Atomic { .. }
            | Insn::Ja { .. }
            | Insn::JaLong { .. }
            | Insn::Exit => {
                if let Some(reg) = insn.register_written() {
                    self.give(slot, reg);
                }
            }
        }
    }

    /// The last test of a value that a part has, too, which was made of another copy.
    pub fn test_beside(&self, part: RegisterUse) -> Option<RegisterUse> {
        let mut found = None;
        let mut bit = 1u32;
        for test in self.tests.iter() {
            if test.sum.value == part.sum.value && part.sum.tested & bit == 0 {
                found = Some(*test);
            }
            bit = bit.wrapping_mul(2);
        }
        found
    }
}
