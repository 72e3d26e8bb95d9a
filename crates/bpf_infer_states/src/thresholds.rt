//! Thresholds of the widening (Blanchet and others 2003, `widen.rt`): the numbers at which the bounds of a loop's
//! states may stop.

use bpf_infer_base::{Stops, WRITABLE, compared, held, join, join_register, join_slots};
use bpf_insn::{Insn, Operand, Reg};
use bpf_state::{RegState, State};
use std::alloc::{AllocError, Global};

/// How many rows of stops there are: one for each register that a program may write, and one for all else.
const ROWS: usize = WRITABLE + 1;

/// The most bounds of one register's operands that are kept.
const MOST_LEARNED: usize = 64;

/// Stops of all registers, however few a loop compares with.
const ALWAYS: [i64; 7] = [-(1 << 31), -1, 0, 1, (1 << 31) - 1, (1 << 32) - 1, i64::MAX];

/// A number that a register is compared with.
#[derive(Clone, Copy, PartialEq)]
struct Compared {
    register: usize,
    number: i64,
}

/// What the conditional jumps of a loop compare registers with, and the stops made of it.
#[derive(Drop)]
pub struct Thresholds {
    alloc: Global,
    compared: Vec<Compared>,
    /// The bounds of operands among them.
    operands: Vec<Compared>,
    /// By registers, how many these are.
    learned: [usize; ROWS],
    /// By registers; empty until a bound is moved. The last ones are for all else.
    stops: Vec<Option<Stops>>,
}

/// How far a bound that moved is moved on.
#[derive(Clone, Copy)]
pub enum WideningReach {
    /// Not at all.
    Nowhere,
    /// To the next stop.
    Stop,
    /// To the extreme.
    Extreme,
}

impl Thresholds {
    /// Those of no jumps.
    pub fn new(alloc: Global) -> Thresholds {
        Thresholds {
            alloc,
            compared: Vec::new(alloc),
            operands: Vec::new(alloc),
            learned: [0; ROWS],
            stops: Vec::new(alloc),
        }
    }

    /// Adds a length of contexts, for all that isn't compared with anything.
    pub fn add_length(&mut self, length: u32) -> Result<(), AllocError> {
        self.add(WRITABLE, length as i64)
    }

    /// A register is compared with a number.
    fn add(&mut self, register: usize, number: i64) -> Result<(), AllocError> {
        self.compared.push(Compared { register, number })?;
        Ok(())
    }

    /// Takes note of the constants in a jump.
    pub fn add_constant(&mut self, insn: &Insn) -> Result<(), AllocError> {
        if let Some((dst, Operand::Imm(imm))) = compared(insn) {
            let register = dst as usize;
            self.add(register, imm as i64)?;
            if imm < 0 {
                self.add(register, imm.cast_unsigned() as i64)?;
            }
        }
        Ok(())
    }

    /// Takes note of what the registers of a jump are when it is met.
    pub fn learn(&mut self, insn: &Insn, state: &State) -> Result<(), AllocError> {
        if let Some((dst, Operand::Reg(src))) = compared(insn) {
            self.learn_bounds(dst, state.reg(src))?;
            self.learn_bounds(src, state.reg(dst))?;
        }
        Ok(())
    }

    /// Takes note of the bounds of a number that a register is compared with.
    fn learn_bounds(&mut self, r: Reg, operand: RegState) -> Result<(), AllocError> {
        let RegState::Num(number) = operand else {
            return Ok(());
        };
        let register = r as usize;
        let bounds = number.unsigned();
        for bound in [bounds.lo(), bounds.hi()] {
            self.learn_number(register, bound.cast_signed())?;
        }
        Ok(())
    }

    /// Takes note of a bound, each once, and of at most 64 of a register.
    fn learn_number(&mut self, register: usize, number: i64) -> Result<(), AllocError> {
        let known = Compared { register, number };
        let Some(learned) = self.learned.get_mut(register) else {
            return Ok(());
        };
        if *learned >= MOST_LEARNED || self.operands.contains(&known) {
            return Ok(());
        }
        *learned = learned.saturating_add(1);
        self.operands.push(known)?;
        self.add(register, number)
    }

    /// A register's stops; None if nothing is compared with it. Those for all else have all that is compared.
    fn stops_of(&self, register: usize) -> Result<Option<Stops>, AllocError> {
        let mut stops = Stops::new(self.alloc);
        let mut has_any = false;
        for compared in self.compared.as_slice() {
            if compared.register == register || register >= WRITABLE {
                has_any = true;
                stops.add(compared.number)?;
            }
        }
        if !has_any && register < WRITABLE {
            return Ok(None);
        }
        for number in ALWAYS {
            stops.add_alone(number)?;
        }
        stops.sort()?;
        Ok(Some(stops))
    }

    /// Makes the stops, once.
    fn settle(&mut self) -> Result<(), AllocError> {
        if !self.stops.is_empty() {
            return Ok(());
        }
        for register in 0..ROWS {
            let stops = self.stops_of(register)?;
            self.stops.push(stops)?;
        }
        Ok(())
    }

    /// The stops of a register, else those for all else.
    fn stops_at(&self, register: usize) -> Option<&Stops> {
        held(&self.stops, register).or(held(&self.stops, WRITABLE))
    }

    /// Makes a state one that another lies in too, with bounds that move moved on.
    pub fn widen(
        &mut self,
        old: &mut State,
        new: &State,
        reach: WideningReach,
    ) -> Result<(), AllocError> {
        match reach {
            WideningReach::Nowhere => join(old, new, None),
            WideningReach::Stop => {
                self.settle()?;
                self.join_each(old, new);
            }
            WideningReach::Extreme => join(old, new, Some(&Stops::new(self.alloc))),
        }
        Ok(())
    }

    /// Makes a state one that another lies in too, each register with its stops.
    fn join_each(&self, old: &mut State, new: &State) {
        for i in 0..WRITABLE {
            let r = Reg::numbered(i as u8);
            let stops = self.stops_at(i);
            old.set_reg(r, join_register(old.reg(r), new.reg(r), stops));
        }
        join_slots(old, new, self.stops_at(WRITABLE));
    }
}
