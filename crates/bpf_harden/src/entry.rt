//! What stands at the entries of functions, and at their ends.

use crate::parts::{add_constant, constant, copy, fetch, keep, keep_constant, load, set, skip_if};
use crate::piece::Goal;
use crate::rooms::Room;
use crate::uses::FunctionUses;
use crate::writer::TextWriter;
use bpf_infer_base::{Change, HardenError, get_or, put};
use bpf_insn::{Cond, Insn, Operand, Reg};
use bpf_state::Place;
use std::alloc::AllocError;

impl<'a> TextWriter<'a> {
    /// Puts what stands at the entry of a function.
    pub fn enter(&mut self, function: usize) -> Result<(), AllocError> {
        let uses = self.old.uses(function);
        if function == 0 && self.plan.options.padded {
            self.read_length(uses.first, Reg::R1, Reg::R2)?;
        }
        put(&mut self.entries, function, Some(self.at));
        if function == 0 {
            self.enter_first(uses)?;
        } else {
            self.enter_called(function, uses)?;
        }
        self.set_turns(function, uses)?;
        if self.plan.of(function).zeroes {
            self.set_zeros(uses, self.rooms.room(function))?;
        }
        if self.plan.of(function).clears {
            self.add(uses.first, set(Reg::R0, 0), Change::Result)?;
        }
        Ok(())
    }

    /// Keeps the context's start, and the end of a block's packet, whose length is in r2, and makes r1 an offset.
    fn enter_first(&mut self, uses: FunctionUses) -> Result<(), AllocError> {
        if !self.plan.offsets {
            return Ok(());
        }
        let room = self.rooms.room(0);
        self.keep_handed(uses.first, room.base, Reg::R1, Change::Base)?;
        if self.plan.options.padded {
            self.keep_end(uses.first, Reg::R2, room)?;
        }
        let start = self.plan.start().cast_unsigned();
        self.add(uses.first, set(Reg::R1, start), Change::Base)
    }

    /// Keeps the context's start that a function is handed, and the end of a block's packet, which it reads where it isn't handed that.
    fn enter_called(&mut self, function: usize, uses: FunctionUses) -> Result<(), AllocError> {
        let room = self.rooms.room(function);
        let Some(handed) = room.handed else {
            return Ok(());
        };
        self.keep_handed(uses.first, room.base, handed, Change::Base)?;
        if let (Some(end), Some(handed_end)) = (room.end, room.handed_end) {
            return self.keep_handed(uses.first, Some(end), handed_end, Change::Length);
        }
        if self.plan.options.padded {
            // Nothing that a function is called with stands in r0.
            self.read_length(uses.first, handed, Reg::R0)?;
            self.keep_end(uses.first, Reg::R0, room)?;
        }
        Ok(())
    }

    /// Keeps what a register holds in a place, if that is another one.
    fn keep_handed(
        &mut self,
        slot: u32,
        place: Option<Place>,
        handed: Reg,
        change: Change,
    ) -> Result<(), AllocError> {
        match place {
            Some(place) if place != Place::Register(handed) => {
                self.add(slot, keep(place, handed), change)
            }
            _ => Ok(()),
        }
    }

    /// Puts the length of a block's packet into a register: as many bytes as the block tells, or all that it has room for.
    fn read_length(&mut self, slot: u32, context: Reg, length: Reg) -> Result<(), AllocError> {
        let room = self.plan.length.saturating_sub(self.plan.options.head());
        let most = constant(i64::from(room));
        self.add(slot, load(length, context, 0), Change::Length)?;
        self.add(slot, skip_if(Cond::Le, length, most), Change::Length)?;
        self.add(slot, set(length, u64::from(room)), Change::Length)
    }

    /// Keeps the offset at which a block's packet ends.
    fn keep_end(&mut self, slot: u32, length: Reg, room: Room) -> Result<(), AllocError> {
        let more = constant(self.plan.start());
        match room.end {
            Some(Place::Register(end)) => {
                self.add(slot, copy(end, length), Change::Length)?;
                self.add(slot, add_constant(end, more), Change::Length)
            }
            Some(end) => {
                self.add(slot, copy(Reg::R0, length), Change::Length)?;
                self.add(slot, add_constant(Reg::R0, more), Change::Length)?;
                self.add(slot, keep(end, Reg::R0), Change::Length)
            }
            None => Ok(()),
        }
    }

    /// Sets the counters of a function's loops.
    fn set_turns(&mut self, function: usize, uses: FunctionUses) -> Result<(), AllocError> {
        let sharing = self.rooms.room(function).sharing;
        let each = i64::from(self.plan.options.turns);
        let turns = constant(each.saturating_mul(i64::from(sharing.max(1))));
        for slot in uses.first..uses.end {
            if let Some(counter) = self.rooms.counter(slot) {
                self.add(uses.first, keep_constant(counter, turns), Change::Turns)?;
                if sharing > 0 {
                    break;
                }
            }
        }
        Ok(())
    }

    /// Sets the counter of the loop with this head anew, if it is the loop's own.
    pub fn renew_turns(&mut self, slot: u32, head: u32) -> Result<(), AllocError> {
        match self.rooms.own_counter(head) {
            Some(counter) => {
                let turns = constant(i64::from(self.plan.options.turns));
                self.add(slot, keep_constant(counter, turns), Change::Turns)
            }
            None => Ok(()),
        }
    }

    /// Sets the bytes of the frame to zero that a function uses.
    fn set_zeros(&mut self, uses: FunctionUses, room: Room) -> Result<(), AllocError> {
        for number in 1..65u8 {
            if u32::from(number) <= room.frame / 8 {
                let insn = keep_constant(Place::Slot(number), 0);
                self.add(uses.first, insn, Change::Zero)?;
            }
        }
        Ok(())
    }

    /// Puts the trap of a function, if something leads to it.
    pub fn end_with_trap(&mut self, function: usize) -> Result<(), AllocError> {
        if !get_or(&self.is_trapped, function, false) {
            return Ok(());
        }
        let uses = self.old.uses(function);
        put(&mut self.traps, function, Some(self.at));
        let answer = match self.rooms.room(function).spare {
            Some(spare) => set(Reg::R0, i64::from(spare).cast_unsigned()),
            None => set(Reg::R0, self.plan.options.otherwise),
        };
        self.add(uses.first, answer, Change::Trap)?;
        self.add(uses.first, Insn::Exit, Change::Trap)
    }

    /// Puts a call: hands on the context's start and the end of a block's packet, and tests whether the function came back from its trap.
    pub fn call(&mut self, slot: u32, insn: Insn, callee: usize) -> Result<(), HardenError> {
        let caller = self.rooms.room(self.old.function(slot));
        let called = self.rooms.room(callee);
        let handed = called.handed.filter(|_handed| called.base.is_some());
        if let (Some(base), Some(handed)) = (caller.base, handed) {
            self.add(slot, fetch(handed, base), Change::Handed)?;
        }
        if let (Some(end), Some(handed)) = (caller.end, called.handed_end) {
            self.add(slot, fetch(handed, end), Change::Handed)?;
        }
        self.put(slot, insn, Goal::Entry(callee), None)?;
        if let (true, Some(spare)) = (called.traps, called.spare) {
            let src = Operand::Imm(spare);
            self.trap_if(slot, Cond::Eq, Reg::R0, src, Change::Returned)?;
        }
        Ok(())
    }
}
