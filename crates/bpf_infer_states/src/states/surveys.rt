//! What the states of a program say of all its instructions, also where one is refused.

ghost use Rattle.std.specs.Prelude.{◌≤◌};

use crate::states::Analysis;
use bpf_cert::Function;
use bpf_infer_base::{
    BlockEdge, CalledFunction, ForeseenCondition, InferError, LabelState, Meter, SlotFailure, Task,
    Visitor, Watch, get_or, held, load_at, put, vacant,
};
use bpf_insn::{Insn, Reg};
use bpf_num::Num;
use bpf_state::{RegState, State};
use std::alloc::{AllocError, Global};

/// What is known of the registers before an instruction.
type RegisterSight = Option<Box<[RegState; 11]>>;

/// What was found of a program's instructions.
#[derive(Drop)]
pub struct Survey {
    alloc: Global,
    /// By slots, of those that are reached.
    sights: Vec<RegisterSight>,
    /// By slots, the conditions that fail.
    faults: Vec<Option<ForeseenCondition>>,
    /// By functions' numbers, whether one is called from what is reached.
    called: Vec<bool>,
    /// By labels of the function that is gone over, whether one was met.
    met: Vec<bool>,
    /// Labels that were met and are still to be gone over.
    waiting: Vec<usize>,
    /// What each function returns, by their numbers.
    pub rets: Vec<Num>,
    /// The functions with their labels, each with a budget of 0, if no instruction is refused.
    pub draft: Option<Vec<Function>>,
}

impl Visitor for Survey {
    type Stop = AllocError;

    fn before(&mut self, slot: u32, _insn: &Insn, state: &State) -> Result<(), AllocError> {
        let mut registers = [RegState::Any; 11];
        for i in 0..11u8 {
            registers[i as usize] = state.reg(Reg::numbered(i));
        }
        let sight = Box::new(self.alloc, registers)?;
        put(&mut self.sights, slot as usize, Some(sight));
        Ok(())
    }

    fn edge(&mut self, edge: BlockEdge, _state: &State) -> Result<(), AllocError> {
        self.meet(edge.to)
    }

    fn call(&mut self, callee: CalledFunction, _state: &State) -> Result<(), AllocError> {
        put(&mut self.called, callee.function, true);
        Ok(())
    }

    fn fault(&mut self, fault: SlotFailure) {
        put(&mut self.faults, fault.slot as usize, Some(fault.condition));
    }
}

impl Survey {
    /// Nothing of so many slots and functions.
    fn new(alloc: Global, slots: usize, functions: usize) -> Result<Survey, AllocError> {
        Ok(Survey {
            alloc,
            sights: vacant(alloc, slots)?,
            faults: vec![in alloc; None; slots]?,
            called: vec![in alloc; false; functions]?,
            met: Vec::new(alloc),
            waiting: Vec::new(alloc),
            rets: Vec::new(alloc),
            draft: None,
        })
    }

    /// Whether an instruction at a slot is reached.
    pub fn is_reached(&self, slot: u32) -> bool {
        held(&self.sights, slot as usize).is_some()
    }

    /// What is known of a register before the instruction at a slot; nothing where it isn't reached.
    pub fn register(&self, slot: u32, r: Reg) -> RegState {
        match held(&self.sights, slot as usize) {
            Some(sight) => sight[r as usize],
            None => RegState::Any,
        }
    }

    /// The bounds of a register before the instruction at a slot, if it holds a number.
    pub fn bounds(&self, slot: u32, r: Reg) -> Option<(u64, u64)> {
        let number = self.register(slot, r).number()?.unsigned();
        Some((number.lo(), number.hi()))
    }

    /// The condition of the checker that the instruction at a slot fails, if it is reached.
    pub fn fault(&self, slot: u32) -> Option<ForeseenCondition> {
        get_or(&self.faults, slot as usize, None)
    }

    /// The lowest slot that is reached at which a condition fails.
    pub fn lowest_fault(&self) -> Option<u32> {
        let slot = self.faults.iter().position(|fault| fault.is_some())?;
        u32::try_from(slot).ok()
    }

    /// Takes note of a label that is met for the first time.
    fn meet(&mut self, label: usize) -> Result<(), AllocError> {
        if !get_or(&self.met, label, true) {
            put(&mut self.met, label, true);
            self.waiting.push(label)?;
        }
        Ok(())
    }

    /// Goes over the labels of a function that are reached.
    fn visit(&mut self, task: Task, states: &[LabelState]) -> Result<(), AllocError> {
        self.met = vec![in self.alloc; false; task.blocks.count()]?;
        self.waiting = Vec::new(self.alloc);
        let mut room = State::blank();
        self.meet(0)?;
        for _ in 0..task.blocks.count() {
            let Some(label) = self.waiting.pop() else {
                break;
            };
            if load_at(states, label, &mut room) {
                let _reached = task.walk(label, &mut room, self)?;
            }
        }
        Ok(())
    }
}

impl<'a> Analysis<'a> {
    /// Takes note of what the states of all that is reached say.
    fn surveyed(&self) -> Result<Survey, AllocError> {
        let slots = self.whole.program.slots() as usize;
        let mut survey = Survey::new(self.whole.alloc, slots, self.judged.len())?;
        put(&mut survey.called, 0, true);
        for function in &self.whole.cfg.callers_first {
            if get_or(&survey.called, *function, false) {
                if let Some(judged) = held(&self.judged, *function) {
                    survey.visit(self.task(&judged.blocks), &judged.states)?;
                }
            }
        }
        survey.rets.extend_from_slice(&self.rets)?;
        Ok(survey)
    }
}

/// What the states of a program say of the instructions that are reached, and what comes of them where none is refused. I1 at a
/// function whose states don't settle.
pub fn surveyed<W: Watch>(task: Task, meter: &mut Meter<'_, W>) -> Result<Survey, InferError>
    requires { task.least ≤ task.most }
{
    let mut analysis = Analysis::new(task.tolerant())?;
    if let Err(stop) = analysis.settle(&task.start(), meter) {
        return Err(stop.error);
    }
    let mut survey = analysis.surveyed()?;
    if analysis.fault().is_none() {
        analysis.keep_all_live()?;
        survey.draft = Some(analysis.functions()?);
    }
    Ok(survey)
}
