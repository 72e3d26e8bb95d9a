//! The paths from each label of a function to the labels behind it.

use crate::draft::{LabelledFunctions, Price};
use bpf_cert::{Function, Label};
use bpf_infer_base::{
    Arc, BlockEdge, Blocks, CalledFunction, Graph, InferError, NumberSpan, PLACES, SlotFailure,
    Task, Visitor, get_or, load, number_at, number_in, place, said, tag_own,
};
use bpf_insn::{Insn, Reg};
use bpf_state::{RegState, State, Tag, enter};
use std::alloc::AllocError;

/// What a place holds at the end of a path. Its source is the place that held it at the start, less an offset.
#[derive(Clone, Copy)]
pub struct PlaceMove {
    number: usize,
    pub span: NumberSpan,
    pub source: Option<Tag>,
}

/// A path from a label to the next one on it, or to an EXIT: how many instructions it takes, those of called functions
/// included.
#[derive(Clone, Copy)]
pub struct Path {
    pub number: usize,
    pub from: usize,
    pub to: Option<usize>,
    pub cost: i128,
    held_from: usize,
    held_to: usize,
}

/// The paths of a function, by the labels that they leave.
#[derive(Drop)]
pub struct Paths {
    /// From label to label.
    pub blocks: Blocks,
    /// The paths from label to label.
    pub graph: Graph,
    list: Vec<Path>,
    /// What places hold at the ends of the paths, if their labels say that it is a number.
    held: Vec<PlaceMove>,
    /// By labels, the number of the first path that leaves this one or a later one.
    starts: Vec<usize>,
}

impl Paths {
    /// How many there are.
    pub fn count(&self) -> usize {
        self.list.len()
    }

    /// The path with a number.
    pub fn at(&self, number: usize) -> Option<&Path> {
        self.list.get(number)
    }

    /// The paths that leave a label.
    pub fn leaving(&self, label: usize) -> &[Path] {
        let start = number_in(&self.starts, label);
        let end = number_in(&self.starts, label.saturating_add(1));
        self.list.get(start..end).unwrap_or(&[])
    }

    /// What a place holds at the end of a path, if its label says that it is a number.
    pub fn held(&self, path: &Path, number: usize) -> Option<&PlaceMove> {
        let held = self.held.get(path.held_from..path.held_to)?;
        held.iter().find(|held| held.number == number)
    }

    /// Where the number in a place comes from on a path.
    pub fn source(&self, path: usize, number: usize) -> Option<Tag> {
        let path = self.at(path)?;
        self.held(path, number)?.source
    }
}

/// A walk over a function, and what it came to.
#[derive(Drop)]
struct Walker<'a> {
    functions: &'a [Function],
    function: &'a Function,
    /// What is known to be the price of each function so far; nothing where it isn't known.
    prices: &'a [Price],
    list: Vec<Path>,
    held: Vec<PlaceMove>,
    starts: Vec<usize>,
    /// The cost since the last label.
    cost: i128,
}

/// Tags each number with its place.
fn tag_all(state: &mut State) {
    for i in 0..PLACES {
        if number_at(state, i).is_some() {
            tag_own(state, i);
        }
    }
}

impl<'a> Walker<'a> {
    /// I1 at the function's first slot: a state of the function doesn't lie in the one that it leads to.
    fn unstable(&self) -> InferError {
        InferError::Unstable {
            slot: self.function.first,
        }
    }

    /// Takes note of what the places hold that a label says a number of.
    fn note(&mut self, state: &State, label: &Label) -> Result<(), AllocError> {
        for number in 0..PLACES {
            if let RegState::Num(_) = said(&label.state, number) {
                self.held.push(PlaceMove {
                    number,
                    span: NumberSpan::of(state, number),
                    source: state.tag(place(number)),
                })?;
            }
        }
        Ok(())
    }

    /// Ends a path at which so much is held as was noted since.
    fn end(&mut self, from: usize, to: Option<usize>, held_from: usize) -> Result<(), AllocError> {
        let number = self.list.len();
        self.list.push(Path {
            number,
            from,
            to,
            cost: self.cost,
            held_from,
            held_to: self.held.len(),
        })?;
        Ok(())
    }

    /// Goes from a label to the labels behind it. I4 (C11) at an instruction on the path that isn't reached.
    fn walk(
        &mut self,
        task: &Task,
        number: usize,
        label: &Label,
        room: &mut State,
    ) -> Result<(), InferError> {
        if !load(&label.state, room) {
            return Err(self.unstable());
        }
        tag_all(room);
        self.cost = 0;
        match task.walk(number, room, self)? {
            Ok(reached) if reached < task.blocks.block_end(number) => {
                Err(SlotFailure::falls_off(reached).refusal())
            }
            Ok(_) => Ok(()),
            Err(fault) => Err(fault.refusal()),
        }
    }

    /// Goes from each of the function's labels to those behind it.
    fn walk_all(&mut self, task: &Task) -> Result<(), InferError> {
        let function = self.function;
        let mut room = State::blank();
        for (number, label) in function.labels.iter().enumerate() {
            self.walk(task, number, label, &mut room)?;
            self.starts.push(self.list.len())?;
        }
        Ok(())
    }
}

impl<'a> Visitor for Walker<'a> {
    type Stop = InferError;

    fn before(&mut self, _slot: u32, _insn: &Insn, _state: &State) -> Result<(), InferError> {
        self.cost = self.cost.saturating_add(1);
        Ok(())
    }

    /// I1 where the state does not lie in what the label says.
    fn edge(&mut self, edge: BlockEdge, state: &State) -> Result<(), InferError> {
        let function = self.function;
        let Some(label) = function.labels.get(edge.to) else {
            return Err(self.unstable());
        };
        if !state.entails_entries(&label.state) {
            return Err(self.unstable());
        }
        let held_from = self.held.len();
        self.note(state, label)?;
        self.end(edge.from, Some(edge.to), held_from)?;
        Ok(())
    }

    /// I1 where the state does not lie in the one that the function begins in.
    fn call(&mut self, callee: CalledFunction, state: &State) -> Result<(), InferError> {
        let mut entry = state.copy();
        enter(&mut entry);
        let lies_in = self
            .functions
            .get(callee.function)
            .and_then(|called| called.labels.first())
            .is_some_and(|label| entry.entails_entries(&label.state));
        if !lies_in {
            return Err(self.unstable());
        }
        let price = get_or(self.prices, callee.function, Price::NONE);
        self.cost = self.cost.saturating_add(price.greatest(state));
        Ok(())
    }

    /// I1 where r0 is not what the function is said to return.
    fn exit(&mut self, from: usize, state: &State) -> Result<(), InferError> {
        if !state.reg(Reg::R0).entails(RegState::Num(self.function.ret)) {
            return Err(self.unstable());
        }
        let held_from = self.held.len();
        self.end(from, None, held_from)?;
        Ok(())
    }
}

/// The paths of a function. I1 if a state on one doesn't lie in its label's, I4 at an instruction that is refused or not
/// reached.
pub fn paths_of(
    draft: LabelledFunctions,
    number: usize,
    function: &Function,
    prices: &[Price],
) -> Result<Paths, InferError> {
    let (alloc, blocks) = (draft.whole.alloc, draft.blocks(number, function)?);
    let mut walker = Walker {
        functions: draft.functions,
        function,
        prices,
        list: Vec::new(alloc),
        held: Vec::new(alloc),
        starts: vec![in alloc; 0]?,
        cost: 0,
    };
    walker.walk_all(&draft.task(&blocks))?;
    let arc_of = |path: &Path| Some(Arc::numbered(path.from, path.to?, path.number));
    let arcs = walker.list.iter().filter_map(arc_of).collect(alloc)?;
    Ok(Paths {
        blocks,
        graph: Graph::of(alloc, function.labels.len(), arcs)?,
        list: walker.list,
        held: walker.held,
        starts: walker.starts,
    })
}
