//! The budgets of a function's labels while they are looked for, and what they leave paths to pay.

use crate::draft::Price;
use crate::paths::{Path, Paths};
use bpf_cert::{Function, MAX_TERMS};
use bpf_infer_base::{Counter, LinearTerm, NumberSpan, get_or, put, said, tight_number};
use bpf_state::{Entries, RegState, Tag};
use std::alloc::{AllocError, Global};

/// A term of the budget at a label: what its place counts there, and the number of its weight.
#[derive(Clone, Copy)]
pub struct Part {
    pub counter: Counter,
    pub weight: usize,
}

/// The terms of a budget.
pub type BudgetTerms = [Option<Part>; MAX_TERMS];

/// Budgets of a function's labels.
#[derive(Drop)]
pub struct FunctionBudgets<'a> {
    pub alloc: Global,
    pub function: &'a Function,
    pub paths: &'a Paths,
    /// By labels.
    parts: Vec<BudgetTerms>,
    /// How often what is counted is counted.
    weights: Vec<i128>,
    /// By labels.
    pub bases: Vec<i128>,
}

impl<'a> FunctionBudgets<'a> {
    /// Budgets of base 0 without terms.
    pub fn new(
        alloc: Global,
        function: &'a Function,
        paths: &'a Paths,
    ) -> Result<FunctionBudgets<'a>, AllocError> {
        let count = function.labels.len();
        Ok(FunctionBudgets {
            alloc,
            function,
            paths,
            parts: vec![in alloc; [None; MAX_TERMS]; count]?,
            weights: Vec::new(alloc),
            bases: vec![in alloc; 0; count]?,
        })
    }

    /// The slot of a label.
    pub fn slot(&self, label: usize) -> u32 {
        let labels = &self.function.labels;
        labels
            .get(label)
            .map_or(self.function.first, |label| label.slot)
    }

    /// What is known at a label.
    pub fn known(&self, label: usize) -> Option<&Entries> {
        Some(&self.function.labels.get(label)?.state)
    }

    /// What the number in a place may be at a label.
    pub fn span(&self, label: usize, number: usize) -> NumberSpan {
        NumberSpan::of_number(
            self.known(label)
                .and_then(|known| tight_number(known, number)),
        )
    }

    /// What a label says of a place.
    pub fn said(&self, label: usize, number: usize) -> RegState {
        self.known(label)
            .map_or(RegState::Any, |known| said(known, number))
    }

    /// The base of a label's budget.
    pub fn base(&self, label: usize) -> i128 {
        get_or(&self.bases, label, 0)
    }

    /// The terms of a label's budget.
    pub fn parts(&self, label: usize) -> BudgetTerms {
        get_or(&self.parts, label, [None; MAX_TERMS])
    }

    /// The term of a label's budget that counts a place.
    pub fn part(&self, label: usize, number: usize) -> Option<Part> {
        let mut parts = self.parts.get(label)?.iter().flatten();
        parts.find(|part| part.counter.number() == number).copied()
    }

    /// Whether a place is counted at a label.
    pub fn is_counted(&self, label: usize, number: usize) -> bool {
        self.part(label, number).is_some()
    }

    /// Puts terms in the place of a label's.
    pub fn set_parts(&mut self, label: usize, parts: BudgetTerms) {
        put(&mut self.parts, label, parts);
    }

    /// Adds a term to a label's, if there are fewer than four.
    pub fn add_part(&mut self, label: usize, added: Part) {
        let mut parts = self.parts(label);
        if let Some(part) = parts.iter_mut().find(|part| part.is_none()) {
            *part = Some(added);
        }
        self.set_parts(label, parts);
    }

    // ---- weights

    /// A new weight. Its number.
    pub fn add_weight(&mut self, weight: i128) -> Result<usize, AllocError> {
        let number = self.weights.len();
        self.weights.push(weight)?;
        Ok(number)
    }

    /// The weight with a number.
    pub fn weight(&self, number: usize) -> i128 {
        get_or(&self.weights, number, 0)
    }

    /// Sets the weight with a number.
    pub fn set_weight(&mut self, number: usize, weight: i128) {
        put(&mut self.weights, number, weight);
    }

    /// What a term gives by what its place holds.
    pub fn line(&self, part: Part) -> LinearTerm {
        LinearTerm::of(part.counter, self.weight(part.weight))
    }

    // ---- what a path has to pay beside bases

    /// How much of an old term's place the new terms on a path take, less what the old one gives, at the greatest.
    fn taken(&self, path: &Path, old: Part, parts: &BudgetTerms) -> i128 {
        let mut line = LinearTerm::ZERO.minus(self.line(old));
        for part in parts.iter().flatten() {
            if let Some(tag) = self.source(path, *part) {
                if tag.term as usize == old.counter.number() {
                    line = line.plus(self.line(*part).moved(tag.offset));
                }
            }
        }
        line.greatest(self.span(path.from, old.counter.number()))
    }

    /// Where a new term's place comes from, if that is the place of an old term.
    fn source(&self, path: &Path, part: Part) -> Option<Tag> {
        let tag = self.paths.held(path, part.counter.number())?.source?;
        self.is_counted(path.from, tag.term as usize).then_some(tag)
    }

    /// What a new term takes on a path beside the old places, at the greatest.
    fn free(&self, path: &Path, part: Part) -> i128 {
        if self.source(path, part).is_some() {
            return 0;
        }
        let held = self.paths.held(path, part.counter.number());
        self.line(part)
            .greatest(held.map_or(NumberSpan::ALL, |held| held.span))
    }

    /// What the base at the start of a path has to pay beside the one at its end: its cost, and what terms take more than
    /// terms give.
    pub fn length(&self, path: &Path) -> i128 {
        let parts = path.to.map_or([None; MAX_TERMS], |to| self.parts(to));
        let (old, new) = (self.parts(path.from).into_iter(), parts.into_iter());
        let taken = old.flatten().map(|old| self.taken(path, old, &parts));
        let free = new.flatten().map(|part| self.free(path, part));
        taken
            .chain(free)
            .fold(path.cost, |sum, more| sum.saturating_add(more))
    }

    // ---- the whole budget

    /// What a call of the function costs.
    pub fn price(&self) -> Price {
        Price {
            base: self.base(0),
            lines: self.parts(0).map(|part| {
                part.map(|part| (part.counter.number(), self.line(part)))
            }),
        }
    }

    /// The greatest budget at a label.
    pub fn greatest(&self, label: usize) -> i128 {
        let greatest = |part: Part| {
            let span = self.span(label, part.counter.number());
            self.line(part).greatest(span)
        };
        let terms = self.parts(label).into_iter().flatten().map(greatest);
        terms.fold(self.base(label), |sum, more| sum.saturating_add(more))
    }
}
