//! What a certificate says.

use crate::error::CertError;
use crate::header::Header;
use crate::limits::{is_canonical, is_canonical_state, is_limited};
use arrayvec::ArrayVec;
use bpf_insn::Reg;
use bpf_num::Num;
use bpf_state::{Entries, Place, State};
use std::alloc::Global;
use std::marker::Model;

/// A number that falls as a loop runs.
#[derive(Clone, Copy, Debug, PartialEq, Eq)]
pub enum Measure {
    /// The place's unsigned value.
    Down(Place),
    /// The limit minus the place's unsigned value.
    Up(Place, u64),
}

/// A part of a budget: a weight, from 1 to 2^20, times a measure.
#[derive(Clone, Copy, Debug, PartialEq, Eq)]
pub struct Term {
    pub weight: u32,
    pub measure: Measure,
}

impl Default for Term {
    ghost use Rattle.std.specs.Prelude.{◌≡◌};
    ghost use Rattle.bpf_insn.specs.declared.instruction.Reg.TheVariants.{R0};
    ghost use Rattle.bpf_state.specs.declared.known.Place.TheVariants.{Register};
    ghost use Rattle.bpf_cert.specs.declared.certificate.Measure.TheVariants.{Down};

    /// The least weight, times r0.
    fn default() -> Term
        ensures { result ≡ record { weight = 1; measure = Down (Register R0) } }
    {
        Term {
            weight: 1,
            measure: Measure::Down(Place::Register(Reg::R0)),
        }
    }
}

/// How many instructions may still be done: the base, from 0 to 2^40, and each term's weight times its measure.
#[derive(Debug, Drop)]
pub struct Budget {
    pub base: u64,
    /// By their places: registers rise, then slots.
    pub terms: ArrayVec<Term, 4>,
}

/// What holds at a slot of the program each time that it is reached, and the budget there.
#[derive(Debug, Drop)]
pub struct Label {
    /// From 0 to 65,535.
    pub slot: u32,
    /// In an entry for each place of which something is known.
    pub state: Entries,
    pub budget: Budget,
}

impl Label {
    ghost use Rattle.std.specs.Prelude.{◌≡◌, IfOk, IfErr, if◌then◌else◌};
    ghost use Rattle.bpf_cert.specs.declared.error.CertError.TheVariants.{Memory, NotCanonical};
    ghost use Rattle.bpf_cert.specs.View.{label_view};
    ghost use Rattle.bpf_cert.specs.Limits.{is_canonical_state};

    /// The label of a state. K2, at line 0, if the state has a tag or its r10 isn't at the frame's end; K4 if memory runs
    /// out.
    pub fn new(alloc: Global, slot: u32, state: &State, budget: Budget) -> Result<Label, CertError>
        ensures ok { IfOk result (λ l. label_view l ≡ record { slot = slot; state = state.now; base = budget.base; terms = budget.terms.items }) }
        ensures err { IfErr result (λ e. e ≡ (if is_canonical_state state.now then Memory else NotCanonical 0)) }
    {
        state.valid();
        if !is_canonical_state(state) {
            return Err(CertError::NotCanonical { line: 0 });
        }
        match Entries::of(alloc, state) {
            Ok(state) => Ok(Label {
                slot,
                state,
                budget,
            }),
            Err(_) => Err(CertError::Memory),
        }
    }
}

/// A function of the program, from its first slot to the next function's first.
#[derive(Debug, Drop)]
pub struct Function {
    /// From 0 to 65,535.
    pub first: u32,
    /// Above the depth of each function that it calls, from 1 to 8.
    pub depth: u32,
    /// What it returns.
    pub ret: Num,
    /// By their slots, at least one.
    pub labels: Vec<Label>,
}

/// A claim about a program: it ends, and does no wrong, on each context whose length lies in a range.
#[derive(Debug, Drop)]
pub struct Certificate {
    header: Header,
    functions: Vec<Function>,
}

impl Model for Certificate {
    ghost use Rattle.bpf_cert.specs.View.{CertificateView, certificate_view};
    ghost use Rattle.bpf_cert.specs.Limits.{IsCertificate};

    ghost Value = { CertificateView };

    ghost view = { λ c. certificate_view c.header.version c.header.least c.header.most c.header.steps c.functions.items };

    ghost invariant = { λ c. IsCertificate (certificate_view c.header.version c.header.least c.header.most c.header.steps c.functions.items) };
}

impl Certificate {
    ghost use Rattle.std.specs.Prelude.{◌≡◌, map, IfOk, IfErr, Some, None};
    ghost use Rattle.bpf_cert.specs.View.{certificate_view, certificate_of, header_of, function_view};
    ghost use Rattle.bpf_cert.specs.Limits.{IsCertificate, refusal_of};

    /// The certificate of its parts: the version, 1 or 2; the least and the greatest length of a context in bytes, from
    /// 0 to 4,096 and in version 1 the same; the greatest number of steps, from 1 to 2^32 - 1; and 1 to 256 functions by
    /// their firsts, with at most 65,536 labels. K2, at line 0, if parts are out of order; else K3 past a limit.
    pub fn new(
        version: u32,
        least: u32,
        most: u32,
        steps: u32,
        functions: Vec<Function>,
    ) -> Result<Certificate, CertError>
        ensures ok { IfOk result (λ c. c ≡ certificate_view version least most steps functions.items) }
        ensures certificate { IfOk result (λ c. IsCertificate c) }
        ensures err { IfErr result (λ e. refusal_of (certificate_view version least most steps functions.items) ≡ Some e) }
    {
        let header = Header {
            version,
            least,
            most,
            steps,
        };
        if !is_canonical(&functions) {
            return Err(CertError::NotCanonical { line: 0 });
        }
        if !is_limited(header, &functions) {
            return Err(CertError::Limit { line: 0 });
        }
        Ok(Certificate { header, functions })
    }

    /// The certificate of parts that are in their order and within the limits.
    pub(crate) fn of_parts(header: Header, functions: Vec<Function>) -> Certificate
        requires { IsCertificate (certificate_of header (map function_view functions.items)) }
        ensures { result ≡ certificate_of header (map function_view functions.items) }
    {
        Certificate { header, functions }
    }

    /// What its first line says.
    pub(crate) fn header(&self) -> Header
        ensures { result ≡ header_of self.now }
    {
        self.header
    }

    /// The version of its text: 1, or 2, which may speak of a range of lengths.
    pub fn version(&self) -> u32
        ensures { result ≡ self.now.version }
    {
        self.header.version
    }

    /// The least length in bytes of the contexts that it speaks of, from 0 to 4,096.
    pub fn least(&self) -> u32
        ensures { result ≡ self.now.least }
    {
        self.header.least
    }

    /// The greatest length in bytes of the contexts that it speaks of, from the least to 4,096.
    pub fn most(&self) -> u32
        ensures { result ≡ self.now.most }
    {
        self.header.most
    }

    /// The greatest number of instructions that a run may take, from 1 to 2^32 - 1.
    pub fn steps(&self) -> u32
        ensures { result ≡ self.now.steps }
    {
        self.header.steps
    }

    /// The functions, by their first slots.
    pub fn functions(&self) -> &[Function]
        ensures { map function_view result.now ≡ self.now.functions }
    {
        &self.functions
    }

    /// A certificate is in its order and within the limits.
    pub fn valid(&self)
        ensures { IsCertificate self.now }
    {
        let _steps = self.header.steps;
    }
}
