//! The terms of a budget, from their text.

ghost use Rattle.std.specs.Prelude.{◌≡◌, ◌++◌, ◌∷◌, ◌&&◌, [], List, nat_lt, map, true, option_map, Some, IfOk};
ghost use Rattle.std.specs.List.{list_all};
ghost use Rattle.bpf_cert.specs.Line.{Term as TermText, is_term};
ghost use Rattle.bpf_cert.specs.Reading.{measure_in, term_in};
ghost use Rattle.bpf_cert.specs.Faults.{is_limited_term};
ghost use Rattle.bpf_cert.specs.Limits as limits;
ghost use Rattle.bpf_cert.specs.code.Findings.{found, valued};
ghost use Rattle.bpf_cert.specs.Spelling.{term_of};
ghost use Rattle.bpf_cert.specs.code.Seen.{place_seen, measure_seen, term_seen};
ghost use Rattle.bpf_cert.specs.code.TermSums.{IsTermSum, is_plain_term, MayFollow, are_canonical_terms, are_limited_terms, terms_in};

use crate::certificate::{Measure, Term};
use crate::decimal::{HUGE, is_numeral, is_plain, number};
use crate::fields::cut;
use crate::finding::{PartFault, joined, tested};
use crate::limits::MAX_WEIGHT;
use crate::place::{PlaceForm, is_before, is_limited_place, is_plain_place, place, place_value};
use arrayvec::ArrayVec;
use bpf_streams::behind;

/// A term, with the limit of a measure that rises.
#[derive(Clone, Copy)]
pub struct TermForm<'a> {
    pub weight: &'a [u8],
    pub limit: Option<&'a [u8]>,
    pub place: PlaceForm<'a>,
}

// The limit, of a measure that rises, and the place.
fn measure(text: &[u8]) -> Option<(Option<&[u8]>, PlaceForm<'_>)>
    ensures { option_map (λ m. measure_seen m.0 m.1) result ≡ measure_in text.now }
{
    if let Some(place) = place(text) {
        return Some((None, place));
    }
    let inside = behind(text, b"(")?;
    let (limit, rest) = cut(inside, b'-')?;
    if !is_numeral(limit) {
        return None;
    }
    let (name, more) = cut(rest, b')')?;
    let place = place(name)?;
    if more.is_empty() {
        Some((Some(limit), place))
    } else {
        None
    }
}

fn term(text: &[u8]) -> Option<TermForm<'_>>
    ensures { option_map term_seen result ≡ term_in text.now }
{
    let product = behind(text, b"+")?;
    let (weight, rest) = cut(product, b'*')?;
    if !is_numeral(weight) {
        return None;
    }
    let (limit, place) = measure(rest)?;
    Some(TermForm {
        weight,
        limit,
        place,
    })
}

fn is_plain_term(term: TermForm<'_>) -> bool
    ensures { result ≡ is_plain_term (term_seen term.entry) }
{
    let is_plain_limit = match term.limit {
        None => true,
        Some(limit) => is_plain(limit),
    };
    is_plain(term.weight) && is_plain_limit && is_plain_place(term.place)
}

fn is_limited_term(term: TermForm<'_>) -> bool
    ensures { result ≡ is_limited_term (term_seen term.entry) }
{
    let is_limited_limit = match term.limit {
        None => true,
        Some(limit) => number(limit) < HUGE,
    };
    let weight = number(term.weight);
    1 <= weight && weight <= MAX_WEIGHT as u128 && is_limited_limit && is_limited_place(term.place)
}

fn term_value(term: TermForm<'_>) -> Term
    requires form { is_term (term_seen term) ≡ true }
    requires plain { is_plain_term (term_seen term) ≡ true }
    requires limited { is_limited_term (term_seen term) ≡ true }
    ensures spelled { term_of result ≡ term_seen term.entry }
    ensures value { limits.is_limited_term result ≡ true }
{
    let place = place_value(term.place);
    let measure = match term.limit {
        None => Measure::Down(place),
        Some(limit) => Measure::Up(place, number(limit) as u64),
    };
    Term {
        weight: number(term.weight) as u32,
        measure,
    }
}

// Whether the place comes after the last one, and all is spelled plainly.
fn may_follow(last: Option<PlaceForm<'_>>, term: TermForm<'_>) -> bool
    ensures { MayFollow (option_map place_seen last.entry) (term_seen term.entry) result }
{
    if !is_plain_term(term) {
        return false;
    }
    match last {
        None => true,
        Some(last) => is_before(last, term.place),
    }
}

fn has_room(room: u8, term: TermForm<'_>) -> bool
    ensures { result ≡ (nat_lt 0 room && is_limited_term (term_seen term.entry)) }
{
    room > 0 && is_limited_term(term)
}

// What the terms so far say.
#[derive(Drop)]
pub struct Terms<'a> {
    pub found: Result<(), PartFault>,
    pub last: Option<PlaceForm<'a>>,
    // how many more may come
    pub room: u8,
    pub terms: ArrayVec<Term, 4>,
}

impl<'a> Terms<'a> {
    fn new() -> Self
        ensures { IsTermSum [] result }
    {
        Terms {
            found: Ok(()),
            last: None,
            room: 4,
            terms: ArrayVec::new(),
        }
    }

    fn add(&mut self, term: TermForm<'a>)
        requires form { is_term (term_seen term) ≡ true }
        requires sum { (done : List TermText) × IsTermSum done self.old }
        ensures { (done : List TermText) → IsTermSum done self.old → IsTermSum (done ++ term_seen term.entry ∷ []) self.new }
    {
        let canonical = may_follow(self.last, term);
        let limited = has_room(self.room, term);
        let next = tested(canonical, limited);
        self.found = joined(self.found, next);
        self.last = Some(term.place);
        self.room = self.room.saturating_sub(1);
        match self.found {
            Ok(()) => self.terms.push(term_value(term)),
            Err(_) => {}
        }
    }

    fn value(self) -> Result<ArrayVec<Term, 4>, PartFault>
        ensures value { (done : List TermText) → IsTermSum done self.entry → valued (λ v. map term_of v.items) result ≡ found are_canonical_terms are_limited_terms (Some done) }
        ensures kept { (done : List TermText) → IsTermSum done self.entry → IfOk result (λ v. list_all limits.is_limited_term v.items ≡ true) }
    {
        match self.found {
            Ok(()) => Ok(self.terms),
            Err(flaw) => Err(flaw),
        }
    }
}

fn terms_of(text: &[u8]) -> Result<ArrayVec<Term, 4>, PartFault>
    ensures value { valued (λ v. map term_of v.items) result ≡ found are_canonical_terms are_limited_terms (terms_in (Some text.now)) }
    ensures kept { IfOk result (λ v. list_all limits.is_limited_term v.items ≡ true) }
{
    let mut terms = Terms::new();
    let mut rest = text;
    'pieces: while let Some((piece, more)) = cut(rest, b' ') {
        let Some(term) = term(piece) else {
            return Err(PartFault::Syntax);
        };
        terms.add(term);
        rest = more;
    }
    let Some(last) = term(rest) else {
        return Err(PartFault::Syntax);
    };
    terms.add(last);
    terms.value()
}

/// The terms in the text behind a label's base, if there is one.
pub fn all_terms(rest: Option<&[u8]>) -> Result<ArrayVec<Term, 4>, PartFault>
    ensures value { valued (λ v. map term_of v.items) result ≡ found are_canonical_terms are_limited_terms (terms_in (option_map (λ x. x.now) rest.entry)) }
    ensures kept { IfOk result (λ v. list_all limits.is_limited_term v.items ≡ true) }
{
    match rest {
        None => Ok(ArrayVec::new()),
        Some(text) => terms_of(text),
    }
}
