//! The flaws at a slot, told in the order of their numbers.

use crate::flaws::{CONDITIONS, Flaws};
use crate::known::SpelledInsn;
use crate::listing::{write_edges, write_function, write_instruction, write_label};
use crate::pass::Observer;
use crate::reach::SlotRange;
use crate::sight::Sight;
use crate::source::SourceLines;
use crate::standing::{label_flaws, last_slot, standing_flaws, start_flaws};
use crate::whole::write_whole;
use crate::words::{
    Handings, Silence, tell, tell_function, tell_handed, tell_label, tell_mixed, tell_silence,
    tell_start,
};
use bpf_cert::{Function, MAX_FUNCTIONS};
use bpf_check::{Index, Refusal, Standing, see_start, standing_at};
use bpf_insn::{Code, Insn};
use bpf_state::{Condition, State, StateFault, Work, unset_register};
use bpf_streams::Tell;

/// Of how many registers it is told why nothing is known.
const CAUSES: u32 = 16;

/// What is written of a program.
#[derive(Clone, Copy)]
pub enum View {
    /// The listing, with the flaws where they are.
    Listing,
    /// The flaws alone.
    List,
    /// One instruction, with its flaws.
    Slot(u32),
    /// The listing of states without budgets, with the flaw of one instruction.
    Sketch(Option<Refusal>),
    /// One instruction with its states, without budgets and flaws.
    Glimpse(u32),
    /// The flaw of one instruction alone.
    Reason(Refusal),
}

impl View {
    /// Whether budgets are told.
    pub fn has_budgets(self) -> bool {
        !matches!(self, View::Sketch(_) | View::Glimpse(_) | View::Reason(_))
    }

    /// Whether instructions are listed, with flaws behind them.
    fn is_listing(self) -> bool {
        matches!(self, View::Listing | View::Sketch(_))
    }
}

/// Slots at which no state is known, for one reason and without another flaw.
#[derive(Clone, Copy)]
struct Quiet {
    slots: SlotRange,
    silence: Silence,
}

/// The text that an instruction came from, if it is known, with what stands around it.
fn write_source<W: Tell>(out: &mut W, before: &str, behind: &str, lines: &SourceLines<'_>) {
    let text = lines.text();
    if !text.is_empty() {
        write!(out, "{before}{text}{behind}");
    }
}

/// What goes on from slot to slot as a program is told.
#[derive(Drop)]
pub struct ProgramReport<'a, 'o, C: Code, W: Tell> {
    program: &'a C,
    certificate: &'a Index<'a>,
    view: View,
    out: &'o mut W,
    /// What was told last of each place.
    shown: State,
    /// Room for a label's state.
    room: State,
    /// Why no state goes on.
    silence: Silence,
    quiet: Option<Quiet>,
    /// The calls that hand frame pointers over, once they are looked for.
    handings: Option<Handings>,
    /// Of how many registers it may still be told why nothing is known.
    causes: u32,
    /// Where the instructions came from.
    lines: SourceLines<'a>,
}

impl<'a, 'o, C: Code, W: Tell> ProgramReport<'a, 'o, C, W> {
    /// Nothing is told yet.
    pub fn new(
        program: &'a C,
        certificate: &'a Index<'a>,
        view: View,
        lines: &'a [u8],
        out: &'o mut W,
    ) -> Self {
        ProgramReport {
            program,
            certificate,
            view,
            out,
            shown: State::blank(),
            room: State::blank(),
            silence: Silence::Start,
            quiet: None,
            handings: None,
            causes: CAUSES,
            lines: SourceLines::of(lines),
        }
    }

    /// What a flaw's line begins with.
    fn begin(&mut self, condition: Condition, slot: u32, insn: Option<Insn>) {
        let number = condition.number();
        if self.view.is_listing() {
            return write!(self.out, "     ! C{number}: ");
        }
        write!(self.out, "C{number} at slot {slot}");
        if let Some(insn) = insn {
            let text = SpelledInsn(insn);
            write!(self.out, ", {text}");
        }
        self.out.say(": ");
    }

    /// Tells a flaw of the instruction at a slot, with the source's line, unless that stands above.
    fn tell_visit(&mut self, sight: &Sight<'_, C>, condition: Condition) {
        self.begin(condition, sight.site.here.slot, Some(sight.site.insn));
        match condition {
            Condition::FallsOff if sight.is_never => tell_silence(self.out, self.silence),
            _ => tell(self.out, sight, condition),
        }
        if let Condition::State(StateFault::UnsetRegister) = condition {
            self.tell_cause(sight);
        }
        if !self.view.is_listing() {
            write_source(self.out, "; from ", "", &self.lines);
        }
        self.out.say("\n");
    }

    /// Tells why nothing is known of a register that is read, if the function was handed a frame pointer in it, or ways meet that
    /// have a pointer and a number in it; of so many registers in all, since each may take passes over the program.
    fn tell_cause(&mut self, sight: &Sight<'_, C>) {
        let Some(reg) = unset_register(&sight.site.insn, &sight.before) else {
            return;
        };
        if self.causes == 0 {
            return;
        }
        self.causes -= 1;
        tell_mixed(self.out, sight, reg, self.certificate);
        if self.handings.is_none() {
            self.handings = Some(Handings::of(self.program, self.certificate));
        }
        if let Some(handings) = &self.handings {
            tell_handed(self.out, sight, reg, handings);
        }
    }

    /// Tells a flaw of the certificate's beginning, if it has it.
    fn tell_beginning(&mut self, condition: Condition) {
        let seen = see_start(self.certificate, &mut self.room, &mut Work::new());
        if start_flaws(&seen).has(condition) {
            self.begin(condition, 0, None);
            tell_start(self.out, self.certificate, &seen, condition);
            self.out.say("\n");
        }
    }

    /// What stands at a slot, by a number from 0 on: None behind the last.
    fn standing_at(&mut self, slot: u32, number: usize) -> Option<Standing<'a>> {
        standing_at(self.program, self.certificate, slot, number, &mut self.room)
    }

    /// Tells a flaw of a function's label at a slot, if it has it.
    fn tell_label(&mut self, slot: u32, standing: &Standing<'a>, condition: Condition) {
        let Some(seen) = &standing.label else {
            return;
        };
        if label_flaws(seen).has(condition) {
            self.begin(condition, slot, None);
            tell_label(
                self.out,
                self.program,
                self.certificate,
                standing,
                condition,
            );
            self.out.say("\n");
        }
    }

    /// Tells that a function has no label where it begins.
    fn tell_function(&mut self, slot: u32, function: &Function) {
        self.begin(Condition::Misshapen, slot, None);
        tell_function(self.out, function);
        self.out.say("\n");
    }

    /// Tells a flaw of the functions and labels at a slot.
    fn tell_standing(&mut self, slot: u32, condition: Condition) {
        for number in 0..MAX_FUNCTIONS {
            let Some(standing) = self.standing_at(slot, number) else {
                break;
            };
            if standing.lacks_label && matches!(condition, Condition::Misshapen) {
                self.tell_function(slot, standing.function);
            }
            self.tell_label(slot, &standing, condition);
        }
    }

    /// Which conditions fail at the start.
    fn flaws_at_start(&mut self) -> Flaws {
        let seen = see_start(self.certificate, &mut self.room, &mut Work::new());
        start_flaws(&seen)
    }

    /// Which conditions fail at a slot, but for those of the instruction there.
    fn flaws_at(&mut self, slot: u32) -> Flaws {
        let mut flaws = if slot == 0 {
            self.flaws_at_start()
        } else {
            Flaws::NONE
        };
        for number in 0..MAX_FUNCTIONS {
            let Some(standing) = self.standing_at(slot, number) else {
                break;
            };
            flaws.add_all(standing_flaws(&standing));
        }
        flaws
    }

    /// Tells all that is wrong at an instruction and at its slot, if something is, and first of the slots that were passed over.
    /// Instructions at which no more is wrong than at an earlier one are passed over, but for one that is shown by itself.
    fn tell_flaws(&mut self, sight: &Sight<'_, C>) {
        let slot = sight.site.here.slot;
        let others = self.flaws_at(slot);
        if others.is_empty() {
            if sight.flaws.is_empty() {
                return;
            }
            let is_silent = sight.is_never && sight.flaws.is_only(Condition::FallsOff);
            match self.view {
                View::List if is_silent => return self.pass_over(slot),
                View::Listing if is_silent => return,
                _ => {}
            }
        }
        self.tell_quiet();
        for number in 1..=CONDITIONS {
            if let Some(condition) = Condition::numbered(number) {
                self.tell_flaw(sight, others, condition);
            }
        }
    }

    /// Tells of a condition that it fails at the start, at an instruction, or at what else stands at its slot, where it does.
    fn tell_flaw(&mut self, sight: &Sight<'_, C>, others: Flaws, condition: Condition) {
        let slot = sight.site.here.slot;
        if slot == 0 {
            self.tell_beginning(condition);
        }
        if sight.flaws.has(condition) {
            self.tell_visit(sight, condition);
        }
        if others.has(condition) {
            self.tell_standing(slot, condition);
        }
    }

    /// Tells all that is wrong at a slot behind 0 at which no instruction begins, if something is.
    fn tell_bare(&mut self, slot: u32) {
        let flaws = self.flaws_at(slot);
        if flaws.is_empty() {
            return;
        }
        self.tell_quiet();
        for number in 1..=CONDITIONS {
            match Condition::numbered(number) {
                Some(condition) if flaws.has(condition) => self.tell_standing(slot, condition),
                _ => {}
            }
        }
    }

    // ---- slots at which no state is known

    /// Tells of the slots that were passed over.
    fn tell_quiet(&mut self) {
        let Some(Quiet { slots, silence }) = self.quiet else {
            return;
        };
        self.quiet = None;
        let ending = if slots.first == slots.last { "" } else { "s" };
        write!(self.out, "C11 at slot{ending} {slots}: ");
        tell_silence(self.out, silence);
        self.out.say("\n");
    }

    /// Passes over a slot at which no state is known. Those that were passed over for another reason are told.
    fn pass_over(&mut self, slot: u32) {
        let (silence, known) = (self.silence, self.quiet);
        let mut slots = SlotRange {
            first: slot,
            last: slot,
        };
        match known {
            Some(quiet) if quiet.silence == silence => slots.first = quiet.slots.first,
            _ => self.tell_quiet(),
        }
        self.quiet = Some(Quiet { slots, silence });
    }

    /// Notes why no state goes on, if none does.
    fn note_silence(&mut self, sight: &Sight<'_, C>) {
        let slot = sight.site.here.slot;
        match &sight.seen {
            Some(seen) if seen.next.is_live => {}
            Some(_) => self.silence = Silence::Ends(slot),
            None if sight.is_never => {}
            None => self.silence = Silence::Refused(slot),
        }
    }

    // ---- slots

    /// The lines of the functions and labels at a slot.
    fn write_standing(&mut self, slot: u32) {
        for number in 0..MAX_FUNCTIONS {
            let Some(standing) = self.standing_at(slot, number) else {
                break;
            };
            if standing.function.first == slot {
                write_function(self.out, standing.function);
            }
            if let Some(seen) = &standing.label {
                let has_budgets = self.view.has_budgets();
                write_label(self.out, seen.label, has_budgets, &mut self.room);
            }
        }
    }

    /// Tells of a slot at which no instruction begins.
    fn tell_slot(&mut self, slot: u32) {
        if self.view.is_listing() {
            self.write_standing(slot);
        }
        match self.view {
            View::Listing | View::List => self.tell_bare(slot),
            View::Slot(wanted) if wanted == slot => self.tell_bare(slot),
            View::Slot(_) | View::Sketch(_) | View::Glimpse(_) | View::Reason(_) => {}
        }
    }

    /// Tells of the slots from one behind the program on at which labels and functions stand, and of those that were passed over.
    pub fn end(&mut self, from: u32) {
        for slot in from..last_slot(self.certificate).saturating_add(1) {
            self.tell_slot(slot);
        }
        self.tell_quiet();
    }

    /// The lines of an instruction, with those of what stands at its slot.
    fn write_lines(&mut self, sight: &Sight<'_, C>, has_new_line: bool) {
        self.write_standing(sight.site.here.slot);
        if sight.site.here.label.is_some() {
            self.shown.copy_from(&sight.before);
        }
        if has_new_line {
            write_source(self.out, "; ", "\n", &self.lines);
        }
        write_instruction(self.out, sight, &mut self.shown);
        write_edges(self.out, sight, &mut self.shown);
    }

    /// An instruction with the whole states before and behind it.
    fn write_alone(&mut self, sight: &Sight<'_, C>) {
        write_source(self.out, "; ", "\n", &self.lines);
        write_whole(self.out, sight);
    }

    /// Tells a flaw of an instruction, if it is that one's, and it has it.
    fn tell_if(&mut self, sight: &Sight<'_, C>, flaw: Refusal) {
        if flaw.slot == sight.site.here.slot && sight.flaws.has(flaw.condition) {
            self.tell_visit(sight, flaw.condition);
        }
    }

    /// Tells of an instruction what the view shows.
    fn show(&mut self, sight: &Sight<'_, C>) {
        let slot = sight.site.here.slot;
        let has_new_line = self.lines.go_to(slot);
        match self.view {
            View::Listing => {
                self.write_lines(sight, has_new_line);
                self.tell_flaws(sight);
            }
            View::List => self.tell_flaws(sight),
            View::Slot(wanted) if wanted == slot => {
                self.write_alone(sight);
                self.tell_flaws(sight);
            }
            View::Glimpse(wanted) if wanted == slot => self.write_alone(sight),
            View::Sketch(Some(flaw)) => {
                self.write_lines(sight, has_new_line);
                self.tell_if(sight, flaw);
            }
            View::Sketch(None) => self.write_lines(sight, has_new_line),
            View::Reason(flaw) => self.tell_if(sight, flaw),
            View::Slot(_) | View::Glimpse(_) => {}
        }
    }
}

impl<'a, 'o, C: Code, W: Tell> Observer<C> for ProgramReport<'a, 'o, C, W> {
    fn observe(&mut self, sight: &Sight<'_, C>) -> bool {
        self.show(sight);
        self.note_silence(sight);
        if sight.site.insn.slots() > 1 {
            self.tell_slot(sight.site.here.slot.saturating_add(1));
        }
        !self.out.has_failed()
    }
}
