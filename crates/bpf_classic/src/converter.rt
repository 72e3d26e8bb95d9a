//! The program of a filter.

ghost use Rattle.std.specs.Prelude.{◌≡◌, ◌≤◌, ◌+◌, ◌-◌, ◌⊎◌, length, map, true, IfOk, IfErr};
ghost use Rattle.bpf_insn.specs.Limits.{max_context};
ghost use Rattle.bpf_classic.specs.Valid.{max_filter};
ghost use Rattle.bpf_classic.specs.Template.{entry, whole, from_on, IsTable};
ghost use Rattle.bpf_classic.specs.Flow.{all_turn};
ghost use Rattle.bpf_classic.specs.Meaning.{insns, program_of, IsConverted, HasStarts, KeepsAnswers};
ghost use Rattle.bpf_classic.specs.declared.refusal.FilterRefusal.TheVariants.{Memory, Unshown};

use crate::filter::Filter;
use crate::flow::{all_turn, is_sound, reads_a, reads_x, uses_trap};
use crate::instruction::Classic;
use crate::laws::conversion_keeps_answers;
use crate::layout::{Annotated, Layout, Wanted};
use crate::marks::{annotate, set_backs};
use crate::refusal::FilterRefusal;
use crate::ways::from_on;
use crate::writing::{put_entry, put_templates, slots_from};
use bpf_insn::{BuildError, Insn, Program};
use std::alloc::{AllocError, Global};
use std::marker::Model;

/// A filter's program, and what is known of it.
#[derive(Drop)]
pub struct Converted {
    program: Program,
    layout: Layout,
    list: Vec<Annotated>,
    starts: Vec<u16>,
}

impl Model for Converted {
    ghost use Rattle.bpf_classic.specs.Meaning.{Conversion};

    ghost Value = { Conversion };

    ghost view = { λ c. record { program = c.program; layout = c.layout; marked = c.list.items; starts = c.starts.items } };
}

/// Whether an instruction may read A before anything has set it.
fn reads_unset_a(list: &[Annotated]) -> bool {
    for a in list {
        if a.reached && reads_a(&a.insn) && !a.a {
            return true;
        }
    }
    false
}

/// Whether an instruction may read X before anything has set it.
fn reads_unset_x(list: &[Annotated]) -> bool {
    for a in list {
        if a.reached && reads_x(&a.insn) && !a.x {
            return true;
        }
    }
    false
}

/// Whether a template leads to the exit that answers 0.
fn needs_trap(layout: &Layout, list: &[Annotated]) -> bool {
    for a in list {
        if uses_trap(layout, a) {
            return true;
        }
    }
    false
}

/// Whether a run may jump back.
fn has_loop(list: &[Annotated]) -> bool {
    for a in list {
        if a.reached && matches!(a.insn, Classic::Back { .. }) {
            return true;
        }
    }
    false
}

/// The same layout with zeros in A and in X at the entry, or without.
fn with_zeros(layout: &Layout, zero_a: bool, zero_x: bool) -> Layout
    ensures length { result.length ≡ layout.now.length }
    ensures form { result.form ≡ layout.now.form }
    ensures order { result.order ≡ layout.now.order }
    ensures turns { result.turns ≡ layout.now.turns }
{
    let mut new = *layout;
    new.zero_a = zero_a;
    new.zero_x = zero_x;
    new
}

/// The same layout with the exit that answers 0 and with the count of turns, or without.
fn with_ends(layout: &Layout, trap: bool, loops: bool) -> Layout
    ensures length { result.length ≡ layout.now.length }
    ensures form { result.form ≡ layout.now.form }
    ensures order { result.order ≡ layout.now.order }
    ensures turns { result.turns ≡ layout.now.turns }
{
    let mut new = *layout;
    new.trap = trap;
    new.loops = loops;
    new
}

/// The instructions with what is known of them, and the layout with zeros at the entry where A or X may be read unset.
fn annotated(
    alloc: Global,
    filter: &[Classic],
    layout: &Layout,
) -> Result<(Layout, Vec<Annotated>), AllocError>
    requires few { length filter.now ≤ max_filter }
    requires short { layout.now.length ≤ max_context }
    ensures length { IfOk result (λ r. r.0.length ≡ layout.now.length) }
    ensures form { IfOk result (λ r. r.0.form ≡ layout.now.form) }
    ensures order { IfOk result (λ r. r.0.order ≡ layout.now.order) }
    ensures turns { IfOk result (λ r. r.0.turns ≡ layout.now.turns) }
    ensures same { IfOk result (λ r. insns r.1.items ≡ filter.now) }
{
    let list = annotate(alloc, filter, layout)?;
    let zeros = with_zeros(layout, reads_unset_a(&list), reads_unset_x(&list));
    if !zeros.zero_a && !zeros.zero_x {
        return finished(alloc, filter, &zeros, list);
    }
    let again = annotate(alloc, filter, &zeros)?;
    finished(alloc, filter, &zeros, again)
}

/// The instructions with how far each jump back leads, and the layout with what the program needs besides.
fn finished(
    alloc: Global,
    filter: &[Classic],
    zeros: &Layout,
    list: Vec<Annotated>,
) -> Result<(Layout, Vec<Annotated>), AllocError>
    requires few { length filter.now ≤ max_filter }
    requires short { zeros.now.length ≤ max_context }
    requires same { insns list.items ≡ filter.now }
    ensures length { IfOk result (λ r. r.0.length ≡ zeros.now.length) }
    ensures form { IfOk result (λ r. r.0.form ≡ zeros.now.form) }
    ensures order { IfOk result (λ r. r.0.order ≡ zeros.now.order) }
    ensures turns { IfOk result (λ r. r.0.turns ≡ zeros.now.turns) }
    ensures same { IfOk result (λ r. insns r.1.items ≡ filter.now) }
{
    let mut list = list;
    let layout = with_ends(zeros, needs_trap(zeros, &list), has_loop(&list));
    if layout.loops {
        let table = slots_from(alloc, &layout, &list)?;
        set_backs(&mut list, &table);
    }
    Ok((layout, list))
}

/// The program of a filter, for contexts of `wanted.length` bytes in a form: from 0 to 4,096, of blocks at least 8 (with extensions 72), of
/// seccomp 64. On each such context it ends with what the filter answers, within the longest way through it; with 0 where the filter's
/// run jumps back more often than `wanted.turns`. `Memory` if memory runs out; `Unshown` if what was found to hold in front of the instructions
/// doesn't agree, or their templates are no program, of which no case is known.
pub fn convert(alloc: Global, filter: &Filter, wanted: Wanted) -> Result<Converted, FilterRefusal>
    requires { wanted.length ≤ max_context }
    ensures converted { IfOk result (λ c. IsConverted filter.now.kind filter.now.list c.layout c.marked c.program) }
    ensures answers { IfOk result (λ c. KeepsAnswers filter.now.list c.layout c.program) }
    ensures starts { IfOk result (λ c. HasStarts c.layout c.marked c.starts) }
    ensures form { IfOk result (λ c. c.layout.form ≡ wanted.form) }
    ensures length { IfOk result (λ c. c.layout.length ≡ wanted.length) }
    ensures order { IfOk result (λ c. c.layout.order ≡ wanted.order) }
    ensures turns { IfOk result (λ c. c.layout.turns ≡ wanted.turns) }
    ensures err { IfErr result (λ e. (e ≡ Memory) ⊎ (e ≡ Unshown)) }
{
    conversion_keeps_answers();
    let layout = Layout {
        form: wanted.form,
        length: wanted.length,
        order: wanted.order,
        turns: wanted.turns,
        trap: false,
        zero_a: false,
        zero_x: false,
        loops: false,
    };
    let instructions = filter.instructions();
    let Ok((layout, list)) = annotated(alloc, instructions, &layout) else {
        return Err(FilterRefusal::Memory);
    };
    if !is_sound(&layout, &list) {
        return Err(FilterRefusal::Unshown);
    }
    written(alloc, layout, list)
}

/// The whole program, and how many slots its entry has.
fn put_all(
    alloc: Global,
    layout: &Layout,
    list: &[Annotated],
    table: &[u16],
) -> Result<(Vec<Insn>, usize), AllocError>
    requires few { length list.now ≤ max_filter }
    requires short { layout.now.length ≤ max_context }
    requires table { IsTable layout.now list.now table.now }
    ensures whole { IfOk result (λ r. r.0.items ≡ whole layout.now list.now) }
    ensures entry { IfOk result (λ r. r.1 ≡ length (entry layout.now list.now)) }
{
    let mut out = Vec::with_capacity(alloc, usize::from(from_on(table, 0)) + 24)?;
    put_entry(&mut out, layout, list)?;
    let first = out.len();
    put_templates(&mut out, layout, list, table)?;
    Ok((out, first))
}

/// The program of instructions that are marked, with what is known of it.
fn written(alloc: Global, layout: Layout, list: Vec<Annotated>) -> Result<Converted, FilterRefusal>
    requires few { length list.items ≤ max_filter }
    requires short { layout.length ≤ max_context }
    ensures program { IfOk result (λ c. c.program ≡ program_of layout list.items) }
    ensures layout { IfOk result (λ c. c.layout ≡ layout) }
    ensures marked { IfOk result (λ c. c.marked ≡ list.items) }
    ensures starts { IfOk result (λ c. HasStarts layout list.items c.starts) }
    ensures turns { IfOk result (λ _. all_turn layout list.items list.items ≡ true) }
    ensures err { IfErr result (λ e. (e ≡ Memory) ⊎ (e ≡ Unshown)) }
{
    let Ok(table) = slots_from(alloc, &layout, &list) else {
        return Err(FilterRefusal::Memory);
    };
    if !all_turn(&layout, &list, &table) {
        return Err(FilterRefusal::Unshown);
    }
    let Ok((out, first)) = put_all(alloc, &layout, &list, &table) else {
        return Err(FilterRefusal::Memory);
    };
    let Ok(starts) = starts_of(alloc, &table, first) else {
        return Err(FilterRefusal::Memory);
    };
    match Program::new(alloc, out, layout.order) {
        Ok(program) => Ok(Converted {
            program,
            layout,
            list,
            starts,
        }),
        Err(BuildError::Memory) => Err(FilterRefusal::Memory),
        Err(BuildError::Length | BuildError::NoEncoding { .. } | BuildError::Target { .. }) => {
            Err(FilterRefusal::Unshown)
        }
    }
}

/// The slot at which the template of each instruction begins.
fn starts_of(alloc: Global, table: &[u16], first: usize) -> Result<Vec<u16>, AllocError>
    requires { first ≤ 22 }
    ensures { IfOk result (λ starts. starts.items ≡ map (λ slots. first + (from_on table.now 0 - slots)) table.now) }
{
    let mut starts = Vec::with_capacity(alloc, table.len())?;
    for slots in table {
        starts.push(first as u16 + from_on(table, 0).saturating_sub(*slots))?;
    }
    Ok(starts)
}

impl Converted {
    ghost use Rattle.std.specs.Prelude.{◌≡◌};

    /// The program.
    pub fn program(&self) -> &Program
        ensures { result.now ≡ self.now.program }
    {
        &self.program
    }

    /// The form and length of its contexts.
    pub fn layout(&self) -> &Layout
        ensures { result.now ≡ self.now.layout }
    {
        &self.layout
    }

    /// The instructions of the filter, with what is known in front of each.
    pub fn list(&self) -> &[Annotated]
        ensures { result.now ≡ self.now.marked }
    {
        &self.list
    }

    /// The slot at which the template of each instruction begins.
    pub fn starts(&self) -> &[u16]
        ensures { result.now ≡ self.now.starts }
    {
        &self.starts
    }
}
