//! In which form a program gets what its filter is given, and what is known in front of each instruction.

ghost use Rattle.std.specs.Prelude.{◌≡◌, ◌<◌, ◌≤◌};
ghost use Rattle.bpf_classic.specs.Template.{head, usual_turns, room, known_first, length_offset, is_swapped, is_masked, insn_size, end_bits, need, is_beyond};
ghost use Rattle.bpf_insn.specs.Limits.{max_context};
ghost use Rattle.bpf_classic.specs.Machine.{bytes as bytes_in};

use crate::instruction::{Classic, LoadSize};
use bpf_insn::{EndBits, Order, Size};

/// The form of a context: a block with the packet's length in front, the packet itself, seccomp's `struct seccomp_data`, or a block with the
/// words of Linux's auxiliary data between the length and the packet.
#[derive(Clone, Copy)]
pub enum Form {
    Blocks,
    Plain,
    Seccomp,
    Extended,
}

/// The form, the bytes of a context, the byte order, how often a run may jump back, and what the program needs besides its instructions'
/// templates: the exit that answers 0, zeros in A and in X at the entry, and the count of turns where there are loops.
#[derive(Clone, Copy)]
pub struct Layout {
    pub form: Form,
    pub length: u32,
    pub order: Order,
    pub turns: u16,
    pub trap: bool,
    pub zero_a: bool,
    pub zero_x: bool,
    pub loops: bool,
}

/// What a program is to be like: the form and the length of its contexts, its byte order, and how often a run may jump back.
#[derive(Clone, Copy)]
pub struct Wanted {
    pub form: Form,
    pub length: u32,
    pub order: Order,
    pub turns: u16,
}

/// An instruction, whether a run reaches it, how many bytes of a packet are surely there in front of it, whether A and X are surely
/// set, and over how many slots a jump back leads.
#[derive(Clone, Copy)]
pub struct Annotated {
    pub insn: Classic,
    pub reached: bool,
    pub known: u32,
    pub a: bool,
    pub x: bool,
    pub back: u16,
}

/// The bytes of a context in front of a packet.
pub fn head(form: Form) -> u32
    ensures same { result ≡ head form }
    ensures few { result ≤ 72 }
{
    match form {
        Form::Blocks => 8,
        Form::Extended => 72,
        Form::Plain | Form::Seccomp => 0,
    }
}

/// How often a run may jump back unless it is said: a chain of headers goes on by eight bytes or more each time.
pub fn usual_turns(form: Form, length: u32) -> u16
    requires { length ≤ max_context }
    ensures { result ≡ usual_turns form length }
{
    (length.saturating_sub(head(form)) / 8 + 1) as u16
}

impl Layout {
    /// The most bytes of a packet that can be there.
    pub fn room(&self) -> u32
        ensures same { result ≡ room self.now }
        ensures few { result ≤ self.now.length }
    {
        self.length.saturating_sub(head(self.form))
    }

    /// How many bytes of a packet are surely there at the entry.
    pub fn known_first(&self) -> u32
        ensures { result ≡ known_first self.now }
    {
        match self.form {
            Form::Blocks | Form::Extended => 0,
            Form::Plain | Form::Seccomp => self.room(),
        }
    }

    /// Where the low 32 bits of a block's length lie.
    pub fn length_offset(&self) -> i16
        ensures { result ≡ length_offset self.now }
    {
        match self.order {
            Order::Little => 0,
            Order::Big => 4,
        }
    }

    /// Whether numbers of the packet are in network order.
    pub fn is_swapped(&self) -> bool
        ensures { result ≡ is_swapped self.now }
    {
        match self.form {
            Form::Blocks | Form::Plain | Form::Extended => true,
            Form::Seccomp => false,
        }
    }

    /// Whether a shift takes the low five bits of its distance.
    pub fn is_masked(&self) -> bool
        ensures { result ≡ is_masked self.now }
    {
        match self.form {
            Form::Blocks | Form::Plain | Form::Extended => false,
            Form::Seccomp => true,
        }
    }
}

/// How many bytes a load takes.
pub fn bytes(size: LoadSize) -> u32
    ensures same { result ≡ bytes_in size }
    ensures some { 0 < result }
    ensures few { result ≤ 4 }
{
    match size {
        LoadSize::Byte => 1,
        LoadSize::Half => 2,
        LoadSize::Word => 4,
    }
}

/// The size of the access that a load makes.
pub fn insn_size(size: LoadSize) -> Size
    ensures { result ≡ insn_size size }
{
    match size {
        LoadSize::Byte => Size::B,
        LoadSize::Half => Size::H,
        LoadSize::Word => Size::W,
    }
}

/// The byte swap behind a load, where it takes more than one byte.
pub fn end_bits(size: LoadSize) -> Option<EndBits>
    ensures { result ≡ end_bits size }
{
    match size {
        LoadSize::Byte => None,
        LoadSize::Half => Some(EndBits::B16),
        LoadSize::Word => Some(EndBits::B32),
    }
}

/// How many bytes of a packet an instruction needs for its constant: behind a load from a constant offset as many are there.
pub fn need(insn: &Classic) -> u64
    ensures { result ≡ need insn.now }
{
    match *insn {
        Classic::At { size, k } => u64::from(k) + u64::from(bytes(size)),
        Classic::Index { size, k } => u64::from(k) + u64::from(bytes(size)),
        Classic::Header { k } => u64::from(k) + 1,
        Classic::Constant { .. } | Classic::Length { .. } | Classic::Cell { .. } => 0,
        Classic::Store { .. } | Classic::Alu { .. } | Classic::Neg | Classic::Jump { .. } => 0,
        Classic::Back { .. } | Classic::JumpIf { .. } | Classic::Return { .. } | Classic::ReturnA =>
            0,
        Classic::Extension { .. } | Classic::Tax | Classic::Txa => 0,
    }
}

/// Whether it loads from beyond every packet.
pub fn is_beyond(layout: &Layout, insn: &Classic) -> bool
    ensures { result ≡ is_beyond layout.now insn.now }
{
    u64::from(layout.room()) < need(insn)
}
