//! Instructions, programs and images of the BPF instruction set (RFC 9669, integer profile).
#![tactic(auto)]

mod arithmetic;
mod bytes;
mod class;
mod code;
mod coded;
mod decoding;
mod effects;
mod encoding;
mod field_codes;
mod field_limits;
mod fields;
mod form;
mod forms;
mod groups;
mod image;
pub mod instruction;
mod laws;
mod layout;
mod limits;
mod numbers;
pub mod opcodes;
mod order;
mod program;
pub mod refusal;
mod slot_fault;
mod uses;
mod view;
pub mod written;

pub use arithmetic::{extended, low_half};
pub use bytes::fields_from;
pub use class::Class;
pub use code::Code;
pub use coded::Coded;
pub use decoding::insn_from;
pub use effects::Access;
pub use encoding::encode;
pub use fields::Fields;
pub use groups::groups_of;
pub use image::{decode, decode_from, read_image};
pub use instruction::{
    AluOp, AtomicOp, Cond, EndBits, EndKind, Group, Groups, Insn, Modify, Operand, Reg, SignBits,
    Size, Width, target,
};
pub use laws::{
    image_is_injective, image_length, list_is_one_of_both, list_never_both, list_refused_once,
    never_both, orders_exchange, reads_back, refusal_is_exact, refused_once,
};
pub use limits::{
    FRAME_BYTES, FRAME_SLOTS, MAX_CONTEXT, MAX_FRAMES, MAX_IMAGE, MAX_SLOTS, PLACES, REGISTERS,
};
pub use numbers::{number_in, put_number};
pub use order::Order;
pub use program::Program;
pub use refusal::{BuildError, DecodeError, LeftOut, SlotFault};
pub use uses::{Choice, FieldSet, Use, Uses, uses_of};
pub use view::ProgramView;
