//! What holds of images (RFC 9669, section 3), for all bytes and instructions. Each law is the contract of a function that does nothing.

ghost use Rattle.bpf_insn.specs.Laws.{ImageIsInjective, ImageLength, ReadsBack, OrdersExchange, RefusalIsExact, NeverBoth, RefusedOnce, ListNeverBoth, ListIsOneOfBoth, ListRefusedOnce};

/// An image is the image of one list of instructions only.
pub fn image_is_injective()
    ensures { ImageIsInjective }
{}

/// An image has eight bytes for each slot.
pub fn image_length()
    ensures { ImageLength }
{}

/// What begins in the bytes of an instruction is that instruction, whatever follows.
pub fn reads_back()
    ensures { ReadsBack }
{}

/// The images of a list in both byte orders differ, slot by slot, in how the fields lie.
pub fn orders_exchange()
    ensures { OrdersExchange }
{}

/// A slot has no fault exactly if the bytes of some instruction begin there.
pub fn refusal_is_exact()
    ensures { RefusalIsExact }
{}

/// The image of a program is not refused: what is encoded is decoded again.
pub fn never_both()
    ensures { NeverBoth }
{}

/// Bytes are refused for one cause, at one slot.
pub fn refused_once()
    ensures { RefusedOnce }
{}

/// The list of a program is not refused.
pub fn list_never_both()
    ensures { ListNeverBoth }
{}

/// A list is a program or is refused.
pub fn list_is_one_of_both()
    ensures { ListIsOneOfBoth }
{}

/// A list is refused for one cause, at one slot.
pub fn list_refused_once()
    ensures { ListRefusedOnce }
{}
