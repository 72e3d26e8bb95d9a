//! What is written of a program with a certificate.

/// What is written of a program with a certificate, in words for people, with a table of the lines of its source, which may be
/// empty.
#[derive(Clone, Copy)]
pub enum Shown<'t> {
    /// The listing with what the certificate and the checker's pass know at each instruction, and the checker's answer:
    /// accepted, or refused with all flaws, the first one first.
    Listing { lines: &'t [u8] },
    /// The instruction at a slot with the whole states before and behind it, and what is wrong there.
    Slot { slot: u32, lines: &'t [u8] },
    /// The control-flow graph as DOT text, for `dot -Tsvg`: blocks of instructions with the budgets of their labels, in the
    /// functions of the certificate; edges, grey and dashed where no run takes them, and dotted from a call to the
    /// function's entry. Blocks that no state reaches are grey; the first flaw, if there is one, stands in the title with
    /// its number and slot, and its instruction is marked in red.
    Graph,
}
