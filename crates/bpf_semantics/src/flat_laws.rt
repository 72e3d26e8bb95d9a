//! Laws of the flat machine (RFC 9669, sections 4 and 5), each as the contract of a function.

ghost use Rattle.bpf_semantics.specs.FlatLaws.{FlatFollows, FlatFinishes, FlatWritesOnly, FlatReadsOnly, FlatWritesOneRegister, FlatReadsRegisters};

/// The flat machine follows each step.
pub fn flat_follows()
    ensures { FlatFollows }
{}

/// The flat machine ends where the machine does, with the same number.
pub fn flat_finishes()
    ensures { FlatFinishes }
{}

/// An instruction changes no byte but those that it writes, calls and exits aside.
pub fn flat_writes_only()
    ensures { FlatWritesOnly }
{}

/// An instruction depends on no byte but those that it reads, calls and exits aside.
pub fn flat_reads_only()
    ensures { FlatReadsOnly }
{}

/// An instruction changes no register but the one that it writes, calls and exits aside.
pub fn flat_writes_one_register()
    ensures { FlatWritesOneRegister }
{}

/// An instruction depends on no register but those that it reads, calls and exits aside.
pub fn flat_reads_registers()
    ensures { FlatReadsRegisters }
{}
