//! What is found in a part of a line: its value, or the gravest fault.

ghost use Rattle.std.specs.Prelude.{◌≡◌, ◌&&◌};
ghost use Rattle.bpf_cert.specs.code.Findings.{tested, joined, graver};

/// Why a part of a line is refused, the gravest first.
#[derive(Clone, Copy, PartialEq, Eq)]
pub enum PartFault {
    Syntax,
    NotCanonical,
    Limit,
}

/// Whether both hold.
pub fn both(first: bool, second: bool) -> bool
    ensures { result ≡ (first && second) }
{
    first && second
}

/// Refuses what is not canonical, or else past a limit.
pub fn tested(canonical: bool, limited: bool) -> Result<(), PartFault>
    ensures { result ≡ tested canonical limited }
{
    if !canonical {
        Err(PartFault::NotCanonical)
    } else if !limited {
        Err(PartFault::Limit)
    } else {
        Ok(())
    }
}

fn graver(first: PartFault, second: PartFault) -> PartFault
    ensures { result ≡ graver first second }
{
    match (first, second) {
        (PartFault::Syntax, _) => PartFault::Syntax,
        (PartFault::NotCanonical, PartFault::Syntax) => PartFault::Syntax,
        (PartFault::NotCanonical, _) => PartFault::NotCanonical,
        (PartFault::Limit, second) => second,
    }
}

/// The graver flaw of two findings, and the value where there is none.
pub fn joined<T: Drop>(
    first: Result<(), PartFault>,
    second: Result<T, PartFault>,
) -> Result<T, PartFault>
    ensures { result ≡ joined first second }
{
    match (first, second) {
        (Ok(()), second) => second,
        (Err(flaw), Ok(_)) => Err(flaw),
        (Err(flaw), Err(other)) => Err(graver(flaw, other)),
    }
}
