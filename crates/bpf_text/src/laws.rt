//! Laws above the definitions, each the contract of a function that does nothing.

ghost use Rattle.bpf_text.specs.Laws.{AnnotatedAssembles, AssemblesOrIsRefused, AssemblesToOne, ListingAssembles, ListingsAreShort, NeverBoth, ReadsForms, ReadsText, RefusedOnce};

/// What stands behind the labels of a line is read as an instruction exactly if it is the spelling of a form, and says
/// what the form says.
pub fn reads_forms()
    ensures { ReadsForms }
{}

/// Each text says one source, line by line: the reader's.
pub fn reads_text()
    ensures { ReadsText }
{}

/// A text assembles to one list of instructions.
pub fn assembles_to_one()
    ensures { AssemblesToOne }
{}

/// A text that assembles to a program has no refusal: `assemble` answers this program, unless memory runs out.
pub fn never_both()
    ensures { NeverBoth }
{}

/// A text has one refusal at most: one number and one line.
pub fn refused_once()
    ensures { RefusedOnce }
{}

/// Every text assembles to a program or has a refusal.
pub fn assembles_or_is_refused()
    ensures { AssemblesOrIsRefused }
{}

/// A program's listing assembles to the program again: `assemble` answers it, unless memory runs out.
pub fn listing_assembles()
    ensures { ListingAssembles }
{}

/// The listing with comments assembles to the program as well, whatever its comments tell and in either byte order.
pub fn annotated_assembles()
    ensures { AnnotatedAssembles }
{}

/// A listing has at most 256 bytes for each slot of the program, also with comments.
pub fn listings_are_short()
    ensures { ListingsAreShort }
{}
