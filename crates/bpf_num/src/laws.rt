//! The laws of abstract numbers, for proofs about definitions that are made of theirs.

ghost use Rattle.bpf_num.specs.Laws.{ConstantHas, ConstantIs, TightenKeeps, AluKeeps, NegKeeps, MovsxKeeps, EndKeeps, JoinHas, EntailsIncludes, RefineKeeps};

/// A constant has its number as member.
pub fn constant_has()
    ensures { ConstantHas }
{}

/// A number whose bits are known has no member but its value.
pub fn constant_is()
    ensures { ConstantIs }
{}

/// Tightening keeps every member; where it gives None there is none.
pub fn tighten_keeps()
    ensures { TightenKeeps }
{}

/// An operation has its results on members.
pub fn alu_keeps()
    ensures { AluKeeps }
{}

/// A negation has the negated members.
pub fn neg_keeps()
    ensures { NegKeeps }
{}

/// A sign extension has the extended members.
pub fn movsx_keeps()
    ensures { MovsxKeeps }
{}

/// A byte swap has the swapped members.
pub fn end_keeps()
    ensures { EndKeeps }
{}

/// A join has the members of both.
pub fn join_has()
    ensures { JoinHas }
{}

/// A number has the members of each that entails it.
pub fn entails_includes()
    ensures { EntailsIncludes }
{}

/// A refinement keeps each pair of members on which the test answers as on the edge.
pub fn refine_keeps()
    ensures { RefineKeeps }
{}
