//! Facts that one word says: that a register, a slot, the packet's length, or 0 is the same in both programs. And what no word says.

ghost use Rattle.std.specs.Prelude.{◌≡◌};
ghost use Rattle.bpf_kept.specs.Rules.{is_base};
ghost use Rattle.bpf_follows.specs.NotesText.{same, says_same, nothing, says_nothing, usual_back, says_usual};

use bpf_insn::Reg;
use bpf_kept::{BACK, Fact, Holder, is_holder, zero};

/// That both programs have the same there.
pub fn same(of: Option<Holder>) -> Fact
    ensures { result ≡ same of }
{
    Fact {
        of,
        base: of,
        by: Some(zero()),
    }
}

/// That 0 is 0, which fills the places that are left.
pub fn nothing() -> Fact
    ensures { result ≡ nothing }
{
    same(None)
}

/// Whether both are one register, slot or length, or both 0.
fn is_base(a: Option<Holder>, b: Option<Holder>) -> bool
    ensures { result ≡ is_base a b }
{
    match a {
        Some(h) => is_holder(h, b),
        None => b.is_none(),
    }
}

/// Whether both programs have the same there.
pub fn says_same(fact: Fact) -> bool
    ensures { result ≡ says_same fact }
{
    match fact.by {
        Some(t) => is_base(fact.of, fact.base) && t.frames == 0 && t.moved == 0,
        None => false,
    }
}

/// Whether it says no more than that 0 is 0.
pub fn says_nothing(fact: Fact) -> bool
    ensures { result ≡ says_nothing fact }
{
    fact.of.is_none() && says_same(fact)
}

/// That r0 is the same in both programs, and no more: what a function gives back where nothing is said.
pub fn usual_back() -> [Fact; BACK]
    ensures { result ≡ usual_back }
{
    [same(Some(Holder::Register(Reg::R0))), nothing()]
}

/// Whether a function gives back that r0 is the same, and no more.
pub fn says_usual(back: &[Fact; BACK]) -> bool
    ensures { result ≡ says_usual back.now }
{
    let [first, second] = *back;
    is_base(Some(Holder::Register(Reg::R0)), first.of) && says_same(first) && says_nothing(second)
}
