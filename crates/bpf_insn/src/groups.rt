//! The conformance groups of a program (RFC 9669, section 2.4).

ghost use Rattle.std.specs.Prelude.{◌≡◌};
ghost use Rattle.bpf_insn.specs.Instruction.{groups_in};

use crate::code::Code;
use crate::instruction::Groups;

/// The conformance groups of which an instruction occurs.
pub fn groups_of<C: Code>(code: &C) -> Groups
    ensures { result ≡ groups_in (C.program code.now).list }
{
    let mut groups = Groups {
        base: false,
        divmul: false,
        atomic: false,
    };
    for slot in 0..code.slots() {
        if let Some(group) = code.group(slot) {
            groups.add(group);
        }
    }
    groups
}
