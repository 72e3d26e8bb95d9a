//! What the calls on numbers and states answer by themselves: no command shows a number's parts, or a comparison of masks.

ghost use Rattle.std.specs.Prelude.{◌≡◌, ℕ, List};
ghost use Rattle.bpf_insn.specs.Instruction.{Instructions};
ghost use Rattle.bpf_semantics.specs.State.{State as MachineState};
ghost use Rattle.bpf_safety.specs.Describes.{Describes};
ghost use Rattle.bpf_safety.specs.Laws.{Leads};

use bpf_insn::AluOp;
use bpf_num::{KnownBits, WordDomain};
use bpf_safety::tightened_describes;
use bpf_state::{State, covers};
use std::io::{self, Write};

/// The state with each number tightened. That it describes each machine that the state describes, a host with a `State` alone has by a law.
fn tightened(state: &State) -> Option<State>
    ensures { (p : Instructions) (least most : ℕ) (x : List ℕ) (m : MachineState) → Describes p.order least most x state.now m → Leads p least most x result m }
{
    tightened_describes();
    state.valid();
    state.tightened()
}

/// Masks of 254, but for the last.
fn masks(last: u8) -> [u8; 64] {
    let mut masks = [254; 64];
    masks[63] = last;
    masks
}

/// What is told of a number of 0 or 1 and 1 more, of masks that cover others, and of a state.
pub fn tell_states(out: &mut impl Write) -> io::Result<()> {
    let sum = KnownBits::new(0, 1).alu(AluOp::Add, KnownBits::new(1, 0));
    write!(out, "0 or 1, and 1: k{}/{}\n", sum.value(), sum.mask())?;
    write!(
        out,
        "covers, 255 and 254: {}\n",
        covers(&[255; 64], &masks(254))
    )?;
    write!(out, "covers, 0 and 0: {}\n", covers(&[0; 64], &[0; 64]))?;
    write!(
        out,
        "covers, 254 and 255 at 63: {}\n",
        covers(&masks(254), &masks(255))
    )?;
    let state = State::start(0, 16);
    write!(out, "tightened, start: {}\n", tightened(&state).is_some())
}
