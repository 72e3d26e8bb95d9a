//! Calls of functions: a callee's first state, and its caller's after it.

ghost use Rattle.std.specs.Prelude.{◌≡◌, ◌++◌, ◌∷◌, length, replicate, drop, All, None, false};
ghost use Rattle.bpf_state.specs.State.{IsRegister, callee_state, caller_state, without_frame, no_tags};
ghost use Rattle.bpf_state.specs.declared.known.RegState.TheVariants.{Any, Num as Number};
ghost use Rattle.bpf_state.specs.Answer.{edge_told};

use crate::known::{Area, Pointer, RegState, Tag};
use crate::state::State;
use bpf_num::Num;

fn without_frame(held: RegState) -> RegState
    requires { IsRegister held }
    ensures value { result ≡ without_frame held }
    ensures ordered { IsRegister result }
{
    match held {
        RegState::Ptr(p) => if p.area.is_frame() {
            RegState::Any
        } else {
            held
        },
        RegState::Any | RegState::Num(_) => held,
    }
}

/// Makes the state of a caller its callee's: r1 to r5 are kept, but a pointer into the caller's frame; r10 points to the
/// end of a fresh frame, and nothing else is known.
pub fn enter(state: &mut State)
    ensures { state.new ≡ callee_state state.old }
{
    let registers = [
        RegState::Any,
        without_frame(state.registers[1]),
        without_frame(state.registers[2]),
        without_frame(state.registers[3]),
        without_frame(state.registers[4]),
        without_frame(state.registers[5]),
        RegState::Any,
        RegState::Any,
        RegState::Any,
        RegState::Any,
        RegState::Ptr(Pointer::start_of(Area::Frame)),
    ];
    state.registers = registers;
    state.slots.clear();
    state.register_tags = [None; 11];
    state.slot_tags.clear();
}

/// Puts a number into r0, and makes r1 to r5 unknown.
fn forget_registers(registers: &mut [RegState; 11], n: Num)
    requires { All IsRegister registers.old }
    ensures value { registers.new ≡ Number n ∷ replicate 5 Any ++ drop 6 registers.old }
    ensures ordered { All IsRegister registers.new }
    ensures long { length registers.new ≡ 11 }
{
    registers[0] = RegState::Num(n);
    registers[1] = RegState::Any;
    registers[2] = RegState::Any;
    registers[3] = RegState::Any;
    registers[4] = RegState::Any;
    registers[5] = RegState::Any;
}

fn forget_counters(tags: &mut [Option<Tag>; 11])
    ensures value { tags.new ≡ no_tags 6 ++ drop 6 tags.old }
    ensures long { length tags.new ≡ 11 }
{
    tags[0] = None;
    tags[1] = None;
    tags[2] = None;
    tags[3] = None;
    tags[4] = None;
    tags[5] = None;
}

/// Makes the state at a call the one after it: r0 is what the callee returns, nothing is known of r1 to r5, and the rest
/// is kept. False only if the returned number has no member; then the state is as it was.
pub fn leave(state: &mut State, ret: Num) -> bool
    ensures edge { edge_told result state.new ≡ caller_state ret state.old }
    ensures kept { result ≡ false → state.new ≡ state.old }
{
    match ret.tighten() {
        Some(number) => {
            forget_registers(&mut state.registers, number);
            forget_counters(&mut state.register_tags);
            true
        }
        None => false,
    }
}
