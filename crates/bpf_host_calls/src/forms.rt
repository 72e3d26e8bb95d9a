//! Which contexts are asked for, by numbers.

ghost use Rattle.std.specs.Prelude.{◌≡◌, ◌<◌, ◌≤◌, true, IfSome, IfNone};
ghost use Rattle.bpf_insn.specs.Limits.{max_context};
ghost use Rattle.bpf_classic.specs.Template.{head};
ghost use Rattle.bpf_host_calls.specs.Forms.{form_named, may_have, form_part, form_asked, turns_of, wanted_by};

use bpf_classic::{Form, Wanted, usual_turns};
use bpf_insn::{MAX_CONTEXT, Order};
use bpf_semantics::HEAD_BYTES;

/// The bytes in front of a packet with the words of Linux's auxiliary data.
const LONG_HEAD: u32 = 72;

/// The bytes of `struct seccomp_data`.
const SECCOMP_DATA: u32 = 64;

/// The form with a number: 0 blocks, 1 packets, 2 seccomp's, 3 blocks with the words of Linux's auxiliary data.
pub(crate) fn form_of(form: u32) -> Option<Form>
    ensures named { IfSome result (λ f. (f ≡ form_named form) × (form ≤ 3)) }
    ensures none { IfNone result (3 < form) }
{
    match form {
        0 => Some(Form::Blocks),
        1 => Some(Form::Plain),
        2 => Some(Form::Seccomp),
        3 => Some(Form::Extended),
        _ => None,
    }
}

/// Whether contexts of a form may have so many bytes.
pub(crate) fn may_have(form: Form, size: u32) -> bool
    ensures same { result ≡ may_have form size }
    ensures short { result ≡ true → size ≤ max_context }
    ensures room { result ≡ true → head form ≤ size }
{
    match form {
        Form::Blocks => size >= HEAD_BYTES && size <= MAX_CONTEXT as u32,
        Form::Plain => size <= MAX_CONTEXT as u32,
        Form::Seccomp => size == SECCOMP_DATA,
        Form::Extended => size >= LONG_HEAD && size <= MAX_CONTEXT as u32,
    }
}

/// What one turn counts in what is asked for: the form's number has the 16 bits below.
const TURN: u32 = 65_536;

/// The number of the form among what is asked for.
pub(crate) fn form_part(asked: u32) -> u32
    ensures { result ≡ form_part asked }
{
    asked % TURN
}

/// How often a run may jump back: as often as is told, 0 as is usual.
fn turns_of(form: Form, size: u32, told: u16) -> u16
    requires { size ≤ max_context }
    ensures { result ≡ turns_of form size told }
{
    if told == 0 {
        return usual_turns(form, size);
    }
    told
}

/// What is wanted by what is asked for, the form being the one that is named.
pub(crate) fn wanted_by(form: Form, asked: u32, size: u32, order: Order) -> Wanted
    requires named { form ≡ form_asked asked }
    requires short { size ≤ max_context }
    ensures { result ≡ wanted_by asked size order }
{
    Wanted {
        form,
        length: size,
        order,
        turns: turns_of(form, size, (asked / TURN) as u16),
    }
}
