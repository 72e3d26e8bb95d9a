//! One line that helps behind a refusal or a failure, on a terminal. Elsewhere nothing is told.

ghost use Rattle.std.specs.Prelude.{◌≡◌, IfOk};
ghost use Rattle.std.specs.String.{string_bytes};
ghost use Rattle.bpf_command.specs.Advice.{anyway_text, kept_text, within_text};
ghost use Rattle.bpf_command.specs.declared.remark.Remark.TheVariants.{Shown};

use crate::aside::Terminal;
use crate::remark::Remark;
use crate::request::{Clash, Contexts, Hardening, Inferring, Request, Subject};
use crate::shown::OneLine;
use bpf_answers::{ContextError, Failure};
use bpf_explain::Unshown;
use bpf_harden::HardenError;
use bpf_infer::{ForeseenCondition, InferError};
use bpf_insn::Order;
use bpf_kept::{Bounds, Mismatch, Turns};
use std::alloc::{AllocError, Global};
use std::fmt::{self, Display};
use std::io::Write;

/// Tells a line on a terminal. Whether it can be written makes no difference.
fn tell_line<H: Terminal, D: Display + Drop>(aside: &H, line: D) {
    if let Some(mut terminal) = aside.terminal() {
        let _ = write!(OneLine::new(&mut terminal), "{line}");
        let _ = write!(terminal, "\n");
    }
}

/// Tells a line on a terminal, as `write!` spells it.
macro_rules! tell {
    ($aside:expr, $text:expr) => {
        tell_line($aside, format_args!($text))
    };
}

/// The word for the order of an image, with a blank behind it.
fn order_word(order: Order) -> &'static str {
    match order {
        Order::Big => "--big ",
        Order::Little => "",
    }
}

// ---- a refusal of an image, a text or a certificate

/// Names the command that tells why a request was refused, if one tells it of all its refusals. A search tells of its own.
pub(crate) fn after_refusal<H: Terminal>(aside: &H, request: Request<'_>) {
    let (flags, order, input, certificate) = match request {
        Request::Groups(asked) => ("", asked.order, asked.input, None),
        Request::List(asked) => ("", asked.order, asked.input, None),
        Request::Asm(asked) => ("--text ", asked.order, asked.input, None),
        Request::Check(asked) => ("", asked.order, asked.input, Some(asked.certificate)),
        Request::ToC(asked) => ("", asked.order, asked.input, Some(asked.certificate)),
        _ => return,
    };
    let order = order_word(order);
    let (blank, name) = match certificate {
        Some(name) => (" ", name),
        None => ("", ""),
    };
    tell!(
        aside,
        "`bpf explain {flags}{order}{input}{blank}{name}` tells why"
    )
}

/// Names the command that tells why an image was refused.
pub(crate) fn after_image<H: Terminal>(aside: &H, input: &str, order: Order) {
    let order = order_word(order);
    tell!(aside, "`bpf explain {order}{input}` tells why")
}

// ---- a refusal of a search

/// The command that explains the search.
#[derive(Clone, Copy)]
struct ExplainAdvice<'a>(Inferring<'a>);

impl<'a> Display for ExplainAdvice<'a> {
    fn fmt<W: fmt::Write>(&self, f: &mut fmt::Formatter<W>) -> fmt::Result {
        let Inferring {
            input,
            least,
            most,
            order,
            ..
        } = self.0;
        let order = order_word(order);
        let deep = if self.0.deep { " --deep" } else { "" };
        if most == least {
            write!(f, "`bpf explain {order}{input} --infer {least}{deep}`")
        } else {
            write!(
                f,
                "`bpf explain {order}{input} --infer {least} --most {most}{deep}`"
            )
        }
    }
}

/// Whether a program may be hardened so that it has a certificate, as far as the refusal tells.
fn may_be_hardened(error: InferError) -> bool {
    match error {
        InferError::Unstable { .. } | InferError::NoBudget { .. } => true,
        InferError::Fault {
            condition: ForeseenCondition::State(_) | ForeseenCondition::FallsOff,
            ..
        } => true,
        InferError::Fault {
            condition: ForeseenCondition::LeavesFunction,
            ..
        } => false,
        InferError::Recursion { .. } | InferError::Memory => false,
    }
}

/// Names what may help where no certificate was found: the deep search, hardening, the words of the search. Only contexts of one
/// length are hardened for.
pub(crate) fn after_search<H: Terminal>(
    aside: &H,
    asked: Inferring<'_>,
    error: InferError,
    may_deepen: bool,
) {
    if let InferError::Memory = error {
        return;
    }
    let Inferring {
        input,
        least,
        most,
        ..
    } = asked;
    let explaining = ExplainAdvice(asked);
    let order = order_word(asked.order);
    let may_harden = least == most && may_be_hardened(error);
    let deepening = match (may_deepen, may_harden) {
        (true, true) => "try --deep, or ",
        (true, false) => "try --deep; ",
        (false, true) => "try ",
        (false, false) => "",
    };
    if may_harden {
        tell!(
            aside,
            "{deepening}`bpf harden {order}{input} {least} NEW`; {explaining} tells why"
        )
    } else {
        tell!(aside, "{deepening}{explaining} tells why")
    }
}

// ---- a refusal of hardening

/// Names the command that tells why a program isn't hardened.
fn tell_hardening<H: Terminal>(aside: &H, asked: Hardening<'_>) {
    let Hardening {
        input,
        length,
        padded,
        order,
        ..
    } = asked;
    let order = order_word(order);
    let padded = if padded { " --padded" } else { "" };
    tell!(
        aside,
        "`bpf explain {order}{input} --harden {length}{padded}` tells why"
    )
}

/// Names the command that tells why a program isn't hardened, but for want of memory.
pub(crate) fn after_hardening<H: Terminal>(aside: &H, asked: Hardening<'_>, error: HardenError) {
    if let HardenError::Memory = error {
        return;
    }
    tell_hardening(aside, asked);
}

/// The same where what comes out isn't shown to keep the meaning. Of bytes that were asked for no command tells it: here is the sentence.
pub(crate) fn after_unshown<H: Terminal>(aside: &H, asked: Hardening<'_>, mismatch: Mismatch) {
    match asked.untouched {
        Some(_bytes) => tell_line(aside, Unshown(mismatch)),
        None => tell_hardening(aside, asked),
    }
}

// ---- what a hardened program is shown to keep

/// What is told of runs of so many turns whose meaning is kept.
fn kept_within(alloc: Global, turns: u64, untouched: u32) -> Result<String, AllocError>
    ensures { IfOk result (λ line. string_bytes line ≡ within_text turns untouched) }
{
    if untouched == 0 {
        format!(in alloc;
            "shown to keep the meaning of runs that come to no instruction more than {turns} times"
        )
    } else {
        format!(in alloc;
            "shown to keep the meaning of runs that come to no instruction more than {turns} times, and to the lowest {untouched} bytes of a frame by r10 alone"
        )
    }
}

/// The same of runs of any number of turns.
fn kept_anyway(alloc: Global, untouched: u32) -> Result<String, AllocError>
    ensures { IfOk result (λ line. string_bytes line ≡ anyway_text untouched) }
{
    if untouched == 0 {
        format!(in alloc; "shown to keep the meaning of each run")
    } else {
        format!(in alloc;
            "shown to keep the meaning of runs that come to the lowest {untouched} bytes of a frame by r10 alone"
        )
    }
}

/// What is told of runs whose meaning is kept: those of the remark.
fn kept_line(
    alloc: Global,
    _remark: Remark<'_>,
    bounds: Bounds,
    turns: Turns,
) -> Result<String, AllocError>
    requires { _remark ≡ Shown bounds turns }
    ensures { IfOk result (λ line. string_bytes line ≡ kept_text bounds.untouched turns) }
{
    match turns {
        Turns::Most(most) => kept_within(alloc, most, bounds.untouched),
        Turns::Any => kept_anyway(alloc, bounds.untouched),
    }
}

/// Tells of which runs a hardened program is shown to keep the meaning.
pub(crate) fn after_proof<H: Terminal>(
    alloc: Global,
    aside: &H,
    remark: Remark<'_>,
    bounds: Bounds,
    turns: Turns,
)
    requires { remark ≡ Shown bounds turns }
{
    if let Ok(line) = kept_line(alloc, remark, bounds, turns) {
        tell_line(aside, line);
    }
}

/// Tells what of the notes of a hardened program fails, in a sentence.
pub(crate) fn after_mismatch<H: Terminal>(aside: &H, mismatch: Mismatch) {
    tell_line(aside, Unshown(mismatch));
}

// ---- failures

/// Which words of `explain` don't go together.
fn clash_text(clash: Clash) -> &'static str {
    match clash {
        Clash::CertificateInfer => "CERT and --infer: one of the two",
        Clash::CertificateHarden => "CERT and --harden: one of the two",
        Clash::InferHarden => "--infer and --harden: one of the two",
        Clash::TextCertificate => "--text goes with IN alone, not with CERT",
        Clash::TextInfer => "--text goes with IN alone, not with --infer",
        Clash::TextHarden => "--text goes with IN alone, not with --harden",
        Clash::TextSlot => "--text goes with IN alone, not with --slot",
        Clash::TextDot => "--text goes with IN alone, not with --dot",
        Clash::SlotDot => "--slot and --dot: one of the two",
        Clash::SlotAlone => "--slot goes with CERT, --infer or --harden",
        Clash::MostAlone => "--most goes with --infer",
        Clash::DeepAlone => "--deep goes with --infer",
        Clash::PaddedAlone => "--padded goes with --harden",
    }
}

/// Which words of a request don't go together.
fn misfit_text(request: Request<'_>) -> Option<&'static str> {
    match request {
        Request::Explain(asked) => match (asked.subject, asked.lines) {
            (Subject::Misfit(clash), _) => Some(clash_text(clash)),
            (_, Some(_)) => Some("--lines goes with CERT, --infer or --harden, and not with --dot"),
            (_, None) => None,
        },
        Request::Replay(_) => { Some("--counts goes with --packets FILE, and --notes without it") }
        Request::Certify(_) => Some(
            "OUT, CERT, --notes and --changes lead to files of their own; CERT, --notes and --changes not to IN, and none of them to --lines",
        ),
        Request::Convert(_) => Some(
            "OUT, CERT and --listing lead to files of their own, not to IN; LEN is at least 8 for blocks, 72 with --extensions, and 64 with --seccomp; at most one of --plain, --seccomp and --extensions is given",
        ),
        Request::ToC(_) => Some(
            "--name is a letter, then up to 24 letters, digits and `_`, no keyword of C, and not `main`",
        ),
        Request::Harden(_) => Some(
            "OUT, --certificate, --notes and --changes lead to files of their own, and but for OUT not to IN",
        ),
        _ => None,
    }
}

/// The word that was to spell a context.
fn context_word<'a>(request: Request<'a>) -> Option<&'a str> {
    let contexts = match request {
        Request::Run(asked) => asked.contexts,
        Request::RunChecked(asked) => asked.contexts,
        _ => return None,
    };
    match contexts {
        Contexts::Word(word) => Some(word),
        _ => None,
    }
}

/// Tells more of a failure that lies in the words: the word that spells no bytes, or which words don't go together.
pub(crate) fn after_failure<H: Terminal>(aside: &H, request: Request<'_>, failure: Failure<'_>) {
    match failure {
        Failure::BadContext(ContextError::BadHex) => {
            if let Some(word) = context_word(request) {
                tell!(
                    aside,
                    "`{word}` isn't two hexadecimal digits a byte, nor `none`: --context FILE takes the bytes of a file"
                );
            }
        }
        Failure::NotTogether => {
            if let Some(text) = misfit_text(request) {
                tell_line(aside, text);
            }
        }
        _ => {}
    }
}
