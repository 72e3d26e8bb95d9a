//! What the refusals say whose crates have no table: A and N, and H13 to H15.

ghost use Rattle.std.specs.Prelude.{◌≡◌, ◌<◌, ◌≤◌, ◌↔◌, [], IsSome, IfSome, MatchOption, get_or, length};
ghost use Rattle.bpf_refusals.specs.Sentences.{hardening_texts, notes_texts, text_texts};

use crate::told::{NOT_SHOWN, TOO_DEAR, UNCERTIFIED};
use bpf_infer_base::HardenError;

/// Why a text is no program.
pub fn text_sentence(number: u32) -> Option<&'static str>
    ensures numbered { IsSome result ↔ ((1 ≤ number) × (number ≤ 7)) }
    ensures said { IfSome result (λ text. 0 < length text.now) }
    ensures words { MatchOption result (get_or text_texts number [] ≡ []) (λ text. text.now ≡ get_or text_texts number []) }
{
    match number {
        1 => Some("the line has no form of the language"),
        2 => Some("a number on the line is out of its range"),
        3 => Some("a label on the line is defined a second time"),
        4 => Some("the label on the line is not defined"),
        5 => Some("the label on the line is too far away"),
        6 => Some("the instructions are no program"),
        7 => Some("out of memory"),
        _ => None,
    }
}

/// Why a program isn't hardened or certified.
pub fn hardening_sentence(number: u32) -> Option<&'static str>
    ensures numbered { IsSome result ↔ ((1 ≤ number) × (number ≤ 15)) }
    ensures said { IfSome result (λ text. 0 < length text.now) }
    ensures words { MatchOption result (get_or hardening_texts number [] ≡ []) (λ text. text.now ≡ get_or hardening_texts number []) }
{
    if number == u32::from(NOT_SHOWN) {
        Some("the hardened program isn't shown to keep the meaning")
    } else if number == u32::from(TOO_DEAR) {
        Some("a run of the hardened program may take more instructions than are paid for")
    } else if number == u32::from(UNCERTIFIED) {
        Some("the checker refuses the certificate that was found")
    } else {
        HardenError::text_numbered(number)
    }
}

/// Why a text is none of notes.
pub fn notes_sentence(number: u32) -> Option<&'static str>
    ensures numbered { IsSome result ↔ ((1 ≤ number) × (number ≤ 2)) }
    ensures said { IfSome result (λ text. 0 < length text.now) }
    ensures words { MatchOption result (get_or notes_texts number [] ≡ []) (λ text. text.now ≡ get_or notes_texts number []) }
{
    match number {
        1 => Some("the line has no form of a line of notes"),
        2 => Some("out of memory"),
        _ => None,
    }
}
