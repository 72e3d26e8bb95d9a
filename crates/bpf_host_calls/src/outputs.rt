//! What is written to the memory of a call: an image, a certificate's text, or words.

ghost use Rattle.std.specs.Prelude.{◌≡◌, ◌<◌, ◌++◌, ◌⊎◌, IfSome, length, drop};
ghost use Rattle.bpf_insn.specs.Image.{IsProgram, image};
ghost use Rattle.bpf_cert.specs.Spelling.{certificate_text};
ghost use Rattle.bpf_host_calls.specs.declared.answers.TheConstants.{YES, TOO_SMALL};

use crate::answers::{TOO_SMALL, YES};
use bpf_cert::{Certificate, write};
use bpf_insn::{Code, Program, encode};
use std::alloc::Global;

/// An image, and the text of its certificate.
#[derive(Drop)]
pub(crate) struct ImageWithText {
    pub(crate) image: Vec<u8>,
    pub(crate) text: Vec<u8>,
}

/// The image of a program; None where memory ran out.
pub(crate) fn image_of(alloc: Global, program: &Program) -> Option<Vec<u8>>
    ensures program { IfSome result (λ _. IsProgram program.now.list) }
    ensures bytes { IfSome result (λ bytes. bytes.items ≡ image program.now.order program.now.list) }
{
    let _ = Code::slots(program);
    let mut bytes = Vec::new(alloc);
    match encode(program, &mut bytes) {
        Ok(()) => Some(bytes),
        Err(_) => None,
    }
}

/// The text of a certificate; None where memory ran out.
pub(crate) fn text_of(alloc: Global, certificate: &Certificate) -> Option<Vec<u8>>
    ensures { IfSome result (λ text. text.items ≡ certificate_text certificate.now) }
{
    let mut text = Vec::new(alloc);
    match write(certificate, &mut text) {
        Ok(()) => Some(text),
        Err(_) => None,
    }
}

/// Gives a text where there is room for it, and says how many bytes it has.
pub(crate) fn give(words: &[u8], text: &mut [u8], wanted: &mut usize) -> i32
    ensures given { result ≡ YES → text.new ≡ words.now ++ drop (length words.now) text.old }
    ensures small { result ≡ TOO_SMALL → (length text.old < length words.now) × (text.new ≡ text.old) }
    ensures wanted { wanted.new ≡ length words.now }
    ensures answers { (result ≡ YES) ⊎ (result ≡ TOO_SMALL) }
{
    *wanted = words.len();
    if text.len() < words.len() {
        return TOO_SMALL;
    }
    text[..words.len()].copy_from_slice(words);
    YES
}

/// Gives both where there is room for each.
pub(crate) fn give_both(made: &ImageWithText, image: &mut [u8], text: &mut [u8]) -> i32
    ensures image { result ≡ YES → image.new ≡ made.now.image.items ++ drop (length made.now.image.items) image.old }
    ensures text { result ≡ YES → text.new ≡ made.now.text.items ++ drop (length made.now.text.items) text.old }
    ensures small { result ≡ TOO_SMALL → (length image.old < length made.now.image.items) ⊎ (length text.old < length made.now.text.items) }
    ensures image_kept { (result ≡ YES) ⊎ (image.new ≡ image.old) }
    ensures text_kept { (result ≡ YES) ⊎ (text.new ≡ text.old) }
    ensures answers { (result ≡ YES) ⊎ (result ≡ TOO_SMALL) }
{
    if image.len() < made.image.len() || text.len() < made.text.len() {
        return TOO_SMALL;
    }
    image[..made.image.len()].copy_from_slice(&made.image);
    text[..made.text.len()].copy_from_slice(&made.text);
    YES
}
