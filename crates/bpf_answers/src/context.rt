//! Contexts as words of the command line.

ghost use Rattle.std.specs.Prelude.{◌≡◌, ◌⊎◌, ◌≤◌, IfOk, IfErr, Ok, Err, length};
ghost use Rattle.bpf_answers.specs.Context.{context_in};
ghost use Rattle.bpf_insn.specs.Limits.{max_context};
ghost use Rattle.bpf_answers.specs.declared.context.ContextError.TheVariants.{Memory};

use bpf_insn::MAX_CONTEXT;
use hex::FromHexError;
use std::alloc::Global;
use thiserror::Error;

/// Why a word is no context.
#[derive(Clone, Copy, Debug, PartialEq, Eq, Error)]
pub enum ContextError {
    /// It is neither `none` nor pairs of hexadecimal digits.
    #[error("bad hex")]
    BadHex,
    /// It spells more than 4,096 bytes.
    #[error("context too long")]
    TooLong,
    /// Memory ran out.
    #[error("no memory")]
    Memory,
}

/// The bytes that a word stands for: none for `none`, else those that its hexadecimal digits spell, of either case.
pub fn context_of(alloc: Global, text: &str) -> Result<Vec<u8>, ContextError>
    ensures ok { IfOk result (λ v. context_in text.now ≡ Ok v.items) }
    ensures short { IfOk result (λ v. length v.items ≤ max_context) }
    ensures err { IfErr result (λ e. (e ≡ Memory) ⊎ (context_in text.now ≡ Err e)) }
{
    if text == "none" {
        return Ok(Vec::new(alloc));
    }
    match hex::decode(alloc, text) {
        Ok(bytes) => {
            if bytes.len() > MAX_CONTEXT {
                Err(ContextError::TooLong)
            } else {
                Ok(bytes)
            }
        }
        Err(FromHexError::OutOfMemory) => Err(ContextError::Memory),
        Err(_) => Err(ContextError::BadHex),
    }
}
