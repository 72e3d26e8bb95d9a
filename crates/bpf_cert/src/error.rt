//! Why a text, or a list of parts, is no certificate.

ghost use Rattle.std.specs.Prelude.{◌≡◌, ◌<◌, ◌≤◌, ◌↔◌, [], IsSome, IfSome, MatchOption, get_or, length};
ghost use Rattle.bpf_cert.specs.RefusalNumbers.{refusal_number, refusal_line, certificate_texts};

use thiserror::Error;

/// Why a certificate is refused, with the line of its text, counted from 1.
#[derive(Clone, Copy, Debug, PartialEq, Eq, Error)]
pub enum CertError {
    /// K1: the line has no form of a certificate's lines, or not one that may stand there.
    #[error("at line {line}: {}", self.text())]
    Syntax { line: usize },
    /// K2: the line says what another spelling or another order says.
    #[error("at line {line}: {}", self.text())]
    NotCanonical { line: usize },
    /// K3: the line goes past a limit.
    #[error("at line {line}: {}", self.text())]
    Limit { line: usize },
    /// K4: memory ran out.
    #[error("{}", self.text())]
    Memory,
    /// K5: the reader failed in the line.
    #[error("at line {line}: {}", self.text())]
    Read { line: usize },
}

impl CertError {
    /// The number of the refusal, from 1 to 5.
    pub fn number(&self) -> u8
        ensures { result ≡ refusal_number self.now }
    {
        match self {
            CertError::Syntax { .. } => 1,
            CertError::NotCanonical { .. } => 2,
            CertError::Limit { .. } => 3,
            CertError::Memory => 4,
            CertError::Read { .. } => 5,
        }
    }

    /// What is told of the refusal with a number, without the line's; None where that isn't from 1 to 5.
    pub fn text_numbered(number: u32) -> Option<&'static str>
        ensures numbered { IsSome result ↔ ((1 ≤ number) × (number ≤ 5)) }
        ensures told { IfSome result (λ text. 0 < length text.now) }
        ensures text { MatchOption result (get_or certificate_texts number [] ≡ []) (λ text. text.now ≡ get_or certificate_texts number []) }
    {
        match number {
            1 => Some("the line has no form of a certificate's lines"),
            2 => Some("the line is not canonical"),
            3 => Some("the line goes past a limit"),
            4 => Some("out of memory"),
            5 => Some("reading failed"),
            _ => None,
        }
    }

    /// What is told of the refusal, without the line's number.
    pub fn text(&self) -> &'static str
        ensures { result.now ≡ get_or certificate_texts (refusal_number self.now) [] }
    {
        match CertError::text_numbered(u32::from(self.number())) {
            Some(text) => text,
            None => "",
        }
    }

    /// The line that is refused, counted from 1; 0 where it is parts that are refused, and for want of memory.
    pub fn line(&self) -> usize
        ensures { result ≡ refusal_line self.now }
    {
        match *self {
            CertError::Syntax { line }
            | CertError::NotCanonical { line }
            | CertError::Limit { line }
            | CertError::Read { line } => line,
            CertError::Memory => 0,
        }
    }
}
