//! Why a file of captured packets is refused.

ghost use Rattle.std.specs.Prelude.{◌≡◌, ◌<◌, ◌≤◌, ◌↔◌, [], IsSome, IfSome, MatchOption, get_or, length};
ghost use Rattle.bpf_captures.specs.Refused.{capture_texts, refusal_number};

use std::fmt::{self, Display};
use thiserror::Error;

/// Why a file of captured packets is refused.
#[derive(Clone, Copy, Debug, PartialEq, Eq, Error)]
#[error("{}", self.text())]
pub enum CaptureError {
    /// P1: it has less bytes than a header.
    ShortHeader,
    /// P2: it begins with a section of the form "pcapng".
    NewForm,
    /// P3: it doesn't begin with the number of a capture file in either byte order.
    OtherForm,
    /// P4: it ends within a record.
    ShortRecord,
    /// P5: its reader failed.
    Unreadable,
}

impl CaptureError {
    /// The number of the refusal, from 1 to 5.
    pub fn number(&self) -> u8
        ensures { result ≡ refusal_number self.now }
    {
        match self {
            CaptureError::ShortHeader => 1,
            CaptureError::NewForm => 2,
            CaptureError::OtherForm => 3,
            CaptureError::ShortRecord => 4,
            CaptureError::Unreadable => 5,
        }
    }

    /// What is told of the refusal with a number, without the place; None where that isn't from 1 to 5.
    pub fn text_numbered(number: u32) -> Option<&'static str>
        ensures numbered { IsSome result ↔ ((1 ≤ number) × (number ≤ 5)) }
        ensures told { IfSome result (λ text. 0 < length text.now) }
        ensures text { MatchOption result (get_or capture_texts number [] ≡ []) (λ text. text.now ≡ get_or capture_texts number []) }
    {
        match number {
            1 => Some(
                "the file is shorter than the 24 bytes of a capture file's header: capture anew",
            ),
            2 => Some(
                "the file is of the form pcapng: `editcap -F pcap FILE NEW` writes one of the form pcap",
            ),
            3 => Some(
                "the file begins with none of the numbers a1b2c3d4 and a1b23c4d of a capture file: `tcpdump -w FILE` writes one",
            ),
            4 => Some("the file ends within a record"),
            5 => Some("the file can't be read"),
            _ => None,
        }
    }

    /// What is told of the refusal, without the place.
    pub fn text(&self) -> &'static str
        ensures { result.now ≡ get_or capture_texts (refusal_number self.now) [] }
    {
        match CaptureError::text_numbered(u32::from(self.number())) {
            Some(text) => text,
            None => "",
        }
    }
}

/// Why a file of captured packets is refused, and where.
#[derive(Clone, Copy)]
pub struct CaptureRefusal {
    pub error: CaptureError,
    /// The packet in whose record the file ends, counted from 1; 0 for the header.
    pub packet: u64,
    /// The byte at which this record begins, or the header does, counted from 0.
    pub byte: u64,
}

impl Display for CaptureRefusal {
    fn fmt<W: fmt::Write>(&self, f: &mut fmt::Formatter<W>) -> fmt::Result {
        let CaptureRefusal {
            error,
            packet,
            byte,
        } = *self;
        write!(f, "{error}")?;
        match error {
            CaptureError::ShortRecord => write!(
                f,
                " of packet {packet}, which begins at byte {byte}: its first {byte} bytes are a whole capture"
            ),
            _ => Ok(()),
        }
    }
}
