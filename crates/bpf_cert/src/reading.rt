//! Reading a certificate.

ghost use Rattle.std.specs.Prelude.{◌≡◌, List, IfOk, IfErr, IfSome, MatchResult, true};
ghost use Rattle.bpf_cert.specs.Line.{Line};
ghost use Rattle.bpf_cert.specs.Faults.{is_ended};
ghost use Rattle.bpf_cert.specs.View.{CertificateView};
ghost use Rattle.bpf_cert.specs.Certificates.{Spells};
ghost use Rattle.bpf_cert.specs.code.Building.{IsBuilt};
ghost use Rattle.bpf_cert.specs.code.Behind.{AnswersBehindEnd};
ghost use Rattle.bpf_cert.specs.ReadAnswers.{IsFaultOf, IsFromOutside, FailsAt};

use crate::building::Builder;
use crate::certificate::Certificate;
use crate::error::CertError;
use arrayvec::ArrayVec;
use bpf_streams::{LineReader, LineStop};
use std::alloc::Global;
use std::io::Read;

// What is answered where `end` came, and behind it nothing or some bytes.
fn behind_end(
    builder: Builder,
    stop: LineStop,
    is_empty: bool,
    line: usize,
) -> Result<Certificate, CertError>
    requires { (lines : List Line) × IsBuilt lines builder × (is_ended lines ≡ true) }
    ensures { (lines : List Line) → IsBuilt lines builder → is_ended lines ≡ true → AnswersBehindEnd stop is_empty line lines result }
{
    match (stop, is_empty) {
        (LineStop::End, true) => Ok(builder.finish()),
        (LineStop::Failed, true) => Err(CertError::Read { line }),
        (_, _) => Err(CertError::Syntax { line }),
    }
}

/// The certificate that the bytes of a line reader spell, which stays with the caller: refused as by `read`. A fault of the reader
/// isn't tried again; K5 names the line in which the bytes end that it had given, 1 plus the number of their LF.
pub fn read_lines<R: Read + Drop>(
    alloc: Global,
    source: &mut LineReader<R>,
) -> Result<Certificate, CertError>
    ensures ok { IfOk result (λ c. IfSome source.old (λ text. Spells text c)) }
    ensures err { IfErr result (λ e. IfSome source.old (λ text. IsFaultOf text e)) }
    ensures accepts { IfSome source.old (λ text. (c : CertificateView) → Spells text c → MatchResult result (λ d. d ≡ c) IsFromOutside) }
    ensures failed { IfErr result (λ e. FailsAt source.old source.new e) }
{
    let mut builder = Builder::new(alloc);
    let mut text: ArrayVec<u8, 256> = ArrayVec::new();
    for before in 0..usize::MAX {
        let line = before + 1;
        text.clear();
        let stop = source.next_line(&mut text);
        if builder.is_ended() {
            return behind_end(builder, stop, text.is_empty(), line);
        }
        match stop {
            LineStop::End => return Err(CertError::Syntax { line }),
            LineStop::Failed => return Err(CertError::Read { line }),
            LineStop::Long => return Err(CertError::Limit { line }),
            LineStop::LineEnd => {
                if let Err(error) = builder.take(line, text.as_slice()) {
                    return Err(error);
                }
            }
        }
    }
    // No text is as long as that.
    Err(CertError::Memory)
}

/// The certificate that a reader's bytes spell, in whatever pieces they come. K1 to K3 at the lowest line at fault, K4 if
/// memory runs out, K5 at the line in which the reader failed, if no earlier line is at fault.
pub fn read<R: Read + Drop>(alloc: Global, reader: R) -> Result<Certificate, CertError>
    ensures ok { IfOk result (λ c. IfSome (R.remaining reader) (λ text. Spells text c)) }
    ensures err { IfErr result (λ e. IfSome (R.remaining reader) (λ text. IsFaultOf text e)) }
    ensures accepts { IfSome (R.remaining reader) (λ text. (c : CertificateView) → Spells text c → MatchResult result (λ d. d ≡ c) IsFromOutside) }
{
    let mut source = LineReader::new(reader);
    read_lines(alloc, &mut source)
}
