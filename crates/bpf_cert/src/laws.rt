//! What holds of the definitions, for every text.

ghost use Rattle.std.specs.Prelude.{◌≡◌, ◌↔◌, List, ℕ, Some, true};
ghost use Rattle.bpf_cert.specs.Line.{Line, is_line, line_text};
ghost use Rattle.bpf_cert.specs.Reading.{line_in};
ghost use Rattle.bpf_cert.specs.Certificates.{SpelledIsFaultless, SpelledOnce, FaultlessIsSpelled, FaultStays};

/// A text has the form of a line exactly if it is the spelling of that line.
pub fn each_form_has_one_line()
    ensures { (text : List ℕ) (l : Line) → (line_in text ≡ Some l) ↔ ((is_line l ≡ true) × (text ≡ line_text l)) }
{}

/// The text of a certificate has no fault.
pub fn spelled_is_faultless()
    ensures { SpelledIsFaultless }
{}

/// A text is the text of one certificate at most.
pub fn spelled_once()
    ensures { SpelledOnce }
{}

/// A text without fault is the text of a certificate.
pub fn faultless_is_spelled()
    ensures { FaultlessIsSpelled }
{}

/// A fault of the bytes that came is the fault of each text that goes on from them.
pub fn fault_stays()
    ensures { FaultStays }
{}
