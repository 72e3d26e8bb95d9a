//! What a command line wants explained.

ghost use Rattle.std.specs.Prelude.{◌≡◌, ◌&&◌, IfSome, IfNone, Some, None, is_some, true, false};
ghost use Rattle.bpf_command.specs.Explaining.{GivesAspect, GivesSubject, IsAlone};

/// What is shown of a program with what a search found for it.
#[derive(Clone, Copy)]
pub enum Aspect {
    /// All its instructions.
    Listing,
    /// The instruction at a slot.
    Slot(u32),
    /// Its control-flow graph.
    Graph,
}

/// Which words don't go together.
#[derive(Clone, Copy)]
pub enum Clash {
    /// CERT and `--infer`.
    CertificateInfer,
    /// CERT and `--harden`.
    CertificateHarden,
    /// `--infer` and `--harden`.
    InferHarden,
    /// `--text` and CERT.
    TextCertificate,
    /// `--text` and `--infer`.
    TextInfer,
    /// `--text` and `--harden`.
    TextHarden,
    /// `--text` and `--slot`.
    TextSlot,
    /// `--text` and `--dot`.
    TextDot,
    /// `--slot` and `--dot`.
    SlotDot,
    /// `--slot` with none of CERT, `--infer` and `--harden`.
    SlotAlone,
    /// `--most` without `--infer`.
    MostAlone,
    /// `--deep` without `--infer`.
    DeepAlone,
    /// `--padded` without `--harden`.
    PaddedAlone,
}

/// The words that say what is to be explained.
#[derive(Clone, Copy)]
pub struct SubjectWords<'a> {
    /// The name of a certificate.
    pub certificate: Option<&'a str>,
    /// The least and the greatest length of the contexts of a search.
    pub infer: Option<u32>,
    pub most: Option<u32>,
    /// Whether it is the deep search.
    pub deep: bool,
    /// The length of the contexts of a hardening.
    pub harden: Option<u32>,
    /// Whether they are blocks.
    pub padded: bool,
    pub slot: Option<u32>,
    /// Whether the input is a text.
    pub text: bool,
    /// Whether a graph is wanted.
    pub dot: bool,
}

/// What is to be explained of a program.
#[derive(Clone, Copy)]
pub enum Subject<'a> {
    /// Its image, by itself.
    Image,
    /// Its text, by itself.
    Text,
    /// The program with the certificate at a name.
    Certified(&'a str),
    /// One slot of the program with the certificate at a name.
    Slot {
        certificate: &'a str,
        slot: u32,
    },
    /// What the inferrer finds for contexts of `least` to `most` bytes, or the deep search, and what is shown of it. `most` may be
    /// below `least`.
    Inferred {
        least: u32,
        most: u32,
        deep: bool,
        aspect: Aspect,
    },
    /// What hardening makes for contexts of a length, and what is shown of it.
    Hardened {
        length: u32,
        padded: bool,
        aspect: Aspect,
    },
    /// The program's control-flow graph with what the certificate at a name says.
    Graph(&'a str),
    /// Its control-flow graph by itself.
    GraphAlone,
    /// Words that don't go together are given.
    Misfit(Clash),
}

/// What is to be shown of what a search finds; None where a slot and a graph are wanted.
fn aspect_of(slot: Option<u32>, dot: bool) -> Option<Aspect>
    ensures one { IfSome result (GivesAspect slot dot) }
    ensures both { IfNone result ((is_some slot && dot) ≡ true) }
{
    match (slot, dot) {
        (None, false) => Some(Aspect::Listing),
        (Some(slot), false) => Some(Aspect::Slot(slot)),
        (None, true) => Some(Aspect::Graph),
        (Some(_), true) => None,
    }
}

/// What a search is to find, by the other words that are given.
fn sought_of<'a>(told: SubjectWords<'a>, least: u32) -> Subject<'a>
    requires infer { told.infer ≡ Some least }
    requires alone { told.harden ≡ None }
    ensures { GivesSubject told.entry result }
{
    let aspect = aspect_of(told.slot, told.dot);
    match (told.text, told.certificate, told.padded, aspect) {
        (false, None, false, Some(aspect)) => Subject::Inferred {
            least,
            most: told.most.unwrap_or(least),
            deep: told.deep,
            aspect,
        },
        (true, _, _, _) => Subject::Misfit(Clash::TextInfer),
        (false, Some(_), _, _) => Subject::Misfit(Clash::CertificateInfer),
        (false, None, true, _) => Subject::Misfit(Clash::PaddedAlone),
        (false, None, false, None) => Subject::Misfit(Clash::SlotDot),
    }
}

/// What hardening is to make, by the words beside those of a search.
fn made_of<'a>(told: SubjectWords<'a>, length: u32) -> Subject<'a>
    requires harden { told.harden ≡ Some length }
    requires unsought { told.infer ≡ None }
    requires unbounded { told.most ≡ None }
    requires plain { told.deep ≡ false }
    ensures { GivesSubject told.entry result }
{
    match (told.text, told.certificate, aspect_of(told.slot, told.dot)) {
        (false, None, Some(aspect)) => Subject::Hardened {
            length,
            padded: told.padded,
            aspect,
        },
        (true, _, _) => Subject::Misfit(Clash::TextHarden),
        (false, Some(_), _) => Subject::Misfit(Clash::CertificateHarden),
        (false, None, None) => Subject::Misfit(Clash::SlotDot),
    }
}

/// What hardening is to make, by the other words that are given.
fn hardened_of<'a>(told: SubjectWords<'a>, length: u32) -> Subject<'a>
    requires harden { told.harden ≡ Some length }
    requires unsought { told.infer ≡ None }
    ensures { GivesSubject told.entry result }
{
    match (told.most, told.deep) {
        (None, false) => made_of(told, length),
        (Some(_), _) => Subject::Misfit(Clash::MostAlone),
        (None, true) => Subject::Misfit(Clash::DeepAlone),
    }
}

/// Which graph is wanted, by the other words that are given.
fn graph_of<'a>(told: SubjectWords<'a>) -> Subject<'a>
    requires alone { IsAlone told }
    requires dot { told.dot ≡ true }
    ensures { GivesSubject told.entry result }
{
    match (told.text, told.certificate, told.slot) {
        (false, None, None) => Subject::GraphAlone,
        (false, Some(certificate), None) => Subject::Graph(certificate),
        (true, _, _) => Subject::Misfit(Clash::TextDot),
        (false, _, Some(_)) => Subject::Misfit(Clash::SlotDot),
    }
}

/// What is to be explained in words without a search, by the words that are given.
fn told_of<'a>(told: SubjectWords<'a>) -> Subject<'a>
    requires alone { IsAlone told }
    requires words { told.dot ≡ false }
    ensures { GivesSubject told.entry result }
{
    match (told.text, told.certificate, told.slot) {
        (false, None, None) => Subject::Image,
        (true, None, None) => Subject::Text,
        (false, Some(certificate), None) => Subject::Certified(certificate),
        (false, Some(certificate), Some(slot)) => Subject::Slot { certificate, slot },
        (true, Some(_), _) => Subject::Misfit(Clash::TextCertificate),
        (true, None, Some(_)) => Subject::Misfit(Clash::TextSlot),
        (false, None, Some(_)) => Subject::Misfit(Clash::SlotAlone),
    }
}

/// What is to be explained without a search or a hardening.
fn plain_of<'a>(told: SubjectWords<'a>) -> Subject<'a>
    requires unsought { told.infer ≡ None }
    requires unhardened { told.harden ≡ None }
    ensures { GivesSubject told.entry result }
{
    match (told.most, told.deep, told.padded, told.dot) {
        (None, false, false, true) => graph_of(told),
        (None, false, false, false) => told_of(told),
        (Some(_), _, _, _) => Subject::Misfit(Clash::MostAlone),
        (None, true, _, _) => Subject::Misfit(Clash::DeepAlone),
        (None, false, true, _) => Subject::Misfit(Clash::PaddedAlone),
    }
}

/// What is to be explained, by the words that are given.
pub fn subject_of<'a>(told: SubjectWords<'a>) -> Subject<'a>
    ensures { GivesSubject told.entry result }
{
    match (told.infer, told.harden) {
        (None, None) => plain_of(told),
        (Some(least), None) => sought_of(told, least),
        (None, Some(length)) => hardened_of(told, length),
        (Some(_), Some(_)) => Subject::Misfit(Clash::InferHarden),
    }
}
