//! The words of a command line.

ghost use Rattle.std.specs.Prelude.{◌≡◌, IfOk, IfErr, codes, map, option_map, true, unwrap_or};
ghost use Rattle.std.specs.String.{string_bytes};
ghost use Rattle.clap.specs.Words.{FailsBy, first_of, found_of, kind_of, one_of, rows_of, subcommand_of, takes};
ghost use Rattle.bpf_command.specs.CommandLine.{AreContexts, Asks, GivenBy, IsAsked, IsCertifying, IsConverting, IsCount, IsEmitting, IsFlag, IsFollowing, IsHardening, IsInferring, IsNumber, IsOrder, IsReplaying, IsSubject, bpf, faults_in, word_of};
ghost use Rattle.clap.specs.declared.error.ErrorKind.TheVariants.{OutOfMemory};

use crate::request::asking::{
    Assembling, CheckedRunning, Checking, Explaining, Grouping, Inferring, Listing, Migrating,
    Running,
};
use crate::request::certifying::Certifying;
use crate::request::commands::command;
use crate::request::contexts::Contexts;
use crate::request::converting::Converting;
use crate::request::emitting::Emitting;
use crate::request::following::Following;
use crate::request::hardening::Hardening;
use crate::request::replaying::Replaying;
use crate::request::subject::{Subject, SubjectWords, subject_of};
use bpf_insn::Order;
use clap::{ArgMatches, Error};
use std::alloc::Global;

/// How often a loop that gets a counter may turn in one call of its function, where nothing is said.
pub const USUAL_TURNS: u32 = 65_536;

/// The name of a function of C, where none is given.
pub const USUAL_NAME: &str = "filter";

/// What a command line asks for. Images are of the byte order.
#[derive(Clone, Copy)]
pub enum Request<'a> {
    /// The conformance groups that occur in an image.
    Groups(Grouping<'a>),
    /// The image of a text.
    Asm(Assembling<'a>),
    /// The text of an image, with each instruction's slot and bytes in comments where they are asked for.
    List(Listing<'a>),
    /// Runs of an image on contexts.
    Run(Running<'a>),
    /// A certificate's verdict on an image.
    Check(Checking<'a>),
    /// Runs of an image on contexts, once its certificate certifies it.
    RunChecked(CheckedRunning<'a>),
    /// The same on the packets of a capture.
    Replay(Replaying<'a>),
    /// A certificate for an image.
    Infer(Inferring<'a>),
    /// A hardened image.
    Harden(Hardening<'a>),
    /// An image with its certificate, hardened where it needs to be.
    Certify(Certifying<'a>),
    /// An image of a filter of classic BPF, with its certificate.
    Convert(Converting<'a>),
    /// A function of C of an image that its certificate certifies.
    ToC(Emitting<'a>),
    /// Whether notes show that one program keeps the meaning of another.
    Follows(Following<'a>),
    /// What the checker or the inferrer sees of a program, or why an input is refused, in words, with the lines of its source at a
    /// name.
    Explain(Explaining<'a>),
    /// A certificate of the newest version with the same content.
    Migrate(Migrating<'a>),
}

/// The word of a required argument; the parse has made sure that it is there.
fn word<'a>(matches: &ArgMatches<'a>, id: &str) -> &'a str
    ensures { result.now ≡ word_of id.now (rows_of (found_of matches.now)) }
{
    matches.get_str(id).unwrap_or("")
}

/// The word of an argument, this one where there is none.
fn word_or<'a>(matches: &ArgMatches<'a>, id: &str, default: &'a str) -> &'a str
    ensures { result.now ≡ unwrap_or (first_of id.now (rows_of (found_of matches.now))) default.entry.now }
{
    matches.get_str(id).unwrap_or(default)
}

/// The word of an argument, None where there is none.
fn word_if<'a>(matches: &ArgMatches<'a>, id: &str) -> Option<&'a str>
    ensures { option_map (λ s. s.now) result ≡ first_of id.now (rows_of (found_of matches.now)) }
{
    matches.get_str(id)
}

/// The number of an argument, this one where there is none.
fn number(matches: &ArgMatches<'_>, id: &str, default: u32) -> u32
    ensures { IsCount 32 default (one_of id.now (rows_of (found_of matches.now))) result }
{
    matches.get_one::<u32>(id).unwrap_or(default)
}

/// The 64-bit number of an argument, this one where there is none.
fn wide_number(matches: &ArgMatches<'_>, id: &str, default: u64) -> u64
    ensures { IsCount 64 default (one_of id.now (rows_of (found_of matches.now))) result }
{
    matches.get_one::<u64>(id).unwrap_or(default)
}

/// The number of an argument, None where there is none.
fn number_if(matches: &ArgMatches<'_>, id: &str) -> Option<u32>
    ensures { IsNumber (one_of id.now (rows_of (found_of matches.now))) result }
{
    matches.get_one::<u32>(id)
}

fn has_flag(matches: &ArgMatches<'_>, id: &str) -> bool
    ensures { IsFlag (one_of id.now (rows_of (found_of matches.now))) result }
{
    matches.get_flag(id)
}

fn order_of(matches: &ArgMatches<'_>) -> Order
    ensures { IsOrder (rows_of (found_of matches.now)) result }
{
    if has_flag(matches, "big") {
        Order::Big
    } else {
        Order::Little
    }
}

/// The one way in which contexts are given.
fn chosen<'a>(word: Option<&'a str>, bytes: Option<&'a str>, lines: Option<&'a str>) -> Contexts<'a>
    ensures { GivenBy (option_map (λ s. s.now) word.entry) (option_map (λ s. s.now) bytes.entry) (option_map (λ s. s.now) lines.entry) result }
{
    match (word, bytes, lines) {
        (Some(word), None, None) => Contexts::Word(word),
        (None, Some(name), None) => Contexts::Bytes(name),
        (None, None, Some(name)) => Contexts::Lines(name),
        (None, None, None) => Contexts::Nothing,
        (Some(_), Some(_), _) => Contexts::Several,
        (Some(_), None, Some(_)) => Contexts::Several,
        (None, Some(_), Some(_)) => Contexts::Several,
    }
}

/// Where the contexts are.
fn contexts_of<'a>(matches: &ArgMatches<'a>) -> Contexts<'a>
    ensures { AreContexts (rows_of (found_of matches.now)) result }
{
    chosen(
        matches.get_str("HEX"),
        matches.get_str("context"),
        matches.get_str("contexts"),
    )
}

/// What is to be explained.
fn subject_in<'a>(matches: &ArgMatches<'a>) -> Subject<'a>
    ensures { IsSubject (rows_of (found_of matches.now)) result }
{
    subject_of(SubjectWords {
        certificate: word_if(matches, "CERT"),
        infer: number_if(matches, "infer"),
        most: number_if(matches, "most"),
        deep: has_flag(matches, "deep"),
        harden: number_if(matches, "harden"),
        padded: has_flag(matches, "padded"),
        slot: number_if(matches, "slot"),
        text: has_flag(matches, "text"),
        dot: has_flag(matches, "dot"),
    })
}

/// Which certificate is to be found.
fn inferring_in<'a>(matches: &ArgMatches<'a>) -> Inferring<'a>
    ensures { IsInferring (rows_of (found_of matches.now)) result }
{
    let least = number(matches, "LEN", 0);
    Inferring {
        input: word(matches, "IN"),
        least,
        most: number(matches, "most", least),
        deep: has_flag(matches, "deep"),
        output: word(matches, "OUT"),
        order: order_of(matches),
    }
}

/// What is to be hardened.
fn hardening_in<'a>(matches: &ArgMatches<'a>) -> Hardening<'a>
    ensures { IsHardening (rows_of (found_of matches.now)) result }
{
    Hardening {
        input: word(matches, "IN"),
        length: number(matches, "LEN", 0),
        output: word(matches, "OUT"),
        turns: number(matches, "turns", USUAL_TURNS),
        untouched: number_if(matches, "untouched"),
        otherwise: wide_number(matches, "otherwise", 0),
        padded: has_flag(matches, "padded"),
        unproved: has_flag(matches, "unproved"),
        notes: word_if(matches, "notes"),
        certificate: word_if(matches, "certificate"),
        changes: word_if(matches, "changes"),
        order: order_of(matches),
    }
}

/// What is to be certified.
fn certifying_in<'a>(matches: &ArgMatches<'a>) -> Certifying<'a>
    ensures { IsCertifying (rows_of (found_of matches.now)) result }
{
    Certifying {
        input: word(matches, "IN"),
        length: number(matches, "LEN", 0),
        output: word(matches, "OUT"),
        certificate: word(matches, "CERT"),
        bound: number_if(matches, "bound"),
        turns: number_if(matches, "turns"),
        otherwise: wide_number(matches, "otherwise", 0),
        padded: has_flag(matches, "padded"),
        unproved: has_flag(matches, "unproved"),
        notes: word_if(matches, "notes"),
        changes: word_if(matches, "changes"),
        lines: word_if(matches, "lines"),
        order: order_of(matches),
    }
}

/// What is to be converted.
fn converting_in<'a>(matches: &ArgMatches<'a>) -> Converting<'a>
    ensures { IsConverting (rows_of (found_of matches.now)) result }
{
    Converting {
        input: word(matches, "IN"),
        length: number(matches, "LEN", 0),
        output: word(matches, "OUT"),
        certificate: word(matches, "CERT"),
        plain: has_flag(matches, "plain"),
        seccomp: has_flag(matches, "seccomp"),
        extensions: has_flag(matches, "extensions"),
        raw: has_flag(matches, "raw"),
        listing: word_if(matches, "listing"),
        turns: number_if(matches, "turns"),
        order: order_of(matches),
    }
}

/// What is wanted as C.
fn emitting_in<'a>(matches: &ArgMatches<'a>) -> Emitting<'a>
    ensures { IsEmitting (rows_of (found_of matches.now)) result }
{
    Emitting {
        input: word(matches, "IN"),
        certificate: word(matches, "CERT"),
        output: word(matches, "OUT"),
        name: word_or(matches, "name", USUAL_NAME),
        order: order_of(matches),
    }
}

/// Which programs are to be compared.
fn following_in<'a>(matches: &ArgMatches<'a>) -> Following<'a>
    ensures { IsFollowing (rows_of (found_of matches.now)) result }
{
    Following {
        original: word(matches, "OLD"),
        rewritten: word(matches, "NEW"),
        notes: word(matches, "NOTES"),
        certificate: word(matches, "CERT"),
        order: order_of(matches),
    }
}

/// Which packets are to be run, if any are.
fn replaying_in<'a>(matches: &ArgMatches<'a>) -> Replaying<'a>
    ensures { IsReplaying (rows_of (found_of matches.now)) result }
{
    Replaying {
        input: word(matches, "IN"),
        certificate: word(matches, "CERT"),
        packets: word_if(matches, "packets"),
        contexts: contexts_of(matches),
        counts: has_flag(matches, "counts"),
        notes: word_if(matches, "notes"),
        order: order_of(matches),
    }
}

/// What the words of `run-checked` ask for.
fn run_checked_in<'a>(matches: &ArgMatches<'a>) -> Request<'a>
    ensures { Asks (codes "run-checked") (rows_of (found_of matches.now)) result }
{
    let asked = replaying_in(matches);
    match (asked.packets, asked.counts) {
        (None, false) => Request::RunChecked(CheckedRunning {
            input: asked.input,
            certificate: asked.certificate,
            contexts: asked.contexts,
            notes: asked.notes,
            order: asked.order,
        }),
        (Some(_), _) | (None, true) => Request::Replay(asked),
    }
}

/// What the words of the command with this name ask for.
fn request_in<'a>(name: &str, matches: &ArgMatches<'a>) -> Request<'a>
    ensures { Asks name.now (rows_of (found_of matches.now)) result }
{
    let input = word(matches, "IN");
    let order = order_of(matches);
    match name {
        "asm" => Request::Asm(Assembling {
            input,
            output: word(matches, "OUT"),
            order,
        }),
        "list" => Request::List(Listing {
            input,
            slots: has_flag(matches, "slots"),
            bytes: has_flag(matches, "bytes"),
            order,
        }),
        "run" => Request::Run(Running {
            input,
            contexts: contexts_of(matches),
            steps: number(matches, "steps", 0),
            trace: number_if(matches, "trace"),
            notes: word_if(matches, "notes"),
            order,
        }),
        "check" => Request::Check(Checking {
            input,
            certificate: word(matches, "CERT"),
            work: has_flag(matches, "work"),
            order,
        }),
        "run-checked" => run_checked_in(matches),
        "infer" => Request::Infer(inferring_in(matches)),
        "harden" => Request::Harden(hardening_in(matches)),
        "certify" => Request::Certify(certifying_in(matches)),
        "convert" => Request::Convert(converting_in(matches)),
        "to-c" => Request::ToC(emitting_in(matches)),
        "follows" => Request::Follows(following_in(matches)),
        "explain" => Request::Explain(Explaining {
            input,
            subject: subject_in(matches),
            lines: word_if(matches, "lines"),
            order,
        }),
        "migrate" => Request::Migrate(Migrating {
            certificate: word(matches, "CERT"),
            output: word(matches, "OUT"),
        }),
        _ => Request::Groups(Grouping { input, order }),
    }
}

/// What the words ask for, the command's own name first, exactly where nothing is wrong with them; else the text for the one
/// who wrote them: what is wrong, the help or the version that they ask for. Want of memory may stand in place of either.
pub fn request_of<'a>(alloc: Global, words: &'a [String]) -> Result<Request<'a>, Error>
    ensures ok { IfOk result (IsAsked (subcommand_of bpf (map (λ s. string_bytes s) words.entry.now))) }
    ensures judged { FailsBy (faults_in (map (λ s. string_bytes s) words.entry.now)) result }
    ensures accepts { IfErr result (λ e. takes bpf (map (λ s. string_bytes s) words.entry.now) ≡ true → kind_of e ≡ OutOfMemory) }
{
    let matches = match command(alloc)?.try_get_matches_from(words) {
        Ok(matches) => matches,
        Err(error) => return Err(error),
    };
    Ok(match matches.subcommand() {
        Some((name, matches)) => request_in(name, matches),
        None => Request::Groups(Grouping {
            input: "",
            order: Order::Little,
        }),
    })
}
