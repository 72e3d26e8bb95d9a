//! `bpf run-checked IN CERT --packets FILE`, and with `--counts`.

ghost use Rattle.std.specs.Prelude.{◌≡◌, ◌≤◌, [], ◌∷◌, IfOk, IfErr};
ghost use Rattle.bpf_semantics.specs.Blocks.{head_bytes};
ghost use Rattle.bpf_answers.specs.Loaded.{OpensFirst, Tried};
ghost use Rattle.bpf_answers.specs.declared.failure.Failure.TheVariants.{CannotRead};
ghost use Rattle.bpf_captures.specs.declared.turn.CaptureEnd.TheVariants.{Failed};
ghost use Rattle.bpf_command.specs.Replayed.{EndsBy, JudgedPacketsFail, JudgedPacketsLeave, JudgedPacketsSay, PacketsCheckedFail, PacketsCheckedLeave, PacketsCheckedSay, PacketsFail, PacketsLeave, PacketsSay, ReplayFails, ReplayLeft, ReplaySays, ReplayedFails, ReplayedLeaves, ReplayedSays, names_replayed};

use crate::request::{Contexts, Replaying};
use bpf_answers::{Answer, DONE, Failure, PlaceError, Places, Reply, certificate_at, program_at};
use bpf_captures::{Answerer, BlockLayout, CaptureEnd, ReplayFault, replay};
use bpf_check::{Checked, Runnable, check};
use bpf_insn::{Code, Order};
use bpf_semantics::HEAD_BYTES;
use std::alloc::Global;
use std::io::{BufReader, Read, Write};

/// How many bytes of a capture are read at a time.
const PIECE: usize = 65_536;

/// Which capture is replayed, by which program, and how.
#[derive(Clone, Copy)]
pub struct Packets<'a> {
    /// The name of the image.
    pub input: &'a str,
    /// The name of its certificate.
    pub certificate: &'a str,
    /// The name of the capture.
    pub name: &'a str,
    /// Each different answer is told once, with how often it came.
    pub counts: bool,
    /// The byte order of the image.
    pub order: Order,
}

/// A checked program, as what answers blocks.
#[derive(Drop)]
struct BlockAnswerer<'a, 'p, C: Code> {
    runnable: &'a Runnable<'a, 'p, C>,
}

impl<'a, 'p, C: Code> Answerer for BlockAnswerer<'a, 'p, C> {
    ghost use Rattle.std.specs.Prelude.{◌≤◌};
    ghost use Rattle.bpf_command.specs.Replayed.{Gives};

    ghost takes = { λ r size. (r.runnable.now.certificate.least ≤ size) × (size ≤ r.runnable.now.certificate.most) };

    ghost gives = { λ r block value. Gives r.runnable.now block value };

    fn run(&self, block: &[u8]) -> u64 {
        self.runnable.run(block)
    }
}

/// What is answered behind the packets in front of where a replay stops.
fn ended<'a>(stop: CaptureEnd, name: &'a str) -> Result<Reply, Failure<'a>>
    ensures ok { IfOk result (EndsBy stop) }
    ensures err { IfErr result (λ failure. (stop ≡ Failed) × (failure ≡ CannotRead name.entry)) }
{
    match stop {
        CaptureEnd::End => Ok(Reply::Each(DONE)),
        CaptureEnd::Refused(refusal) => Ok(Reply::One(Answer::NoCapture(refusal))),
        CaptureEnd::Failed => Err(Failure::CannotRead(name)),
    }
}

/// Answers the packets that a reader gives with a checked program.
fn replay_from<'a, R: Read, C: Code, W: Write>(
    alloc: Global,
    reader: &mut R,
    out: &mut W,
    checked: &Checked<'_, C>,
    packets: Packets<'a>,
) -> Result<Reply, Failure<'a>>
    requires { head_bytes ≤ checked.now.certificate.most }
    ensures ok { IfOk result (ReplaySays packets.entry checked.now (R.remaining reader.old) (W.contents out.old) (W.contents out.new)) }
    ensures err { IfErr result (ReplayFails packets.entry checked.now (R.remaining reader.old) (W.contents out.old) (W.contents out.new)) }
    ensures begun { IfErr result (λ _. ReplayLeft packets.entry checked.now (R.remaining reader.old) (W.contents out.old) (W.contents out.new)) }
{
    checked.valid();
    let blocks = BlockLayout {
        order: packets.order,
        size: checked.most() as usize,
    };
    let answerer = BlockAnswerer {
        runnable: &Runnable::of(alloc, checked),
    };
    match replay(alloc, reader, out, &answerer, blocks, packets.counts) {
        Ok(stop) => ended(stop, packets.name),
        Err(ReplayFault::Output) => Err(Failure::CannotWrite("standard output")),
        Err(ReplayFault::Memory) => Err(Failure::NoMemory),
    }
}

/// Answers the packets of the capture at its name with a checked program.
fn replay_at<'a, P: Places, C: Code, W: Write>(
    alloc: Global,
    places: &mut P,
    out: &mut W,
    checked: &Checked<'_, C>,
    packets: Packets<'a>,
) -> Result<Reply, Failure<'a>>
    requires { head_bytes ≤ checked.now.certificate.most }
    ensures ok { IfOk result (PacketsSay P.opens places.old packets.entry places.new checked.now
        (W.contents out.old) (W.contents out.new)) }
    ensures err { IfErr result (PacketsFail P.opens places.old packets.entry places.new checked.now
        (W.contents out.old) (W.contents out.new)) }
    ensures begun { IfErr result (λ _. PacketsLeave P.opens places.old packets.entry places.new checked.now
        (W.contents out.old) (W.contents out.new)) }
    ensures opened { Tried P.opens places.old packets.entry.name.now places.new }
{
    let reader = match places.open(packets.name) {
        Ok(reader) => reader,
        Err(PlaceError::Refused) => return Err(Failure::CannotRead(packets.name)),
        Err(PlaceError::Memory) => return Err(Failure::NoMemory),
    };
    match BufReader::with_capacity(alloc, PIECE, reader) {
        Ok(mut reader) => replay_from(alloc, &mut reader, out, checked, packets),
        Err(_) => Err(Failure::NoMemory),
    }
}

/// Reads the certificate, judges whether it certifies the program, and answers the packets of the capture, which is opened last.
fn judged_packets<'a, P: Places, C: Code, W: Write>(
    alloc: Global,
    places: &mut P,
    out: &mut W,
    program: &C,
    packets: Packets<'a>,
) -> Result<Reply, Failure<'a>>
    ensures ok { IfOk result (JudgedPacketsSay P.opens places.old packets.entry places.new (C.program program.now)
        (W.contents out.old) (W.contents out.new)) }
    ensures err { IfErr result (JudgedPacketsFail P.opens places.old packets.entry places.new (C.program program.now)
        (W.contents out.old) (W.contents out.new)) }
    ensures begun { IfErr result (λ _. JudgedPacketsLeave P.opens places.old packets.entry places.new (C.program program.now)
        (W.contents out.old) (W.contents out.new)) }
    ensures opened { OpensFirst P.opens (packets.entry.certificate.now ∷ packets.entry.name.now ∷ []) places.old places.new }
{
    let certificate = match certificate_at(alloc, places, packets.certificate)? {
        Ok(certificate) => certificate,
        Err(error) => return Ok(Reply::One(Answer::NoCertificate(error))),
    };
    let checked = match check(program, &certificate) {
        Ok(checked) => checked,
        Err(refusal) => return Ok(Reply::One(Answer::NotCertified(refusal))),
    };
    let most = checked.most();
    if most < HEAD_BYTES {
        return Ok(Reply::One(Answer::NoContext {
            count: HEAD_BYTES as usize,
            least: checked.least(),
            most,
        }));
    }
    replay_at(alloc, places, out, &checked, packets)
}

/// Runs the image's program on the packets of a capture, each in a block, once the certificate has certified it. The image is judged first,
/// then the certificate, the check, and that there is room for a block; the capture's name is opened last.
fn checked_packets<'a, P: Places, W: Write>(
    alloc: Global,
    places: &mut P,
    out: &mut W,
    packets: Packets<'a>,
) -> Result<Reply, Failure<'a>>
    ensures ok { IfOk result (PacketsCheckedSay P.opens places.old packets.entry places.new (W.contents out.old) (W.contents out.new)) }
    ensures err { IfErr result (PacketsCheckedFail P.opens places.old packets.entry places.new (W.contents out.old) (W.contents out.new)) }
    ensures begun { IfErr result (λ _. PacketsCheckedLeave P.opens places.old packets.entry places.new (W.contents out.old) (W.contents out.new)) }
    ensures opened { OpensFirst P.opens (packets.entry.input.now ∷ packets.entry.certificate.now ∷ packets.entry.name.now ∷ []) places.old places.new }
{
    match program_at(alloc, places, packets.input, packets.order)? {
        Ok(program) => judged_packets(alloc, places, out, &program, packets),
        Err(error) => Ok(Reply::One(Answer::NoImage(error))),
    }
}

/// Answers the packets of a capture, each in a line; or each different answer once with how often it came, in ascending order. A block is as long as the
/// certificate lets contexts be. Where the capture is refused, that is the answer behind them.
pub fn replayed<'a, P: Places, W: Write>(
    alloc: Global,
    places: &mut P,
    out: &mut W,
    asked: Replaying<'a>,
) -> Result<Reply, Failure<'a>>
    ensures ok { IfOk result (ReplayedSays P.opens places.old asked.entry places.new (W.contents out.old) (W.contents out.new)) }
    ensures err { IfErr result (ReplayedFails P.opens places.old asked.entry places.new (W.contents out.old) (W.contents out.new)) }
    ensures begun { IfErr result (λ _. ReplayedLeaves P.opens places.old asked.entry places.new (W.contents out.old) (W.contents out.new)) }
    ensures opened { OpensFirst P.opens (names_replayed asked.entry) places.old places.new }
{
    match (asked.packets, asked.contexts) {
        (Some(name), Contexts::Nothing) => {
            let packets = Packets {
                input: asked.input,
                certificate: asked.certificate,
                name,
                counts: asked.counts,
                order: asked.order,
            };
            checked_packets(alloc, places, out, packets)
        }
        (Some(_), Contexts::Word(_) | Contexts::Bytes(_)) => Err(Failure::ContextTwice),
        (Some(_), Contexts::Lines(_) | Contexts::Several) => Err(Failure::ContextTwice),
        (None, _) => Err(Failure::NotTogether),
    }
}
