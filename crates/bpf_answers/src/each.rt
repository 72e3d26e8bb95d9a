//! Contexts at a name, one a line, and the answer to each.

ghost use Rattle.std.specs.Prelude.{◌≡◌, ◌≤◌, IfOk, IfErr, [], length};
ghost use Rattle.bpf_insn.specs.Limits.{max_context};
ghost use Rattle.bpf_insn.specs.Written.{AppendsBeginning, Gathers};
ghost use Rattle.bpf_answers.specs.Told.{OutputFails};
ghost use Rattle.bpf_answers.specs.Lines.{AllAnswered, Spelled, Turns, max_line};
ghost use Rattle.bpf_answers.specs.Loaded.{Tried};
ghost use Rattle.bpf_answers.specs.Each.{AnswersAt, FailsAt, IsPut, LeftAt, LinesFail, LinesLeft, PutInPart};

use crate::answer::Answer;
use crate::context::ContextError;
use crate::error::PlaceError;
use crate::failure::{DONE, Failure};
use crate::places::Places;
use arrayvec::ArrayVec;
use bpf_insn::MAX_CONTEXT;
use bpf_insn::written::Pending;
use bpf_streams::{LineReader, LineStop};
use std::io::{Read, Write};

/// The greatest length of a line, which spells the longest context.
const MAX_LINE: usize = 2 * MAX_CONTEXT;

/// What answers contexts.
pub trait Runner {
    ghost use Rattle.std.specs.Prelude.{◌≤◌, ℕ, List, length};
    ghost use Rattle.bpf_answers.specs.Answer.{Answer};

    /// What is answered to a context.
    ghost says: { Self → List ℕ → Answer → Type 0 };

    /// The answer to a context.
    fn answer(&self, context: &[u8]) -> Answer
        requires { length context.now ≤ max_context }
        ensures { says self.now context.now result };
}

/// What is found of the next context.
#[derive(Clone, Copy)]
pub enum NextContext {
    /// It has so many bytes, which stand at the front of the buffer.
    Context(usize),
    /// There is none.
    End,
    /// Its line is refused.
    Refused(ContextError),
    /// The reader failed.
    Failed,
}

/// Puts the context that a line spells at the front of the buffer.
fn put_context(line: &[u8], buffer: &mut [u8]) -> NextContext
    requires short { length line.now ≤ max_line }
    requires room { length buffer.old ≡ max_context }
    ensures { Spelled line.now buffer.new result }
{
    if line == b"none".as_slice() {
        return NextContext::Context(0);
    }
    let count = line.len() / 2;
    match hex::decode_to_slice(line, &mut buffer[..count]) {
        Ok(()) => NextContext::Context(count),
        Err(_) => NextContext::Refused(ContextError::BadHex),
    }
}

/// Takes the next line, and puts its context at the front of the buffer.
fn next_context<R: Read + Drop>(
    lines: &mut LineReader<R>,
    line: &mut ArrayVec<u8, MAX_LINE>,
    buffer: &mut [u8],
) -> NextContext
    requires { length buffer.old ≡ max_context }
    ensures { Turns lines.old lines.new buffer.new result }
{
    line.clear();
    let stop = lines.next_line(line);
    match stop {
        LineStop::Failed => NextContext::Failed,
        LineStop::Long => NextContext::Refused(ContextError::TooLong),
        LineStop::End if line.is_empty() => NextContext::End,
        LineStop::End => put_context(line.as_slice(), buffer),
        LineStop::LineEnd => put_context(line.as_slice(), buffer),
    }
}

/// Puts the answer to a context behind those that wait, and gives its status. Where that fails, standard output has at most a beginning of them.
fn answer_context<'a, Q: Runner, W: Write>(
    pending: &mut Pending,
    out: &mut W,
    runner: &Q,
    context: &[u8],
) -> Result<u8, Failure<'a>>
    requires { length context.now ≤ max_context }
    ensures ok { IfOk result (IsPut (Q.says runner.now context.now) pending.old pending.new (W.contents out.old) (W.contents out.new)) }
    ensures err { IfErr result OutputFails }
    ensures begun { IfErr result (λ _. PutInPart (Q.says runner.now context.now) pending.old (W.contents out.old) (W.contents out.new)) }
{
    let answer = runner.answer(context);
    match answer.put(pending, out) {
        Ok(()) => Ok(answer.status()),
        Err(_) => Err(Failure::CannotWrite("standard output")),
    }
}

/// Prints the answers that wait.
fn send<'a, W: Write>(pending: &mut Pending, out: &mut W) -> Result<(), Failure<'a>>
    ensures ok { IfOk result (λ _. Gathers (W.contents out.old) (W.contents out.new) pending.old [] []) }
    ensures err { IfErr result OutputFails }
    ensures begun { IfErr result (λ _. AppendsBeginning (W.contents out.old) (W.contents out.new) pending.old) }
    ensures none_waits { IfOk result (λ _. pending.new ≡ []) }
{
    match pending.flush(out) {
        Ok(()) => Ok(()),
        Err(_) => Err(Failure::CannotWrite("standard output")),
    }
}

/// Prints the answers that wait, where the next line isn't there yet.
fn send_before_a_read<'a, R: Read + Drop, W: Write>(
    lines: &LineReader<R>,
    pending: &mut Pending,
    out: &mut W,
) -> Result<(), Failure<'a>>
    ensures ok { IfOk result (λ _. Gathers (W.contents out.old) (W.contents out.new) pending.old pending.new []) }
    ensures err { IfErr result OutputFails }
    ensures begun { IfErr result (λ _. AppendsBeginning (W.contents out.old) (W.contents out.new) pending.old) }
{
    if lines.has_line() {
        return Ok(());
    }
    send(pending, out)
}

/// Answers each context of the lines, until one is refused. Each answer is printed before a line is waited for.
fn answer_lines<'a, R: Read + Drop, Q: Runner, W: Write>(
    lines: &mut LineReader<R>,
    out: &mut W,
    runner: &Q,
    name: &'a str,
) -> Result<u8, Failure<'a>>
    ensures ok { IfOk result (AllAnswered (Q.says runner.now) lines.old (W.contents out.old) (W.contents out.new)) }
    ensures err { IfErr result (LinesFail (Q.says runner.now) lines.old (W.contents out.old) (W.contents out.new) name.entry.now) }
    ensures begun { IfErr result (λ _. LinesLeft (Q.says runner.now) lines.old (W.contents out.old) (W.contents out.new)) }
{
    let mut line: ArrayVec<u8, MAX_LINE> = ArrayVec::new();
    let mut buffer = [0; MAX_CONTEXT];
    let mut pending = Pending::new();
    let mut status = DONE;
    'answers: for before in 0..u64::MAX {
        send_before_a_read(lines, &mut pending, out)?;
        match next_context(lines, &mut line, &mut buffer) {
            NextContext::Context(count) => {
                status = status.max(answer_context(&mut pending, out, runner, &buffer[..count])?);
            }
            NextContext::End => {
                send(&mut pending, out)?;
                return Ok(status);
            }
            NextContext::Refused(error) => {
                send(&mut pending, out)?;
                let line = before + 1;
                return Err(Failure::BadLine { error, line });
            }
            NextContext::Failed => {
                send(&mut pending, out)?;
                return Err(Failure::CannotRead(name));
            }
        }
    }
    // No text has as many lines as that.
    Err(Failure::NoMemory)
}

/// Answers each context of the lines at a name, and gives the greatest of the statuses. A line that is refused ends it, and so
/// does whatever else fails; what was answered before stands.
pub fn answered<'a, P: Places, Q: Runner, W: Write>(
    places: &mut P,
    out: &mut W,
    runner: &Q,
    name: &'a str,
) -> Result<u8, Failure<'a>>
    ensures ok { IfOk result (AnswersAt P.opens places.old name.entry.now places.new (Q.says runner.now) (W.contents out.old) (W.contents out.new)) }
    ensures err { IfErr result (FailsAt P.opens places.old name.entry.now places.new (Q.says runner.now) (W.contents out.old) (W.contents out.new)) }
    ensures begun { IfErr result (λ _. LeftAt P.opens places.old name.entry.now places.new (Q.says runner.now)
        (W.contents out.old) (W.contents out.new)) }
    ensures names { Tried P.opens places.old name.entry.now places.new }
{
    let reader = match places.open(name) {
        Ok(reader) => reader,
        Err(PlaceError::Refused) => return Err(Failure::CannotRead(name)),
        Err(PlaceError::Memory) => return Err(Failure::NoMemory),
    };
    let mut lines = LineReader::new(reader);
    answer_lines(&mut lines, out, runner, name)
}
