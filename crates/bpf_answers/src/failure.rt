//! What ends a command before it has an answer, and the statuses.

ghost use Rattle.std.specs.Prelude.{◌≡◌, ◌++◌, OnOk, OnErr, codes};
ghost use Rattle.bpf_insn.specs.Written.{AppendsBeginning};
ghost use Rattle.bpf_answers.specs.Told.{cause_text, failure_line, failure_text, failure_words, is_closed, is_gone, is_of_name, is_of_writing, line_text, reason_of, status_of_context, status_of_failure, told_of};
ghost use Rattle.std.specs.Io.KnownBytes.{Appends, Keeps};

use crate::context::ContextError;
use crate::fault::Cause;
use bpf_insn::written::write_bytes;
use bpf_streams::write_escaped;
use itoa::Buffer;
use std::alloc::AllocError;
use std::io::{self, ErrorKind, Write};

/// Done, yes or written.
pub const DONE: u8 = 0;
/// A refusal, a fault of the program or out of fuel.
pub const REFUSED: u8 = 1;
/// The command line is not understood, or help was asked for.
pub const BAD_WORDS: u8 = 2;
/// Something outside failed: a file, the output or memory.
pub const FAILED: u8 = 3;
/// Whoever was to read what is written has gone: what a shell tells of a tool that the closed pipe's signal (13) ends.
pub const CLOSED: u8 = 141;

/// What outside of the command failed.
#[derive(Clone, Copy, Debug)]
pub enum Failure<'a> {
    CannotRead(&'a str),
    CannotWrite(&'a str),
    NoMemory,
    /// The word for the context, or what stands at its name, is none.
    BadContext(ContextError),
    /// The line of a context is none. The first line is 1.
    BadLine { error: ContextError, line: u64 },
    /// No context is given.
    NoContext,
    /// A context is given in two ways.
    ContextTwice,
    /// The greatest length of contexts is below the least.
    MostBelowLeast,
    /// Two names to read are standard input.
    InputTwice,
    /// Words that don't go together are given.
    NotTogether,
    /// A word isn't UTF-8.
    NotUtf8,
    /// What stands at a name isn't UTF-8.
    NotText(&'a str),
}

impl ContextError {
    /// The status of a command that it ends.
    fn status(self) -> u8
        ensures { result ≡ status_of_context self }
    {
        match self {
            ContextError::BadHex | ContextError::TooLong => BAD_WORDS,
            ContextError::Memory => FAILED,
        }
    }

    /// What is told of a line, before its number.
    fn line_text(self) -> &'static str
        ensures { result.now ≡ line_text self }
    {
        match self {
            ContextError::BadHex => "bad hex at line ",
            ContextError::TooLong => "context too long at line ",
            ContextError::Memory => "no memory at line ",
        }
    }
}

impl<'a> Failure<'a> {
    /// The status of the command.
    pub fn status(self) -> u8
        ensures { result ≡ status_of_failure self.entry }
    {
        match self {
            Failure::CannotRead(_) | Failure::CannotWrite(_) | Failure::NoMemory => FAILED,
            Failure::NotText(_) => FAILED,
            Failure::BadContext(error) | Failure::BadLine { error, .. } => error.status(),
            Failure::NoContext | Failure::ContextTwice => BAD_WORDS,
            Failure::MostBelowLeast | Failure::InputTwice => BAD_WORDS,
            Failure::NotTogether | Failure::NotUtf8 => BAD_WORDS,
        }
    }

    /// What the failure is, and the name or the number of the line that it is of.
    fn text(self, buffer: &'a mut Buffer) -> (&'static str, &'a str)
        ensures { result.0.now ++ told_of self.entry result.1.now ≡ failure_text self.entry }
    {
        match self {
            Failure::CannotRead(name) => ("cannot read ", name),
            Failure::CannotWrite(name) => ("cannot write ", name),
            Failure::BadContext(ContextError::BadHex) => ("bad hex", ""),
            Failure::BadContext(ContextError::TooLong) => ("context too long", ""),
            Failure::BadContext(ContextError::Memory) | Failure::NoMemory => ("no memory", ""),
            Failure::BadLine { error, line } => (error.line_text(), buffer.format(line)),
            Failure::NoContext => ("no context", ""),
            Failure::ContextTwice => ("context twice", ""),
            Failure::MostBelowLeast => ("most below least", ""),
            Failure::InputTwice => ("standard input twice", ""),
            Failure::NotTogether => ("words that don't go together", ""),
            Failure::NotUtf8 => ("words that aren't UTF-8", ""),
            Failure::NotText(name) => ("not UTF-8: ", name),
        }
    }
}

/// What is told of a cause, behind a name.
fn cause_text(cause: Cause) -> &'static str
    ensures { result.now ≡ cause_text cause }
{
    match cause {
        Cause::Unknown => "",
        Cause::NotFound => ": No such file or directory",
        Cause::Denied => ": Permission denied",
        Cause::Folder => ": Is a directory",
        Cause::NotFolder => ": Not a directory",
        Cause::Loop => ": Too many levels of symbolic links",
        Cause::LongName => ": File name too long",
        Cause::Full => ": No space left",
        Cause::ReadOnly => ": Read-only file system",
        Cause::Closed => ": Broken pipe",
    }
}

/// Whether whoever was to read what is written has gone.
fn is_gone(cause: Cause) -> bool
    ensures { result ≡ is_gone cause }
{
    match cause {
        Cause::Closed => true,
        Cause::Unknown | Cause::NotFound | Cause::Denied | Cause::Folder => false,
        Cause::NotFolder | Cause::Loop | Cause::LongName | Cause::Full => false,
        Cause::ReadOnly => false,
    }
}

impl<'a> Failure<'a> {
    /// Whether the system may have a reason for it: it is of a name or of standard output.
    fn is_of_name(self) -> bool
        ensures { result ≡ is_of_name self.entry }
    {
        match self {
            Failure::CannotRead(_) | Failure::CannotWrite(_) => true,
            Failure::NoMemory | Failure::BadContext(_) | Failure::BadLine { .. } => false,
            Failure::NoContext | Failure::ContextTwice | Failure::MostBelowLeast => false,
            Failure::InputTwice | Failure::NotTogether | Failure::NotUtf8 => false,
            Failure::NotText(_) => false,
        }
    }

    /// Whether something can't be written.
    fn is_of_writing(self) -> bool
        ensures { result ≡ is_of_writing self.entry }
    {
        match self {
            Failure::CannotWrite(_) => true,
            Failure::CannotRead(_) | Failure::NoMemory | Failure::BadContext(_) => false,
            Failure::BadLine { .. } | Failure::NoContext | Failure::ContextTwice => false,
            Failure::MostBelowLeast | Failure::InputTwice => false,
            Failure::NotTogether | Failure::NotUtf8 | Failure::NotText(_) => false,
        }
    }

    /// Whether it is a closed pipe that is written to, as behind `| head -1`: nobody needs to be told.
    pub fn is_closed(self, cause: Cause) -> bool
        ensures { result ≡ is_closed self.entry cause }
    {
        self.is_of_writing() && is_gone(cause)
    }

    /// The reason that is told of it.
    fn reason(self, cause: Cause) -> &'static str
        ensures { result.now ≡ reason_of self.entry cause }
    {
        if self.is_of_name() {
            cause_text(cause)
        } else {
            ""
        }
    }
}

impl<'a> From<AllocError> for Failure<'a> {
    ghost use Rattle.std.specs.Prelude.{◌≡◌};
    ghost use Rattle.bpf_answers.specs.declared.failure.Failure.TheVariants.{NoMemory};

    ghost from_gives = { λ _ failure. failure ≡ NoMemory };

    fn from(_error: AllocError) -> Self {
        Failure::NoMemory
    }
}

/// Writes what a failure is of: control characters of a name by their bytes.
fn write_what<W: Write>(err: &mut W, failure: Failure<'_>, what: &[u8]) -> io::Result<()>
    ensures ok { OnOk result (Appends (W.contents err.old) (W.contents err.new) (told_of failure.entry what.now)) }
    ensures err { OnErr result (AppendsBeginning (W.contents err.old) (W.contents err.new) (told_of failure.entry what.now)) }
{
    match failure {
        Failure::CannotRead(_) | Failure::CannotWrite(_) | Failure::NotText(_) => {
            write_escaped(err, what, false)
        }
        Failure::BadContext(_) | Failure::BadLine { .. } | Failure::NoMemory => {
            write_bytes(err, what)
        }
        Failure::NoContext | Failure::ContextTwice | Failure::MostBelowLeast => {
            write_bytes(err, what)
        }
        Failure::InputTwice | Failure::NotTogether | Failure::NotUtf8 => write_bytes(err, what),
    }
}

/// Writes a failure and what it is of.
fn write_failure<W: Write>(err: &mut W, failure: Failure<'_>) -> io::Result<()>
    ensures ok { OnOk result (Appends (W.contents err.old) (W.contents err.new) (failure_text failure.entry)) }
    ensures err { OnErr result (AppendsBeginning (W.contents err.old) (W.contents err.new) (failure_text failure.entry)) }
{
    let mut buffer = Buffer::new();
    let (text, name) = failure.text(&mut buffer);
    write_bytes(err, text.as_bytes())?;
    write_what(err, failure, name.as_bytes())
}

/// Writes a failure, what it is of, and why.
fn write_words<W: Write>(err: &mut W, failure: Failure<'_>, cause: Cause) -> io::Result<()>
    ensures ok { OnOk result (Appends (W.contents err.old) (W.contents err.new) (failure_words failure.entry cause)) }
    ensures err { OnErr result (AppendsBeginning (W.contents err.old) (W.contents err.new) (failure_words failure.entry cause)) }
{
    write_failure(err, failure)?;
    write_bytes(err, failure.reason(cause).as_bytes())
}

/// Ends a line. Where that fails nothing was written.
fn write_end<W: Write>(err: &mut W) -> io::Result<()>
    ensures ok { OnOk result (Appends (W.contents err.old) (W.contents err.new) (codes "\n")) }
    ensures err { OnErr result (Keeps (W.contents err.old) (W.contents err.new)) }
{
    let count = match err.write(b"\n") {
        Ok(count) => count,
        Err(error) => return Err(error),
    };
    if count == 0 {
        return Err(io::Error::from(ErrorKind::WriteZero));
    }
    Ok(())
}

/// Tells a failure on standard error in a line, with the cause that the system told. Where that fails, standard error has a beginning
/// of the line without its end. Takes no memory.
pub fn tell<W: Write>(failure: Failure<'_>, cause: Cause, err: &mut W) -> io::Result<()>
    ensures ok { OnOk result (Appends (W.contents err.old) (W.contents err.new) (failure_line failure.entry cause)) }
    ensures err { OnErr result (AppendsBeginning (W.contents err.old) (W.contents err.new) (failure_words failure.entry cause)) }
{
    write_words(err, failure, cause)?;
    write_end(err)
}
