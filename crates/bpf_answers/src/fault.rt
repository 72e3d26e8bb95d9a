//! Why the system refused what was asked of it, as far as it said.

ghost use Rattle.std.specs.Prelude.{◌≡◌};

use std::cell::Cell;
use std::io::{self, ErrorKind, Read, Write};

/// Why something of the system failed. It is told, and no answer depends on it.
#[derive(Clone, Copy, Debug, PartialEq, Eq)]
pub enum Cause {
    /// The system said nothing, or nothing that has words here.
    Unknown,
    /// Nothing stands there.
    NotFound,
    /// The rights don't suffice.
    Denied,
    /// It is a folder.
    Folder,
    /// What should be a folder is none.
    NotFolder,
    /// Links lead round, or there are too many.
    Loop,
    /// A name is too long.
    LongName,
    /// No room is left.
    Full,
    /// What is there can only be read.
    ReadOnly,
    /// Whoever was to read what is written has gone.
    Closed,
}

/// The cause that an error is.
fn cause_of(error: &io::Error) -> Cause {
    match error.kind() {
        ErrorKind::NotFound => Cause::NotFound,
        ErrorKind::PermissionDenied => Cause::Denied,
        ErrorKind::IsADirectory => Cause::Folder,
        ErrorKind::NotADirectory => Cause::NotFolder,
        ErrorKind::FilesystemLoop => Cause::Loop,
        ErrorKind::InvalidFilename => Cause::LongName,
        ErrorKind::StorageFull | ErrorKind::QuotaExceeded | ErrorKind::FileTooLarge => Cause::Full,
        ErrorKind::ReadOnlyFilesystem => Cause::ReadOnly,
        ErrorKind::BrokenPipe => Cause::Closed,
        _ => Cause::Unknown,
    }
}

/// The cause of the last fault, which whoever reads or writes for a command shares.
#[derive(Drop)]
pub struct LastFault {
    cause: Cell<Cause>,
}

impl LastFault {
    /// Nothing has failed.
    pub fn new() -> Self {
        LastFault {
            cause: Cell::new(Cause::Unknown),
        }
    }

    /// The cause of what failed last.
    pub fn cause(&self) -> Cause {
        self.cause.get()
    }

    /// Keeps the cause of what failed, if something did.
    pub(crate) fn note<T>(&self, given: io::Result<T>) -> io::Result<T>
        ensures { result ≡ given }
    {
        if let Err(error) = &given {
            self.cause.set(cause_of(error));
        }
        given
    }
}

/// A reader or a writer whose faults are noted.
#[derive(Drop)]
pub struct Noted<'a, T: Drop> {
    stream: T,
    fault: &'a LastFault,
}

impl<'a, T: Drop> Noted<'a, T> {
    /// The same, with its faults noted there.
    pub fn new(stream: T, fault: &'a LastFault) -> Self {
        Noted { stream, fault }
    }

    /// The reader or the writer itself.
    pub fn into_stream(self) -> T {
        self.stream
    }
}

impl<'a, T: Read + Drop> Read for Noted<'a, T> {
    fn read(&mut self, buf: &mut [u8]) -> io::Result<usize> {
        self.fault.note(self.stream.read(buf))
    }
}

impl<'a, T: Write + Drop> Write for Noted<'a, T> {
    fn write(&mut self, buf: &[u8]) -> io::Result<usize> {
        self.fault.note(self.stream.write(buf))
    }

    fn flush(&mut self) -> io::Result<()> {
        self.fault.note(self.stream.flush())
    }
}
