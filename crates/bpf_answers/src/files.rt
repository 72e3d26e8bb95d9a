//! The files of the system, and `-` for standard input and output.

ghost use Rattle.std.specs.Prelude.{◌≡◌};

use crate::beside::Beside;
use crate::error::PlaceError;
use crate::fault::{Cause, LastFault, Noted};
use crate::links::{behind_links, is_name_of, lead_to_one};
use crate::places::Places;
use std::alloc::{AllocError, Global};
use std::fs::{self, Metadata};
use std::io::{self, ErrorKind, Read, Stdin, Stdout, Write};
use std::os::unix::fs::MetadataExt;
use std::rt::Files;

/// A file, or standard input.
#[derive(Drop)]
pub enum FileReader<F: Read + Drop> {
    File(F),
    Input(Stdin),
}

impl<F: Read + Drop> Read for FileReader<F> {
    fn read(&mut self, buf: &mut [u8]) -> io::Result<usize> {
        match self {
            FileReader::File(file) => file.read(buf),
            FileReader::Input(input) => input.read(buf),
        }
    }
}

/// A file that isn't at its name yet, or what is written as it is.
#[derive(Drop)]
pub enum FileWriter<F: Write + Drop> {
    Beside(Beside<F>),
    /// What stands at the name and is no plain file: a device or a pipe.
    AtName(F),
    Output(Stdout),
}

impl<F: Write + Drop> Write for FileWriter<F> {
    fn write(&mut self, buf: &[u8]) -> io::Result<usize> {
        match self {
            FileWriter::Beside(beside) => beside.file.write(buf),
            FileWriter::AtName(file) => file.write(buf),
            FileWriter::Output(output) => output.write(buf),
        }
    }

    fn flush(&mut self) -> io::Result<()> {
        match self {
            FileWriter::Beside(beside) => beside.file.flush(),
            FileWriter::AtName(file) => file.flush(),
            FileWriter::Output(output) => output.flush(),
        }
    }
}

/// The files of the system, and `-` for standard input and output.
#[derive(Drop)]
pub struct FilePlaces<'a, R: Files> {
    runtime: &'a R,
    fault: &'a LastFault,
    alloc: Global,
    input: Stdin,
    output: Stdout,
}

impl<'a, R: Files> FilePlaces<'a, R> {
    /// The files that the runtime reaches, and these streams. What fails of them is noted there.
    pub fn new(
        runtime: &'a R,
        fault: &'a LastFault,
        alloc: Global,
        input: Stdin,
        output: Stdout,
    ) -> Self
        ensures { result.runtime ≡ runtime.entry }
    {
        FilePlaces {
            runtime,
            fault,
            alloc,
            input,
            output,
        }
    }

    /// What is written for a name where a plain file stands, or nothing: a new file beside it. A name that is a link is that of
    /// what it leads to. A file that no name leads to, as an open one may be, is written as it is.
    fn beside(&self, name: &str, found: Option<&Metadata>) -> io::Result<FileWriter<R::File>> {
        let target = behind_links(self.runtime, self.alloc, name)?;
        if found.is_some_and(|file| !is_name_of(self.runtime, target.as_str(), file)) {
            return self.at_name(name);
        }
        let mode = found.map(Metadata::mode);
        Ok(FileWriter::Beside(Beside::new(self.runtime, self.alloc, target, mode)?))
    }

    /// What stands at the name.
    fn at_name(&self, name: &str) -> io::Result<FileWriter<R::File>> {
        Ok(FileWriter::AtName(fs::create(self.runtime, name)?))
    }

    /// What is written for a name.
    fn writer(&self, name: &str) -> io::Result<FileWriter<R::File>> {
        if name == "-" {
            return Ok(FileWriter::Output(self.output));
        }
        match fs::metadata(self.runtime, name) {
            Ok(found) if found.is_file() => self.beside(name, Some(&found)),
            Ok(_) => self.at_name(name),
            Err(error) if error.kind() == ErrorKind::NotFound => self.beside(name, None),
            Err(error) => Err(error),
        }
    }

    /// What is read for a name.
    fn reader(&self, name: &str) -> io::Result<FileReader<R::File>> {
        if name == "-" {
            return Ok(FileReader::Input(self.input));
        }
        Ok(FileReader::File(fs::open(self.runtime, name)?))
    }

    /// Puts what was written at its name.
    fn put(&self, writer: FileWriter<R::File>) -> io::Result<()> {
        match writer {
            FileWriter::Beside(beside) => beside.put(self.runtime),
            FileWriter::AtName(mut file) => file.flush(),
            FileWriter::Output(mut output) => output.flush(),
        }
    }
}

impl<'a, R: Files> Places for FilePlaces<'a, R> {
    type Reader = Noted<'a, FileReader<R::File>>;

    type Writer = Noted<'a, FileWriter<R::File>>;

    fn open(&mut self, name: &str) -> Result<Noted<'a, FileReader<R::File>>, PlaceError> {
        let reader = self.fault.note(self.reader(name))?;
        Ok(Noted::new(reader, self.fault))
    }

    // Whoever changes what stands at the name between the question and the renaming has it renamed over.
    fn create(&mut self, name: &str) -> Result<Noted<'a, FileWriter<R::File>>, PlaceError> {
        let writer = self.fault.note(self.writer(name))?;
        Ok(Noted::new(writer, self.fault))
    }

    fn finish(&mut self, writer: Noted<'a, FileWriter<R::File>>) -> io::Result<()> {
        self.fault.note(self.put(writer.into_stream()))
    }

    fn discard(&mut self, writer: Noted<'a, FileWriter<R::File>>) {
        if let FileWriter::Beside(beside) = writer.into_stream() {
            beside.discard(self.runtime);
        }
    }

    // Where the one or the other can't be told, they aren't: whatever is in the way will be in the way of writing, too.
    fn lead_to_one(&self, first: &str, second: &str) -> Result<bool, AllocError> {
        match lead_to_one(self.runtime, self.alloc, first, second) {
            Ok(one) => Ok(one),
            Err(error) if error.kind() == ErrorKind::OutOfMemory => Err(AllocError),
            Err(_) => Ok(false),
        }
    }

    fn cause(&self) -> Cause {
        self.fault.cause()
    }
}
