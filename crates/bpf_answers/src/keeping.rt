//! A reader whose bytes are kept.

ghost use Rattle.std.specs.Prelude.{◌≡◌, [], Some, None, true, ◌++◌, take, IfOk, OnErr, if◌then◌else◌};
ghost use Rattle.std.specs.Io.{ReadsAtMost};
ghost use Rattle.std.specs.Io.KnownBytes.{ReadConsumes};

use std::alloc::Global;
use std::io::{self, Read};

/// A reader that keeps the bytes that it gives, as far as there is memory.
#[derive(Drop)]
pub struct Keeping<R: Read + Drop> {
    reader: R,
    kept: Vec<u8>,
    is_whole: bool,
}

impl<R: Read + Drop> Keeping<R> {
    /// The same reader, of which nothing is kept yet.
    pub fn new(alloc: Global, reader: R) -> Self
        ensures reader { result.reader ≡ reader }
        ensures nothing { (result.kept.items ≡ []) × (result.is_whole ≡ true) }
    {
        Keeping {
            reader,
            kept: Vec::new(alloc),
            is_whole: true,
        }
    }

    /// The bytes that were read; None where memory ran out.
    pub fn into_kept(self) -> Option<Vec<u8>>
        ensures { result ≡ (if self.is_whole then Some self.kept else None) }
    {
        if self.is_whole { Some(self.kept) } else { None }
    }
}

impl<R: Read + Drop> Read for Keeping<R> {
    ghost remaining = { λ k. R.remaining k.reader };

    // Besides what a reader answers: what it gives is behind what was kept, if all of it is.
    fn read(&mut self, buf: &mut [u8]) -> io::Result<usize>
        ensures bound { ReadsAtMost result buf.new }
        ensures bytes { ReadConsumes (R.remaining self.old.reader) (R.remaining self.new.reader) result buf.new }
        ensures whole { IfOk result (λ n. self.new.is_whole ≡ true → self.old.is_whole ≡ true) }
        ensures kept { IfOk result (λ n. self.new.is_whole ≡ true → self.new.kept.items ≡ self.old.kept.items ++ take n buf.new) }
        ensures failed { OnErr result ((self.new.kept ≡ self.old.kept) × (self.new.is_whole ≡ self.old.is_whole)) }
    {
        let count = self.reader.read(buf)?;
        if self.kept.extend_from_slice(&buf[..count]).is_err() {
            self.is_whole = false;
        }
        Ok(count)
    }
}
