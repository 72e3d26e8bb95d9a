//! What the command reads and writes, by name.

ghost use Rattle.std.specs.Prelude.{◌≡◌, ℕ, Bool, List, [], Option, ⊤, IfOk, IfSome, is_ok, option_map, false};
ghost use Rattle.std.specs.Result.{result_ok};

use crate::error::PlaceError;
use crate::fault::Cause;
use std::alloc::AllocError;
use std::io::{self, Read, Write};

/// Opens names for reading and for writing.
pub trait Places {
    type Reader: Read + Drop;

    type Writer: Write + Drop;

    /// What opening a name gives, the bytes of its reader as far as they are known, or None where it fails; and the places after it. Of
    /// files nothing is known.
    ghost opens: { Self → List ℕ → Option (Option (List ℕ)) → Self → Type 0 } = { λ _ _ _ _. ⊤ };

    /// What making a stream for a name gives, None where it fails, and the places after it.
    ghost creates: { Self → List ℕ → Option Self.Writer → Self → Type 0 } = { λ _ _ _ _. ⊤ };

    /// Whether the bytes of a writer, as it then is, came to stand at its name, and the places after it.
    ghost ends: { Self → Self.Writer → Bool → Self → Type 0 } = { λ _ _ _ _. ⊤ };

    /// Whether what is written for the one name comes to stand in the place of what is written for the other.
    ghost meets: { Self → List ℕ → List ℕ → Bool → Type 0 } = { λ _ _ _ _. ⊤ };

    /// What stands at the name. `Memory` where there is none to open it, `Refused` where it can't be opened for another cause.
    fn open(&mut self, name: &str) -> Result<Self::Reader, PlaceError>
        ensures { opens self.old name.now (option_map Self.Reader.remaining (result_ok result)) self.new };

    /// An empty stream whose bytes stand at the name once it is finished. `Memory` where there is none to make it, `Refused` where it
    /// can't be made for another cause.
    fn create(&mut self, name: &str) -> Result<Self::Writer, PlaceError>
        ensures creates { creates self.old name.now (result_ok result) self.new }
        ensures empty { IfOk result (λ w. IfSome (Self.Writer.contents w) (λ bytes. bytes ≡ [])) };

    /// Puts what was written at its name, in place of what stood there; where that fails, what stood there stays.
    fn finish(&mut self, writer: Self::Writer) -> io::Result<()>
        ensures { ends self.old writer (is_ok result) self.new };

    /// Throws away what was written; what stood at the name stays.
    fn discard(&mut self, writer: Self::Writer)
        ensures { ends self.old writer false self.new };

    /// Whether what is written for the one name comes to stand in the place of what is written for the other, as far as that can be
    /// told.
    fn lead_to_one(&self, first: &str, second: &str) -> Result<bool, AllocError>
        ensures { IfOk result (meets self.now first.now second.now) };

    /// Why what failed last of what is read or written by name did. No answer depends on it.
    fn cause(&self) -> Cause;
}
