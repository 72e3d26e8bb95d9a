//! Files that stand beside a name until they are whole.

use std::alloc::{AllocError, Global};
use std::fs::{self, OpenFile, OpenOptions, Permissions};
use std::io::{self, ErrorKind, Write};
use std::os::unix::fs::{OpenOptionsExt, PermissionsExt};
use std::path::PathBuf;
use std::rt::Files;

/// How many names are tried for a file.
const TRIES: u32 = 100;

/// What a file may be used for by whom, where nothing stands at the name; the process' mask takes from it.
const NEW_MODE: u32 = 0o666;

/// The bits of a mode that are kept: reading, writing and running, of the owner, the group and the others.
const MODE_BITS: u32 = 0o777;

/// A new file beside a name.
#[derive(Drop)]
pub struct Beside<F: Write + Drop> {
    pub file: F,
    /// Where it stands.
    partial: String,
    /// Where it is to stand.
    name: PathBuf,
}

/// A name beside a name; the first has no number.
fn partial_name(alloc: Global, name: &str, number: u32) -> Result<String, AllocError> {
    match number {
        0 => format!(in alloc; "{name}.partial"),
        _ => format!(in alloc; "{name}.partial{number}"),
    }
}

/// A new file at the first name beside this one where nothing stands, and that name; `AlreadyExists` where all are taken. So a file
/// that a run left behind is in nobody's way, and nobody writes another run's file.
fn new_file<R: Files>(
    runtime: &R,
    alloc: Global,
    name: &str,
    mode: u32,
) -> io::Result<(R::File, String)> {
    let mut options = OpenOptions::new();
    options.write(true).create_new(true).mode(mode & MODE_BITS);
    for number in 0..TRIES {
        let partial = partial_name(alloc, name, number)?;
        match options.open(runtime, partial.as_str()) {
            Ok(file) => return Ok((file, partial)),
            Err(error) if error.kind() == ErrorKind::AlreadyExists => {}
            Err(error) => return Err(error),
        }
    }
    Err(io::Error::from(ErrorKind::AlreadyExists))
}

/// The same; beside `bpf` in the name's folder, where the names beside this one are too long.
fn new_file_in_folder<R: Files>(
    runtime: &R,
    alloc: Global,
    name: &PathBuf,
    mode: u32,
) -> io::Result<(R::File, String)> {
    match new_file(runtime, alloc, name.as_str(), mode) {
        Err(error) if error.kind() == ErrorKind::InvalidFilename => {
            let short = name.as_path().with_file_name(alloc, "bpf")?;
            new_file(runtime, alloc, short.as_str(), mode)
        }
        made => made,
    }
}

/// Puts a whole file in the place of what stands at the name.
fn rename_whole<R: Files>(runtime: &R, file: R::File, partial: &str, name: &str) -> io::Result<()> {
    file.sync_all()?;
    drop(file);
    fs::rename(runtime, partial, name)
}

impl<F: Write + OpenFile + Drop> Beside<F> {
    /// A new file beside a name, with the mode of what stands there, None where nothing does. Nobody may read of it before who may not
    /// read of that.
    pub fn new<R: Files<File = F>>(
        runtime: &R,
        alloc: Global,
        name: PathBuf,
        mode: Option<u32>,
    ) -> io::Result<Self> {
        let bits = mode.unwrap_or(NEW_MODE);
        let (file, partial) = new_file_in_folder(runtime, alloc, &name, bits)?;
        let beside = Beside {
            file,
            partial,
            name,
        };
        match beside.keep_mode(mode) {
            Ok(()) => Ok(beside),
            Err(error) => {
                beside.discard(runtime);
                Err(error)
            }
        }
    }

    /// Gives the file this mode, which the process' mask took from.
    fn keep_mode(&self, mode: Option<u32>) -> io::Result<()> {
        match mode {
            Some(mode) => self
                .file
                .set_permissions(Permissions::from_mode(mode & MODE_BITS)),
            None => Ok(()),
        }
    }

    /// Puts the file, which is whole, in the place of what stands at the name; where that fails, throws it away.
    pub fn put<R: Files<File = F>>(self, runtime: &R) -> io::Result<()> {
        let Beside {
            file,
            partial,
            name,
        } = self;
        let put = rename_whole(runtime, file, partial.as_str(), name.as_str());
        if put.is_err() {
            let _ = fs::remove_file(runtime, partial.as_str());
        }
        put
    }

    /// Throws the file away.
    pub fn discard<R: Files<File = F>>(self, runtime: &R) {
        let Beside { file, partial, .. } = self;
        drop(file);
        let _ = fs::remove_file(runtime, partial.as_str());
    }
}
