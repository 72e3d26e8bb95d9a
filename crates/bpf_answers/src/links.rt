//! Where a name leads.

use std::alloc::Global;
use std::fs::{self, Metadata};
use std::io;
use std::os::unix::fs::MetadataExt;
use std::path::PathBuf;
use std::rt::Files;

/// How many links are followed, one behind the other: as many as the system follows.
const MAX_LINKS: u32 = 40;

/// The name that stands behind the links of a name; the name itself where it is none. Nothing need stand there.
pub fn behind_links<R: Files>(runtime: &R, alloc: Global, name: &str) -> io::Result<PathBuf> {
    let mut path = PathBuf::from_str(alloc, name)?;
    for _ in 0..MAX_LINKS {
        match fs::symlink_metadata(runtime, path.as_str()) {
            Ok(found) if found.is_symlink() => {
                let next = runtime.read_link(alloc, path.as_str())?;
                path.set_file_name(next.as_str())?;
            }
            Ok(_) | Err(_) => return Ok(path),
        }
    }
    Err(io::Error::from(io::ErrorKind::FilesystemLoop))
}

/// Whether a name, which is no link, is that of this file.
pub fn is_name_of<R: Files>(runtime: &R, name: &str, file: &Metadata) -> bool {
    fs::symlink_metadata(runtime, name).is_ok_and(|found| found.dev() == file.dev()
        && found.ino() == file.ino())
}

/// Where what is written for a name comes to stand: a folder, by its numbers, and the name of the file in it.
#[derive(Drop)]
struct Target {
    device: u64,
    folder: u64,
    path: PathBuf,
}

/// Where what is written for a name comes to stand; None where that is no file's place, but a standard stream, a device or a pipe.
fn target_of<R: Files>(runtime: &R, alloc: Global, name: &str) -> io::Result<Option<Target>> {
    let is_file = fs::metadata(runtime, name).map_or(true, |found| found.is_file());
    if name == "-" || !is_file {
        return Ok(None);
    }
    let path = behind_links(runtime, alloc, name)?;
    let folder = match path.parent() {
        Some(parent) if parent.as_str() != "" => fs::metadata(runtime, parent.as_str())?,
        _ => fs::metadata(runtime, ".")?,
    };
    Ok(Some(Target {
        device: folder.dev(),
        folder: folder.ino(),
        path,
    }))
}

/// Whether what is written for the one name would come to stand in the place of what is written for the other. They may lead through any links and folders.
pub fn lead_to_one<R: Files>(
    runtime: &R,
    alloc: Global,
    first: &str,
    second: &str,
) -> io::Result<bool> {
    let (Some(first), Some(second)) = (
        target_of(runtime, alloc, first)?,
        target_of(runtime, alloc, second)?,
    ) else {
        return Ok(false);
    };
    Ok(
        first.device == second.device
            && first.folder == second.folder
            && first.path.file_name() == second.path.file_name(),
    )
}
