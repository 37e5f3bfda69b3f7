//! How a file of the host gets new content: it is written beside the file and put in its place at the end, so that
//! the old content or the new one stands there, whatever fails. A program that is killed before may leave a file
//! `.kremlin-N` there.
//!
//! The place of a name that is a link is where it leads, and the link stays. What is no regular file, as a device or a
//! pipe, and what a process has open (`/dev/stdout`, which leads to `/proc/self/fd/1`), is written in place. A file that
//! is replaced keeps its permissions, and has to let itself be written; so has its folder. It belongs to who replaces it,
//! and other names of it (hard links) keep the old content.
use std::alloc::Global;
use std::fs::{self, Metadata, OpenFile, OpenOptions, Permissions};
use std::io::{self, ErrorKind, Write};
use std::os::unix::fs::{MetadataExt, OpenOptionsExt, PermissionsExt};
use std::path::{Path, PathBuf};
use std::rt;

/// How many links a name may lead through, as on Linux.
const LINKS: u32 = 40;

/// How many names beside a file are tried.
const NAMES: u32 = 10_000;

/// The permissions of a new file, of which the process may take some away, and those that a file can keep.
const NEW: u32 = 0o666;

const KEPT: u32 = 0o777;

/// Makes the bytes the content of a name. It answers want of memory only where nothing changed.
pub fn save_file<R: rt::Files>(
    runtime: &R,
    alloc: Global,
    name: &str,
    bytes: &[u8],
) -> io::Result<()> {
    match OpenOptions::new().write(true).open(runtime, name) {
        Ok(file) => save_over(runtime, alloc, name, file, bytes),
        Err(error) if error.kind() == ErrorKind::NotFound => match end_of_links(
            runtime, alloc, name,
        )? {
            Some(path) => replace(runtime, alloc, path.as_path(), None, bytes),
            None => Err(error),
        },
        Err(error) => Err(error),
    }
}

/// Makes the bytes the content of what a name leads to, which is open to be written.
fn save_over<R: rt::Files>(
    runtime: &R,
    alloc: Global,
    name: &str,
    mut file: R::File,
    bytes: &[u8],
) -> io::Result<()> {
    let standing = file.metadata()?;
    if !standing.is_file() {
        return write_in_place(&mut file, bytes);
    }
    match end_of_links(runtime, alloc, name)? {
        Some(path) => {
            let mode = standing.permissions().mode() & KEPT;
            replace(runtime, alloc, path.as_path(), Some(mode), bytes)
        }
        None => {
            file.set_len(0)?;
            write_in_place(&mut file, bytes)
        }
    }
}

/// Writes the bytes into what is open. A part of them may stay there where that fails, so each error is a fault.
fn write_in_place<F: Write>(file: &mut F, bytes: &[u8]) -> io::Result<()> {
    match file.write_all(bytes) {
        Ok(()) => Ok(()),
        Err(_) => Err(io::Error::from(ErrorKind::Other)),
    }
}

/// The name that a name leads to, which may be missing; none where a link on the way is what a process has open.
fn end_of_links<R: rt::Files>(
    runtime: &R,
    alloc: Global,
    name: &str,
) -> io::Result<Option<PathBuf<Global>>> {
    let mut path = PathBuf::from_str(alloc, name)?;
    for _ in 0..=LINKS {
        let found = match fs::symlink_metadata(runtime, path.as_path()) {
            Ok(found) => found,
            Err(error) if error.kind() == ErrorKind::NotFound => return Ok(Some(path)),
            Err(error) => return Err(error),
        };
        if !found.is_symlink() {
            return Ok(Some(path));
        }
        if is_of_process(runtime, &found) {
            return Ok(None);
        }
        let target = runtime.read_link(alloc, path.as_path().as_str())?;
        path.set_file_name(target.as_path().as_str())?;
    }
    Err(io::Error::from(ErrorKind::FilesystemLoop))
}

/// Whether a link lies where Linux tells of processes. What such a link spells need not lead to what it stands for.
fn is_of_process<R: rt::Files>(runtime: &R, link: &Metadata) -> bool {
    match fs::symlink_metadata(runtime, "/proc/self") {
        Ok(process) => process.dev() == link.dev(),
        Err(_) => false,
    }
}

/// Puts a new file in the place of a name. It has these permissions where there is an old one.
fn replace<R: rt::Files>(
    runtime: &R,
    alloc: Global,
    path: Path<'_>,
    mode: Option<u32>,
    bytes: &[u8],
) -> io::Result<()> {
    let (beside, mut file) = create_beside(runtime, alloc, path, mode.unwrap_or(NEW))?;
    let replaced = match fill(&mut file, mode, bytes) {
        Ok(()) => fs::rename(runtime, beside.as_path(), path),
        Err(error) => Err(error),
    };
    if replaced.is_err() {
        let _ = fs::remove_file(runtime, beside.as_path());
    }
    replaced
}

/// Creates a file in the folder of a name, under a name that nothing has, with these permissions at most.
fn create_beside<R: rt::Files>(
    runtime: &R,
    alloc: Global,
    path: Path<'_>,
    mode: u32,
) -> io::Result<(PathBuf<Global>, R::File)> {
    let mut options = OpenOptions::new();
    options.write(true).create_new(true).mode(mode);
    for number in 0..NAMES {
        let name = format!(in alloc; ".kremlin-{number}")?;
        if path.file_name() == Some(name.as_str()) {
            continue;
        }
        let beside = path.with_file_name(alloc, name.as_str())?;
        match options.open(runtime, beside.as_path()) {
            Ok(file) => return Ok((beside, file)),
            Err(error) if error.kind() == ErrorKind::AlreadyExists => {}
            Err(error) => return Err(error),
        }
    }
    Err(io::Error::from(ErrorKind::AlreadyExists))
}

/// Gives a new file its permissions and all its bytes, which are on the disk then.
fn fill<F: Write + OpenFile>(file: &mut F, mode: Option<u32>, bytes: &[u8]) -> io::Result<()> {
    if let Some(mode) = mode {
        file.set_permissions(Permissions::from_mode(mode))?;
    }
    file.write_all(bytes)?;
    file.sync_all()
}
