// Files of the host, each replaced as a whole.
use std::alloc::{AllocError, AllocGlobal, Global};
use std::fs::{File, Metadata, OpenOptions, Permissions};
use std::io::{ErrorKind, Read, Write};
use std::os::unix::fs::{MetadataExt, OpenOptionsExt, PermissionsExt, fchown};
use std::path::{Path, PathBuf};
use std::rt::Files;
use std::{fs, io};

// How many links may lead from one to the next, as Linux has it.
const MOST_LINKS: u32 = 40;

// How many names are tried for what is written beside a file. Each process that was killed at it leaves one of them.
const MOST_NAMES: u32 = 10_000;

// How much of a file is compared at once.
const PIECE: usize = 0x1000;

/// Why a file was not stored.
#[derive(Clone, Copy)]
pub enum StoreFail {
    Failed,
    NoMemory,
}

impl From<AllocError> for StoreFail {
    fn from(_error: AllocError) -> StoreFail {
        StoreFail::NoMemory
    }
}

impl From<io::Error> for StoreFail {
    fn from(error: io::Error) -> StoreFail {
        match error.kind() {
            ErrorKind::OutOfMemory => StoreFail::NoMemory,
            _ => StoreFail::Failed,
        }
    }
}

/// Makes the file of that name these bytes, at once: whenever the process ends, the name has all its old bytes or all
/// of these. A file that has these bytes already stays as it is. What is no regular file is written as it is.
pub fn store_whole<R: Files<File = File> + AllocGlobal>(
    rt: &R,
    name: &str,
    bytes: &[u8],
) -> Result<(), StoreFail> {
    match OpenOptions::new().write(true).open(rt, name) {
        Ok(mut file) => {
            let old = file.metadata()?;
            if old.is_file() {
                return replace(rt, name, Some(old), bytes);
            }
            file.write_all(bytes)?;
            Ok(())
        }
        Err(error) => match error.kind() {
            ErrorKind::NotFound => replace(rt, name, None, bytes),
            _ => Err(StoreFail::from(error)),
        },
    }
}

// Stores the bytes under a name of their own, and then moves them over the file. A name that leads to what a process
// has open lies in no folder, and is written as it is.
fn replace<R: Files<File = File> + AllocGlobal>(
    rt: &R,
    name: &str,
    old: Option<Metadata>,
    bytes: &[u8],
) -> Result<(), StoreFail> {
    let Some(path) = path_of(rt, name)? else {
        fs::write(rt, name, bytes)?;
        return Ok(());
    };
    if old.is_some() && matches!(is_stored(rt, path.as_path(), bytes), Ok(true)) {
        return sync_folder(rt, path.as_path());
    }
    let (mut file, beside) = create_beside(rt, path.as_path(), old.is_some())?;
    let filled = fill(&mut file, old, bytes);
    match move_over(rt, filled, beside.as_path(), path.as_path()) {
        Ok(()) => sync_folder(rt, path.as_path()),
        Err(error) => {
            let _ = fs::remove_file(rt, beside.as_path());
            Err(error)
        }
    }
}

// Whether the file of that path has just these bytes, and then waits until the device has them.
fn is_stored<R: Files<File = File>>(rt: &R, path: Path<'_>, bytes: &[u8]) -> io::Result<bool> {
    let mut file = fs::open(rt, path)?;
    if file.metadata()?.len() != bytes.len() as u64 {
        return Ok(false);
    }
    let mut room = [0; PIECE];
    for wanted in bytes.chunks(PIECE) {
        let found = &mut room[..wanted.len().min(PIECE)];
        file.read_exact(found)?;
        if *found != *wanted {
            return Ok(false);
        }
    }
    file.sync_all()?;
    Ok(true)
}

// The path of the file that the name leads to; none where it leads to what a process has open.
fn path_of<R: Files<File = File> + AllocGlobal>(
    rt: &R,
    name: &str,
) -> Result<Option<PathBuf>, StoreFail> {
    let mut path = PathBuf::from_str(rt.alloc(), name)?;
    for _ in 0..MOST_LINKS {
        match fs::symlink_metadata(rt, path.as_path()) {
            Ok(found) if found.is_symlink() => {}
            _ => return Ok(Some(path)),
        }
        let text = path.as_str();
        if text.starts_with("/proc/") || text.starts_with("/dev/") {
            return Ok(None);
        }
        let target = fs::read_link(rt, path.as_path())?;
        path.pop();
        path.push(target)?;
    }
    Err(StoreFail::Failed)
}

// A new file in the folder of that path. Where it is to take the place of another, only its owner may read it yet.
fn create_beside<R: Files<File = File> + AllocGlobal>(
    rt: &R,
    path: Path<'_>,
    is_hidden: bool,
) -> Result<(File, PathBuf), StoreFail> {
    let mut options = OpenOptions::new();
    options.write(true).create_new(true);
    if is_hidden {
        options.mode(0o600);
    }
    for number in 0..MOST_NAMES {
        let name = format!(in rt.alloc(); ".nurghobi-{number}.part")?;
        let beside = path.with_file_name(rt.alloc(), name.as_str())?;
        match options.open(rt, beside.as_path()) {
            Ok(file) => return Ok((file, beside)),
            Err(error) => match error.kind() {
                ErrorKind::AlreadyExists => {}
                _ => return Err(StoreFail::from(error)),
            },
        }
    }
    Err(StoreFail::Failed)
}

// Gives the new file all that it is to have, and waits until the device has it.
fn fill(file: &mut File, old: Option<Metadata>, bytes: &[u8]) -> Result<(), StoreFail> {
    file.write_all(bytes)?;
    if let Some(old) = old {
        // who may not give a file away keeps it
        let _ = fchown(&*file, None, Some(old.gid()));
        let _ = fchown(&*file, Some(old.uid()), None);
        let new = file.metadata()?;
        let wanted = mode_after(&old, &new);
        if new.mode() & 0o7777 != wanted {
            file.set_permissions(Permissions::from_mode(wanted))?;
        }
    }
    file.sync_all()?;
    Ok(())
}

// The mode of the file that takes the old one's place: the same, but that nothing is granted to another group or done in
// another's name.
fn mode_after(old: &Metadata, new: &Metadata) -> u32 {
    let kept = if new.gid() != old.gid() {
        0o707
    } else if new.uid() != old.uid() {
        0o777
    } else {
        0o7777
    };
    old.mode() & kept
}

// Moves what was filled over the file of that path.
fn move_over<R: Files<File = File>>(
    rt: &R,
    filled: Result<(), StoreFail>,
    beside: Path<'_>,
    path: Path<'_>,
) -> Result<(), StoreFail> {
    filled?;
    fs::rename(rt, beside, path)?;
    Ok(())
}

// Waits until the device has the folder of that path as it is, where the folder may be read and can be synced.
fn sync_folder<R: Files<File = File>>(rt: &R, path: Path<'_>) -> Result<(), StoreFail> {
    let folder = match path.parent() {
        Some(parent) if !parent.as_str().is_empty() => parent,
        _ => Path::new("."),
    };
    let Ok(folder) = fs::open(rt, folder) else {
        return Ok(());
    };
    match folder.sync_all() {
        Ok(()) => Ok(()),
        Err(error) => match error.kind() {
            ErrorKind::InvalidInput => Ok(()),
            _ => Err(StoreFail::from(error)),
        },
    }
}
