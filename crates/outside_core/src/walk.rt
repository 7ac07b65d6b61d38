//! The files below a folder of the operating system.

ghost use Rattle.std.specs.Prelude.{◌≡◌, ◌↔◌, true};
ghost use Rattle.outside_core.specs.SystemErrors.{IsAbsence};

use doc_tree::Text;
use std::alloc::{AllocError, Global};
use std::io::ErrorKind;
use std::rt::Files;
use std::{fs, io};

/// The files below a folder, named from it and in any order, or `None` where the folder isn't there.
///
/// Only regular files are found: a link isn't followed, so the walk leads in no circle. A folder that goes away during the
/// walk has no files. A name that isn't UTF-8 is an error.
pub(crate) fn files_below<R: Files + AllocGlobal + Clone + Drop>(
    rt: &R,
    folder: &str,
) -> io::Result<Option<Vec<Text>>> {
    let alloc = rt.alloc();
    let mut files = Vec::new(alloc);
    let mut folders = Vec::new(alloc);
    if !enter(rt, folder, "", &mut files, &mut folders)? {
        return Ok(None);
    }
    // A bound for the proof: the walk ends when no folder is left.
    for _ in 0..usize::MAX {
        let Some(inner) = folders.pop() else {
            return Ok(Some(files));
        };
        let path = joined(alloc, folder, inner.as_str())?;
        enter(rt, path.as_str(), inner.as_str(), &mut files, &mut folders)?;
    }
    Err(io::Error::from(ErrorKind::Other))
}

/// Whether an error says that a file or folder isn't there.
pub(crate) fn is_absence(kind: ErrorKind) -> bool
    ensures { (result ≡ true) ↔ IsAbsence kind }
{
    matches!(kind, ErrorKind::NotFound | ErrorKind::NotADirectory)
}

// Adds the files and the folders in the folder at a path, of which `inner` is the name from the top. Whether it is there.
fn enter<R: Files + AllocGlobal + Clone + Drop>(
    rt: &R,
    path: &str,
    inner: &str,
    files: &mut Vec<Text>,
    folders: &mut Vec<String>,
) -> io::Result<bool> {
    let entries = match fs::read_dir(rt, path) {
        Ok(entries) => entries,
        Err(error) if is_absence(error.kind()) => return Ok(false),
        Err(error) => return Err(error),
    };
    for entry in entries {
        let entry = entry?;
        let name = joined(rt.alloc(), inner, entry.file_name())?;
        let kind = entry.file_type()?;
        if kind.is_dir() {
            folders.push(name)?;
        } else if kind.is_file() {
            files.push(Text::of(name))?;
        }
    }
    Ok(true)
}

// A name below a folder. The top of a walk has the empty name.
fn joined(alloc: Global, folder: &str, name: &str) -> Result<String, AllocError> {
    let mut path = String::from_str(alloc, folder)?;
    if !folder.is_empty() {
        path.push('/')?;
    }
    path.push_str(name)?;
    Ok(path)
}
