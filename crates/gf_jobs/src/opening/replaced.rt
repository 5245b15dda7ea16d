//! How a text takes the place of a file: it is written to a new file beside it, which is then given
//! its name.

use gf_nfg::TextPieces;
use gf_run::{Counted, LIMIT, LastError, push_all};
use std::fs::{File, Metadata};
use std::io::ErrorKind;
use std::os::unix::fs::{MetadataExt, fchown};
use std::{fs, io};

/// How many names are tried for the new file.
const TRIES: u32 = 100;

/// A file that is not there yet.
#[derive(Drop)]
struct NewFile {
    path: String,
    file: File,
}

/// Makes a new file beside the one at this path. Its name ends with the number of the try.
fn new_file_beside(rt: &HostRuntime, path: &str) -> Result<NewFile, io::Error> {
    for turn in 0..TRIES {
        let number = turn.to_string(rt.alloc())?;
        let path = [path, ".gamefile-", number.as_str()].concat(rt.alloc())?;
        match File::create_new(rt, path.as_str()) {
            Ok(file) => return Ok(NewFile { path, file }),
            Err(error) if error.kind() == ErrorKind::AlreadyExists => {}
            Err(error) => return Err(error),
        }
    }
    Err(io::Error::from(ErrorKind::AlreadyExists))
}

/// Gives a new file the owner, the group and the permissions of another. Where the system does not
/// let the user do so, the owner or the group stays as it is.
fn give_to(file: &File, found: &Metadata) -> Result<(), io::Error> {
    let (owner, group) = (Some(found.uid()), Some(found.gid()));
    if fchown(file, owner, group).is_err() {
        let _ = fchown(file, None, group);
    }
    file.set_permissions(found.permissions())
}

/// Writes a text to a file, unless it is longer than what the program reads.
fn fill(file: &mut File, text: &mut TextPieces) -> Result<(), io::Error> {
    let mut output = Counted::new(file);
    let mut room = LIMIT;
    while text.advance() {
        let Some(left) = room.checked_sub(text.piece().len()) else {
            return Err(io::Error::from(ErrorKind::FileTooLarge));
        };
        room = left;
        if push_all(&mut output, text.piece()).is_err() {
            let none = io::Error::from(ErrorKind::WriteZero);
            return Err(output.last_error().unwrap_or(none));
        }
    }
    Ok(())
}

/// Fills a new file with a text, and gives it the place of the one at this path.
fn put(
    rt: &HostRuntime,
    path: &str,
    found: &Metadata,
    new: &mut NewFile,
    text: &mut TextPieces,
) -> Result<(), io::Error> {
    give_to(&new.file, found)?;
    fill(&mut new.file, text)?;
    fs::rename(rt, new.path.as_str(), path)
}

/// Puts a text in the place of the file at this path, which is no link.
fn replace_at(rt: &HostRuntime, path: &str, text: &mut TextPieces) -> Result<(), io::Error> {
    let found = fs::metadata(rt, path)?;
    if !found.is_file() {
        return Err(io::Error::from(ErrorKind::InvalidInput));
    }
    let mut new = new_file_beside(rt, path)?;
    if let Err(error) = put(rt, path, &found, &mut new, text) {
        let _ = fs::remove_file(rt, new.path.as_str());
        return Err(error);
    }
    Ok(())
}

/// Puts a text in the place of the file of this name, through links, and with its owner and its
/// permissions. Only a file can be replaced, no pipe or device, and only by a text that can be read
/// again.
pub fn replace(rt: &HostRuntime, name: &str, mut text: TextPieces) -> Result<(), io::Error> {
    let path = fs::canonicalize(rt, name)?.into_string();
    replace_at(rt, path.as_str(), &mut text)
}
