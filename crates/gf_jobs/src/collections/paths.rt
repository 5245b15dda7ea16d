//! The files of a collection: those that words or a list of names lead to.

ghost use Rattle.std.specs.Prelude.{Err, IfErr, IfOk, List, Ok, map, ℕ};
ghost use Rattle.gf_jobs.specs.LedTo.{AreLedTo, Seen};
ghost use Rattle.gf_jobs.specs.Performs.{AreNames};

use crate::collections::file::CollectionFile;
use crate::collections::folders::push_files;
use crate::collections::kept_files::{Repeats, SoFar};
use crate::explain::{Cause, Failed, unread};
use crate::jobs::ending::after_name;
use crate::opening::inputs::{Inputs, open_input};
use crate::opening::list::push_names;
use gf_words::{Input, LineEnd, Paths};
use std::alloc::{AllocError, Global};
use std::collections::BTreeSet;
use std::convert::AsSlice;
use std::io::ErrorKind;

/// The files of a collection.
#[derive(Drop)]
pub struct FoundFiles {
    pub files: Vec<CollectionFile>,
    /// What is said of names that have no game files: a line for each.
    pub without_games: Vec<u8>,
}

/// The names in a list, whose lines have this end.
fn names_in<I: Inputs>(
    alloc: Global,
    inputs: &mut I,
    list: &Input,
    end: LineEnd,
) -> Result<Vec<Vec<u8>>, Failed>
    ensures names { IfOk result (λ names. AreNames I.opener I.Opened.reader (Paths.List list.now end)
        (Ok (map (λ name. name.items) names.items)) inputs.old inputs.new) }
    ensures fault { IfErr result (λ failed. AreNames I.opener I.Opened.reader
        (Paths.List list.now end) (Err failed.fault) inputs.old inputs.new) }
{
    let input = match open_input(inputs, list) {
        Ok(input) => input,
        Err(error) => return Err(unread(Cause::Opening(error))),
    };
    let mut names = Vec::new(alloc);
    match push_names(alloc, input, end, &mut names) {
        Ok(()) => Ok(names),
        Err(error) if error.kind() == ErrorKind::OutOfMemory => Err(Failed::from(AllocError)),
        Err(error) => Err(unread(Cause::Transfer(Some(error)))),
    }
}

/// The files that these paths lead to, in their order.
fn files_led_to<I: Inputs, P: AsSlice<u8>>(
    alloc: Global,
    inputs: &I,
    paths: &[P],
    repeats: Repeats,
) -> Result<FoundFiles, AllocError>
    ensures { IfOk result (λ found. (seen : Seen) × AreLedTo I.opener inputs.now repeats
        (map P.items paths.now) seen found.files.items found.without_games.items) }
{
    let mut files = Vec::new(alloc);
    let mut without_games = Vec::new(alloc);
    let mut so_far = SoFar {
        folders: BTreeSet::new(alloc),
        files: BTreeSet::new(alloc),
    };
    for path in paths {
        let path = path.as_slice();
        if push_files(alloc, inputs, repeats, path, &mut files, &mut so_far)? {
            continue;
        }
        let name = String::from_utf8_lossy(alloc, path)?;
        let line = after_name(alloc, name.as_str(), b"no game files\n")?;
        without_games.extend_from_slice(line.as_slice())?;
    }
    Ok(FoundFiles {
        files,
        without_games,
    })
}

/// The files of a collection, in the order of their paths. For a folder these are the game files
/// below it, those of each folder in the order in which it is listed; a folder that cannot be read
/// whole is kept as a file. `repeats` says whether a file of a folder is kept if it has come before.
///
/// # Errors
///
/// - `Read`: a list of names cannot be opened or read, for this cause.
/// - `Memory`: memory ran out.
pub fn files_at<I: Inputs>(
    alloc: Global,
    inputs: &mut I,
    paths: &Paths,
    repeats: Repeats,
) -> Result<FoundFiles, Failed>
    ensures files { IfOk result (λ found. (names : List (List ℕ))
        × AreNames I.opener I.Opened.reader paths.now (Ok names) inputs.old inputs.new
        × (seen : Seen) × AreLedTo I.opener inputs.new repeats names seen found.files.items
        found.without_games.items) }
    ensures fault { IfErr result (λ failed.
        AreNames I.opener I.Opened.reader paths.now (Err failed.fault) inputs.old inputs.new) }
{
    match paths {
        Paths::Standard => Ok(files_led_to(alloc, inputs, &["-"], repeats)?),
        Paths::Named(names) => Ok(files_led_to(alloc, inputs, names.as_slice(), repeats)?),
        Paths::List { list, end } => {
            let names = names_in(alloc, inputs, list, *end)?;
            Ok(files_led_to(alloc, inputs, names.as_slice(), repeats)?)
        }
    }
}
