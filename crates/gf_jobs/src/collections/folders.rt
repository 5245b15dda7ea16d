//! The files that a path names: a file itself, or, for a folder, the game files below it.

ghost use Rattle.std.specs.Prelude.{◌≡◌, ◌++◌, IfOk, List, OnOk, map, reverse, ℕ};
ghost use Rattle.std.specs.String.{string_bytes};
ghost use Rattle.gf_jobs.specs.LedTo.{AreIn, HasPath, LeadsTo, LooksAt, folder_at};
ghost use Rattle.gf_jobs.specs.declared.collections.file.CollectionFile.{CollectionFile};

use crate::collections::file::CollectionFile;
use crate::collections::kept_files::{Fate, Repeats, SoFar, keep, kept_if, note};
use crate::opening::inputs::{Found, Inputs, Listing};
use gf_words::{Input, is_game_file};
use std::alloc::{AllocError, Global};
use std::collections::BTreeSet;

/// The file of this name in a folder. One whose name is not UTF-8 cannot be opened.
fn file_in(alloc: Global, folder: &[u8], name: &[u8]) -> Result<CollectionFile, AllocError>
    ensures { IfOk result (HasPath (folder.now ++ name.now)) }
{
    match String::from_utf8([folder, name].concat(alloc)?) {
        Ok(path) => Ok(CollectionFile::Input(Input::File(path))),
        Err(error) => {
            let shown = String::from_utf8_lossy(alloc, error.as_bytes())?;
            Ok(CollectionFile::NotText(shown))
        }
    }
}

/// Puts the files of these names in a folder before everything that waits, so that the first comes
/// first. Hidden ones, whose names begin with a full stop, are left out.
fn push_entries(
    alloc: Global,
    folder: &[u8],
    names: &[Vec<u8>],
    waiting: &mut Vec<CollectionFile>,
) -> Result<(), AllocError>
    ensures { OnOk result ((inside : List CollectionFile)
        × AreIn folder.now (map (λ name. name.items) names.now) inside
        × (reverse waiting.new.items ≡ inside ++ reverse waiting.old.items)) }
{
    for place in (0..names.len()).rev() {
        let name = names[place].as_slice();
        if !name.starts_with(b".") {
            waiting.push(file_in(alloc, folder, name)?)?;
        }
    }
    Ok(())
}

/// The path of a folder, with a slash at its end. A link to a folder can be opened only by that.
fn folder_at(alloc: Global, folder: &str) -> Result<String, AllocError>
    ensures { IfOk result (λ path. string_bytes path ≡ folder_at folder.now) }
{
    let slash = if folder.as_bytes().ends_with(b"/") {
        ""
    } else {
        "/"
    };
    [folder, slash].concat(alloc)
}

/// Puts what is in a folder before everything that waits, in the order of its names, and returns
/// whether these are all.
fn open_folder<I: Inputs>(
    alloc: Global,
    inputs: &I,
    folder: &str,
    waiting: &mut Vec<CollectionFile>,
) -> Result<bool, AllocError>
    ensures { IfOk result (λ is_whole. (names : List (List ℕ)) × (inside : List CollectionFile)
        × I.opener.listed inputs.now (folder_at folder.now) names is_whole
        × AreIn (folder_at folder.now) names inside
        × (reverse waiting.new.items ≡ inside ++ reverse waiting.old.items)) }
{
    let path = folder_at(alloc, folder)?;
    let Listing { names, is_whole } = inputs.list(path.as_str())?;
    push_entries(alloc, path.as_bytes(), names.as_slice(), waiting)?;
    Ok(is_whole)
}

/// Looks at what is at the path of a file, and returns what becomes of it; `is_named` says whether it
/// was named itself. What is in a folder is put before everything that waits, but once only; a folder
/// that cannot be read whole is kept as a file. A pipe, a socket or a device is kept only if it was
/// named. What has no text for a name cannot be looked at, and is kept.
fn look_at<I: Inputs>(
    alloc: Global,
    inputs: &I,
    repeats: Repeats,
    file: &CollectionFile,
    is_named: bool,
    waiting: &mut Vec<CollectionFile>,
    so_far: &mut SoFar,
) -> Result<Fate, AllocError>
    ensures { IfOk result (λ fate. (inside : List CollectionFile)
        × LooksAt I.opener inputs.now repeats is_named file.now so_far.old so_far.new inside fate
        × (reverse waiting.new.items ≡ inside ++ reverse waiting.old.items)) }
{
    let CollectionFile::Input(Input::File(path)) = file else {
        return Ok(Fate::Kept);
    };
    let path = path.as_str();
    let may_be_game = is_named || is_game_file(path);
    match inputs.look_at(path) {
        Found::Folder(folder) => {
            if !so_far.folders.insert(folder)? {
                return Ok(Fate::NoGame);
            }
            let is_whole = open_folder(alloc, inputs, path, waiting)?;
            Ok(kept_if(!is_whole))
        }
        Found::File(file) if may_be_game => note(&mut so_far.files, repeats, file, is_named),
        Found::File(_) => Ok(Fate::NoGame),
        Found::Other => Ok(kept_if(is_named)),
        Found::Nothing => Ok(kept_if(may_be_game)),
    }
}

/// Adds the file at a path, or the game files below the folder there: those whose names end in
/// `.efg` or `.nfg`, in upper or lower case, those of each folder in the order in which it is listed.
/// What is hidden, by a name that begins with a full stop, is passed over, unless it is named. No
/// folder below the path is opened twice, so links may lead anywhere. A name that is not UTF-8 may be
/// that of a game file or of a folder, so it is added too. `-` is standard input. Returns whether
/// there was any, be it new or not.
pub fn push_files<I: Inputs>(
    alloc: Global,
    inputs: &I,
    repeats: Repeats,
    path: &[u8],
    files: &mut Vec<CollectionFile>,
    so_far: &mut SoFar,
) -> Result<bool, AllocError>
    ensures { IfOk result (λ some. (own : List CollectionFile)
        × (files.new.items ≡ files.old.items ++ own)
        × LeadsTo I.opener inputs.now repeats path.now so_far.old.files so_far.new.files own some) }
{
    if path == b"-".as_slice() {
        files.push(CollectionFile::Input(Input::Standard))?;
        return Ok(true);
    }
    let mut waiting = vec![in alloc; file_in(alloc, b"", path)?]?;
    so_far.folders = BTreeSet::new(alloc);
    let mut is_named = true;
    let mut has_games = false;
    for _turn in 0..u64::MAX {
        let Some(file) = waiting.pop() else {
            return Ok(has_games);
        };
        let fate = look_at(
            alloc,
            inputs,
            repeats,
            &file,
            is_named,
            &mut waiting,
            so_far,
        )?;
        has_games |= keep(files, file, fate)?;
        is_named = false;
    }
    // Never reached: the bound is there because each loop has to end.
    Err(AllocError)
}
