//! What becomes of the files that are found while the names of a collection are followed.

ghost use Rattle.std.specs.Prelude.{◌≡◌, ◌++◌, IfOk, true};
ghost use Rattle.gf_jobs.specs.LedTo.{IsNoted, counts_as_game, kept_if, kept_of};

use crate::collections::file::CollectionFile;
use crate::opening::inputs::Identity;
use std::alloc::AllocError;
use std::collections::BTreeSet;

/// Whether a file that is found in a folder is kept if it has come before.
#[derive(Clone, Copy)]
pub enum Repeats {
    /// It is.
    Kept,
    /// It is not, unless it is named itself.
    PassedOver,
}

/// What becomes of what is looked at.
#[derive(Clone, Copy)]
pub enum Fate {
    /// It is kept.
    Kept,
    /// It is a game file that has come before, and is not kept.
    PassedOver,
    /// It is no game file, and is not kept.
    NoGame,
}

/// What came so far.
#[derive(Drop)]
pub struct SoFar {
    /// The folders that were opened below a path.
    pub folders: BTreeSet<Identity>,
    /// The files that were found, if those that come again are passed over.
    pub files: BTreeSet<Identity>,
}

/// Kept, or no game file.
pub(crate) fn kept_if(is_kept: bool) -> Fate
    ensures { result ≡ kept_if is_kept }
{
    if is_kept { Fate::Kept } else { Fate::NoGame }
}

/// Notes a game file, and says what becomes of it. One that was named is kept in any case.
pub(crate) fn note(
    seen: &mut BTreeSet<Identity>,
    repeats: Repeats,
    file: Identity,
    is_named: bool,
) -> Result<Fate, AllocError>
    ensures { IfOk result (IsNoted repeats is_named true file seen.old seen.new) }
{
    match repeats {
        Repeats::Kept => Ok(Fate::Kept),
        Repeats::PassedOver => {
            let is_new = seen.insert(file)?;
            if is_named || is_new {
                Ok(Fate::Kept)
            } else {
                Ok(Fate::PassedOver)
            }
        }
    }
}

/// Keeps a file, if that is its fate. Returns whether it counts as a game file, be it new or not.
pub(crate) fn keep(
    files: &mut Vec<CollectionFile>,
    file: CollectionFile,
    fate: Fate,
) -> Result<bool, AllocError>
    ensures { IfOk result (λ some. (files.new.items ≡ files.old.items ++ kept_of file fate)
        × (some ≡ counts_as_game fate)) }
{
    match fate {
        Fate::Kept => {
            files.push(file)?;
            Ok(true)
        }
        Fate::PassedOver => Ok(true),
        Fate::NoGame => Ok(false),
    }
}
