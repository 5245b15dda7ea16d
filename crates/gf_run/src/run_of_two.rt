//! The runs that compare two files, over inputs that are open.

ghost use Rattle.std.specs.Prelude.{IfErr, IfOk};
ghost use Rattle.gf_canon.specs.GameFile.{SameFile};
ghost use Rattle.gf_canon.specs.SameBy.{SameBy};
ghost use Rattle.gf_run.specs.Run.{AreNotRead, AreReadWhole, RunsTwo};
ghost use Rattle.gf_run.specs.Texts.{IsAnswer, IsLine, IsLineAndMap};

use crate::fault::{RunFault, Which};
use crate::streams::sink::Sink;
use crate::streams::source::{Source, load};
use crate::texts::answer::write_answer;
use crate::texts::comparison::{compare, compare_with_map};
use gf_canon::Names;
use std::alloc::Global;

/// Reads two files whole, the first and then the second.
fn load_both<R: Source, S: Source>(
    alloc: Global,
    a: &mut R,
    b: &mut S,
) -> Result<(Vec<u8>, Vec<u8>), RunFault>
    ensures whole { IfOk result (λ files. AreReadWhole R.reader S.reader (a.old, b.old) (a.new, b.new)
        (files.0.items, files.1.items)) }
    ensures part { IfErr result (λ fault. AreNotRead R.reader S.reader fault (a.old, b.old)
        (a.new, b.new)) }
{
    let first = load(alloc, a, Which::First)?;
    let second = load(alloc, b, Which::Second)?;
    Ok((first, second))
}

/// Returns whether the two files that it reads mean the same, with names or without, as `same_by`
/// says; writes `same` or `different` and a line feed.
///
/// The first input is read whole, and then the second; only then is the first judged, and then the
/// second. The text is made whole before its first byte is written. So after `Write` a prefix of
/// it has been written; after any other fault, nothing was asked of the output.
///
/// # Errors
///
/// - `Refused`: the first or the second file is refused as `same_by` refuses it, or it has a byte
///   past the first 16,777,216, which is the last one that is read of it. If the first is too long,
///   the second is not read.
/// - `Read`: the reader of the first or of the second failed, or was interrupted sixteen times in a
///   row. `failures` has counted it. If the first fails, the second is not read.
/// - `Write`: the writer failed in this way, or took nothing, which `failures` has counted too.
/// - `Memory`: memory ran out while an input was read, or although both files are accepted.
pub fn run_same_by<R: Source, S: Source, W: Sink>(
    alloc: Global,
    a: &mut R,
    b: &mut S,
    names: Names,
    output: &mut W,
) -> Result<bool, RunFault>
    ensures { RunsTwo R.reader S.reader W.writer (IsAnswer (SameBy names) IsLine) result
        a.old a.new b.old b.new output.old output.new }
{
    let (first, second) = load_both(alloc, a, b)?;
    let answer = compare(alloc, first.as_slice(), second.as_slice(), names);
    write_answer(answer, output)
}

/// Returns whether the two files that it reads mean the same, as `same` says; writes `same` or
/// `different` and a line feed.
///
/// It reads and writes as `run_same_by` does.
///
/// # Errors
///
/// Those of `run_same_by`.
// No edit: it passes on `run_same_by`.
pub fn run_same<R: Source, S: Source, W: Sink>(
    alloc: Global,
    a: &mut R,
    b: &mut S,
    output: &mut W,
) -> Result<bool, RunFault>
    ensures { RunsTwo R.reader S.reader W.writer (IsAnswer (SameBy Names.Kept) IsLine) result
        a.old a.new b.old b.new output.old output.new }
{
    run_same_by(alloc, a, b, Names::Kept, output)
}

/// Returns whether the two files that it reads mean the same, as `same` says; writes `same` or
/// `different` and a line feed, and after `same`, if both are trees, the lines of the only
/// renumbering that carries the first to the second.
///
/// These lines are `set P X Y` for each information set of the first tree, where P is its player, X
/// its number and Y its number in the second tree, and then `outcome X Y` for each outcome except
/// the null outcome. The sets of chance, which is player 0, come first, and then those of each
/// player in turn. Each player's sets, and the outcomes, are in order of first use (this project's
/// profile).
///
/// It reads and writes as `run_same_by` does.
///
/// # Errors
///
/// Those of `run_same_by`.
pub fn run_same_map<R: Source, S: Source, W: Sink>(
    alloc: Global,
    a: &mut R,
    b: &mut S,
    output: &mut W,
) -> Result<bool, RunFault>
    ensures { RunsTwo R.reader S.reader W.writer (IsAnswer SameFile IsLineAndMap) result
        a.old a.new b.old b.new output.old output.new }
{
    let (first, second) = load_both(alloc, a, b)?;
    let mapped = compare_with_map(alloc, first.as_slice(), second.as_slice());
    write_answer(mapped, output)
}
