//! The runs over an input that is open: each reads it whole, judges it, and writes its answer.

ghost use Rattle.gf_run.specs.Run.{RunsCanonBy, RunsCheck, RunsTable};

use crate::fault::{RunFault, Which};
use crate::streams::sink::{Sink, push_all};
use crate::streams::source::{Source, load};
use crate::texts::answer::write_answer;
use crate::texts::game::{canon, kind_line, kind_of};
use crate::texts::table::table;
use gf_canon::{FileKind, Names};
use gf_form::Strategies;
use std::alloc::Global;

/// Writes the canonical text of the file that it reads, with names or without.
///
/// The input is read whole before it is judged. It is judged whole, and the memory that the text
/// needs is reserved, before the first byte is written. So after `Write` a prefix of the text has
/// been written; after any other fault, nothing was asked of the output.
///
/// # Errors
///
/// - `Refused`: the file is refused as `canonical_by` refuses it, or it has a byte past the first
///   16,777,216, which is the last one that is read. With E19, memory ran out for the game, the
///   table or the text, and there was nothing else to refuse: if the place is a token, some file
///   begins with the tokens through it; if it is the end, the bytes are a file. No profiles pass
///   their limit up to there.
/// - `Read`, `Write`: the reader or the writer failed, or was interrupted sixteen times in a row,
///   or the writer took nothing. `failures` has counted it.
/// - `Memory`: memory ran out while the input was read.
pub fn run_canon_by<R: Source, W: Sink>(
    alloc: Global,
    input: &mut R,
    names: Names,
    output: &mut W,
) -> Result<(), RunFault>
    ensures { RunsCanonBy R.reader W.writer names result input.old input.new output.old output.new }
{
    let bytes = load(alloc, input, Which::Only)?;
    write_answer(canon(alloc, bytes.as_slice(), names), output)
}

/// Writes the canonical text of the file that it reads, as `run_canon_by` does with names kept.
///
/// # Errors
///
/// Those of `run_canon_by`.
// No edit: it passes on `run_canon_by`.
pub fn run_canon<R: Source, W: Sink>(
    alloc: Global,
    input: &mut R,
    output: &mut W,
) -> Result<(), RunFault>
    ensures { RunsCanonBy R.reader W.writer Names.Kept result input.old input.new
        output.old output.new }
{
    run_canon_by(alloc, input, Names::Kept, output)
}

/// Returns the kind of the file that it reads; writes `tree` or `table` and a line feed.
///
/// No node of a tree is kept, and no text of a game is made. It reads and writes as `run_canon_by`
/// does.
///
/// # Errors
///
/// Those of `run_canon_by`.
pub fn run_check<R: Source, W: Sink>(
    alloc: Global,
    input: &mut R,
    output: &mut W,
) -> Result<FileKind, RunFault>
    ensures { RunsCheck R.reader W.writer result input.old input.new output.old output.new }
{
    let bytes = load(alloc, input, Which::Only)?;
    let kind = kind_of(alloc, bytes.as_slice())?;
    push_all(output, kind_line(kind))?;
    Ok(kind)
}

/// Writes the form of the tree that it reads, by these strategies; a table as it is.
fn run_form<R: Source, W: Sink>(
    alloc: Global,
    input: &mut R,
    strategies: Strategies,
    output: &mut W,
) -> Result<(), RunFault>
    ensures { RunsTable R.reader W.writer strategies result input.old input.new
        output.old output.new }
{
    let bytes = load(alloc, input, Which::Only)?;
    write_answer(table(alloc, bytes.as_slice(), strategies), output)
}

/// Writes the strategic form of the tree that it reads, as a strategic file in canonical text; for
/// a strategic file, its canonical text.
///
/// It reads and writes as `run_canon_by` does.
///
/// # Errors
///
/// Those of `run_canon_by`, and also:
/// - `Form` with `TooManyProfiles`: the tree has more than 1,048,576 profiles.
/// - `Form` with `Overflow`: it has no more, and this profile, counted from 1, is the first at
///   which the bottom-up value of some player is not defined.
/// - `Memory`: also if memory ran out for the strategic form or the text.
// No edit: it passes on `run_form`.
pub fn run_table<R: Source, W: Sink>(
    alloc: Global,
    input: &mut R,
    output: &mut W,
) -> Result<(), RunFault>
    ensures { RunsTable R.reader W.writer Strategies.Pure result input.old input.new
        output.old output.new }
{
    run_form(alloc, input, Strategies::Pure, output)
}

/// Writes the reduced form of the tree that it reads, by its reduced strategies, as a strategic
/// file in canonical text; for a strategic file, its canonical text.
///
/// It reads and writes as `run_table` does.
///
/// # Errors
///
/// Those of `run_table`; but `Overflow` names a profile of the reduced form.
pub fn run_table_reduced<R: Source, W: Sink>(
    alloc: Global,
    input: &mut R,
    output: &mut W,
) -> Result<(), RunFault>
    ensures { RunsTable R.reader W.writer Strategies.Reduced result input.old input.new
        output.old output.new }
{
    run_form(alloc, input, Strategies::Reduced, output)
}
