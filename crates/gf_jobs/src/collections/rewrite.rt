//! How the canonical text of a file is put in its place.

ghost use Rattle.std.specs.Prelude.{◌≡◌, ◌≢◌, true};
ghost use Rattle.std.specs.IoError.{error_kind};
ghost use Rattle.std.specs.Result.{result_map_both};
ghost use Rattle.gf_jobs.specs.Performs.{IsReplacedBy, IsRewritten, Rewrites};

use crate::collections::file::CollectionFile;
use crate::explain::{Cause, Failed};
use crate::opening::inputs::Inputs;
use crate::opening::kept::Kept;
use gf_canon::Names;
use gf_nfg::TextPieces;
use gf_run::{LastError, RunFault, Which, are_canonical, canon, load};
use gf_words::Input;
use std::alloc::Global;
use std::io;
use std::io::ErrorKind;

/// Why a text could not be put in the place of a file.
fn unreplaced(error: io::Error) -> Failed
    ensures memory { error_kind error ≡ ErrorKind.OutOfMemory → result.fault ≡ RunFault.Memory }
    ensures other { error_kind error ≢ ErrorKind.OutOfMemory → result.fault ≡ RunFault.Write }
{
    match error.kind() {
        ErrorKind::OutOfMemory => Failed::from(RunFault::Memory),
        _ => Failed {
            fault: RunFault::Write,
            cause: Cause::Replacing(error),
        },
    }
}

/// Puts a text in the place of a file. Standard input has none.
fn replace<I: Inputs>(inputs: &mut I, file: &CollectionFile, text: TextPieces) -> Result<(), Failed>
    ensures { IsReplacedBy I.opener file.now text.rest
        (result_map_both (λ done. true) (λ failed. failed.fault) result) inputs.old inputs.new }
{
    match file {
        CollectionFile::Input(Input::File(name)) => {
            inputs.replace(name.as_str(), text).map_err(unreplaced)
        }
        _ => Err(Failed::from(RunFault::Write)),
    }
}

/// Puts the canonical text of a file in its place, unless its bytes are that text.
fn put_text<I: Inputs>(
    alloc: Global,
    inputs: &mut I,
    file: &CollectionFile,
    bytes: &[u8],
    names: Names,
) -> Result<(), Failed>
    ensures { IsRewritten I.opener names file.now inputs.old inputs.new bytes.now
        (result_map_both (λ done. true) (λ failed. failed.fault) result) }
{
    if are_canonical(alloc, bytes, names)? {
        return Ok(());
    }
    // Comparing uses the text up, so it is made again.
    let answer = canon(alloc, bytes, names)?;
    replace(inputs, file, answer.text)
}

/// Reads a file whole, and puts its canonical text in its place.
pub(crate) fn rewrite<I: Inputs>(
    alloc: Global,
    inputs: &mut I,
    source: &mut Kept<I::Opened>,
    file: &CollectionFile,
    names: Names,
) -> Result<(), Failed>
    ensures { Rewrites I.opener I.Opened.reader names file.now
        (result_map_both (λ done. true) (λ failed. failed.fault) result)
        source.old source.new inputs.old inputs.new }
{
    match load(alloc, source, Which::Only) {
        Ok(bytes) => put_text(alloc, inputs, file, bytes.as_slice(), names),
        Err(fault) => {
            let cause = Cause::Transfer(source.last_error());
            Err(Failed { fault, cause })
        }
    }
}
