//! The files of a collection, and how they are opened.

ghost use Rattle.std.specs.Prelude.{◌≡◌, MatchResult, None, Some};
ghost use Rattle.gf_run.specs.declared.fault.RunFault.{RunFault};
ghost use Rattle.gf_run.specs.declared.fault.Which.{Which};
ghost use Rattle.gf_jobs.specs.Opening.{bytes_kept, kept_at_first, source_of, OpensFile};
ghost use Rattle.gf_jobs.specs.Reports.{called, name_of};

use crate::explain::{Cause, Failed, unread};
use crate::opening::inputs::{Inputs, open_kept};
use crate::opening::kept::Kept;
use gf_words::Input;
use std::alloc::Global;

/// A file of a collection.
#[derive(Drop)]
pub enum CollectionFile {
    /// One that may be opened.
    Input(Input),
    /// One whose name is not UTF-8, so that it cannot be opened: its name, with U+FFFD in place of
    /// what is not.
    NotText(String),
}

/// What an input is called, where standard input is called this.
pub(crate) fn called<'a>(standard: &'a str, input: &'a Input) -> &'a str
    ensures { result.now ≡ called standard.now input.now }
{
    match input {
        Input::Standard => standard,
        Input::File(name) => name.as_str(),
    }
}

/// What a file is called.
pub(crate) fn name_of(file: &CollectionFile) -> &str
    ensures { result.now ≡ name_of file.now }
{
    match file {
        CollectionFile::Input(input) => called("-", input),
        CollectionFile::NotText(name) => name.as_str(),
    }
}

/// Opens a file whose bytes are kept, as they pass, if `keeps` is true; or fails with `Read`.
pub(crate) fn open_file<I: Inputs>(
    alloc: Global,
    inputs: &mut I,
    file: &CollectionFile,
    keeps: bool,
) -> Result<Kept<I::Opened>, Failed>
    ensures { MatchResult result
        (λ kept. OpensFile I.opener file.now inputs.old (Some (source_of kept)) inputs.new
        × (bytes_kept kept ≡ kept_at_first keeps))
        (λ failed. (failed.fault ≡ RunFault.Read Which.Only)
        × OpensFile I.opener file.now inputs.old None inputs.new) }
{
    match file {
        CollectionFile::Input(input) => open_kept(alloc, inputs, input, keeps),
        CollectionFile::NotText(_) => Err(unread(Cause::Transfer(None))),
    }
}
