//! What shows which files there are, opens the inputs of a job, and puts a text in the place of one.

ghost use Rattle.std.specs.Prelude.{◌≡◌, Err, IfOk, MatchResult, Ok, map, option_map};
ghost use Rattle.std.specs.declared.io.Error.{Error};
ghost use Rattle.gf_run.specs.declared.fault.RunFault.{RunFault};
ghost use Rattle.gf_run.specs.declared.fault.Which.{Which};
ghost use Rattle.gf_jobs.specs.Opening.{bytes_kept, kept_at_first, source_of};
ghost use Rattle.gf_jobs.specs.Opening.{Opener, Opens, OpensBoth, file_named, file_of};

use crate::explain::{Cause, Failed, unread};
use crate::opening::kept::Kept;
use gf_nfg::TextPieces;
use gf_run::{LastError, Source, Which};
use gf_words::Input;
use std::alloc::{AllocError, Global};
use std::io;

/// Which file or folder something is: its device, and its number there.
pub type Identity = (u64, u64);

/// What is at a path.
#[derive(Clone, Copy)]
pub enum Found {
    Folder(Identity),
    File(Identity),
    /// A pipe, a socket or a device.
    Other,
    /// Nothing, or something that cannot be looked at.
    Nothing,
}

/// The names in a folder, in the order of their bytes.
#[derive(Drop)]
pub struct Listing {
    pub names: Vec<Vec<u8>>,
    /// Whether these are all: the folder could be read to its end.
    pub is_whole: bool,
}

/// What shows which files there are, opens inputs, and puts texts in the place of files.
pub trait Inputs {
    /// An input that is open.
    type Opened: Source + LastError + Drop;

    /// What is shown, and what opening and replacing give.
    ghost opener: { Opener Self Self.Opened };

    /// What is at a path. Links are followed.
    fn look_at(&self, path: &str) -> Found
        ensures { opener.is_at self.now path.now result };

    /// The names in the folder at this path, which ends with a slash.
    fn list(&self, folder: &str) -> Result<Listing, AllocError>
        ensures { IfOk result (λ listing. opener.listed self.now folder.now
            (map (λ name. name.items) listing.names.items) listing.is_whole) };

    /// Standard input.
    fn standard(&mut self) -> Self::Opened
        ensures { opener.standard self.old result self.new };

    /// Opens the file of this name. A folder can be opened, and its first read fails.
    fn open(&mut self, name: &str) -> Result<Self::Opened, io::Error>
        ensures { opener.file self.old name.now result self.new };

    /// Opens two inputs, the first and then the second: the files of these names, or standard input.
    /// An error is about one of them, and then neither is open.
    fn open_both(
        &mut self,
        first: Option<&str>,
        second: Option<&str>,
    ) -> Result<(Self::Opened, Self::Opened), (Which, io::Error)>
        ensures { OpensBoth opener (option_map (λ name. name.now) first.entry)
            (option_map (λ name. name.now) second.entry) self.old result self.new };

    /// Puts a text in the place of the file of this name. After an error the file is as it was; the
    /// error is of the kind `OutOfMemory` if memory ran out.
    fn replace(&mut self, name: &str, text: TextPieces) -> Result<(), io::Error>
        ensures { opener.replaced self.old name.now text.rest result self.new };
}

/// The name of the file that a word names; `-` is standard input, which has none.
pub fn file_named(word: &str) -> Option<&str>
    ensures { option_map (λ name. name.now) result ≡ file_named word.now }
{
    if word == "-" { None } else { Some(word) }
}

/// Opens an input.
pub fn open_input<I: Inputs>(inputs: &mut I, input: &Input) -> Result<I::Opened, io::Error>
    ensures { Opens I.opener (file_of input.now) inputs.old result inputs.new }
{
    match input {
        Input::Standard => Ok(inputs.standard()),
        Input::File(name) => inputs.open(name.as_str()),
    }
}

/// Opens an input whose bytes are kept, as they pass, if `keeps` is true; or fails with `Read`.
pub fn open_kept<I: Inputs>(
    alloc: Global,
    inputs: &mut I,
    input: &Input,
    keeps: bool,
) -> Result<Kept<I::Opened>, Failed>
    ensures { MatchResult result
        (λ kept. Opens I.opener (file_of input.now) inputs.old (Ok (source_of kept)) inputs.new
        × (bytes_kept kept ≡ kept_at_first keeps))
        (λ failed. (failed.fault ≡ RunFault.Read Which.Only) × ((error : Error)
        × Opens I.opener (file_of input.now) inputs.old (Err error) inputs.new)) }
{
    match open_input(inputs, input) {
        Ok(source) => Ok(Kept::new(alloc, source, keeps)),
        Err(error) => Err(unread(Cause::Opening(error))),
    }
}
