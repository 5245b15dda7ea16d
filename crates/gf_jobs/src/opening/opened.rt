//! The inputs of the program: standard input, and files.

ghost use Rattle.std.specs.Prelude.{option_map};
ghost use Rattle.gf_jobs.specs.Opening.{Opens, host_opener, remaining_of};

use crate::opening::inputs::{Found, Inputs, Listing};
use crate::opening::list::push_names;
use crate::opening::replaced::replace;
use gf_nfg::TextPieces;
use gf_run::{Counted, Which};
use gf_words::LineEnd;
use std::alloc::AllocError;
use std::fs::{File, Metadata};
use std::io::{ErrorKind, Read, Stdin};
use std::os::unix::fs::MetadataExt;
use std::rt::Files;
use std::{fs, io};

/// An input that is open.
#[derive(Drop)]
pub enum Opened<S, F> {
    /// Standard input.
    Standard(S),
    /// A file that was opened by its name.
    File(F),
}

impl<S: Read, F: Read> Read for Opened<S, F> {
    ghost remaining = { remaining_of S.remaining F.remaining };

    fn read(&mut self, buf: &mut [u8]) -> io::Result<usize> {
        match self {
            Opened::Standard(input) => input.read(buf),
            Opened::File(file) => file.read(buf),
        }
    }
}

/// An input of the program that is open.
type HostInput = Counted<Opened<Stdin, File>>;

/// What shows, opens and replaces the files of the program.
#[derive(Drop)]
pub struct HostInputs<'a> {
    rt: &'a HostRuntime,
}

impl<'a> HostInputs<'a> {
    /// What opens inputs by this runtime.
    // No clause: it only lends the runtime.
    pub fn new(rt: &'a HostRuntime) -> HostInputs<'a> {
        HostInputs { rt }
    }

    /// Opens the file of this name, or standard input.
    fn open_one(&mut self, name: Option<&str>) -> Result<HostInput, io::Error>
        ensures { Opens host_opener (option_map (λ name. name.now) name.entry)
            self.old result self.new }
    {
        match name {
            None => Ok(self.standard()),
            Some(name) => self.open(name),
        }
    }
}

/// What something is.
fn kind_of(found: &Metadata) -> Found {
    let identity = (found.dev(), found.ino());
    if found.is_dir() {
        Found::Folder(identity)
    } else if found.is_file() {
        Found::File(identity)
    } else {
        Found::Other
    }
}

/// Whether something was read whole, unless memory ran out.
fn is_whole(read: io::Result<()>) -> Result<bool, AllocError> {
    match read {
        Ok(()) => Ok(true),
        Err(error) if error.kind() == ErrorKind::OutOfMemory => Err(AllocError),
        Err(_) => Ok(false),
    }
}

impl Inputs for HostInputs<'_> {
    type Opened = HostInput;

    ghost opener = { host_opener };

    fn look_at(&self, path: &str) -> Found {
        match fs::metadata(self.rt, path) {
            Ok(found) => kind_of(&found),
            Err(_) => Found::Nothing,
        }
    }

    fn list(&self, folder: &str) -> Result<Listing, AllocError> {
        let mut names = Vec::new(self.rt.alloc());
        let read = match self.rt.open_dir(folder) {
            Ok(entries) => push_names(self.rt.alloc(), entries, LineEnd::Null, &mut names),
            Err(error) => Err(error),
        };
        let is_whole = is_whole(read)?;
        names.sort_unstable();
        Ok(Listing { names, is_whole })
    }

    fn standard(&mut self) -> HostInput {
        Counted::new(Opened::Standard(self.rt.stdin()))
    }

    fn open(&mut self, name: &str) -> Result<HostInput, io::Error> {
        Ok(Counted::new(Opened::File(fs::open(self.rt, name)?)))
    }

    fn open_both(
        &mut self,
        first: Option<&str>,
        second: Option<&str>,
    ) -> Result<(HostInput, HostInput), (Which, io::Error)> {
        let first = match self.open_one(first) {
            Ok(first) => first,
            Err(error) => return Err((Which::First, error)),
        };
        match self.open_one(second) {
            Ok(second) => Ok((first, second)),
            Err(error) => Err((Which::Second, error)),
        }
    }

    fn replace(&mut self, name: &str, text: TextPieces) -> Result<(), io::Error> {
        replace(self.rt, name, text)
    }
}
