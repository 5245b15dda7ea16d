//! What the words of a command line may ask for.

use gf_token::Names;

/// Where a file is read from.
#[derive(Drop)]
pub enum Input {
    /// Standard input.
    Standard,
    /// The file of this name.
    File(String),
}

/// What one run is to do.
#[derive(Drop)]
pub enum Job {
    /// To write the canonical text of a file, with its names or with these left aside.
    Canon {
        input: Input,
        names: Names,
    },
    /// To say which of these files are not their own canonical texts, with their names or with
    /// these left aside.
    CheckCanon {
        files: Paths,
        names: Names,
    },
    /// To put the canonical text of each of these files in its place.
    WriteCanon {
        files: Paths,
        names: Names,
    },
    /// To say what a file holds.
    Check(Input),
    /// To say what each of these files holds.
    CheckAll(Paths),
    /// To write the strategic form of a tree, or its reduced form if `reduced` is true; or a table
    /// in canonical form.
    Table {
        input: Input,
        reduced: bool,
    },
    /// To say whether the files of these names mean the same; if `map` is true, with the numbers
    /// that correspond. `names` says whether the names in them count.
    Same {
        a: String,
        b: String,
        map: bool,
        names: Names,
    },
    /// To write the hash of each of these files. `names` says whether the names in the files
    /// count.
    Hash {
        files: Paths,
        names: Names,
        end: LineEnd,
    },
    /// To say which of these files are the same game.
    Duplicates {
        files: Paths,
        names: Names,
        end: LineEnd,
    },
}

/// What ends a line that has the name of a file.
#[derive(Clone, Copy)]
pub enum LineEnd {
    /// A line feed.
    LineFeed,
    /// The byte NUL, which no name has.
    Null,
}

/// What names several files.
#[derive(Drop)]
pub enum Paths {
    /// Nothing does: it is standard input alone.
    Standard,
    /// The files and folders of these names.
    Named(Vec<String>),
    /// The files and folders in this list, in which `end` ends each name.
    List { list: Input, end: LineEnd },
}

/// A job, and how it is done.
#[derive(Drop)]
pub struct Request {
    pub job: Job,
    /// Whether its fault is explained in words.
    pub explain: bool,
    /// Whether progress is hidden.
    pub quiet: bool,
}
