//! What the words of a command line ask for.

use crate::cases::Cases;
use gf_canon::Names;
use gf_words::{Input, Job, LineEnd, Paths, WordsFault, parse_words};
use std::alloc::{AllocError, Global};

/// Words, and the job that they ask for as a line.
static WORDS: [(&str, &str); 52] = [
    ("", "canon: standard input"),
    ("canon", "canon: standard input"),
    ("canon a.nfg", "canon: a.nfg"),
    ("canon --no-names", "canon, no names: standard input"),
    ("canon -", "canon: standard input"),
    ("canon ./-", "canon: ./-"),
    ("canon --check a b", "check canon: a b"),
    ("canon --write --no-names a", "write canon, no names: a"),
    ("canon a b", "usage"),
    ("canon --check --write a", "usage"),
    ("canon --write", "usage"),
    ("canon --quiet", "usage"),
    ("check", "check: standard input"),
    ("check a.efg", "check: a.efg"),
    ("check a b", "check all: a b"),
    ("table", "table: standard input"),
    ("table a", "table: a"),
    ("table --reduced", "reduced table: standard input"),
    ("table --reduced a", "reduced table: a"),
    ("same a b", "same: a b"),
    ("same --map a b", "same, map: a b"),
    ("same --no-names a b", "same, no names: a b"),
    ("same --map --no-names a b", "usage"),
    ("same a", "usage"),
    ("same a b c", "usage"),
    ("hash", "hash: standard input"),
    ("hash a b", "hash: a b"),
    ("hash --no-names a", "hash, no names: a"),
    ("hash --zero a", "hash, zero: a"),
    ("hash -z a", "hash, zero: a"),
    ("hash --explain --quiet a", "hash: a"),
    ("hash --files-from a", "hash: list a"),
    (
        "hash --files-from - --null",
        "hash: list standard input, zero",
    ),
    (
        "hash -0 --files-from a --zero --no-names",
        "hash, no names, zero: list a, zero",
    ),
    ("hash --null a", "usage"),
    ("hash --files-from a b", "usage"),
    ("hash --map a", "usage"),
    ("duplicates", "duplicates: standard input"),
    ("duplicates a b", "duplicates: a b"),
    ("duplicates --no-names a", "duplicates, no names: a"),
    ("duplicates --zero a", "duplicates, zero: a"),
    ("duplicates -z a", "duplicates, zero: a"),
    ("duplicates --explain --quiet a", "duplicates: a"),
    ("duplicates --files-from a", "duplicates: list a"),
    (
        "duplicates --files-from - --null",
        "duplicates: list standard input, zero",
    ),
    (
        "duplicates -0 --files-from a --zero --no-names",
        "duplicates, no names, zero: list a, zero",
    ),
    ("duplicates --null a", "usage"),
    ("duplicates --files-from a b", "usage"),
    ("duplicates --map a", "usage"),
    ("tree", "usage"),
    ("a.efg", "usage"),
    ("--help", "help"),
];

fn names_in(names: Names) -> &'static str {
    match names {
        Names::Kept => "",
        Names::Aside => ", no names",
    }
}

fn end_in(end: LineEnd) -> &'static str {
    match end {
        LineEnd::LineFeed => "",
        LineEnd::Null => ", zero",
    }
}

fn name_of(input: &Input) -> &str {
    match input {
        Input::Standard => "standard input",
        Input::File(name) => name.as_str(),
    }
}

fn add_files(line: &mut String, files: &Paths) -> Result<(), AllocError> {
    match files {
        Paths::Standard => line.push_str(": standard input"),
        Paths::Named(names) => {
            line.push_str(":")?;
            for name in names {
                line.push_str(" ")?;
                line.push_str(name.as_str())?;
            }
            Ok(())
        }
        Paths::List { list, end } => {
            line.push_str(": list ")?;
            line.push_str(name_of(list))?;
            line.push_str(end_in(*end))
        }
    }
}

fn add_job(line: &mut String, job: &Job) -> Result<(), AllocError> {
    match job {
        Job::Canon { input, names } => {
            line.push_str("canon")?;
            line.push_str(names_in(*names))?;
            line.push_str(": ")?;
            line.push_str(name_of(input))
        }
        Job::CheckCanon { files, names } => {
            line.push_str("check canon")?;
            line.push_str(names_in(*names))?;
            add_files(line, files)
        }
        Job::WriteCanon { files, names } => {
            line.push_str("write canon")?;
            line.push_str(names_in(*names))?;
            add_files(line, files)
        }
        Job::Check(input) => {
            line.push_str("check: ")?;
            line.push_str(name_of(input))
        }
        Job::CheckAll(files) => {
            line.push_str("check all")?;
            add_files(line, files)
        }
        Job::Table { input, reduced } => {
            line.push_str(if *reduced {
                "reduced table: "
            } else {
                "table: "
            })?;
            line.push_str(name_of(input))
        }
        Job::Same { a, b, map, names } => {
            line.push_str(if *map { "same, map" } else { "same" })?;
            line.push_str(names_in(*names))?;
            line.push_str(": ")?;
            line.push_str(a.as_str())?;
            line.push_str(" ")?;
            line.push_str(b.as_str())
        }
        Job::Hash { files, names, end } => {
            line.push_str("hash")?;
            line.push_str(names_in(*names))?;
            line.push_str(end_in(*end))?;
            add_files(line, files)
        }
        Job::Duplicates { files, names, end } => {
            line.push_str("duplicates")?;
            line.push_str(names_in(*names))?;
            line.push_str(end_in(*end))?;
            add_files(line, files)
        }
    }
}

/// What words that are apart by spaces ask for, as a line.
fn told(alloc: Global, words: &str) -> Result<String, AllocError> {
    let words: Vec<&str> = words.split_whitespace().collect(alloc)?;
    let mut line = String::new(alloc);
    match parse_words(alloc, words.as_slice()) {
        Ok(job) => add_job(&mut line, &job)?,
        Err(WordsFault::Help(_help)) => line.push_str("help")?,
        Err(WordsFault::Usage(_usage)) => line.push_str("usage")?,
        Err(WordsFault::Memory) => return Err(AllocError),
    }
    Ok(line)
}

fn is_told(alloc: Global, words: &str, job: &str) -> bool {
    told(alloc, words).is_ok_and(|line| line.as_str() == job)
}

pub fn words(alloc: Global) -> Cases {
    let mut cases = Cases::new();
    for (words, job) in &WORDS {
        cases.add("words", is_told(alloc, words, job));
    }
    cases
}
