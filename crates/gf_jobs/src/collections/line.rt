//! The line about one of several files, and the run that writes it.

ghost use Rattle.std.specs.Prelude.{MatchResult};
ghost use Rattle.gf_jobs.specs.Lines.{IsHashOf, IsLineOf, ReadsHash, RunsLine};
ghost use Rattle.gf_run.specs.Texts.{IsFaultOfFile, IsRefusal};

use crate::collections::name::push_name_line;
use crate::jobs::ending::after_name;
use gf_canon::{Names, sha256_of};
use gf_run::{
    Answer, RunFault, Sink, Source, Which, answer_with, are_canonical, canon, kind_line, kind_of,
    load, write_answer,
};
use gf_words::LineEnd;
use std::alloc::Global;

/// What is written about each of several files.
#[derive(Clone, Copy)]
pub enum FileLine {
    /// Its name, and what it holds.
    Kind,
    /// The hash of its canonical text, with names or without, and its name.
    Hash(Names, LineEnd),
    /// Its name, if it is not its own canonical text, with names or without; otherwise nothing.
    NotCanonical(Names),
}

/// The hash of these bytes' canonical text: SHA-256 (FIPS 180-4).
fn hash_of(alloc: Global, bytes: &[u8], names: Names) -> Result<[u8; 32], RunFault>
    ensures { MatchResult result (λ hash. IsHashOf names bytes.now hash) (IsRefusal bytes.now) }
{
    let answer = canon(alloc, bytes, names)?;
    Ok(sha256_of(answer.text))
}

/// Reads a file whole, and returns the hash of its canonical text, with names or without.
pub(crate) fn read_hash<R: Source>(
    alloc: Global,
    input: &mut R,
    names: Names,
) -> Result<[u8; 32], RunFault>
    ensures { ReadsHash R.reader names result input.old input.new }
{
    let bytes = load(alloc, input, Which::Only)?;
    hash_of(alloc, bytes.as_slice(), names)
}

/// What is written about the file of this name, which has these bytes.
fn said_of(
    alloc: Global,
    bytes: &[u8],
    name: &str,
    line: FileLine,
) -> Result<Answer<bool>, RunFault>
    ensures { MatchResult result
        (λ answer. IsLineOf line name.now answer.value bytes.now answer.text.rest)
        (IsFaultOfFile bytes.now) }
{
    match line {
        FileLine::Kind => {
            let kind = kind_of(alloc, bytes)?;
            Ok(answer_with(true, after_name(alloc, name, kind_line(kind))?))
        }
        FileLine::Hash(names, end) => {
            let hash = hash_of(alloc, bytes, names)?;
            let mut before = hex::encode(alloc, hash)?;
            before.push_str("  ")?;
            let mut text = Vec::new(alloc);
            push_name_line(&mut text, before.as_bytes(), name, end)?;
            Ok(answer_with(true, text))
        }
        FileLine::NotCanonical(names) => {
            let good = are_canonical(alloc, bytes, names)?;
            let mut text = Vec::new(alloc);
            if !good {
                push_name_line(&mut text, b"", name, LineEnd::LineFeed)?;
            }
            Ok(answer_with(good, text))
        }
    }
}

/// Writes this line about the file that it reads, after reading it whole, and returns whether
/// nothing is against the file: false only if it is not its own canonical text and should be.
///
/// - `Kind`: `NAME: tree` or `NAME: table`, the name as it is shown, and a line feed.
/// - `Hash`: the hash of the canonical text, with names or without, and the name, as `sha256sum`
///   does: `HEX  NAME` and a line feed. If the name has a line feed, a carriage return or a
///   backslash, these are written `\n`, `\r` and `\\`, and the line begins with a backslash. With
///   `LineEnd::Null` the line ends with NUL, and the name stands as it is.
/// - `NotCanonical`: the name in this form and a line feed, or nothing.
///
/// After any fault except `Write`, nothing was asked of the output.
///
/// # Errors
///
/// - `Refused`, `Read`, `Write`: as `run_canon_by` has them.
/// - `Memory`: memory ran out while the input was read, or for the line of a valid file.
pub fn run_line<R: Source, W: Sink>(
    alloc: Global,
    input: &mut R,
    name: &str,
    line: FileLine,
    output: &mut W,
) -> Result<bool, RunFault>
    ensures { RunsLine R.reader W.writer line name.now result input.old input.new
        output.old output.new }
{
    let bytes = load(alloc, input, Which::Only)?;
    write_answer(said_of(alloc, bytes.as_slice(), name, line), output)
}
