//! From words to a job.

ghost use Rattle.std.specs.Prelude.{◌≡◌, IfErr, IfOk, map, true};
ghost use Rattle.clap.specs.Values.{kind_of};
ghost use Rattle.gf_words.specs.CommandLine.{IsJobIn, IsRequestIn, are_taken};
ghost use Rattle.gf_words.specs.GameNames.{is_game_name};

use crate::fault::WordsFault;
use crate::job::{Job, Request};
use crate::program::gamefile;
use crate::request::request_of;
use clap::Error;
use clap::error::ErrorKind;
use std::alloc::{AllocError, Global};

/// Whether a name ends in `.efg` or `.nfg`, in upper or lower case.
pub fn is_game_file(name: &str) -> bool
    ensures { result ≡ is_game_name name.now }
{
    let bytes = name.as_bytes();
    let end = &bytes[bytes.len().saturating_sub(4)..];
    end.eq_ignore_ascii_case(b".efg") || end.eq_ignore_ascii_case(b".nfg")
}

/// Whether a word that is not a command looks like the name of a game file. A word that a terminal
/// may not show as it is does not.
fn looks_like_file(word: &str) -> bool {
    for byte in word.as_bytes() {
        if !byte.is_ascii_graphic() {
            return false;
        }
    }
    word == "-" || is_game_file(word)
}

/// Appends the command that was perhaps meant, if the first word names a file instead.
fn push_hint(words: &[&str], text: &mut String) -> Result<(), AllocError> {
    match words.first() {
        Some(first) if looks_like_file(first) => {
            text.push_str("\nFor its canonical text: gamefile canon ")?;
            text.push_str(first)?;
            text.push('\n')
        }
        _ => Ok(()),
    }
}

/// What is said about words that ask for no job.
fn text_of(alloc: Global, error: &Error, words: &[&str]) -> Result<String, AllocError> {
    let mut text = error.to_string(alloc)?;
    if error.kind() == ErrorKind::InvalidSubcommand {
        push_hint(words, &mut text)?;
    }
    Ok(text)
}

fn fault_of(alloc: Global, error: &Error, words: &[&str]) -> WordsFault
    ensures { kind_of error.now ≡ ErrorKind.OutOfMemory → result ≡ WordsFault.Memory }
{
    match error.kind() {
        ErrorKind::OutOfMemory => WordsFault::Memory,
        kind => match (kind, text_of(alloc, error, words)) {
            (_, Err(AllocError)) => WordsFault::Memory,
            (ErrorKind::DisplayHelp | ErrorKind::DisplayVersion, Ok(text)) => {
                WordsFault::Help(text)
            }
            (_, Ok(text)) => WordsFault::Usage(text),
        },
    }
}

/// What the words after the program's name ask for, and how: whether a fault is explained, and
/// whether progress is hidden. `parse_words` says which words there are, and how they fail.
pub fn parse_request(alloc: Global, words: &[&str]) -> Result<Request, WordsFault>
    ensures request { IfOk result (IsRequestIn (map (λ word. word.now) words.now)) }
    ensures taken { are_taken (map (λ word. word.now) words.now) ≡ true
        → IfErr result (λ fault. fault ≡ WordsFault.Memory) }
{
    let program = gamefile(alloc)?;
    match program.try_get_matches_from(words) {
        Ok(matches) => request_of(alloc, &matches),
        Err(error) => Err(fault_of(alloc, &error, words)),
    }
}

/// The job that the words after the program's name ask for: `canon [--no-names] [FILE]`, `canon
/// --check [--no-names] [--quiet] [FILE|FOLDER]..`, `canon --write [--no-names] [--quiet]
/// FILE|FOLDER..`, `table [--reduced] [FILE]`, `same [--map | --no-names] A B` or `check [--quiet]
/// [FILE|FOLDER]..`; `hash` or `duplicates` with `[--no-names] [--zero] [--quiet]`, and with
/// `[FILE|FOLDER]..` or `--files-from FILE [--null]`; each with `--explain` or without; or no words,
/// which mean `canon` of standard input. Options may stand anywhere after the command, but not after
/// `--`. The file `-` is standard input, which `--write` cannot replace.
///
/// # Errors
///
/// - `Help`: the words ask for help, as `--help` or `help` does, also after a command; or for the
///   version, as `--version` or `-V` does, but not after a command.
/// - `Usage`: they ask for nothing of this kind.
/// - `Memory`: memory ran out. If it ran out while the words were judged, `Usage` may come in its
///   place.
// No edit: it passes on `parse_request`.
pub fn parse_words(alloc: Global, words: &[&str]) -> Result<Job, WordsFault>
    ensures job { IfOk result (IsJobIn (map (λ word. word.now) words.now)) }
    ensures taken { are_taken (map (λ word. word.now) words.now) ≡ true
        → IfErr result (λ fault. fault ≡ WordsFault.Memory) }
{
    Ok(parse_request(alloc, words)?.job)
}
