//! The request that `clap`'s matches of the words make.

ghost use Rattle.std.specs.Prelude.{◌≡◌, IfOk, MatchOption, MatchResult, codes, false, map};
ghost use Rattle.std.specs.Prelude.{option_map, true};
ghost use Rattle.std.specs.List.{list_any};
ghost use Rattle.std.specs.String.{string_bytes};
ghost use Rattle.clap.specs.Matches.{found_of};
ghost use Rattle.clap.specs.Simple.{subcommand_rows_of};
ghost use Rattle.clap.specs.Walk.{all_of, first_of, rows_of};
ghost use Rattle.gf_words.specs.Request.{ArePathsOf, IsAlone, IsCanonOf, IsCheckOf, IsInputOf};
ghost use Rattle.gf_words.specs.Request.{IsJobOf, IsRequestBy, IsRequestOf, IsSameOf, are_files};
ghost use Rattle.gf_words.specs.Request.{canon_fits, command_fits, end_by, file_named, has_flag};
ghost use Rattle.gf_words.specs.Request.{input_name, is_dash, is_one_at_most, named, names_of};
ghost use Rattle.gf_words.specs.Request.{request_fits};
ghost use Rattle.gf_words.specs.declared.fault.WordsFault.TheVariants.{Memory};

use crate::fault::WordsFault;
use crate::help;
use crate::job::{Input, Job, LineEnd, Paths, Request};
use clap::ArgMatches;
use gf_token::Names;
use std::alloc::{AllocError, Global};

/// The first text of an argument.
fn text_of<'a>(given: &ArgMatches<'a>, id: &str) -> Option<&'a str>
    ensures { option_map (λ text. text.now) result
        ≡ first_of id.now (rows_of (found_of given.now)) }
{
    given.get_str(id)
}

/// All texts of an argument.
fn texts_of<'b, 'a>(given: &'b ArgMatches<'a>, id: &str) -> Option<&'b [&'a str]>
    ensures { option_map (λ texts. map (λ text. text.now) texts.now) result
        ≡ all_of id.now (rows_of (found_of given.now)) }
{
    given.get_strs(id)
}

/// Whether a flag is given: its text is `true` then. What `get_flag` answers is stated of the texts
/// `true` and `false` only.
fn is_given(given: &ArgMatches<'_>, flag: &str) -> bool
    ensures { result ≡ has_flag flag.now (rows_of (found_of given.now)) }
{
    match text_of(given, flag) {
        Some(text) => text == "true",
        None => false,
    }
}

fn names_of(given: &ArgMatches<'_>) -> Names
    ensures { result ≡ names_of (rows_of (found_of given.now)) }
{
    if is_given(given, "no-names") {
        Names::Aside
    } else {
        Names::Kept
    }
}

/// The input that a word names; `-` is standard input.
fn input_named(alloc: Global, word: &str) -> Result<Input, AllocError>
    ensures { IfOk result (λ input. input_name input ≡ named word.now) }
{
    if word == "-" {
        Ok(Input::Standard)
    } else {
        Ok(Input::File(String::from_str(alloc, word)?))
    }
}

/// The one input of a command; standard input if none is named.
fn input_of(alloc: Global, given: &ArgMatches<'_>) -> Result<Input, AllocError>
    ensures { IfOk result (IsInputOf (first_of (codes "FILE") (rows_of (found_of given.now)))) }
{
    match text_of(given, "FILE") {
        Some(word) => input_named(alloc, word),
        None => Ok(Input::Standard),
    }
}

/// The value of an argument that `clap` requires, so it is never missing.
fn name_of(alloc: Global, given: &ArgMatches<'_>, id: &str) -> Result<String, AllocError>
    ensures { IfOk result (λ name.
        string_bytes name ≡ file_named id.now (rows_of (found_of given.now))) }
{
    match text_of(given, id) {
        Some(name) => String::from_str(alloc, name),
        None => Ok(String::new(alloc)),
    }
}

fn same_of(alloc: Global, given: &ArgMatches<'_>) -> Result<Job, AllocError>
    ensures { IfOk result (IsSameOf (rows_of (found_of given.now))) }
{
    Ok(Job::Same {
        a: name_of(alloc, given, "A")?,
        b: name_of(alloc, given, "B")?,
        map: is_given(given, "map"),
        names: names_of(given),
    })
}

/// The files and folders of these names.
#[tactic(auto, using(std::proofs::lemmas::List::map_push))]
fn paths_named(alloc: Global, names: &[&str]) -> Result<Vec<String>, AllocError>
    ensures { IfOk result (λ paths.
        map string_bytes paths.items ≡ map (λ name. name.now) names.now) }
{
    let mut paths = Vec::new(alloc);
    for name in names {
        paths.push(String::from_str(alloc, name)?)?;
    }
    Ok(paths)
}

/// NUL if a flag is given, otherwise a line feed.
fn end_by(given: &ArgMatches<'_>, flag: &str) -> LineEnd
    ensures { result ≡ end_by flag.now (rows_of (found_of given.now)) }
{
    if is_given(given, flag) {
        LineEnd::Null
    } else {
        LineEnd::LineFeed
    }
}

fn paths_of(alloc: Global, given: &ArgMatches<'_>) -> Result<Paths, AllocError>
    ensures { IfOk result (ArePathsOf (rows_of (found_of given.now))) }
{
    if let Some(word) = text_of(given, "files-from") {
        return Ok(Paths::List {
            list: input_named(alloc, word)?,
            end: end_by(given, "null"),
        });
    }
    match texts_of(given, "FILES") {
        Some(names) => Ok(Paths::Named(paths_named(alloc, names)?)),
        None => Ok(Paths::Standard),
    }
}

/// The one file that is named, or standard input if none is; none if there are several.
fn input_alone(alloc: Global, given: &ArgMatches<'_>) -> Result<Option<Input>, AllocError>
    ensures { IfOk result (λ input. MatchOption input
        (is_one_at_most (all_of (codes "FILES") (rows_of (found_of given.now))) ≡ false)
        (IsAlone (all_of (codes "FILES") (rows_of (found_of given.now))))) }
{
    match texts_of(given, "FILES") {
        None => Ok(Some(Input::Standard)),
        Some([word]) => Ok(Some(input_named(alloc, word)?)),
        Some(_) => Ok(None),
    }
}

/// One file that is named, or standard input if none is, or several files.
fn check_of(alloc: Global, given: &ArgMatches<'_>) -> Result<Job, AllocError>
    ensures { IfOk result (IsCheckOf (rows_of (found_of given.now))) }
{
    match input_alone(alloc, given)? {
        Some(input) => Ok(Job::Check(input)),
        None => Ok(Job::CheckAll(paths_of(alloc, given)?)),
    }
}

/// Whether one of these words names standard input.
fn have_standard(words: &[&str]) -> bool
    ensures { result ≡ list_any is_dash (map (λ word. word.now) words.now) }
{
    for word in words {
        if *word == "-" {
            return true;
        }
    }
    false
}

/// Whether files are named, and none of them is standard input.
fn are_files(words: Option<&[&str]>) -> bool
    ensures { result ≡ are_files (option_map (λ words. map (λ word. word.now) words.now) words.entry) }
{
    match words {
        Some(words) => !have_standard(words),
        None => false,
    }
}

/// What is said if options and files do not fit together.
fn wrong(alloc: Global, error: &str) -> WordsFault {
    match String::from_str(alloc, error) {
        Ok(text) => WordsFault::Usage(text),
        Err(_) => WordsFault::Memory,
    }
}

/// The canonical text of one file; or several files, which are checked or replaced.
fn canon_of(alloc: Global, given: &ArgMatches<'_>) -> Result<Job, WordsFault>
    ensures { MatchResult result (IsCanonOf (rows_of (found_of given.now)))
        (λ fault. canon_fits (rows_of (found_of given.now)) ≡ true → fault ≡ Memory) }
{
    let names = names_of(given);
    match (is_given(given, "check"), is_given(given, "write")) {
        (true, true) => Err(wrong(alloc, help::CHECK_AND_WRITE)),
        (true, false) => {
            let files = paths_of(alloc, given)?;
            Ok(Job::CheckCanon { files, names })
        }
        (false, true) => {
            if !are_files(texts_of(given, "FILES")) {
                return Err(wrong(alloc, help::WRITE_TO_NOTHING));
            }
            let files = paths_of(alloc, given)?;
            Ok(Job::WriteCanon { files, names })
        }
        (false, false) => {
            if is_given(given, "quiet") {
                return Err(wrong(alloc, help::QUIET_ALONE));
            }
            match input_alone(alloc, given)? {
                Some(input) => Ok(Job::Canon { input, names }),
                None => Err(wrong(alloc, help::SEVERAL_TEXTS)),
            }
        }
    }
}

/// What a command asks for. The one that is not named here is `canon`.
fn job_of(alloc: Global, name: &str, given: &ArgMatches<'_>) -> Result<Job, WordsFault>
    ensures { MatchResult result (IsJobOf name.now (rows_of (found_of given.now)))
        (λ fault. command_fits name.now (rows_of (found_of given.now)) ≡ true → fault ≡ Memory) }
{
    Ok(if name == "check" {
        check_of(alloc, given)?
    } else if name == "table" {
        Job::Table {
            input: input_of(alloc, given)?,
            reduced: is_given(given, "reduced"),
        }
    } else if name == "same" {
        same_of(alloc, given)?
    } else if name == "hash" {
        Job::Hash {
            files: paths_of(alloc, given)?,
            names: names_of(given),
            end: end_by(given, "zero"),
        }
    } else if name == "duplicates" {
        Job::Duplicates {
            files: paths_of(alloc, given)?,
            names: names_of(given),
            end: end_by(given, "zero"),
        }
    } else {
        canon_of(alloc, given)?
    })
}

fn request_by(alloc: Global, name: &str, given: &ArgMatches<'_>) -> Result<Request, WordsFault>
    ensures { MatchResult result (IsRequestBy name.now (rows_of (found_of given.now)))
        (λ fault. command_fits name.now (rows_of (found_of given.now)) ≡ true → fault ≡ Memory) }
{
    Ok(Request {
        job: job_of(alloc, name, given)?,
        explain: is_given(given, "explain"),
        quiet: is_given(given, "quiet"),
    })
}

/// What matches ask for. With no command it is `canon`, which has no options then.
pub(crate) fn request_of(alloc: Global, matches: &ArgMatches<'_>) -> Result<Request, WordsFault>
    ensures { MatchResult result
        (IsRequestOf (rows_of (found_of matches.now)) (subcommand_rows_of matches.now))
        (λ fault. request_fits (rows_of (found_of matches.now)) (subcommand_rows_of matches.now)
        ≡ true → fault ≡ Memory) }
{
    match matches.subcommand() {
        Some(command) => request_by(alloc, command.0, command.1),
        None => request_by(alloc, "canon", matches),
    }
}
