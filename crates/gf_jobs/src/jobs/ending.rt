//! How the program ends: its exit status, and what it writes to standard error.

ghost use Rattle.std.specs.Prelude.{◌≡◌, IfOk, option_map};
ghost use Rattle.gf_run.specs.Faults.{fault_line, status_of};
ghost use Rattle.gf_jobs.specs.Opening.{kept_at_first};
ghost use Rattle.gf_jobs.specs.Reports.{IsAnswered, IsLineOr, IsNamedExplanation, IsReported};
ghost use Rattle.gf_jobs.specs.Reports.{IsSent, IsNamedReport};
ghost use Rattle.gf_jobs.specs.Lines.{after_name};

use crate::explain::{Failed, explanation};
use gf_explain::shown_name;
use gf_run::{RunFault, Sink, line_of, push_all, status, write_fault};
use gf_words::WordsFault;
use std::alloc::{AllocError, Global};

/// Writes the line of a fault to standard error, and returns its exit status.
///
/// The status stays the same if the line cannot be written.
// No edit: it passes on `write_fault`.
pub fn report<E: Sink>(fault: &RunFault, errors: &mut E) -> u8
    ensures status { result ≡ status_of fault.now }
    ensures sent { IsSent E.writer (fault_line fault.now) errors.old errors.new }
{
    let _ = write_fault(fault, errors);
    status(fault)
}

/// Reports a fault of the file with this name, and returns its exit status. It is explained by the
/// bytes of the file that were kept. If none were, or memory for the explanation runs out, its line
/// is written.
pub(crate) fn report_explained<E: Sink>(
    alloc: Global,
    failed: &Failed,
    name: &str,
    kept: Option<&[u8]>,
    errors: &mut E,
) -> u8
    ensures { IsReported E.writer name.now (option_map (λ bytes. bytes.now) kept.entry)
        failed.now.fault result errors.old errors.new }
{
    let Some(bytes) = kept else {
        return report(&failed.fault, errors);
    };
    match explanation(alloc, failed, name, bytes) {
        Ok(text) => {
            let _ = push_all(errors, text.as_slice());
            status(&failed.fault)
        }
        Err(_) => report(&failed.fault, errors),
    }
}

/// What is kept of an input of which nothing was read.
pub(crate) fn nothing_kept(explain: bool) -> Option<&'static [u8]>
    ensures { option_map (λ bytes. bytes.now) result ≡ kept_at_first explain }
{
    let nothing: &[u8] = &[];
    if explain { Some(nothing) } else { None }
}

/// A text after the name of its file, as it is shown.
pub(crate) fn after_name(alloc: Global, name: &str, text: &[u8]) -> Result<Vec<u8>, AllocError>
    ensures { IfOk result (λ line. line.items ≡ after_name name.now text.now) }
{
    let mut line = Vec::from_slice(alloc, shown_name(alloc, name)?.as_bytes())?;
    line.extend_from_slice(b": ")?;
    line.extend_from_slice(text)?;
    Ok(line)
}

/// A fault in words, after the name of its file.
fn named_explanation(
    alloc: Global,
    failed: &Failed,
    name: &str,
    bytes: &[u8],
) -> Result<Vec<u8>, AllocError>
    ensures { IfOk result
        (λ text. IsNamedExplanation failed.now.fault name.now bytes.now text.items) }
{
    let text = explanation(alloc, failed, name, bytes)?;
    match failed.fault {
        // The place of a refusal begins with the name.
        RunFault::Refused { .. } => Ok(text),
        _ => after_name(alloc, name, text.as_slice()),
    }
}

/// What is written about a fault.
fn named_text(
    alloc: Global,
    failed: &Failed,
    name: &str,
    kept: Option<&[u8]>,
) -> Result<Vec<u8>, AllocError>
    ensures { IfOk result (λ text. IsLineOr (after_name name.now (fault_line failed.now.fault))
        (IsNamedExplanation failed.now.fault name.now) (option_map (λ bytes. bytes.now) kept.entry)
        text.items) }
{
    if let Some(bytes) = kept {
        if let Ok(text) = named_explanation(alloc, failed, name, bytes) {
            return Ok(text);
        }
    }
    after_name(alloc, name, line_of(&failed.fault).as_slice())
}

/// Reports the fault of a file after its name, and returns its status. It is explained by the bytes
/// of the file that were kept, if any were.
pub(crate) fn report_named<E: Sink>(
    alloc: Global,
    failed: &Failed,
    name: &str,
    kept: Option<&[u8]>,
    errors: &mut E,
) -> u8
    ensures { IsNamedReport E.writer name.now (option_map (λ bytes. bytes.now) kept.entry)
        failed.now.fault result errors.old errors.new }
{
    match named_text(alloc, failed, name, kept) {
        Ok(text) => {
            let _ = push_all(errors, text.as_slice());
            status(&failed.fault)
        }
        Err(AllocError) => report(&RunFault::Memory, errors),
    }
}

/// Answers words that ask for no job, and returns the exit status.
///
/// - `Help`: 0, and the text is written to standard output; or, if that fails, 4 and the line of
///   E21.
/// - `Usage`: 3, and the text is written to standard error. The status stays the same if that
///   fails.
/// - `Memory`: 5, and the line of E19.
pub fn answer<W: Sink, E: Sink>(fault: &WordsFault, output: &mut W, errors: &mut E) -> u8
    ensures { IsAnswered W.writer E.writer fault.now result output.old output.new
        errors.old errors.new }
{
    match fault {
        WordsFault::Help(text) => match push_all(output, text.as_bytes()) {
            Ok(()) => 0,
            Err(_) => report(&RunFault::Write, errors),
        },
        WordsFault::Usage(text) => {
            let _ = push_all(errors, text.as_bytes());
            3
        }
        WordsFault::Memory => report(&RunFault::Memory, errors),
    }
}
