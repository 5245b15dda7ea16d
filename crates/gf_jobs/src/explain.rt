//! A fault of a run in words, and what the system says about it.

ghost use Rattle.std.specs.Prelude.{◌≡◌, IfOk, OnOk};
ghost use Rattle.gf_explain.specs.Place.{EndsLine};
ghost use Rattle.gf_jobs.specs.Reports.{IsExplained};
ghost use Rattle.gf_run.specs.declared.fault.RunFault.{RunFault};
ghost use Rattle.gf_run.specs.declared.fault.Which.{Which};

use gf_explain::{
    Part, ShownText, form_explanation, push_line, refusal_explanation, said_after, shown_name,
};
use gf_run::{LastError, RunFault, Which, short_line_of};
use std::alloc::{AllocError, Global};
use std::io;

/// The hint where a folder stands in the place of a file.
const FOLDER_HINT: &[u8] =
    b"  hint: `check`, `hash`, `duplicates`, `canon --check` and `canon --write` read folders";

/// What the system says about a fault of an input or of the output.
#[derive(Clone, Copy)]
pub enum Cause {
    /// Why the input could not be opened.
    Opening(io::Error),
    /// The last error of a read or a write, if there was one.
    Transfer(Option<io::Error>),
    /// Why a text could not take the place of the input.
    Replacing(io::Error),
}

/// A fault, and what the system says about it.
#[derive(Clone, Copy)]
pub struct Failed {
    pub fault: RunFault,
    pub cause: Cause,
}

impl From<RunFault> for Failed {
    ghost from_gives = { λ fault failed. failed.fault ≡ fault };

    fn from(fault: RunFault) -> Failed {
        let cause = Cause::Transfer(None);
        Failed { fault, cause }
    }
}

impl From<AllocError> for Failed {
    ghost from_gives = { λ _ failed. failed.fault ≡ RunFault.Memory };

    fn from(_: AllocError) -> Failed {
        Failed::from(RunFault::Memory)
    }
}

/// The one input could not be opened or read.
pub fn unread(cause: Cause) -> Failed
    ensures { result.fault ≡ RunFault.Read Which.Only }
{
    let fault = RunFault::Read(Which::Only);
    Failed { fault, cause }
}

/// A fault of a run over this source and this output, with the last error of one of them.
pub fn failed_run<S: LastError, W: LastError>(fault: RunFault, source: &S, output: &W) -> Failed
    ensures { result.fault ≡ fault }
{
    let cause = Cause::Transfer(match fault {
        RunFault::Write => output.last_error(),
        _ => source.last_error(),
    });
    Failed { fault, cause }
}

/// Says what failed, and what the system says about that, if it says anything. Where a folder stands in
/// the place of a file, a hint follows.
fn push_failure(
    alloc: Global,
    text: &mut ShownText,
    failed: &Failed,
    name: &str,
) -> Result<(), AllocError>
    ensures { OnOk result (EndsLine text.new) }
{
    let (words, named, error) = match (&failed.fault, &failed.cause) {
        (RunFault::Memory, _) => ("out of memory", "", None),
        (_, Cause::Opening(error)) => ("cannot open ", name, Some(*error)),
        (_, Cause::Replacing(error)) => ("cannot replace ", name, Some(*error)),
        (RunFault::Write, Cause::Transfer(error)) => ("cannot write the output", "", *error),
        (_, Cause::Transfer(error)) => ("cannot read ", name, *error),
    };
    let (words, named) = (Part::Shown(words.as_bytes()), Part::Shown(named.as_bytes()));
    let Some(error) = error else {
        return push_line(text, &[words, named]);
    };
    let reason = error.to_string(alloc)?;
    let (colon, reason) = (Part::Shown(b": "), Part::Shown(reason.as_bytes()));
    push_line(text, &[words, named, colon, reason])?;
    if error.kind() == io::ErrorKind::IsADirectory {
        push_line(text, &[Part::Shown(FOLDER_HINT)])?;
    }
    Ok(())
}

/// A fault in words: for a refusal, where it is, the line of the fault without its input, what is
/// wrong, the line of the file with marks under the place, and a hint; for any other fault, its line
/// and a sentence.
pub fn explanation(
    alloc: Global,
    failed: &Failed,
    name: &str,
    bytes: &[u8],
) -> Result<Vec<u8>, AllocError>
    ensures { IfOk result (λ text. IsExplained failed.now.fault name.now bytes.now text.items) }
{
    match &failed.fault {
        RunFault::Refused { fault, .. } => refusal_explanation(alloc, fault, name, bytes),
        RunFault::Form(fault) => form_explanation(alloc, fault),
        RunFault::Read(_) | RunFault::Write | RunFault::Memory => {
            let called = shown_name(alloc, name)?;
            let mut text = ShownText::new(alloc);
            push_failure(alloc, &mut text, failed, called.as_str())?;
            said_after(alloc, short_line_of(&failed.fault).as_slice(), &text)
        }
    }
}
