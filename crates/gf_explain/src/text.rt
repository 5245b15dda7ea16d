//! The text of an explanation.

ghost use Rattle.std.specs.Prelude.{◌≡◌, ◌++◌, IfOk, OnOk, codes};
ghost use Rattle.std.specs.List.{flat_map};
ghost use Rattle.gf_explain.specs.Explained.{IsExplained, IsSaidAfter, IsWhere};
ghost use Rattle.gf_explain.specs.Explained.{placed_text, unplaced_text};
ghost use Rattle.gf_explain.specs.FaultLine.{form_text};
ghost use Rattle.gf_explain.specs.Place.{EndsLine};
ghost use Rattle.gf_explain.specs.Shown.{IsShown};

use crate::context::context_of;
use crate::excerpt::push_excerpt;
use crate::fault_line::{form_line, refusal_line};
use crate::hint::push_hint;
use crate::mistake::{Refusal, mistake_of};
use crate::place::{Place, place_after};
use crate::sentence::{push_form, push_sentence};
use crate::shown::{ShownText, shown_name};
use gf_token::{Fault, FormFault, Why};
use itoa::Buffer;
use std::alloc::{AllocError, Global};

/// These parts, one after another.
fn joined(alloc: Global, parts: &[&[u8]]) -> Result<Vec<u8>, AllocError>
    ensures { IfOk result (λ text. text.items ≡ flat_map (λ part. part.now) parts.now) }
{
    parts.concat(alloc)
}

/// `NAME:LINE:COLUMN: `
fn placed(alloc: Global, name: &str, place: Place) -> Result<Vec<u8>, AllocError>
    ensures { IfOk result (λ text. text.items ≡ placed_text name.now place) }
{
    let (mut line, mut column) = (Buffer::new(), Buffer::new());
    joined(
        alloc,
        &[
            name.as_bytes(),
            b":",
            line.format(place.line).as_bytes(),
            b":",
            column.format(place.column).as_bytes(),
            b": ",
        ],
    )
}

/// `NAME: `
fn unplaced(alloc: Global, name: &str) -> Result<Vec<u8>, AllocError>
    ensures { IfOk result (λ text. text.items ≡ unplaced_text name.now) }
{
    joined(alloc, &[name.as_bytes(), b": "])
}

/// Where a refusal is: the name of the file, the line and the column. For a file that is too long,
/// only its name.
fn where_of(alloc: Global, fault: &Fault, name: &str, bytes: &[u8]) -> Result<Vec<u8>, AllocError>
    ensures { IfOk result (λ text. IsWhere fault.now name.now bytes.now text.items) }
{
    if fault.why == Why::TooLong {
        return unplaced(alloc, name);
    }
    let before = &bytes[..fault.span.start.min(bytes.len())];
    placed(alloc, name, place_after(before))
}

/// Appends what is wrong with a file, the line of the place, and a hint.
fn push_refusal(text: &mut ShownText, fault: &Fault, bytes: &[u8]) -> Result<(), AllocError>
    ensures { OnOk result (EndsLine text.new) }
{
    let start = fault.span.start.min(bytes.len());
    let end = fault.span.end.min(bytes.len()).max(start);
    let before = &bytes[..start];
    let refusal = Refusal {
        why: fault.why,
        found: &bytes[start..end],
        before,
        context: context_of(before),
    };
    push_sentence(text, &refusal)?;
    if fault.why != Why::TooLong {
        push_excerpt(text, bytes, fault.span, place_after(before))?;
    }
    match mistake_of(&refusal) {
        Some(mistake) => push_hint(text, &mistake),
        None => Ok(()),
    }
}

/// A line, and after it what is shown.
///
/// # Errors
///
/// `AllocError` if memory is refused.
// No edit: it puts parts together.
pub fn said_after(alloc: Global, line: &[u8], text: &ShownText) -> Result<Vec<u8>, AllocError>
    ensures text { IfOk result (λ said. said.items ≡ line.now ++ codes ": " ++ text.now) }
    ensures shown { IsShown text.now }
{
    joined(alloc, &[line, b": ", text.as_bytes()])
}

/// A refusal in words: where it is, its line, what is wrong, the line of the file with marks under
/// the place, and a hint.
///
/// # Errors
///
/// `AllocError` if memory runs out.
pub fn refusal_explanation(
    alloc: Global,
    fault: &Fault,
    name: &str,
    bytes: &[u8],
) -> Result<Vec<u8>, AllocError>
    ensures { IfOk result (λ text. IsExplained fault.now name.now bytes.now text.items) }
{
    let called = shown_name(alloc, name)?;
    let mut text = ShownText::new(alloc);
    push_refusal(&mut text, fault, bytes)?;
    let mut line = where_of(alloc, fault, called.as_str(), bytes)?;
    line.extend_from_slice(refusal_line(fault).as_slice())?;
    said_after(alloc, &line, &text)
}

/// Why a game has no table, in words: its line, and a sentence.
///
/// # Errors
///
/// `AllocError` if memory runs out.
// No edit: it passes on `said_after`.
pub fn form_explanation(alloc: Global, fault: &FormFault) -> Result<Vec<u8>, AllocError>
    ensures { IfOk result (λ text. IsSaidAfter (form_text fault.now) text.items) }
{
    let mut text = ShownText::new(alloc);
    push_form(&mut text, fault)?;
    said_after(alloc, form_line(fault).as_slice(), &text)
}
