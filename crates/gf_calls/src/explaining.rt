//! Why a file is refused, in words.

ghost use Rattle.std.specs.Prelude.{◌≡◌, IfOk};
ghost use Rattle.std.specs.Str.Lossy.{utf8_lossy};
ghost use Rattle.gf_explain.specs.Explained as refusal;
ghost use Rattle.gf_calls.specs.Explained.{IsExplained, explained_status};

use crate::fault::{FaultNumbers, report};
use crate::handing::hand_out;
use crate::status::Status;
use gf_canon::check;
use gf_explain::refusal_explanation;
use gf_token::{Fault, Why};
use std::alloc::{AllocError, Global};

/// The explanation of a refusal. What is not UTF-8 in the name is shown as U+FFFD.
fn explanation_of(
    alloc: Global,
    fault: &Fault,
    name: &[u8],
    input: &[u8],
) -> Result<Vec<u8>, AllocError>
    ensures { IfOk result
        (λ text. refusal.IsExplained fault.now (utf8_lossy name.now) input.now text.items) }
{
    let name = String::from_utf8_lossy(alloc, name)?;
    refusal_explanation(alloc, fault, name.as_str(), input)
}

/// What is answered about a file that is refused, by whether its explanation was handed out.
fn explained_status(handed: Status) -> Status
    ensures { result ≡ explained_status handed }
{
    match handed {
        Status::Done => Status::Refused,
        status => status,
    }
}

/// If a file is refused, writes why and where, in words, after this name. Answers as the head of
/// this crate says.
pub fn write_explanation(
    alloc: Global,
    input: &[u8],
    name: &[u8],
    out: &mut [u8],
    needed: &mut usize,
    fault: &mut FaultNumbers,
) -> Status
    ensures { IsExplained name.now input.now
        (record { out = out.old; needed = needed.old; numbers = fault.old })
        (record { out = out.new; needed = needed.new; numbers = fault.new }) result }
{
    let refusal = match check(alloc, input) {
        Ok(_) => return Status::Done,
        Err(refusal) => refusal,
    };
    let status = report(refusal, fault);
    if refusal.why == Why::Memory {
        return status;
    }
    match explanation_of(alloc, &refusal, name, input) {
        Ok(text) => explained_status(hand_out(&text, out, needed)),
        Err(_) => Status::OutOfMemory,
    }
}
