//! The canonical text of a file, and its hash.

ghost use Rattle.std.specs.Prelude.{◌≡◌, IfOk};
ghost use Rattle.std.specs.String.{string_bytes};
ghost use Rattle.hex.specs.Hex.{encode_lower};
ghost use Rattle.sha2.specs.Sha256.{sha256};
ghost use Rattle.gf_canon.specs.NamesAside.{IsTextBy};
ghost use Rattle.gf_calls.specs.Numbers.{names_by};
ghost use Rattle.gf_calls.specs.Written.{IsHashBy, IsWrittenBy};

use crate::fault::{FaultNumbers, report};
use crate::flags::names_by;
use crate::handing::hand_out;
use crate::status::Status;
use gf_canon::{TextPieces, canonical_by, canonical_text, sha256_of};
use std::alloc::{AllocError, Global};

/// Writes the canonical text of a file, with names as the flags say. Answers as the head of this
/// crate says.
pub fn write_canonical(
    alloc: Global,
    input: &[u8],
    flags: u32,
    out: &mut [u8],
    needed: &mut usize,
    fault: &mut FaultNumbers,
) -> Status
    ensures { IsWrittenBy IsTextBy (names_by flags) input.now
        (record { out = out.old; needed = needed.old; numbers = fault.old })
        (record { out = out.new; needed = needed.new; numbers = fault.new }) result }
{
    let Some(names) = names_by(flags) else {
        return Status::Misuse;
    };
    match canonical_by(alloc, input, names) {
        Ok(text) => hand_out(&text, out, needed),
        Err(refusal) => report(refusal, fault),
    }
}

/// The digest of a text in hexadecimal digits.
fn hash_of(alloc: Global, text: TextPieces) -> Result<String, AllocError>
    ensures { IfOk result (λ hash. string_bytes hash ≡ encode_lower (sha256 text.rest)) }
{
    hex::encode(alloc, sha256_of(text))
}

/// Writes the hash of a file, with names as the flags say. Answers as the head of this crate says.
pub fn write_hash(
    alloc: Global,
    input: &[u8],
    flags: u32,
    out: &mut [u8],
    needed: &mut usize,
    fault: &mut FaultNumbers,
) -> Status
    ensures { IsWrittenBy IsHashBy (names_by flags) input.now
        (record { out = out.old; needed = needed.old; numbers = fault.old })
        (record { out = out.new; needed = needed.new; numbers = fault.new }) result }
{
    let Some(names) = names_by(flags) else {
        return Status::Misuse;
    };
    let text = match canonical_text(alloc, input, names) {
        Ok(text) => text,
        Err(refusal) => return report(refusal, fault),
    };
    match hash_of(alloc, text) {
        Ok(hash) => hand_out(hash.as_bytes(), out, needed),
        Err(_) => Status::OutOfMemory,
    }
}
