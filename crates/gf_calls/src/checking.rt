//! The check of a file.

ghost use Rattle.std.specs.Prelude.{◌≡◌};
ghost use Rattle.gf_calls.specs.Checked.{IsChecked};
ghost use Rattle.gf_calls.specs.Numbers.{kind_number};

use crate::fault::{FaultNumbers, report};
use crate::status::Status;
use gf_canon::{FileKind, check};
use std::alloc::Global;

fn kind_number(kind: FileKind) -> u32
    ensures { result ≡ kind_number kind }
{
    match kind {
        FileKind::Tree => 1,
        FileKind::Strategic => 2,
    }
}

/// Checks a file, and reports its kind or its refusal. Answers as the head of this crate says.
pub fn check_file(alloc: Global, input: &[u8], kind: &mut u32, fault: &mut FaultNumbers) -> Status
    ensures { IsChecked input.now (record { kind = kind.old; numbers = fault.old })
        (record { kind = kind.new; numbers = fault.new }) result }
{
    match check(alloc, input) {
        Ok(found) => {
            *kind = kind_number(found);
            Status::Done
        }
        Err(refusal) => report(refusal, fault),
    }
}
