//! The comparison of two files.

ghost use Rattle.std.specs.Prelude.{◌≡◌, ℕ, List};
ghost use Rattle.gf_canon.specs.Sameness.{AreRefusedWith};
ghost use Rattle.gf_calls.specs.Compared.{IsComparedBy, same_status};
ghost use Rattle.gf_calls.specs.Numbers.{names_by};
ghost use Rattle.gf_calls.specs.Refused.{AreRefusedAs};

use crate::fault::{FaultNumbers, report};
use crate::flags::names_by;
use crate::status::Status;
use gf_canon::{SameFault, same_by};
use std::alloc::Global;

fn same_status(same: bool) -> Status
    ensures { result ≡ same_status same }
{
    if same {
        Status::Done
    } else {
        Status::Different
    }
}

/// Reports why two files are not compared, and which of them is refused: 0 for the first, 1 for the
/// second.
pub fn report_of_two(refusal: SameFault, fault: &mut FaultNumbers, which: &mut u32) -> Status
    ensures { (a b : List ℕ) → AreRefusedWith a b refusal
        → AreRefusedAs a b (record { which = which.old; numbers = fault.old })
        (record { which = which.new; numbers = fault.new }) result }
{
    match refusal {
        SameFault::First(refusal) => {
            *which = 0;
            report(refusal, fault)
        }
        SameFault::Second(refusal) => {
            *which = 1;
            report(refusal, fault)
        }
        SameFault::Memory => Status::OutOfMemory,
    }
}

/// Compares two files, with names as the flags say. Answers as the head of this crate says.
pub fn compare(
    alloc: Global,
    a: &[u8],
    b: &[u8],
    flags: u32,
    fault: &mut FaultNumbers,
    which: &mut u32,
) -> Status
    ensures { IsComparedBy (names_by flags) a.now b.now
        (record { which = which.old; numbers = fault.old })
        (record { which = which.new; numbers = fault.new }) result }
{
    let Some(names) = names_by(flags) else {
        return Status::Misuse;
    };
    match same_by(alloc, a, b, names) {
        Ok(same) => same_status(same),
        Err(refusal) => report_of_two(refusal, fault, which),
    }
}
