//! The renumbering between two files.

ghost use Rattle.gf_calls.specs.Paired.{IsPaired};

use crate::comparing::report_of_two;
use crate::fault::FaultNumbers;
use crate::handing::hand_out;
use crate::pair::{Pair, ToldPairs};
use crate::status::Status;
use gf_canon::pairs_of_files;
use std::alloc::Global;

/// Hands out which numbers of two files correspond, if these mean the same. Answers as the head of
/// this crate says.
pub fn write_renumbering(
    alloc: Global,
    a: &[u8],
    b: &[u8],
    out: &mut [Pair],
    needed: &mut usize,
    fault: &mut FaultNumbers,
    which: &mut u32,
) -> Status
    ensures { IsPaired a.now b.now
        (record {
          out = out.old;
          needed = needed.old;
          refusal = record { which = which.old; numbers = fault.old };
        })
        (record {
          out = out.new;
          needed = needed.new;
          refusal = record { which = which.new; numbers = fault.new };
        }) result }
{
    let mut told = ToldPairs {
        pairs: Vec::new(alloc),
    };
    match pairs_of_files(alloc, a, b, &mut told) {
        Ok(true) => hand_out(&told.pairs, out, needed),
        Ok(false) => Status::Different,
        Err(refusal) => report_of_two(refusal, fault, which),
    }
}
