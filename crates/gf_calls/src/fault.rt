//! How a refusal is reported to C.

ghost use Rattle.std.specs.Prelude.{◌≡◌};
ghost use Rattle.gf_calls.specs.Numbers.{expected_number, fault_numbers, what_number};
ghost use Rattle.gf_calls.specs.Refused.{refusal_status};

use crate::status::Status;
use gf_token::{Fault, What, Why};

/// A refusal in numbers: its code, what was expected if the code is 3, and its place in bytes.
#[repr(C)]
#[derive(Clone, Copy, Drop)]
pub struct FaultNumbers {
    pub code: u32,
    pub expected: u32,
    pub start: usize,
    pub end: usize,
}

fn what_number(what: What) -> u32
    ensures { result ≡ what_number what }
{
    match what {
        What::Format => 1,
        What::Version => 2,
        What::Letter => 3,
        What::Text => 4,
        What::Opening => 5,
        What::Closing => 6,
        What::Number => 7,
        What::Index => 8,
        What::Strategies => 9,
        What::Node => 10,
        What::End => 11,
    }
}

fn expected_number(why: Why) -> u32
    ensures { result ≡ expected_number why }
{
    match why {
        Why::Expected(what) => what_number(what),
        _ => 0,
    }
}

fn refusal_status(why: Why) -> Status
    ensures { result ≡ refusal_status why }
{
    match why {
        Why::Memory => Status::OutOfMemory,
        _ => Status::Refused,
    }
}

/// Reports a refusal, and returns its status.
pub fn report(fault: Fault, numbers: &mut FaultNumbers) -> Status
    ensures status { result ≡ refusal_status fault.why }
    ensures numbers { numbers.new ≡ fault_numbers fault }
{
    *numbers = FaultNumbers {
        code: u32::from(fault.why.code()),
        expected: expected_number(fault.why),
        start: fault.span.start,
        end: fault.span.end,
    };
    refusal_status(fault.why)
}
