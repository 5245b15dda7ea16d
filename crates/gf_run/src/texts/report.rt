//! What is written about a fault: its line on standard error.

ghost use Rattle.std.specs.Prelude.{◌≡◌, ◌≤◌, length, OnOk, OnErr};
ghost use Rattle.gf_run.specs.Faults.{fault_line, fault_prefix, short_line};
ghost use Rattle.gf_run.specs.Streams.{IsWriteFault, IsWritten};

use crate::fault::{RunFault, Which, WriteFault};
use crate::streams::sink::{Sink, push_all};
use gf_explain::{Line, form_line, refusal_line};

/// What the line of a fault begins with: the input, if it is one of two.
fn prefix_of(fault: &RunFault) -> &'static [u8]
    ensures text { result.now ≡ fault_prefix fault.now }
    ensures short { length result.now ≤ 3 }
{
    match fault {
        RunFault::Refused { which, .. } | RunFault::Read(which) => match which {
            Which::Only => b"",
            Which::First => b"A: ",
            Which::Second => b"B: ",
        },
        RunFault::Write | RunFault::Form(_) | RunFault::Memory => b"",
    }
}

/// The line of a fault, without its input and without its line feed.
// No edit: `line_of` calls it and has one.
pub fn short_line_of(fault: &RunFault) -> Line
    ensures text { result ≡ short_line fault.now }
    ensures short { length result ≤ 70 }
{
    let code: &[u8] = match fault {
        RunFault::Refused { fault, .. } => return refusal_line(fault),
        RunFault::Form(fault) => return form_line(fault),
        RunFault::Read(_) => b"E20",
        RunFault::Write => b"E21",
        RunFault::Memory => b"E19",
    };
    let mut line = Line::new();
    line.push(code);
    line
}

/// The line of a fault.
pub fn line_of(fault: &RunFault) -> Line
    ensures { result ≡ fault_line fault.now }
{
    let mut line = Line::new();
    line.push(prefix_of(fault));
    line.push(short_line_of(fault).as_slice());
    line.push(b"\n");
    line
}

/// Writes the line of a fault: its code and the place of a refusal in bytes, after `A: ` or `B: `
/// if it is about one of two inputs; or why a game has no table. This takes no memory.
///
/// # Errors
///
/// `WriteFault` if the writer failed, was interrupted sixteen times in a row, or took nothing. A
/// prefix of the line has been written then.
// No edit: it passes on `line_of`.
pub fn write_fault<W: Sink>(fault: &RunFault, output: &mut W) -> Result<(), WriteFault>
    ensures all { OnOk result (IsWritten W.writer output.old output.new (fault_line fault.now)) }
    ensures part { OnErr result (IsWriteFault W.writer output.old output.new (fault_line fault.now)) }
{
    push_all(output, line_of(fault).as_slice())
}
