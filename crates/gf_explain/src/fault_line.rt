//! The line of a fault: the code and the place of a refusal, or why a game has no table.

ghost use Rattle.std.specs.Prelude.{◌≡◌, ◌≤◌, length};
ghost use Rattle.gf_explain.specs.FaultLine.{form_text, place_text};

use crate::line::Line;
use gf_token::{Fault, FormFault};

/// The code and the place of a refusal.
pub fn refusal_line(fault: &Fault) -> Line
    ensures text { result ≡ place_text fault.now }
    ensures short { length result ≤ 70 }
{
    let mut line = Line::new();
    line.push(b"E");
    line.push_number(usize::from(fault.why.code()));
    line.push(b" at ");
    line.push_number(fault.span.start);
    line.push(b"..");
    line.push_number(fault.span.end);
    line
}

/// Why a game has no table.
pub fn form_line(fault: &FormFault) -> Line
    ensures text { result ≡ form_text fault.now }
    ensures short { length result ≤ 70 }
{
    let mut line = Line::new();
    match fault {
        FormFault::TooManyProfiles => line.push(b"too many profiles"),
        FormFault::Overflow { profile } => {
            line.push(b"overflow at profile ");
            line.push_number(*profile as usize);
        }
        FormFault::Memory => line.push(b"E19"),
    }
    line
}
