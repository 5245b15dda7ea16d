//! The lines of a renumbering: one for each information set, and one for each outcome.

ghost use Rattle.std.specs.Prelude.{◌≡◌, ◌≤◌, length};
ghost use Rattle.gf_run.specs.Texts.{numbers_line, pair_line};

use gf_canon::NumberPair;
use gf_explain::Line;

/// The line that begins so, with a number and its new number.
fn numbers_line(mut line: Line, number: u32, new_number: u32) -> Line
    requires { length line ≤ 24 }
    ensures { result ≡ numbers_line line number new_number }
{
    line.push(b" ");
    line.push_number(number as usize);
    line.push(b" ");
    line.push_number(new_number as usize);
    line.push(b"\n");
    line
}

/// The line of a number and its new number: `set P X Y` of an information set, P being its player,
/// X its number and Y its new number, and `outcome X Y` of an outcome.
pub fn pair_line(pair: NumberPair) -> Line
    ensures { result ≡ pair_line pair }
{
    let mut line = Line::new();
    match pair {
        NumberPair::Set {
            player,
            number,
            new_number,
        } => {
            line.push(b"set ");
            line.push_number(player as usize);
            numbers_line(line, number, new_number)
        }
        NumberPair::Outcome { number, new_number } => {
            line.push(b"outcome");
            numbers_line(line, number, new_number)
        }
    }
}
