//! Numbers of a node's line, and room for them.
//!
//! Digits are written into the vector itself: a copy from a buffer would read, several bytes at
//! once, what was stored byte by byte just before, and would have to wait for it. What is left of
//! the room is cut off.

ghost use Rattle.std.specs.Prelude.{◌≡◌, ◌+◌, ◌≤◌, ◌∷◌, ◌++◌, length, take, decimal, replicate};
ghost use Rattle.std.specs.Prelude.{OnErr, OnOk, IfOk};

use itoa::write_digits;
use std::alloc::AllocError;

/// Room for a letter, a space and two quotes, for the numbers of a player, a set and an outcome,
/// each a space and ten digits, and for a line feed; rounded up to whole vectors of the machine.
const ROOM: usize = 48;

/// Appends room for the rest of a line, which is filled with quotes. Returns where it begins. After
/// an `Err` the items are as they were.
#[inline(never)]
pub(crate) fn make_room(out: &mut Vec<u8>) -> Result<usize, AllocError>
    ensures start { IfOk result (λ start. start ≡ length out.old.items) }
    ensures room { OnOk result (out.new.items ≡ out.old.items ++ replicate 48 34) }
    ensures same { OnErr result (out.new.items ≡ out.old.items) }
{
    let start = out.len();
    out.extend_from_slice(&[b'"'; ROOM])?;
    Ok(start)
}

/// Writes a space and a number from `at` on. Returns where they end.
#[inline(never)]
#[tactic(auto, using(crate::proofs::lemmas::texts::Fields::number_at))]
pub(crate) fn write_number(at: usize, number: u32, text: &mut [u8]) -> usize
    requires { at + 11 ≤ length text.old }
    ensures within { result ≤ at + 11 }
    ensures written { take result text.new ≡ take at text.old ++ 32 ∷ decimal number }
{
    text[at] = b' ';
    if number < 10 {
        text[at + 1] = b'0' + number as u8;
        return at + 2;
    }
    let end = at + 2 + number.ilog10() as usize;
    write_digits(u64::from(number), text, end);
    end
}
