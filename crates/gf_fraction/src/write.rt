//! The text of a fraction.

ghost use Rattle.std.specs.Prelude.{◌≡◌, ◌+◌, ◌++◌, ◌<◌, ◌≤◌, [], length, codes, take};
ghost use Rattle.std.specs.Prelude.{decimal, OnErr, OnOk, if◌then◌else◌, ◌==◌};
ghost use Rattle.std.specs.Prelude.{vec_capacity, vec_len};
ghost use Rattle.gf_fraction.specs.NumberText.{number_text};

use crate::fraction::Fraction;
use itoa::{Buffer, write_digits};
use std::alloc::AllocError;

/// Room for a sign, nineteen digits, a slash and twenty digits, rounded up to whole vectors of the
/// machine (16 bytes).
const ROOM: usize = 48;

/// How many digits a number of at most four has.
#[inline(always)]
#[tactic(auto, using(crate::proofs::WrittenText::short_counts))]
fn short_count(n: u64) -> usize
    requires { n < 10000 }
    ensures { result ≡ length (decimal n) }
{
    if n < 10 {
        1
    } else if n < 100 {
        2
    } else if n < 1_000 {
        3
    } else {
        4
    }
}

/// How many digits a number has.
#[inline(always)]
#[tactic(auto, using(crate::proofs::WrittenText::all_counts))]
fn digit_count(n: u64) -> usize
    ensures count { result ≡ length (decimal n) }
    ensures short { result ≤ 20 }
{
    let mut left = n;
    let mut count = 0;
    while left >= 10_000 {
        left /= 10_000;
        count += 4;
    }
    count + short_count(left)
}

/// Writes the digits of a number from `start` on. Returns where they end.
#[inline(always)]
fn write_from(start: usize, n: u64, text: &mut [u8]) -> usize
    requires { start + 20 ≤ length text.old }
    ensures within { result ≤ start + 20 }
    ensures written { take result text.new ≡ take start text.old ++ decimal n }
{
    let end = start + digit_count(n);
    write_digits(n, text, end);
    end
}

/// Writes a slash and a denominator from `start` on, or nothing if it is 1. Returns where they end.
#[inline(always)]
fn write_under(start: usize, den: u64, text: &mut [u8]) -> usize
    requires { start + 21 ≤ length text.old }
    ensures { take result text.new
        ≡ take start text.old ++ (if den == 1 then [] else codes "/" ++ decimal den) }
{
    if den == 1 {
        return start;
    }
    text[start] = b'/';
    write_from(start + 1, den, text)
}

/// Writes both parts from `start` on. Returns where they end.
#[inline(always)]
fn write_parts(start: usize, size: u64, den: u64, text: &mut [u8]) -> usize
    requires { start + 41 ≤ length text.old }
    ensures { take result text.new ≡ (take start text.old ++ decimal size)
        ++ (if den == 1 then [] else codes "/" ++ decimal den) }
{
    let end = write_from(start, size, text);
    write_under(end, den, text)
}

/// Appends `n`, or `n/d` if the denominator is above 1. The digits are written into the vector
/// itself: a copy from a buffer would read, several bytes at once, what was stored byte by byte
/// just before, and would have to wait for it.
fn write_words(num: i64, den: u64, out: &mut Vec<u8>) -> Result<(), AllocError>
    ensures ok { OnOk result
        (out.new.items ≡ out.old.items ++ number_text (record { num = num; den = den })) }
    ensures err { OnErr result (out.new.items ≡ out.old.items) }
    ensures full { OnErr result (vec_capacity out.old < vec_len out.old + 80) }
    ensures grown { vec_len out.new ≤ vec_len out.old + 80 }
    ensures capacity { vec_capacity out.old ≤ vec_capacity out.new }
{
    // A sign is present about as often as not, so the minus is stored without a branch. What is
    // stored past the end is cut off.
    let start = out.len() + usize::from(num < 0);
    out.extend_from_slice(&[b'-'; ROOM])?;
    let end = write_parts(start, num.unsigned_abs(), den, out.as_mut_slice());
    out.truncate(end);
    Ok(())
}

/// Appends the same for parts of any size.
#[inline(never)]
#[tactic(auto, unfolding(crate::specs::NumberText::number_text))]
fn write_wide(num: i128, den: u128, out: &mut Vec<u8>) -> Result<(), AllocError>
    ensures ok { OnOk result
        (out.new.items ≡ out.old.items ++ number_text (record { num = num; den = den })) }
    ensures err { OnErr result (out.new.items ≡ out.old.items) }
    ensures full { OnErr result (vec_capacity out.old < vec_len out.old + 80) }
    ensures grown { vec_len out.new ≤ vec_len out.old + 80 }
    ensures capacity { vec_capacity out.old ≤ vec_capacity out.new }
{
    let mut buffer = Buffer::new();
    let num = buffer.format(num).as_bytes();
    if den == 1 {
        return out.extend_from_slice(num);
    }
    let mut buffer = Buffer::new();
    let den = buffer.format(den).as_bytes();
    out.reserve(num.len() + 1 + den.len())?;
    out.extend_from_slice(num)?;
    out.push(b'/')?;
    out.extend_from_slice(den)
}

impl Fraction {
    /// Appends `n`, or `n/d` if the denominator is above 1, in decimal digits. `Fraction::read`
    /// reads it back.
    ///
    /// # Errors
    ///
    /// `AllocError` if memory is refused, which can happen only if the vector has no room for 80
    /// more bytes; its items are then as they were.
    #[inline(always)]
    pub fn write(self, out: &mut Vec<u8>) -> Result<(), AllocError>
        ensures ok { OnOk result (out.new.items ≡ out.old.items ++ number_text self) }
        ensures err { OnErr result (out.new.items ≡ out.old.items) }
        ensures full { OnErr result (vec_capacity out.old < vec_len out.old + 80) }
        ensures grown { vec_len out.new ≤ vec_len out.old + 80 }
        ensures capacity { vec_capacity out.old ≤ vec_capacity out.new }
    {
        // Both parts are passed in registers: it takes long to read back what was only just stored.
        let (num, den) = (self.num(), self.den());
        match (i64::try_from(num), u64::try_from(den)) {
            (Ok(num), Ok(den)) => write_words(num, den, out),
            _ => write_wide(num, den, out),
        }
    }
}
