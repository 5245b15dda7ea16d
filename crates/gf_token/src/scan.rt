//! Where the tokens of an input begin and end: functions over its bytes, of which `Cursor` is made.
//!
//! What is called at each token is `inline(always)`: wide values would otherwise pass through
//! memory.

ghost use Rattle.std.specs.Prelude.{◌≡◌, ◌<◌, ◌≤◌, ◌+◌, [], ◌∷◌, length, slice_range};
ghost use Rattle.std.specs.Prelude.{◌^◌, nat_lt, slice_index, IfSome, MatchOption, None};
ghost use Rattle.std.specs.Prelude.{◌==◌, Some, true, false, if◌then◌else◌};
ghost use Rattle.std.specs.Bool.{OnTrue};
ghost use Rattle.std.specs.Int.{from_bool};
ghost use Rattle.std.specs.Char.{digit_value, is_ascii_digit};
ghost use Rattle.std.specs.Str.Parse.{AllDigits, digits_value};
ghost use Rattle.gf_fraction.specs.NoNumber.{Reads};
ghost use Rattle.gf_token.specs.Byte.{is_space, is_bare};
ghost use Rattle.gf_token.specs.inner.Finding.{lexed, ClosesText, EndsDigits, EndsGap, Finds};
ghost use Rattle.gf_token.specs.inner.Finding.{FindsIndex, FindsNumber, IsNotShort};
ghost use Rattle.gf_token.specs.Index.{ReadsIndex};
ghost use Rattle.gf_token.specs.Label.{label_of};
ghost use Rattle.gf_token.specs.Next.{starts, is_text_of};
ghost use Rattle.gf_token.specs.Token.{lexeme};
ghost use Rattle.gf_token.specs.Token.Token.{Bare, Broken, Text};

use crate::byte::{is_bare, is_space};
use crate::fault::{Fault, Span, Why};
use crate::index::{WORD_DIGITS, index_in};
use crate::label::Label;
use crate::token::{Kind, Token};
use gf_fraction::{Fraction, NumberFault};

/// Where a gap of any length ends that begins at `from`, or `None` if no token follows it.
#[tactic(auto, using(crate::proofs::Steps::gap_steps))]
#[inline(never)]
fn long_gap_end(input: &[u8], from: usize) -> Option<usize>
    ensures { MatchOption result (lexed input.now from ≡ []) (EndsGap input.now from) }
{
    let mut at = from;
    while at < input.len() {
        if !is_space(input[at]) {
            return Some(at);
        }
        at += 1;
    }
    None
}

/// Where the gap ends that begins at `from`, or `None` if no token follows it. Most gaps have at
/// most one byte, and need no loop.
#[tactic(auto, using(crate::proofs::Steps::gap_steps))]
#[inline(always)]
pub(crate) fn gap_end(input: &[u8], from: usize) -> Option<usize>
    ensures { MatchOption result (lexed input.now from ≡ []) (EndsGap input.now from) }
{
    if from >= input.len() {
        return None;
    }
    if !is_space(input[from]) {
        return Some(from);
    }
    let next = from + 1;
    if next < input.len() && !is_space(input[next]) {
        return Some(next);
    }
    long_gap_end(input, next)
}

/// Where the bare token ends that begins at `start`.
#[tactic(auto, using(crate::proofs::Steps::bare_steps))]
#[inline(always)]
pub(crate) fn bare_end(input: &[u8], start: usize) -> usize
    requires within { start < length input.now }
    requires bare { is_bare (slice_index input.now start) ≡ true }
    ensures within { (start < result) × (result ≤ length input.now) }
    ensures found { lexed input.now start
        ≡ lexeme start result (Bare (slice_range input.now start result))
        ∷ lexed input.now result }
{
    let mut at = start + 1;
    while at < input.len() && is_bare(input[at]) {
        at += 1;
    }
    at
}

/// The value of a digit.
#[inline(always)]
fn digit_value(byte: u8) -> u64
    requires { is_ascii_digit byte ≡ true }
    ensures { result ≡ digit_value byte }
{
    u64::from(byte - b'0')
}

/// The value of this byte if it is a digit.
#[inline(always)]
fn digit_in(byte: u8) -> Option<u64>
    ensures { MatchOption result (is_ascii_digit byte ≡ false)
        (λ digit. (is_ascii_digit byte ≡ true) × (digit ≡ digit_value byte)) }
{
    // Any other byte comes out above 9.
    let digit = u64::from(byte).wrapping_sub(48);
    if digit < 10 { Some(digit) } else { None }
}

/// Where the digits end that begin at `first`, if they are looked for before `stop`, and their
/// value.
#[inline(always)]
fn digits_before(input: &[u8], first: usize, stop: usize) -> (usize, u64)
    requires within { (first < stop) × (stop ≤ length input.now) }
    requires few { stop ≤ first + 19 }
    requires digit { is_ascii_digit (slice_index input.now first) ≡ true }
    ensures within { (first < result.0) × (result.0 ≤ stop) }
    ensures digits { AllDigits 10 (slice_range input.now first result.0) }
    ensures stops { result.0 < stop → is_ascii_digit (slice_index input.now result.0) ≡ false }
    ensures value { result.1 ≡ digits_value 10 (slice_range input.now first result.0) }
{
    let mut at = first + 1;
    let mut value = digit_value(input[first]);
    while at < stop {
        let Some(digit) = digit_in(input[at]) else {
            break;
        };
        value = value * 10 + digit;
        at += 1;
    }
    (at, value)
}

/// Few numbers have more digits. If so many bytes are left, no end of the input is looked for among
/// them.
const SHORT_DIGITS: usize = 8;

/// Where the digits end that begin at `first`, and their value. At most 19 are read, whose value
/// always fits.
#[inline(always)]
fn digits_end(input: &[u8], first: usize) -> (usize, u64)
    requires within { first < length input.now }
    requires digit { is_ascii_digit (slice_index input.now first) ≡ true }
    ensures ends { EndsDigits input.now first result.0 }
    ensures value { result.1 ≡ digits_value 10 (slice_range input.now first result.0) }
{
    let left = input.len() - first;
    if left > SHORT_DIGITS {
        let stop = first + SHORT_DIGITS;
        let (at, value) = digits_before(input, first, stop);
        if at < stop {
            return (at, value);
        }
    }
    digits_before(input, first, first + left.min(WORD_DIGITS))
}

/// Whether this byte is a space or a new line.
#[inline(always)]
fn is_blank(byte: u8) -> bool
    ensures space { OnTrue result (is_space byte ≡ true) }
    ensures over { OnTrue result (is_bare byte ≡ false) }
{
    matches!(byte, b' ' | b'\n')
}

/// Whether no byte of a bare token stands at this place. Most end before a space or a new line.
#[inline(always)]
fn is_over(input: &[u8], at: usize) -> bool
    ensures over { result ≡ true → at < length input.now
        → is_bare (slice_index input.now at) ≡ false }
    ensures more { result ≡ false
        → (at < length input.now) × (is_bare (slice_index input.now at) ≡ true) }
{
    at >= input.len() || is_blank(input[at]) || !is_bare(input[at])
}

/// Where the bare token ends that begins at `start`, and the index that it spells, if it spells
/// one. Digits are read in the scan that finds their end.
#[tactic(auto, using(crate::proofs::ScannedNumbers::index_steps))]
#[inline(always)]
pub(crate) fn index_end(input: &[u8], start: usize) -> (usize, Option<u32>)
    requires within { start < length input.now }
    requires bare { is_bare (slice_index input.now start) ≡ true }
    ensures within { (start < result.0) × (result.0 ≤ length input.now) }
    ensures found { lexed input.now start
        ≡ lexeme start result.0 (Bare (slice_range input.now start result.0))
        ∷ lexed input.now result.0 }
    ensures index { ReadsIndex (slice_range input.now start result.0) result.1 }
{
    if input[start].is_ascii_digit() {
        let (at, value) = digits_end(input, start);
        if is_over(input, at) {
            return (at, index_of_value(value));
        }
    }
    let end = bare_end(input, start);
    (end, index_in(&input[start..end]))
}

/// Where the next token ends, and the index that it spells, if it has few digits and stands between
/// two blanks, the first of them at `from`. Most indices do, and few tests find these.
#[inline(always)]
pub(crate) fn spaced_index(input: &[u8], from: usize) -> Option<(usize, Option<u32>)>
    ensures { IfSome result (λ r. FindsIndex input.now from r.0 r.1) }
{
    if from >= input.len().saturating_sub(SHORT_DIGITS + 1) {
        return None;
    }
    let first = from + 1;
    if !is_blank(input[from]) || !input[first].is_ascii_digit() {
        return None;
    }
    let (end, value) = digits_before(input, first, first + SHORT_DIGITS);
    if !is_blank(input[end]) {
        return None;
    }
    Some((end, index_of_value(value)))
}

/// The index of a value.
#[inline(always)]
fn index_of_value(value: u64) -> Option<u32>
    ensures { result ≡ (if nat_lt value (2 ^ 32) then Some value else None) }
{
    match u32::try_from(value) {
        Ok(index) => Some(index),
        Err(_) => None,
    }
}

/// Where the bare token ends that begins at `start`, and the number that it spells, if all of it is
/// read in one pass. Most numbers are whole: what ends these is looked for first.
#[inline(always)]
fn short_number_end(input: &[u8], start: usize) -> Option<(usize, Fraction)>
    requires within { start < length input.now }
    ensures { MatchOption result
        (IsNotShort input.now (start + from_bool (slice_index input.now start == 45)))
        (λ r. FindsNumber input.now start r.0 r.1) }
{
    let negative = input[start] == b'-';
    let first = start + usize::from(negative);
    if first == input.len() || !input[first].is_ascii_digit() {
        return None;
    }
    let (at, value) = digits_end(input, first);
    if is_over(input, at) {
        return Some((at, Fraction::whole(negative, value)));
    }
    let (number, len) = Fraction::after_digits(negative, value, &input[at..])?;
    let end = at + len;
    if is_over(input, end) {
        Some((end, number))
    } else {
        None
    }
}

/// Where the bare token ends that begins at `start`, and the number that it spells, or why it
/// spells none.
#[inline(always)]
pub(crate) fn number_end(input: &[u8], start: usize) -> (usize, Result<Fraction, NumberFault>)
    requires within { start < length input.now }
    requires bare { is_bare (slice_index input.now start) ≡ true }
    ensures within { (start < result.0) × (result.0 ≤ length input.now) }
    ensures found { lexed input.now start
        ≡ lexeme start result.0 (Bare (slice_range input.now start result.0))
        ∷ lexed input.now result.0 }
    ensures number { Reads (slice_range input.now start result.0) result.1 }
{
    if let Some((end, number)) = short_number_end(input, start) {
        return (end, Ok(number));
    }
    let end = bare_end(input, start);
    (end, Fraction::read(&input[start..end]))
}

/// The quote that closes a text of any length, which the quote at `start` opens.
#[tactic(auto, using(crate::proofs::Steps::text_steps))]
#[inline(never)]
fn long_text_end(input: &[u8], start: usize) -> Option<usize>
    requires within { start < length input.now }
    requires quote { slice_index input.now start ≡ 34 }
    ensures { MatchOption result
        (lexed input.now start ≡ lexeme start (start + 1) Broken ∷ [])
        (ClosesText input.now start) }
{
    let mut at = start + 1;
    while at < input.len() {
        if input[at] == b'"' && input[at - 1] != b'\\' {
            return Some(at);
        }
        at += 1;
    }
    None
}

/// The quote that closes the text which the quote at `start` opens. Many texts are empty, and need
/// no loop.
#[tactic(auto, using(crate::proofs::Steps::text_steps))]
#[inline(always)]
pub(crate) fn closing_quote(input: &[u8], start: usize) -> Option<usize>
    requires within { start < length input.now }
    requires quote { slice_index input.now start ≡ 34 }
    ensures { MatchOption result
        (lexed input.now start ≡ lexeme start (start + 1) Broken ∷ [])
        (ClosesText input.now start) }
{
    let first = start + 1;
    if first < input.len() && input[first] == b'"' {
        return Some(first);
    }
    long_text_end(input, start)
}

/// Where the text of this label ends, if it begins at `start`. Its end is not searched for: the
/// label has no quote that would close it.
#[tactic(auto, using(crate::proofs::TextsOfLabels::label_steps))]
#[inline(always)]
pub(crate) fn end_of_label(input: &[u8], start: usize, label: Label<'_>) -> Option<usize>
    requires within { start < length input.now }
    requires no_gap { is_space (slice_index input.now start) ≡ false }
    ensures { MatchOption result
        (starts (is_text_of (label_of label.entry)) (lexed input.now start) ≡ false)
        (λ end. lexed input.now start
        ≡ lexeme start end (Text (label_of label.entry)) ∷ lexed input.now end) }
{
    let raw = label.raw();
    let text = start + 1;
    if input[start] != b'"' || input.len() - text <= raw.len() {
        return None;
    }
    let quote = text + raw.len();
    if input[quote] == b'"' && &input[text..quote] == raw {
        Some(quote + 1)
    } else {
        None
    }
}

/// The token that begins at `start`.
#[tactic(auto, using(crate::proofs::Steps::token_steps))]
pub(crate) fn token_at(input: &[u8], start: usize) -> Result<Token<'_>, Fault>
    requires within { start < length input.now }
    requires no_gap { is_space (slice_index input.now start) ≡ false }
    ensures { Finds input.entry.now start result }
{
    let (end, kind) = match input[start] {
        b'{' => (start + 1, Kind::Opening),
        b'}' => (start + 1, Kind::Closing),
        b',' => (start + 1, Kind::Comma),
        b'"' => match closing_quote(input, start) {
            Some(quote) => (
                quote + 1,
                Kind::Text(Label::of_spelling(&input[start + 1..quote])),
            ),
            None => {
                let span = Span {
                    start,
                    end: start + 1,
                };
                return Err(Fault::at(span, Why::Unterminated));
            }
        },
        _ => {
            let end = bare_end(input, start);
            (end, Kind::Bare(&input[start..end]))
        }
    };
    Ok(Token {
        span: Span { start, end },
        kind,
    })
}
