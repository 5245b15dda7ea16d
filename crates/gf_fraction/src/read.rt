//! Reading numbers: short ones in one pass, others by their shape and then by their value.

ghost use Rattle.std.specs.Prelude.{◌≡◌, ◌≤◌, ◌<◌, ◌^◌, ◌++◌, ℕ, List, length, take, drop};
ghost use Rattle.std.specs.Prelude.{unsigned_abs, IfSome, MatchOption, MatchResult};
ghost use Rattle.std.specs.Str.Parse.{IsNumeral, digits_value};
ghost use Rattle.gf_fraction.specs.NumberSpelling.{IsNumber, IsSign, scaled_digits};
ghost use Rattle.gf_fraction.specs.NoNumber.{Reads};
ghost use Rattle.gf_fraction.specs.NumberSpelling.Reading.{decimal, rational};
ghost use Rattle.gf_fraction.specs.ReadOn.{IsLeft, IsReadOn};
ghost use Rattle.gf_fraction.specs.inner.ShortNumber.{IsLeftByWords, IsReadInWords};
ghost use Rattle.gf_fraction.specs.inner.NumberScan.{AreRead, Completes, HasReadingFault};
ghost use Rattle.gf_fraction.specs.inner.NumberScan.{IsNotShort, IsScaled, IsValueOf, after_sign};
ghost use Rattle.gf_fraction.specs.inner.NumberScan.{unread, capped, is_minus, leading};
ghost use Rattle.gf_fraction.specs.inner.NumberScan.{leading_value, reading_of, scan, scan_decimal};
ghost use Rattle.gf_fraction.specs.inner.NumberScan.{scan_exponent, scan_fraction};

use crate::arithmetic::{LARGEST, product, with_sign};
use crate::fraction::{Fraction, NumberFault};
use crate::lowest::{lowest_decimal, lowest_words};

/// Stands for any number above `LARGEST`: all that matters about such a number is that it is too
/// large.
const TOO_LARGE: u128 = LARGEST + 1;

/// The greatest exponent, the greatest count of digits after a point, and the greatest power of
/// ten.
const GREATEST_POWER: i32 = 38;

/// 10^19 is the greatest power of ten that fits 64 bits.
const WORD_PLACES: usize = 19;

/// What a text of one of the shapes says after its sign.
#[derive(Clone, Copy)]
enum Spelling {
    /// Digits, of which `places` follow the point, and an exponent.
    Decimal {
        digits: u128,
        places: usize,
        exponent: i32,
    },
    Rational {
        num: u128,
        den: u128,
    },
}

/// The digits at the head of a text.
#[derive(Clone, Copy)]
struct Run<'a> {
    /// Their value, after the digits before them.
    value: u128,
    /// How many there are.
    len: usize,
    /// What follows them.
    rest: &'a [u8],
}

/// Whether a text begins with a minus, and the text after its sign. A sign is present about as
/// often as not, so no branch depends on it.
fn split_sign(text: &[u8]) -> (bool, &[u8])
    ensures negative { result.0 ≡ is_minus text.entry.now }
    ensures rest { result.1.now ≡ after_sign text.entry.now }
{
    let [first, ..] = text else {
        return (false, text);
    };
    let negative = *first == b'-';
    let signed = negative || *first == b'+';
    (negative, &text[usize::from(signed)..])
}

/// Reads digits, after digits of the value `from`, while their value leaves room for one more in 64
/// bits: the value, and what follows them.
#[inline(always)]
fn word_digits(from: u64, text: &[u8]) -> (u64, &[u8])
    ensures { AreRead from text.entry.now result.0 result.1.now }
{
    let mut value = from;
    let mut len = 0;
    while len < text.len() && text[len].is_ascii_digit() && value < u64::MAX / 10 {
        value = value * 10 + u64::from(text[len] - b'0');
        len += 1;
    }
    (value, &text[len..])
}

/// What follows the first digits of a short number, which have the value `num`: nothing, a
/// denominator, or more digits after a point. Gives the numerator and the denominator in lowest
/// terms, and what comes after the number.
#[inline(always)]
fn short_end(num: u64, text: &[u8]) -> Option<(u64, u64, &[u8])>
    ensures { MatchOption result (IsLeftByWords num text.entry.now)
        (λ r. Completes num text.entry.now r.0 r.1 r.2.now) }
{
    match text {
        [b'/', under @ ..] => {
            let (den, rest) = word_digits(0, under);
            if den == 0 {
                return None;
            }
            let (num, den) = lowest_words(num, den, den);
            Some((num, den, rest))
        }
        [b'.', after @ ..] => {
            let (digits, rest) = word_digits(num, after);
            let places = after.len() - rest.len();
            if places > WORD_PLACES {
                return None;
            }
            let (num, den) = lowest_decimal(digits, places as u32);
            Some((num, den, rest))
        }
        _ => Some((num, 1, text)),
    }
}

/// The number that a sign, digits of the value `num` and what follows them in a text spell, and how
/// many bytes that is.
#[inline(always)]
fn read_on(negative: bool, num: u64, text: &[u8]) -> Option<(Fraction, usize)>
    ensures number { IfSome result (λ r. (sign digits : List ℕ) → IsSign sign negative
        → IsNumeral 10 digits → digits_value 10 digits ≡ num
        → IsNumber (sign ++ digits ++ take r.1 text.now) r.0) }
    ensures end { MatchOption result (IsLeftByWords num text.now)
        (λ r. IsReadInWords num (take r.1 text.now) (drop r.1 text.now)) }
    ensures within { IfSome result (λ r. r.1 ≤ length text.now) }
{
    let (num, den, rest) = short_end(num, text)?;
    let number = Fraction::of_words(negative, num, den);
    Some((number, text.len() - rest.len()))
}

/// The number that a text spells, if all of it is read in one pass. Most numbers are.
fn short(text: &[u8]) -> Option<Fraction>
    ensures { MatchOption result (IsNotShort (after_sign text.now)) (λ r. IsNumber text.now r) }
{
    let (negative, unsigned) = split_sign(text);
    let (num, rest) = word_digits(0, unsigned);
    if rest.len() == unsigned.len() {
        return None;
    }
    let (number, len) = read_on(negative, num, rest)?;
    if len == rest.len() {
        Some(number)
    } else {
        None
    }
}

/// Reads digits, after digits of the value `from`.
fn wide_digits(from: u128, text: &[u8]) -> (u128, &[u8])
    requires { from ≤ 2 ^ 127 }
    ensures value { result.0 ≡ capped (leading_value from text.entry.now) }
    ensures rest { result.1.now ≡ unread text.entry.now }
{
    let mut value = from;
    for (i, byte) in text.iter().enumerate() {
        if !byte.is_ascii_digit() {
            return (value, &text[i..]);
        }
        value = if value > LARGEST / 10 {
            TOO_LARGE
        } else {
            TOO_LARGE.min(value * 10 + u128::from(*byte - b'0'))
        };
    }
    (value, &[])
}

/// The digits at the head of a text, after digits of the value `from`.
#[tactic(auto, using(crate::proofs::LeadingDigits::digit_counts))]
fn digits(from: u128, text: &[u8]) -> Run<'_>
    requires { from ≤ 2 ^ 127 }
    ensures value { result.value ≡ capped (leading_value from text.entry.now) }
    ensures len { result.len ≡ length (leading text.entry.now) }
    ensures rest { result.rest.now ≡ unread text.entry.now }
{
    let (value, rest) = wide_digits(from, text);
    Run {
        value,
        len: text.len() - rest.len(),
        rest,
    }
}

/// The exponent after its mark. Above 38, all are alike.
fn scan_exponent(text: &[u8]) -> Option<i32>
    ensures { result ≡ scan_exponent text.now }
{
    let (negative, text) = split_sign(text);
    let size = digits(0, text);
    if size.len == 0 || !size.rest.is_empty() {
        return None;
    }
    let size = size.value.min(GREATEST_POWER as u128 + 1) as i32;
    Some(if negative { -size } else { size })
}

/// What follows digits with or without a point: nothing, or an exponent.
fn scan_decimal(digits: u128, has_digits: bool, places: usize, rest: &[u8]) -> Option<Spelling>
    ensures { result ≡ scan_decimal digits has_digits places rest.now }
{
    if !has_digits {
        return None;
    }
    let exponent = match rest {
        [] => 0,
        [b'e' | b'E', text @ ..] => scan_exponent(text)?,
        _ => return None,
    };
    Some(Spelling::Decimal {
        digits,
        places,
        exponent,
    })
}

/// The denominator after a slash.
fn scan_fraction(num: u128, has_digits: bool, text: &[u8]) -> Option<Spelling>
    ensures { result ≡ scan_fraction num has_digits text.now }
{
    let den = digits(0, text);
    if has_digits && den.len > 0 && den.rest.is_empty() {
        Some(Spelling::Rational {
            num,
            den: den.value,
        })
    } else {
        None
    }
}

/// What a text says after its sign, if it has one of the shapes.
fn scan(text: &[u8]) -> Option<Spelling>
    ensures { result ≡ scan text.now }
{
    let whole = digits(0, text);
    let has_digits = whole.len > 0;
    match whole.rest {
        [b'/', under @ ..] => scan_fraction(whole.value, has_digits, under),
        [b'.', after @ ..] => {
            let all = digits(whole.value, after);
            scan_decimal(all.value, has_digits || all.len > 0, all.len, all.rest)
        }
        rest => scan_decimal(whole.value, has_digits, 0, rest),
    }
}

/// A numerator over a denominator as they are spelled.
fn rational(negative: bool, num: u128, den: u128) -> Result<Fraction, NumberFault>
    ensures { MatchResult result (λ f. IsValueOf negative (rational num den) f)
        (λ fault. HasReadingFault (rational num den) fault) }
{
    if den == 0 {
        return Err(NumberFault::ZeroDenominator);
    }
    if num > LARGEST || den > LARGEST {
        return Err(NumberFault::TooLarge);
    }
    Ok(Fraction::reduced(with_sign(negative, num), den, den))
}

/// Ten to a power of at most 38, which is below `M`.
#[tactic(auto, using(crate::proofs::PowersOfTen::power_bounds))]
fn power_of_ten(power: u32) -> u128
    requires { power ≤ 38 }
    ensures value { result ≡ 10 ^ power }
    ensures above_zero { 0 < result }
    ensures within { result < 2 ^ 127 }
{
    10u128.pow(power)
}

/// Digits over ten to a power, or times ten to the negated power if the power is negative.
fn scaled(negative: bool, digits: u128, power: i32) -> Result<Fraction, NumberFault>
    requires digits_within { digits < 2 ^ 127 }
    requires power_within { unsigned_abs power ≤ 38 }
    ensures { MatchResult result (λ f. IsScaled negative digits power f)
        (λ fault. (fault ≡ NumberFault.TooLarge) × (2 ^ 127 ≤ scaled_digits digits power)) }
{
    let places = power.unsigned_abs();
    if power < 0 {
        return match product(digits, power_of_ten(places)) {
            Ok(size) => Ok(Fraction::reduced(with_sign(negative, size), 1, 1)),
            Err(_) => Err(NumberFault::TooLarge),
        };
    }
    match u64::try_from(digits) {
        Ok(word) if places <= WORD_PLACES as u32 => {
            let (num, den) = lowest_decimal(word, places);
            Ok(Fraction::of_words(negative, num, den))
        }
        _ => {
            let ten = power_of_ten(places);
            Ok(Fraction::reduced(with_sign(negative, digits), ten, ten))
        }
    }
}

/// Digits with a point and an exponent as they are spelled.
fn decimal(
    negative: bool,
    digits: u128,
    places: usize,
    exponent: i32,
) -> Result<Fraction, NumberFault>
    ensures { MatchResult result (λ f. IsValueOf negative (decimal digits places exponent) f)
        (λ fault. HasReadingFault (decimal digits places exponent) fault) }
{
    if digits > LARGEST
        || places > GREATEST_POWER as usize
        || exponent > GREATEST_POWER
        || exponent < -GREATEST_POWER
    {
        return Err(NumberFault::TooLarge);
    }
    let power = places as i32 - exponent;
    if power > GREATEST_POWER {
        return Err(NumberFault::TooLarge);
    }
    scaled(negative, digits, power)
}

impl Spelling {
    /// The value with its sign, if no bound is broken.
    fn value(self, negative: bool) -> Result<Fraction, NumberFault>
        ensures { MatchResult result (λ f. IsValueOf negative (reading_of self) f)
            (λ fault. HasReadingFault (reading_of self) fault) }
    {
        match self {
            Spelling::Decimal {
                digits,
                places,
                exponent,
            } => decimal(negative, digits, places, exponent),
            Spelling::Rational { num, den } => rational(negative, num, den),
        }
    }
}

impl Fraction {
    /// The number that a text spells: an optional sign `+` or `-`, and then
    /// - digits;
    /// - digits with one point, one side of which may be empty;
    /// - either of these, then `e` or `E`, an optional sign and digits;
    /// - or digits, `/` and digits.
    ///
    /// # Errors
    ///
    /// `NotANumber` for any other text; otherwise `ZeroDenominator` if the denominator is zero;
    /// otherwise `TooLarge` if a bound is broken. With `M` for `2^127 - 1`, both parts of a
    /// rational are at most `M`. In all other shapes, with `p` digits after the point and an
    /// exponent `e`, the digits without the point are at most `M`, `p` and `p - e` are at most 38,
    /// `e` is -38 to 38, and if `e` is above `p`, the digits times `10^(e - p)` are at most `M`.
    /// Leading zeros never count (this project's profile).
    pub fn read(text: &[u8]) -> Result<Fraction, NumberFault>
        ensures { Reads text.now result }
    {
        if let Some(number) = short(text) {
            return Ok(number);
        }
        let (negative, rest) = split_sign(text);
        match scan(rest) {
            Some(spelling) => spelling.value(negative),
            None => Err(NumberFault::NotANumber),
        }
    }

    /// The number that a sign, digits of the value `num` and the first bytes of a text spell
    /// together, and how many bytes these are: none, `/` and digits, or `.` and digits. So a
    /// caller that has read the digits need not read them again. Digits for which 64 bits have no
    /// room and exponents are not read, so more bytes of a number may follow.
    ///
    /// `None` if the denominator is zero or has no digits, or if too many digits follow the point.
    /// Then only `Fraction::read` tells whether there is a number.
    #[inline(always)]
    pub fn after_digits(negative: bool, num: u64, text: &[u8]) -> Option<(Fraction, usize)>
        ensures number { IfSome result (λ r. (sign digits : List ℕ) → IsSign sign negative
            → IsNumeral 10 digits → digits_value 10 digits ≡ num
            → IsNumber (sign ++ digits ++ take r.1 text.now) r.0) }
        ensures end { MatchOption result (IsLeft text.now)
            (λ r. IsReadOn (take r.1 text.now) (drop r.1 text.now)) }
        ensures within { IfSome result (λ r. r.1 ≤ length text.now) }
    {
        read_on(negative, num, text)
    }
}
