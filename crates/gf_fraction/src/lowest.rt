//! Lowest terms. Most denominators are products of twos, threes and fives, for which shifts and
//! divisions by a constant are enough.

ghost use Rattle.std.specs.Prelude.{◌≡◌, ℕ, ◌*◌, ◌^◌, ◌<◌, ◌≤◌};
ghost use Rattle.gf_fraction.specs.inner.Steps.{HoldsCommon, IsLowest, IsPrime, IsReduced};
ghost use Rattle.gf_fraction.specs.inner.Steps.{factored};

use crate::arithmetic::{WORD, gcd, quotient, word_gcd};

/// The powers of ten that 64 bits have room for.
static POWERS_OF_TEN: [u64; 20] = [
    1,
    10,
    100,
    1_000,
    10_000,
    100_000,
    1_000_000,
    10_000_000,
    100_000_000,
    1_000_000_000,
    10_000_000_000,
    100_000_000_000,
    1_000_000_000_000,
    10_000_000_000_000,
    100_000_000_000_000,
    1_000_000_000_000_000,
    10_000_000_000_000_000,
    100_000_000_000_000_000,
    1_000_000_000_000_000_000,
    10_000_000_000_000_000_000,
];

/// A number of 64 bits as a product.
#[derive(Clone, Copy)]
pub struct Factors {
    /// How many twos, threes and fives it has.
    twos: u32,
    threes: u64,
    fives: u64,
    /// What is left without them.
    rest: u64,
}

/// How often a prime divides a number, and what is left then.
#[inline(always)]
fn counted(prime: u64, number: u64) -> (u64, u64)
    requires prime { IsPrime prime }
    requires some { 0 < number }
    ensures { (0 < result.1) × (result.1 * prime ^ result.0 ≡ number) }
{
    let mut count = 0;
    let mut left = number;
    while left % prime == 0 {
        left /= prime;
        count += 1;
    }
    (count, left)
}

/// Divides a size and its denominator by two as often as both allow, but at most this often: they have
/// no more twos in common.
#[inline(always)]
fn without_twos(count: u32, size: u64, den: u64) -> (u64, u64)
    requires { 0 < size }
    ensures { (k : ℕ) → HoldsCommon size den (k * 2 ^ count)
        → IsReduced size den result.0 result.1 k }
{
    let twos = size.trailing_zeros().min(count);
    (size >> twos, den >> twos)
}

/// The same by another prime.
#[inline(always)]
fn without(prime: u64, count: u64, size: u64, den: u64) -> (u64, u64)
    requires { IsPrime prime }
    ensures { (k : ℕ) → HoldsCommon size den (k * prime ^ count)
        → IsReduced size den result.0 result.1 k }
{
    let mut size = size;
    let mut den = den;
    let mut left = count;
    while left > 0 && size % prime == 0 {
        size /= prime;
        den /= prime;
        left -= 1;
    }
    (size, den)
}

/// Divides out the greatest common divisor.
fn without_shared(size: u64, den: u64, common: u64) -> (u64, u64)
    requires { HoldsCommon size den common }
    ensures { IsLowest size den result.0 result.1 }
{
    if common == 1 {
        return (size, den);
    }
    let shared = word_gcd(size, common);
    if shared == 1 {
        (size, den)
    } else {
        (size / shared, den / shared)
    }
}

impl Factors {
    /// The factors of a number.
    #[inline(always)]
    #[tactic(auto, using(crate::proofs::SmallFactors::small_primes))]
    pub fn of(number: u64) -> Factors
        requires { 0 < number }
        ensures { factored result ≡ number }
    {
        let twos = number.trailing_zeros();
        let (threes, left) = counted(3, number >> twos);
        let (fives, rest) = counted(5, left);
        Factors {
            twos,
            threes,
            fives,
            rest,
        }
    }

    /// A numerator's size and a denominator in lowest terms. Common factors are looked for only in
    /// the product of these factors.
    #[inline(always)]
    #[tactic(auto, using(crate::proofs::SmallFactors::small_primes))]
    pub fn lowest(self, size: u64, den: u64) -> (u64, u64)
        requires { HoldsCommon size den (factored self) }
        ensures { IsLowest size den result.0 result.1 }
    {
        if size == 0 {
            return (0, 1);
        }
        let (size, den) = without_twos(self.twos, size, den);
        let (size, den) = without(3, self.threes, size, den);
        let (size, den) = without(5, self.fives, size, den);
        without_shared(size, den, self.rest)
    }
}

/// A numerator's size and a denominator of 64 bits in lowest terms. Common factors are looked for
/// only in `common`.
pub fn lowest_words(size: u64, den: u64, common: u64) -> (u64, u64)
    requires { HoldsCommon size den common }
    ensures { IsLowest size den result.0 result.1 }
{
    if common == 1 {
        return (size, den);
    }
    if size == 0 {
        return (0, 1);
    }
    let twos = common.trailing_zeros();
    if common >> twos == 1 {
        return without_twos(twos, size, den);
    }
    Factors::of(common).lowest(size, den)
}

/// A numerator's size and a denominator in lowest terms. Common factors are looked for only in
/// `common`.
// Inlined here, it would keep `SharedDenominator::lowest` from being inlined.
#[inline(never)]
pub fn lowest(size: u128, den: u128, common: u128) -> (u128, u128)
    requires { HoldsCommon size den common }
    ensures { IsLowest size den result.0 result.1 }
{
    if size <= WORD && den <= WORD && common <= WORD {
        let (size, den) = lowest_words(size as u64, den as u64, common as u64);
        return (u128::from(size), u128::from(den));
    }
    let shared = gcd(size, common);
    (quotient(size, shared), quotient(den, shared))
}

/// Digits over ten to a power, in lowest terms.
pub fn lowest_decimal(digits: u64, places: u32) -> (u64, u64)
    requires { places ≤ 19 }
    ensures { IsLowest digits (10 ^ places) result.0 result.1 }
{
    let ten = Factors {
        twos: places,
        threes: 0,
        fives: u64::from(places),
        rest: 1,
    };
    ten.lowest(digits, POWERS_OF_TEN[places as usize])
}
