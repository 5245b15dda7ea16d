//! The steps of exact arithmetic on numbers of 128 bits.

ghost use Rattle.std.specs.Prelude.{◌≡◌, ℕ, ℤ, pos, ◌+◌, ◌*◌, ◌/◌, ◌%◌, ◌^◌, ◌<◌};
ghost use Rattle.std.specs.Prelude.{◌≤◌, ◌+ℤ◌, ◌*ℤ◌, unsigned_abs, MatchResult};
ghost use Rattle.std.specs.Int.{IsGcd};
ghost use Rattle.gf_fraction.specs.Ratio.{IsWithin, signed};
ghost use Rattle.gf_fraction.specs.inner.Steps.{PartsFit};

/// The result does not fit.
#[derive(Clone, Copy)]
pub struct Overflow;

/// The greatest denominator, and the greatest size of a numerator.
pub const LARGEST: u128 = i128::MAX as u128;

/// The greatest number of 64 bits. Up to it, division is fast.
pub const WORD: u128 = u64::MAX as u128;

/// The greatest common divisor of two odd numbers. The difference of two odd numbers is even, and
/// its factors of two divide neither of them, so no step needs a division.
fn odd_gcd(a: u64, b: u64) -> u64
    requires odd_a { a % 2 ≡ 1 }
    requires odd_b { b % 2 ≡ 1 }
    ensures { IsGcd a b result }
{
    let mut x = a;
    let mut y = b;
    while x > 1 && x != y {
        let apart = x.abs_diff(y);
        x = x.min(y);
        y = apart >> apart.trailing_zeros();
    }
    x
}

/// The greatest common divisor of two numbers of 64 bits: that of their odd parts, with the twos
/// that both have.
pub fn word_gcd(a: u64, b: u64) -> u64
    ensures { IsGcd a b result }
{
    if a == 0 {
        return b;
    }
    if b == 0 {
        return a;
    }
    let a_twos = a.trailing_zeros();
    let b_twos = b.trailing_zeros();
    odd_gcd(a >> a_twos, b >> b_twos) << a_twos.min(b_twos)
}

/// A number above 0 without its twos. Most have few, which are among the lowest 64 bits.
#[inline(always)]
fn odd_part(n: u128) -> u128
    requires { 0 < n }
    ensures odd { result % 2 ≡ 1 }
    ensures parts { (twos : ℕ) × (result * 2 ^ twos ≡ n) }
{
    let low = (n % (WORD + 1)) as u64;
    if low == 0 {
        n >> n.trailing_zeros()
    } else {
        n >> low.trailing_zeros()
    }
}

/// The greatest common divisor of two odd numbers of 128 bits. Steps use 64 bits as soon as both
/// numbers fit.
fn wide_odd_gcd(a: u128, b: u128) -> u128
    requires odd_a { a % 2 ≡ 1 }
    requires odd_b { b % 2 ≡ 1 }
    ensures { IsGcd a b result }
{
    let mut x = a;
    let mut y = b;
    while x > WORD || y > WORD {
        let apart = x.abs_diff(y);
        if apart == 0 {
            return x;
        }
        x = x.min(y);
        y = odd_part(apart);
    }
    u128::from(odd_gcd(x as u64, y as u64))
}

/// The greatest common divisor of two numbers above 0, in the same way.
fn wide_gcd(a: u128, b: u128) -> u128
    requires some_a { 0 < a }
    requires some_b { 0 < b }
    ensures { IsGcd a b result }
{
    let a_twos = a.trailing_zeros();
    let b_twos = b.trailing_zeros();
    wide_odd_gcd(a >> a_twos, b >> b_twos) << a_twos.min(b_twos)
}

/// The greatest common divisor. If only one of the numbers is above 64 bits, a division comes
/// first.
pub fn gcd(a: u128, b: u128) -> u128
    ensures { IsGcd a b result }
{
    if a == 1 || b == 1 {
        return 1;
    }
    if a > WORD && b > WORD {
        return wide_gcd(a, b);
    }
    let mut x = a;
    let mut y = b;
    while x > WORD || y > WORD {
        if y == 0 {
            return x;
        }
        let rest = x % y;
        x = y;
        y = rest;
    }
    u128::from(word_gcd(x as u64, y as u64))
}

/// The quotient: by a division of 64 bits if both numbers fit, otherwise by a shift if the divisor
/// is a power of two.
pub fn quotient(n: u128, by: u128) -> u128
    requires { 0 < by }
    ensures { result ≡ n / by }
{
    if n <= WORD && by <= WORD {
        return u128::from(n as u64 / by as u64);
    }
    let twos = by.trailing_zeros();
    if by >> twos == 1 {
        return n >> twos;
    }
    n / by
}

/// A size with its sign.
pub fn with_sign(negative: bool, size: u128) -> i128
    requires { size < 2 ^ 127 }
    ensures { result ≡ signed negative size }
{
    let size = size as i128;
    if negative { -size } else { size }
}

/// The product of two sizes.
pub fn product(a: u128, b: u128) -> Result<u128, Overflow>
    ensures { MatchResult result (λ n. (n ≡ a * b) × (n < 2 ^ 127)) (λ _. 2 ^ 127 ≤ a * b) }
{
    let product = if a <= WORD && b <= WORD {
        Some(u128::from(a as u64) * u128::from(b as u64))
    } else {
        a.checked_mul(b)
    };
    match product {
        Some(product) if product <= LARGEST => Ok(product),
        _ => Err(Overflow),
    }
}

/// The sum of two numerators over one denominator.
pub fn total(a: i128, b: i128) -> Result<i128, Overflow>
    ensures { MatchResult result (λ n. (n ≡ a +ℤ b) × IsWithin n)
        (λ _. 2 ^ 127 ≤ unsigned_abs (a +ℤ b)) }
{
    match a.checked_add(b) {
        Some(sum) if sum != i128::MIN => Ok(sum),
        _ => Err(Overflow),
    }
}

/// A numerator times a factor.
fn scaled(num: i128, by: u128) -> Result<i128, Overflow>
    ensures { MatchResult result (λ n. (n ≡ num *ℤ pos by) × IsWithin n)
        (λ _. 2 ^ 127 ≤ unsigned_abs (num *ℤ pos by)) }
{
    let size = product(num.unsigned_abs(), by)?;
    Ok(with_sign(num < 0, size))
}

/// The sum of `a / b` and `c / d` over their common denominator, to which `p` and `q` scale them.
pub fn sum_over(a: i128, c: i128, b: u128, p: u128, q: u128) -> Result<(i128, u128), Overflow>
    ensures { MatchResult result
        (λ r. PartsFit a c b p q × (r.0 ≡ a *ℤ pos p +ℤ c *ℤ pos q) × (r.1 ≡ b * p))
        (λ _. ¬ (PartsFit a c b p q)) }
{
    let den = product(b, p)?;
    let left = scaled(a, p)?;
    let right = scaled(c, q)?;
    Ok((total(left, right)?, den))
}
