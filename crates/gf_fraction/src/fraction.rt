//! Fractions.

ghost use Rattle.std.specs.Prelude.{◌≡◌, ◌⊎◌, ◌↔◌, ◌^◌, ◌<◌, ◌≤◌, ◌<ℤ◌, pos};
ghost use Rattle.std.specs.Prelude.{unsigned_abs, IsTrue, IfOk, IsOkAnd, MatchResult};
ghost use Rattle.std.specs.Int.{IsGcd};
ghost use Rattle.gf_fraction.specs.Ratio.{HasValue, IsFraction, IsWithin, signed, whole};
ghost use Rattle.gf_fraction.specs.Sum.{IsSum, SumFits};
ghost use Rattle.gf_fraction.specs.Product.{IsProduct, ProductFits};
ghost use Rattle.gf_fraction.specs.inner.Steps.{HoldsCommon};

use crate::arithmetic::{LARGEST, Overflow, gcd, product, quotient, sum_over, total, with_sign};
use crate::lowest::lowest;
use std::alloc::AllocError;
use std::marker::Model;

/// Why a number is refused.
#[derive(Clone, Copy, Debug, PartialEq, Eq)]
pub enum NumberFault {
    /// The text has none of the four shapes of a number.
    NotANumber,
    /// The denominator is zero.
    ZeroDenominator,
    /// A bound is broken; `Fraction::new` and `Fraction::read` say which.
    TooLarge,
}

/// An exact fraction in lowest terms, with a denominator of 1 to `M` and a numerator of at most `M`
/// in size, where `M` is `2^127 - 1`. Two fractions are `==` if their values are equal.
#[derive(Copy, Debug, PartialEq, Eq, Hash)]
pub struct Fraction {
    num: i128,
    den: u128,
}

impl Model for Fraction {
    ghost use Rattle.gf_fraction.specs.Ratio.{IsFraction, Ratio};

    ghost Value = { Ratio };

    ghost view = { λ f. record { num = f.num; den = f.den } };

    ghost invariant = { λ f. IsFraction (record { num = f.num; den = f.den }) };

    ghost inverse = { λ r. record { num = r.num; den = r.den } };
}

// By hand, so that it says what a derived clone does not: that the result is a fraction.
impl Clone for Fraction {
    ghost use Rattle.std.specs.Prelude.{◌≡◌};
    ghost use Rattle.gf_fraction.specs.Ratio.{IsFraction};

    ghost is_clone = { λ value clone. (clone ≡ value) × IsFraction clone };

    ghost is_infallible = { λ _. Unit {0} };

    fn clone(&self) -> Result<Fraction, AllocError> {
        Ok(Fraction {
            num: self.num,
            den: self.den,
        })
    }
}

impl Fraction {
    /// `num` over `den`, in lowest terms.
    ///
    /// # Errors
    ///
    /// `ZeroDenominator` if `den` is zero; otherwise `TooLarge` if `den` or the size of `num`, as
    /// given, is above `2^127 - 1` (this project's profile).
    pub fn new(num: i128, den: u128) -> Result<Fraction, NumberFault>
        ensures zero_denominator { den ≡ 0 → result ≡ Err NumberFault.ZeroDenominator }
        ensures too_large { 0 < den → (2 ^ 127 ≤ den) ⊎ (2 ^ 127 ≤ unsigned_abs num)
            → result ≡ Err NumberFault.TooLarge }
        ensures value { 0 < den → den < 2 ^ 127 → IsWithin num
            → IsOkAnd result (λ f. IsFraction f × HasValue f num den) }
    {
        if den == 0 {
            return Err(NumberFault::ZeroDenominator);
        }
        if den > LARGEST || num == i128::MIN {
            return Err(NumberFault::TooLarge);
        }
        Ok(Fraction::reduced(num, den, den))
    }

    /// `num` over `den` in lowest terms. Common factors are looked for only in `common`.
    pub(crate) fn reduced(num: i128, den: u128, common: u128) -> Fraction
        requires den_above_zero { 0 < den }
        requires den_within { den < 2 ^ 127 }
        requires num_within { IsWithin num }
        requires common { HoldsCommon (unsigned_abs num) den common }
        ensures fraction { IsFraction result }
        ensures value { HasValue result num den }
    {
        let (size, den) = lowest(num.unsigned_abs(), den, common);
        Fraction {
            num: with_sign(num < 0, size),
            den,
        }
    }

    /// `num` over `den` with a sign, if they are in lowest terms.
    pub(crate) fn of_words(negative: bool, num: u64, den: u64) -> Fraction
        requires den_above_zero { 0 < den }
        requires lowest { IsGcd num den 1 }
        ensures fraction { IsFraction result }
        ensures value { result ≡ record { num = signed negative num; den = den } }
    {
        Fraction {
            num: with_sign(negative, u128::from(num)),
            den: u128::from(den),
        }
    }

    /// The whole number of this size with a sign.
    #[tactic(auto, using(crate::proofs::WholeNumbers::lowest_whole))]
    pub fn whole(negative: bool, size: u64) -> Fraction
        ensures value { result ≡ whole (signed negative size) }
        ensures fraction { IsFraction result }
    {
        Fraction::of_words(negative, size, 1)
    }

    /// Zero, which is `0 / 1`.
    pub fn zero() -> Fraction
        ensures value { result ≡ whole (pos 0) }
        ensures fraction { IsFraction result }
    {
        Fraction { num: 0, den: 1 }
    }

    /// One, which is `1 / 1`.
    // No edit: it puts parts together.
    pub fn one() -> Fraction
        ensures value { result ≡ whole (pos 1) }
        ensures fraction { IsFraction result }
    {
        Fraction { num: 1, den: 1 }
    }

    /// The numerator in lowest terms, with the sign.
    // No edit: it returns a part.
    pub fn num(self) -> i128
        ensures value { result ≡ self.num }
        ensures fraction { IsFraction self }
    {
        self.num
    }

    /// The denominator in lowest terms.
    // No edit: it returns a part.
    pub fn den(self) -> u128
        ensures value { result ≡ self.den }
        ensures fraction { IsFraction self }
    {
        self.den
    }

    /// Whether the value is below zero.
    // No edit: `Fraction::exceeds_one` has one, and proofs of gf_tree rely on this.
    pub fn is_negative(self) -> bool
        ensures { IsTrue result ↔ (self.num <ℤ pos 0) }
    {
        self.num < 0
    }

    /// Whether the value is above one.
    pub fn exceeds_one(self) -> bool
        ensures { IsTrue result ↔ (pos self.den <ℤ self.num) }
    {
        self.num > self.den as i128
    }

    /// The exact sum.
    ///
    /// # Errors
    ///
    /// `Overflow` if the least common denominator, a numerator scaled to it, or the sum of these
    /// numerators is above `2^127 - 1` in size, even if the sum in lowest terms would not be (this
    /// project's profile).
    pub fn add(self, o: Fraction) -> Result<Fraction, Overflow>
        ensures sum { IfOk result (λ r. IsFraction r × IsSum r self o) }
        ensures overflow { MatchResult result (λ _. SumFits self o) (λ _. ¬ (SumFits self o)) }
    {
        if self.den == o.den {
            let num = total(self.num, o.num)?;
            return Ok(Fraction::reduced(num, self.den, self.den));
        }
        let common = gcd(self.den, o.den);
        let by_left = quotient(o.den, common);
        let by_right = quotient(self.den, common);
        let (num, den) = sum_over(self.num, o.num, self.den, by_left, by_right)?;
        Ok(Fraction::reduced(num, den, common))
    }

    /// The exact product.
    ///
    /// # Errors
    ///
    /// `Overflow` if a part of the product in lowest terms is above `2^127 - 1` in size (this
    /// project's profile).
    pub fn mul(self, o: Fraction) -> Result<Fraction, Overflow>
        ensures product { IfOk result (λ r. IsFraction r × IsProduct r self o) }
        ensures overflow { MatchResult result (λ _. ProductFits self o)
            (λ _. ¬ (ProductFits self o)) }
    {
        let (left, under_right) = lowest(self.num.unsigned_abs(), o.den, o.den);
        let (right, under_left) = lowest(o.num.unsigned_abs(), self.den, self.den);
        let size = product(left, right)?;
        let den = product(under_left, under_right)?;
        Ok(Fraction {
            num: with_sign((self.num < 0) != (o.num < 0), size),
            den,
        })
    }
}
