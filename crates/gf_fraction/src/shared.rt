//! Denominators that many numbers share.

ghost use Rattle.std.specs.Prelude.{◌≡◌, ◌^◌, ◌<◌};
ghost use Rattle.gf_fraction.specs.Ratio.{HasValue, IsFraction, IsWithin};

use crate::arithmetic::WORD;
use crate::fraction::Fraction;
use crate::lowest::Factors;
use std::marker::Model;

/// A denominator that many numbers share, from 1 to `2^127 - 1`. Its prime factors are looked for
/// only once.
#[derive(Drop)]
pub struct SharedDenominator {
    den: u128,
    /// Its factors, if it fits 64 bits.
    factors: Factors,
}

impl Model for SharedDenominator {
    ghost use Rattle.std.specs.Prelude.{◌≡◌, ℕ, ◌^◌, ◌<◌};
    ghost use Rattle.gf_fraction.specs.inner.Steps.{factored};

    ghost Value = { ℕ };

    ghost view = { λ d. d.den };

    ghost invariant = { λ d. (0 < d.den) × (d.den < 2 ^ 127)
        × (d.den < 2 ^ 64 → factored d.factors ≡ d.den) };
}

impl SharedDenominator {
    /// This denominator, which has to be from 1 to `2^127 - 1`.
    // No edit: it puts parts together.
    pub fn new(den: u128) -> SharedDenominator
        requires above_zero { 0 < den }
        requires within { den < 2 ^ 127 }
        ensures { result ≡ den }
    {
        let word = if den <= WORD { den as u64 } else { 1 };
        SharedDenominator {
            den,
            factors: Factors::of(word),
        }
    }

    /// The denominator as a number.
    // No edit: it returns a part.
    #[inline]
    pub fn den(&self) -> u128
        ensures { result ≡ self.now }
    {
        self.den
    }

    /// `num` over the denominator, in lowest terms. `num` has to be at most `2^127 - 1` in size.
    #[inline]
    pub fn lowest(&self, num: i128) -> Fraction
        requires { IsWithin num }
        ensures fraction { IsFraction result }
        ensures value { HasValue result num self.now }
    {
        let size = num.unsigned_abs();
        if size > WORD || self.den > WORD {
            return Fraction::reduced(num, self.den, self.den);
        }
        let (size, den) = self.factors.lowest(size as u64, self.den as u64);
        Fraction::of_words(num < 0, size, den)
    }
}
