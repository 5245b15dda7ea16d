//! Exact fractions within 128 bits, and the texts of numbers.
//!
//! A fraction is kept in lowest terms, with a denominator of 1 to `M` and a numerator of at most
//! `M` in size, where `M` is `2^127 - 1`. Arithmetic is exact or returns `Overflow`. No call except
//! `Fraction::write` takes memory.
#![tactic(auto)]

mod arithmetic;
mod fraction;
pub mod laws;
mod lowest;
mod read;
mod shared;
mod write;

pub use crate::arithmetic::Overflow;
pub use crate::fraction::{Fraction, NumberFault};
pub use crate::shared::SharedDenominator;
