//! Sums of terms, which may be over different denominators.

ghost use Rattle.std.specs.Prelude.{◌≡◌, ◌*ℤ◌, ◌+ℤ◌, IfSome, get_or, pos, ◌+◌, ◌*◌, ◌<◌, IfOk};
ghost use Rattle.std.specs.Prelude.{OnOk, length};
ghost use Rattle.gf_fraction.specs.Ratio.{IsWithin};
ghost use Rattle.gf_form.specs.inner.rows.TermLists.{IsFactor, IsScale, AreAlike, HasSum, IsShaped};
ghost use Rattle.gf_form.specs.inner.rows.TermLists.{IsSumAt, all_terms, term_at};
ghost use Rattle.gf_form.specs.inner.rows.ItemRows.{HasRow};

use crate::rows::terms::{Head, Terms};
use gf_fraction::Fraction;
use std::alloc::AllocError;

/// How two terms are brought over one denominator.
#[derive(Clone, Copy)]
pub(crate) struct Scale {
    pub den: u128,
    /// At least the sum of the sizes of both.
    pub size: u128,
    /// What the numbers of the first are multiplied by, and those of the second.
    pub first: u128,
    pub second: u128,
}

/// In place of a scale that is too large: no denominator is 0.
const UNKNOWN: Scale = Scale {
    den: 0,
    size: 0,
    first: 1,
    second: 1,
};

/// The least denominator that serves both; `None` if it is too large. The denominator of `a / b` in
/// lowest terms is the factor by which `a` has to be multiplied for it. Where a denominator is 0, the
/// result means nothing: `factor` refuses it.
#[inline]
pub(crate) fn least_common_multiple(a: u128, b: u128) -> Option<u128> {
    if b == 1 || a == b || a.checked_rem(b)? == 0 {
        return Some(a);
    }
    let ratio = Fraction::new(i128::try_from(a).ok()?, b).ok()?;
    a.checked_mul(ratio.den())
}

/// What a denominator has to be multiplied by to become another; `None` if that is not a whole
/// number.
#[inline]
pub(crate) fn factor(den: u128, from: u128) -> Option<u128>
    ensures { IfSome result (IsFactor from den) }
{
    if from == 1 {
        return Some(den);
    }
    if from == 0 {
        return None;
    }
    let factor = den / from;
    if factor * from != den {
        return None;
    }
    Some(factor)
}

/// How two terms over different denominators are brought over one; `None` if that does not fit.
#[inline(never)]
fn scale_of_different(a: Head, b: Head) -> Option<Scale>
    ensures { IfSome result (IsScale a b) }
{
    let den = least_common_multiple(a.den, b.den)?;
    let first = factor(den, a.den)?;
    let second = factor(den, b.den)?;
    let own = a.size.checked_mul(first)?;
    let other = b.size.checked_mul(second)?;
    let size = own.checked_add(other)?;
    Some(Scale {
        den,
        size,
        first,
        second,
    })
}

/// How two terms are brought over one denominator; `None` if that does not fit.
#[inline(always)]
pub(crate) fn scale_of(a: Head, b: Head) -> Option<Scale>
    ensures { IfSome result (IsScale a b) }
{
    if a.den == b.den && a.den > 0 {
        let size = a.size.checked_add(b.size)?;
        return Some(Scale {
            den: a.den,
            size,
            first: 1,
            second: 1,
        });
    }
    scale_of_different(a, b)
}

/// The number at a place, from 0; zero if there is none.
#[inline(always)]
fn number_at(numbers: &[i128], place: usize) -> i128
    ensures { result ≡ get_or numbers.now place (pos 0) }
{
    match numbers.get(place) {
        Some(number) => *number,
        None => 0,
    }
}

/// A number times a factor, without a multiplication if that is 1; `None` if it does not fit.
#[inline(always)]
pub(crate) fn times(number: u128, by: u128) -> Option<u128>
    ensures { IfSome result (λ product. product ≡ number * by) }
{
    if by == 1 {
        return Some(number);
    }
    number.checked_mul(by)
}

/// The same for a number with a sign.
#[inline]
pub(crate) fn multiplied(number: i128, by: u128) -> Option<i128>
    ensures { IfSome result (λ product. product ≡ number *ℤ pos by) }
{
    if by == 1 {
        return Some(number);
    }
    let Ok(factor) = i128::try_from(by) else {
        return None;
    };
    number.checked_mul(factor)
}

/// The sum of two numbers, each times its factor; `None` if it does not fit its type.
#[inline(never)]
fn weighted(a: i128, by_a: u128, b: i128, by_b: u128) -> Option<i128>
    ensures { IfSome result (λ sum. sum ≡ a *ℤ pos by_a +ℤ b *ℤ pos by_b) }
{
    let own = multiplied(a, by_a)?;
    let other = multiplied(b, by_b)?;
    let sum = own.checked_add(other)?;
    Some(sum)
}

/// The sum of two numbers, each times its factor, quick if both factors are 1; `None` if it is out of
/// bounds.
#[inline(always)]
pub(crate) fn combined(a: i128, by_a: u128, b: i128, by_b: u128) -> Option<i128>
    ensures sum { IfSome result (λ sum. sum ≡ a *ℤ pos by_a +ℤ b *ℤ pos by_b) }
    ensures within { IfSome result (λ sum. IsWithin sum) }
{
    let sum = if by_a == 1 && by_b == 1 {
        a.checked_add(b)?
    } else {
        weighted(a, by_a, b, by_b)?
    };
    if sum == i128::MIN {
        return None;
    }
    Some(sum)
}

/// The sum of two numbers at a place, from 0, each times its factor; `None` if it is out of bounds.
#[inline(always)]
pub(crate) fn sum_at(first: &[i128], second: &[i128], place: usize, scale: Scale) -> Option<i128>
    ensures sum { IfSome result (λ sum. sum ≡ get_or first.now place (pos 0) *ℤ pos scale.first
        +ℤ get_or second.now place (pos 0) *ℤ pos scale.second) }
    ensures within { IfSome result (λ sum. IsWithin sum) }
{
    let one = number_at(first, place);
    let other = number_at(second, place);
    combined(one, scale.first, other, scale.second)
}

/// Appends numbers that are sums of these, each times its factor. Returns their denominator, or 0
/// if one of them does not fit.
#[inline(always)]
fn push_numbers(
    numbers: &mut Vec<i128>,
    first: &[i128],
    second: &[i128],
    scale: Scale,
) -> Result<u128, AllocError>
    ensures row { IfOk result (λ den. HasRow (IsSumAt first.now second.now scale den)
        (length first.now) numbers.old.items numbers.new.items) }
    ensures den { IfOk result (λ den. 0 < den → den ≡ scale.den) }
{
    numbers.reserve(first.len())?;
    let mut den = scale.den;
    for place in 0..first.len() {
        let number = match sum_at(first, second, place, scale) {
            Some(number) => number,
            None => {
                den = 0;
                0
            }
        };
        numbers.push_reserved(number);
    }
    Ok(den)
}

impl Terms {
    /// How the terms at these places, from 0, are brought over one denominator.
    fn scale_between(&self, first: usize, second: usize) -> Scale
        requires first { first < length self.now.demands.items }
        requires second { second < length self.now.demands.items }
        ensures { 0 < result.den
            → IsScale (term_at self.now first).head (term_at self.now second).head result }
    {
        match scale_of(self.head(first), self.head(second)) {
            Some(scale) => scale,
            None => UNKNOWN,
        }
    }

    /// Appends the sum of two terms of a list, at these places, from 0, with the demands of the
    /// first, if they are brought over one denominator by this scale.
    #[inline(always)]
    fn push_over(
        &mut self,
        from: &Terms,
        first: usize,
        second: usize,
        scale: Scale,
    ) -> Result<(), AllocError>
        requires players { self.old.players ≡ from.now.players }
        requires shaped { IsShaped self.old × IsShaped from.now }
        requires first { first < length from.now.demands.items }
        requires second { second < length from.now.demands.items }
        requires scale { 0 < scale.den
            → IsScale (term_at from.now first).head (term_at from.now second).head scale }
        ensures sum { OnOk result (HasSum (term_at from.now first) (term_at from.now second)
            (all_terms self.old) (all_terms self.new)) }
        ensures alike { AreAlike self.new self.old }
        ensures shaped { OnOk result (IsShaped self.new) }
    {
        let one = from.row(first);
        let other = from.row(second);
        let den = push_numbers(&mut self.numbers, one, other, scale)?;
        self.push_head(Head {
            demands: from.demands[first],
            den,
            size: scale.size,
        })?;
        Ok(())
    }

    /// The same by the scale that there is between the two.
    #[inline(never)]
    fn push_scaled(&mut self, from: &Terms, first: usize, second: usize) -> Result<(), AllocError>
        requires players { self.old.players ≡ from.now.players }
        requires shaped { IsShaped self.old × IsShaped from.now }
        requires first { first < length from.now.demands.items }
        requires second { second < length from.now.demands.items }
        ensures sum { OnOk result (HasSum (term_at from.now first) (term_at from.now second)
            (all_terms self.old) (all_terms self.new)) }
        ensures alike { AreAlike self.new self.old }
        ensures shaped { OnOk result (IsShaped self.new) }
    {
        let scale = from.scale_between(first, second);
        self.push_over(from, first, second, scale)
    }

    /// Appends the sum of two terms of a list, at these places, from 0, with the demands of the
    /// first.
    #[inline(always)]
    pub(crate) fn push_sum(
        &mut self,
        from: &Terms,
        first: usize,
        second: usize,
    ) -> Result<(), AllocError>
        requires players { self.old.players ≡ from.now.players }
        requires shaped { IsShaped self.old × IsShaped from.now }
        requires first { first < length from.now.demands.items }
        requires second { second < length from.now.demands.items }
        ensures sum { OnOk result (HasSum (term_at from.now first) (term_at from.now second)
            (all_terms self.old) (all_terms self.new)) }
        ensures alike { AreAlike self.new self.old }
        ensures shaped { OnOk result (IsShaped self.new) }
    {
        if !from.scaled.is_empty() {
            return self.push_scaled(from, first, second);
        }
        let plain = Scale {
            den: from.den,
            size: 0,
            first: 1,
            second: 1,
        };
        self.push_over(from, first, second, plain)
    }
}
