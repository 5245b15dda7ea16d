//! Rows at the fastest digit: what a term that demands nothing and one that demands the action come
//! to together.

ghost use Rattle.std.specs.Prelude.{◌≡◌, ◌<◌, ◌≤◌, ◌^◌, IfOk, IfSome};
ghost use Rattle.std.specs.Prelude.{false, length, true};
ghost use Rattle.gf_form.specs.inner.rows.TermLists.{AreWithin, IsShaped, all_terms, part};
ghost use Rattle.gf_form.specs.inner.rows.Pairs.{HasPairRow, IsOnly, IsPair};

use crate::rows::chosen::Chosen;
use crate::rows::sums::{Scale, scale_of, sum_at};
use crate::rows::terms::{Head, LARGEST, Terms};
use gf_fraction::{Fraction, SharedDenominator};
use std::alloc::AllocError;

/// A term, or none.
#[derive(Clone, Copy)]
struct Only<'t> {
    head: Head,
    /// A number for each player; none if there is no term.
    numbers: &'t [i128],
}

/// At most two terms over one denominator.
#[derive(Clone, Copy)]
pub(crate) struct Pair<'t> {
    pub scale: Scale,
    /// The numbers of the first, one for each player, and those of the second; none if there is no
    /// such term.
    pub first: &'t [i128],
    pub second: &'t [i128],
}

/// Makes `den` the shared denominator, unless it is that already.
#[inline(always)]
fn put(shared: &mut SharedDenominator, den: u128)
    requires above { 0 < den }
    requires within { den < 2 ^ 127 }
    ensures { shared.new ≡ den }
{
    if shared.den() != den {
        *shared = SharedDenominator::new(den);
    }
}

impl<'t> Pair<'t> {
    /// Appends its row, if all numbers fit. Quick if the denominator that is kept is that of the
    /// pair.
    #[inline(always)]
    pub(crate) fn push_to(
        self,
        players: usize,
        kept: &mut SharedDenominator,
        rows: &mut Vec<Fraction>,
    ) -> Result<bool, AllocError>
        requires above { 0 < self.scale.den }
        requires within { self.scale.den < 2 ^ 127 }
        ensures row { IfOk result (λ fits. fits ≡ true
            → HasPairRow self.entry players rows.old.items rows.new.items) }
        ensures none { IfOk result (λ fits. fits ≡ false → rows.new.items ≡ rows.old.items) }
    {
        put(kept, self.scale.den);
        let before = rows.len();
        for place in 0..players {
            let Some(number) = sum_at(self.first, self.second, place, self.scale) else {
                rows.truncate(before);
                return Ok(false);
            };
            rows.push(kept.lowest(number))?;
        }
        Ok(true)
    }
}

impl Terms {
    /// The only term from one place up to another; `None` if there are several. If there is none,
    /// zeros over this denominator.
    #[inline(always)]
    fn only(&self, start: usize, end: usize, den: u128) -> Option<Only<'_>>
        requires shaped { IsShaped self.now }
        requires within { end ≤ length self.now.demands.items }
        ensures { IfSome result (λ only. IsOnly (part start end (all_terms self.now)) only) }
    {
        if start >= end {
            return Some(Only {
                head: Head {
                    demands: 0,
                    den,
                    size: 0,
                },
                numbers: &[],
            });
        }
        if end - start > 1 {
            return None;
        }
        Some(Only {
            head: self.head(start),
            numbers: self.row(start),
        })
    }

    /// What these terms come to at an action of the fastest digit, by those that count there.
    /// `None` if that is not known to fit.
    #[inline(always)]
    pub(crate) fn pair(&self, chosen: Chosen) -> Option<Pair<'_>>
        requires shaped { IsShaped self.now }
        requires within { AreWithin self.now.demands.items chosen }
        ensures { IfSome result (IsPair self.now chosen) }
    {
        let den = if chosen.start < chosen.end {
            self.head(chosen.start).den
        } else if chosen.free > 0 {
            self.head(0).den
        } else {
            1
        };
        let first = self.only(0, chosen.free, den)?;
        let second = self.only(chosen.start, chosen.end, den)?;
        let scale = scale_of(first.head, second.head)?;
        if scale.den == 0 || scale.den > LARGEST || scale.size > LARGEST {
            return None;
        }
        Some(Pair {
            scale,
            first: first.numbers,
            second: second.numbers,
        })
    }
}
