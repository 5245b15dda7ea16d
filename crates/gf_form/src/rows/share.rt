//! What a node adds to a player's payoff, over a denominator.

ghost use Rattle.std.specs.Prelude.{◌≡◌, IfSome};
ghost use Rattle.gf_fraction.specs.Ratio.{IsWithin};
ghost use Rattle.gf_form.specs.inner.values.PaidRows.{rows_of};
ghost use Rattle.gf_form.specs.inner.values.Rows.{at_place, row_at};
ghost use Rattle.gf_form.specs.inner.rows.Shares.{IsShare, term_of};

use crate::rows::paths::Path;
use crate::rows::sums::{factor, multiplied, times};
use crate::values::payoffs::Payoffs;
use gf_fraction::Fraction;

/// What a node adds to a player's payoff, over a common denominator.
#[derive(Clone, Copy)]
pub(crate) struct Share {
    pub amount: i128,
    /// A bound for its size, which does not depend on whether probabilities are zero.
    pub bound: u128,
}

/// What an outcome pays the player at this place, from 0.
pub(crate) fn payoff_at(payoffs: &Payoffs<'_>, outcome: u32, place: usize) -> Fraction
    ensures { result ≡ at_place (row_at (rows_of payoffs.now) outcome) place }
{
    match payoffs.at(outcome).get(place) {
        Some(payoff) => *payoff,
        None => Fraction::zero(),
    }
}

/// What a path adds to a payoff over a denominator; `None` if that is not a whole number, or is too
/// large.
#[inline]
pub(crate) fn share_of(path: Path, payoff: Fraction, den: u128) -> Option<Share>
    ensures share { IfSome result (IsShare (term_of path payoff) den) }
    ensures within { IfSome result (λ share. IsWithin share.amount) }
{
    if payoff.num() == 0 {
        return Some(Share {
            amount: 0,
            bound: 0,
        });
    }
    let own = path.den.checked_mul(payoff.den())?;
    let over = multiplied(payoff.num(), factor(den, own)?)?;
    let share = Share {
        amount: multiplied(over, path.weight)?,
        bound: times(over.unsigned_abs(), path.bound)?,
    };
    if share.amount == i128::MIN {
        return None;
    }
    Some(share)
}
