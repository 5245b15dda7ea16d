//! What a bare token is read as where a node names its player or its set, and the next probability of a
//! set of chance.

ghost use Rattle.std.specs.Prelude.{◌≡◌, IfOk, IfSome};
ghost use Rattle.gf_fraction.specs.Ratio.{IsFraction};
ghost use Rattle.gf_fraction.specs.Offered.{sum_of};
ghost use Rattle.gf_token.specs.Offered.{positive};
ghost use Rattle.gf_tree.specs.inner.Probability.{share_by};
ghost use Rattle.gf_tree.specs.inner.Shares.{shared};

use gf_fraction::{Fraction, NumberFault};
use gf_token::Why;

/// The number of a player or a set that an index is: it is above zero.
#[inline(always)]
pub(crate) fn positive(index: Option<u32>) -> Option<u32>
    ensures { result ≡ positive index }
{
    match index {
        Some(number) if number > 0 => Some(number),
        _ => None,
    }
}

/// The sum of two fractions, if it fits.
fn sum(left: Fraction, right: Fraction) -> Option<Fraction>
    requires left { IsFraction left }
    requires right { IsFraction right }
    ensures sum { result ≡ sum_of left right }
    ensures fraction { IfSome result IsFraction }
{
    match left.add(right) {
        Ok(sum) => Some(sum),
        Err(_) => None,
    }
}

/// A probability, with the sum through it.
#[derive(Clone, Copy)]
pub(crate) struct Share {
    pub(crate) probability: Fraction,
    pub(crate) sum: Fraction,
}

/// The probability that a bare token spells, if it is this number, after probabilities of this sum.
pub(crate) fn next_share(
    before: Fraction,
    number: Result<Fraction, NumberFault>,
) -> Result<Share, Why>
    requires before { IsFraction before }
    requires number { IfOk number IsFraction }
    ensures machine { shared result ≡ share_by before number }
    ensures fraction { IfOk result (λ s. IsFraction s.sum) }
{
    let probability = number?;
    if probability.is_negative() {
        return Err(Why::NegativeProbability);
    }
    let Some(sum) = sum(before, probability) else {
        return Err(Why::SumOverflow);
    };
    if sum.exceeds_one() {
        return Err(Why::SumAboveOne);
    }
    Ok(Share { probability, sum })
}
