//! What the outcomes of a game pay, by their positions.

ghost use Rattle.std.specs.Prelude.{◌≡◌, ℕ, suc, IfOk, IsTrue, length, map};
ghost use Rattle.gf_fraction.specs.Rational.{zero_ratio};
ghost use Rattle.gf_tree.specs.IsGame.{IsGame};
ghost use Rattle.gf_tree.specs.Spellable.{IsSpellable};
ghost use Rattle.gf_form.specs.inner.values.Rows.{paid};
ghost use Rattle.gf_form.specs.inner.values.Rows.{ArePaid, IsRow, at_place, row_at};

use crate::values::positions::at;
use gf_fraction::Fraction;
use gf_tree::Game;
use std::alloc::{AllocError, Global};

/// Whether all of these are zero.
fn all_zero(row: &[Fraction]) -> bool
    ensures { IsTrue result → (k : ℕ) → at_place row.now k ≡ zero_ratio }
{
    row.iter().all(|payoff| *payoff == Fraction::zero())
}

/// The payoffs of the outcome at this position, from 1; none if nobody is paid anything.
fn payoffs_at<'g>(game: &'g Game<'_>, position: usize) -> &'g [Fraction]
    requires is_game { IsGame game.now }
    requires spellable { IsSpellable game.now }
    ensures paid { (k : ℕ) → at_place result.now k ≡ paid game.entry.now (suc k) position }
    ensures row { IsRow (length game.entry.now.players) result.now }
{
    let Some(number) = game.outcome_number(position) else {
        return &[];
    };
    let Some((_, payoffs)) = game.outcome(number) else {
        return &[];
    };
    if all_zero(payoffs) {
        return &[];
    }
    payoffs
}

/// A row of payoffs for each outcome. The row of an outcome that pays nobody anything is empty, so
/// adding it costs nothing.
#[derive(Drop)]
pub(crate) struct Payoffs<'g> {
    rows: Vec<&'g [Fraction]>,
}

impl<'g> Payoffs<'g> {
    ghost use Rattle.gf_form.specs.inner.values.PaidRows.{rows_of};

    /// The payoffs of all outcomes of a game.
    pub(crate) fn new(alloc: Global, game: &'g Game<'_>) -> Result<Payoffs<'g>, AllocError>
        requires is_game { IsGame game.now }
        requires spellable { IsSpellable game.now }
        ensures { IfOk result (λ p. ArePaid game.entry.now (rows_of p)) }
    {
        let count = game.outcome_count();
        let mut rows = Vec::with_capacity(alloc, count)?;
        for before in 0..count {
            rows.push(payoffs_at(game, before + 1))?;
        }
        Ok(Payoffs { rows })
    }

    /// The row of the outcome at this position, from 1; an empty one if there is no such outcome.
    #[tactic(auto, using(crate::proofs::lemmas::values::Walks::at_mapped))]
    pub(crate) fn at(&self, position: u32) -> &'g [Fraction]
        ensures { result.now ≡ row_at (rows_of self.now) position }
    {
        match at(&self.rows, position as usize) {
            Some(row) => *row,
            None => &[],
        }
    }
}
