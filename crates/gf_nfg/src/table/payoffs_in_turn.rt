//! The payoffs of a table in the order of a file.

ghost use Rattle.std.specs.Prelude.{◌≡◌, ◌↔◌, ◌∷◌, [], IsTrue, MatchOption};
ghost use Rattle.std.specs.List.{flat_map};
ghost use Rattle.gf_nfg.specs.inner.PayoffLists.{payoffs_in};

use crate::table::rows::Rows;
use gf_fraction::Fraction;
use std::marker::Model;

/// The payoffs that are left, profile by profile, with one for each player in turn at each profile.
#[derive(Drop)]
pub(crate) struct PayoffsInTurn<'t> {
    /// These whole numbers come first,
    whole: &'t [i64],
    /// then what is left of a row,
    row: &'t [Fraction],
    /// and then the rows from this place on.
    rows: Option<&'t Rows>,
    place: u32,
}

impl<'t> Model for PayoffsInTurn<'t> {
    ghost use Rattle.std.specs.Prelude.{◌++◌, List, drop, option_map};
    ghost use Rattle.std.specs.List.{flat_map};
    ghost use Rattle.gf_fraction.specs.Ratio.{Ratio};
    ghost use Rattle.gf_nfg.specs.inner.PayoffLists.{payoffs_in, rows_in};

    ghost Value = { List Ratio };

    ghost view = { λ p. payoffs_in p.whole.now p.row.now
        ++ flat_map (λ row. row) (drop p.place (rows_in (option_map (λ r. r.now) p.rows))) };
}

impl<'t> PayoffsInTurn<'t> {
    /// All payoffs of these rows.
    pub(crate) fn new(rows: &'t Rows) -> PayoffsInTurn<'t>
        ensures { result ≡ flat_map (λ row. row) rows.entry.now }
    {
        PayoffsInTurn {
            whole: &[],
            row: &[],
            rows: Some(rows),
            place: 0,
        }
    }

    /// These whole numbers, and then the others.
    pub(crate) fn of_lists(whole: &'t [i64], others: &'t [Fraction]) -> PayoffsInTurn<'t>
        ensures { result ≡ payoffs_in whole.entry.now others.entry.now }
    {
        PayoffsInTurn {
            whole,
            row: others,
            rows: None,
            place: 0,
        }
    }

    /// Takes the next payoff.
    #[inline(always)]
    pub(crate) fn next(&mut self) -> Option<Fraction>
        ensures { MatchOption result (self.old ≡ []) (λ payoff. self.old ≡ payoff ∷ self.new) }
    {
        if let Some((first, others)) = self.whole.split_first() {
            self.whole = others;
            return Some(Fraction::whole(*first < 0, first.unsigned_abs()));
        }
        while self.row.is_empty() {
            let rows = self.rows?;
            if self.place >= rows.len() {
                return None;
            }
            self.row = rows.row(self.place);
            self.place += 1;
        }
        let (first, others) = self.row.split_first()?;
        self.row = others;
        Some(*first)
    }
}

/// Whether the payoffs that are left are the same in both.
pub(crate) fn same_left(a: PayoffsInTurn<'_>, b: PayoffsInTurn<'_>) -> bool
    ensures { IsTrue result ↔ (a.entry ≡ b.entry) }
{
    let (mut left, mut right) = (a, b);
    while let Some(payoff) = left.next() {
        let Some(other) = right.next() else {
            return false;
        };
        if other != payoff {
            return false;
        }
    }
    right.next().is_none()
}
