//! Rows of payoffs, one for each profile. Profiles may share them.

ghost use Rattle.std.specs.Prelude.{◌≡◌, ◌<◌, ◌^◌, Some, IfOk, IfSome, MatchResult, length};
ghost use Rattle.std.specs.Prelude.{slice_get, true};
ghost use Rattle.gf_nfg.specs.inner.TableParts.{AreShared, HasRows, kept_rows};

use gf_fraction::Fraction;
use std::alloc::{AllocError, Global};
use std::marker::Model;

/// Rows of one payoff for each player, with numbers from 0. In the first one each player is paid
/// zero; it is empty if no profile has it.
#[derive(Drop)]
pub(crate) struct NumberedRows {
    players: usize,
    zeros: Vec<Fraction>,
    /// How many rows there are after the first one.
    count: usize,
    /// Those rows, one after another.
    payoffs: Vec<Fraction>,
}

impl Model for NumberedRows {
    ghost use Rattle.std.specs.Prelude.{◌∷◌, List};
    ghost use Rattle.gf_fraction.specs.Ratio.{Ratio};
    ghost use Rattle.gf_nfg.specs.inner.TableParts.{AreFull, rows_of};

    ghost Value = { List (List Ratio) };

    ghost view = { λ r. r.zeros.items ∷ rows_of r.players r.count r.payoffs.items };

    ghost invariant = { λ r. AreFull r.players r.count r.payoffs.items };
}

impl NumberedRows {
    /// How many rows there are.
    #[tactic(auto, using(crate::proofs::lemmas::tables::Rows::numbered))]
    pub(crate) fn len(&self) -> usize
        ensures len { result ≡ length self.now }
        ensures few { result < 2 ^ 63 }
    {
        self.count + 1
    }

    /// The row with this number.
    #[tactic(auto, using(crate::proofs::lemmas::tables::Rows::numbered))]
    pub(crate) fn row(&self, number: usize) -> &[Fraction]
        requires { number < length self.now }
        ensures { slice_get self.now number ≡ Some result.now }
    {
        if number == 0 {
            &self.zeros
        } else {
            &self.payoffs[(number - 1) * self.players..number * self.players]
        }
    }

    /// Whether both are kept alike.
    #[tactic(auto, using(crate::proofs::lemmas::tables::Agreement::same_by_payoffs))]
    pub(crate) fn is_kept_as(&self, o: &NumberedRows) -> bool
        ensures { result ≡ true → self.now ≡ o.now }
    {
        self.players == o.players
            && self.count == o.count
            && self.zeros.as_slice() == o.zeros.as_slice()
            && self.payoffs.as_slice() == o.payoffs.as_slice()
    }
}

/// A row of one payoff for each player at each profile.
#[derive(Drop)]
pub(crate) struct Rows {
    profiles: u32,
    rows: NumberedRows,
    /// The number of the row of each profile. If there are none, the profiles have the rows after
    /// the first one in turn.
    numbers: Vec<u32>,
}

impl Model for Rows {
    ghost use Rattle.std.specs.Prelude.{List};
    ghost use Rattle.gf_fraction.specs.Ratio.{Ratio};
    ghost use Rattle.gf_nfg.specs.inner.TableParts.{AreNumbered, chosen_rows};

    ghost Value = { List (List Ratio) };

    ghost view = { λ r. chosen_rows r.rows r.numbers.items };

    ghost invariant = { λ r. AreNumbered r.profiles r.rows r.numbers.items };
}

impl Rows {
    /// Each profile has the row with its number. At 0 each player is paid zero. Without numbers the
    /// payoffs are those of the profiles in turn.
    #[tactic(auto, using(crate::proofs::lemmas::tables::Rows::rows_made))]
    pub(crate) fn new(
        alloc: Global,
        players: usize,
        profiles: u32,
        payoffs: Vec<Fraction>,
        numbers: Vec<u32>,
    ) -> Result<Rows, AllocError>
        requires { HasRows players profiles payoffs.items numbers.items }
        ensures { IfOk result
            (λ rows. rows ≡ kept_rows players profiles payoffs.items numbers.items) }
    {
        let chosen = numbers.len();
        if players == 0 || chosen == 0 {
            let rows = NumberedRows {
                players,
                zeros: Vec::new(alloc),
                count: profiles as usize,
                payoffs,
            };
            return Ok(Rows {
                profiles,
                rows,
                numbers: Vec::new(alloc),
            });
        }
        let rows = NumberedRows {
            players,
            zeros: vec![in alloc; Fraction::zero(); players]?,
            count: payoffs.len() / players,
            payoffs,
        };
        Ok(Rows {
            profiles,
            rows,
            numbers,
        })
    }

    /// How many profiles there are.
    pub(crate) fn len(&self) -> u32
        ensures { result ≡ length self.now }
    {
        self.profiles
    }

    /// The payoffs at the profile with this place, from 0.
    #[tactic(auto, using(crate::proofs::lemmas::tables::Rows::numbers_chosen))]
    pub(crate) fn row(&self, place: u32) -> &[Fraction]
        requires { place < length self.now }
        ensures { slice_get self.now place ≡ Some result.now }
    {
        match self.numbers.get(place as usize) {
            Some(number) => self.rows.row(*number as usize),
            None => self.rows.row(place as usize + 1),
        }
    }

    /// The rows and the number of one at each profile, if profiles may share them; otherwise the
    /// rows come back as they were.
    #[tactic(auto, using(crate::proofs::lemmas::tables::Rows::numbers_chosen))]
    pub(crate) fn into_shared(self) -> Result<(NumberedRows, Vec<u32>), Rows>
        ensures { MatchResult result (λ s. AreShared self s.0 s.1.items) (λ rows. rows ≡ self) }
    {
        if self.numbers.is_empty() {
            return Err(self);
        }
        Ok((self.rows, self.numbers))
    }

    /// The same, lent.
    #[tactic(auto, using(crate::proofs::lemmas::tables::Rows::numbers_chosen))]
    pub(crate) fn shared(&self) -> Option<(&NumberedRows, &[u32])>
        ensures { IfSome result (λ s. AreShared self.now s.0.now s.1.now) }
    {
        if self.numbers.is_empty() {
            return None;
        }
        Some((&self.rows, &self.numbers))
    }
}
