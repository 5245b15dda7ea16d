//! The reduced form of a game.

ghost use Rattle.std.specs.Prelude.{◌≡◌, ◌≤◌, ℕ, List, IfOk, IsErrOf, OnOk, length, map};
ghost use Rattle.std.specs.List.{AllByRecursion, Contains};
ghost use Rattle.gf_nfg.specs.Limit.{profile_limit};
ghost use Rattle.gf_tree.specs.IsGame.{IsGame};
ghost use Rattle.gf_form.specs.inner.strategies.Counted.{AreCounts};
ghost use Rattle.gf_form.specs.inner.reduced.Firsts.{AreFirsts, IsPaidAt};
ghost use Rattle.gf_form.specs.inner.rows.ProfileRows.{AreRowsAt};
ghost use Rattle.gf_form.specs.Forms.{HasFewPlayers};
ghost use Rattle.gf_form.specs.Reduced.{IsReducedForm, reduced_labels, reduced_profiles};
ghost use Rattle.gf_form.specs.Refusal.{HasReducedValues, HasTooManyProfiles, ReducedOverflowsAt};
ghost use Rattle.gf_form.specs.Strategies.{full_profiles, players_of};

use crate::reduced::first::all_reduced;
use crate::rows::profile::profile_rows;
use crate::strategic_form::table_with;
use crate::strategies::counts::Counts;
use crate::strategies::profile_numbers::profile_numbers;
use gf_fraction::Fraction;
use gf_nfg::{Labels, Table};
use gf_token::FormFault;
use gf_tree::Game;
use std::alloc::{AllocError, Global};

/// What each player is paid at each profile of the reduced form, where these are the numbers of the
/// first strategies of each player.
#[tactic(auto, using(crate::proofs::lemmas::reduced::FirstStrategies::number_steps))]
fn reduced_rows(
    alloc: Global,
    game: &Game<'_>,
    counts: &Counts,
    firsts: &[Vec<u32>],
) -> Result<Vec<Fraction>, FormFault>
    requires players { length game.now.players ≤ 4294967295 }
    requires counts { AreCounts game.now counts.now }
    requires firsts { AreFirsts game.now (map (λ own. own.items) firsts.now) }
    ensures rows { IfOk result (λ rows.
        AreRowsAt (IsPaidAt game.now) (reduced_profiles game.now) rows.items) }
    ensures values { OnOk result
        (AllByRecursion (HasReducedValues game.now) (reduced_profiles game.now)) }
    ensures few { IsErrOf result FormFault.TooManyProfiles → ⊥ }
    ensures overflow { (position : ℕ) → IsErrOf result (FormFault.Overflow position)
        → ReducedOverflowsAt game.now position }
{
    let numbers = profile_numbers(alloc, &counts.strategies, firsts)?;
    profile_rows(alloc, game, counts, &numbers)
}

/// The reduced form of a game, with these labels of its reduced strategies, and these payoffs at
/// their profiles.
fn form_with(
    alloc: Global,
    game: &Game<'_>,
    labels: Vec<Labels>,
    rows: Vec<Fraction>,
) -> Result<Table, AllocError>
    requires is_game { IsGame game.now }
    requires players { length game.now.players ≤ 4294967295 }
    requires few { length (full_profiles game.now) ≤ profile_limit }
    requires labels { labels.items ≡ map (reduced_labels game.now) (players_of game.now) }
    requires rows { AreRowsAt (IsPaidAt game.now) (reduced_profiles game.now) rows.items }
    ensures { IfOk result (λ t. IsReducedForm game.now t) }
{
    table_with(alloc, game, labels, rows)
}

/// The reduced form of a game: the table of its players and of their reduced strategies, with the
/// payoffs at each profile.
///
/// A reduced strategy is what is left of a pure one without the choices that cannot matter. It has
/// an action at each set that some play reaches on which the set's owner makes all their earlier
/// moves as they choose, and `*` at the others. Its label joins these by `-`: `1-*` (this project's
/// profile). The reduced strategies are in the order of the first strategies that reduce to them,
/// and the payoffs at a profile are those at every profile of the strategic form that reduces to
/// it.
///
/// The caller has to ensure that there are at most 4,294,967,295 players.
///
/// # Errors
///
/// `TooManyProfiles` if the strategic form has more than 1,048,576 profiles (this project's
/// profile), however many the reduced form has. `Overflow` with the number of a profile, from 1 in
/// the order of the table, if some player has no bottom-up value at it and each player has one at
/// all profiles before it. `Memory` if memory is refused.
pub fn table_reduced(alloc: Global, game: &Game<'_>) -> Result<Table, FormFault>
    requires { HasFewPlayers game.now }
    ensures form { IfOk result (λ t. IsReducedForm game.now t) }
    ensures few { OnOk result (¬ (HasTooManyProfiles game.now)) }
    ensures values { OnOk result ((profile : List ℕ) → Contains (reduced_profiles game.now) profile
        → HasReducedValues game.now profile) }
    ensures too_many { IsErrOf result FormFault.TooManyProfiles → HasTooManyProfiles game.now }
    ensures overflow { (position : ℕ) → IsErrOf result (FormFault.Overflow position)
        → ¬ (HasTooManyProfiles game.now) × ReducedOverflowsAt game.now position }
{
    let Some(counts) = Counts::new(alloc, game)? else {
        return Err(FormFault::TooManyProfiles);
    };
    let (firsts, labels) = all_reduced(alloc, game, &counts)?;
    let rows = reduced_rows(alloc, game, &counts, &firsts)?;
    Ok(form_with(alloc, game, labels, rows)?)
}
