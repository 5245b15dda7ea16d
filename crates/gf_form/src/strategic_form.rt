//! The strategic form of a game.

ghost use Rattle.std.specs.Prelude.{◌≡◌, ◌≤◌, ℕ, List, IfOk, IsErrOf, OnOk, length};
ghost use Rattle.std.specs.List.{Contains};
ghost use Rattle.gf_nfg.specs.TableOfParts.{IsTableOf};
ghost use Rattle.gf_form.specs.inner.strategies.Counted.{AreCounts};
ghost use Rattle.gf_form.specs.inner.rows.FitsTable.{FitsTable};
ghost use Rattle.gf_form.specs.inner.rows.ProfileRows.{AreRowsAt};
ghost use Rattle.gf_form.specs.Forms.{HasFewPlayers};
ghost use Rattle.gf_form.specs.Refusal.{HasTooManyProfiles, HasValues, OverflowsAt};
ghost use Rattle.gf_form.specs.StrategicForm.{ArePayoffsAt, IsStrategicForm};
ghost use Rattle.gf_form.specs.Strategies.{full_profiles};

use crate::rows::profile::full_rows;
use crate::strategies::counts::Counts;
use crate::strategies::labels::all_labels;
use gf_fraction::Fraction;
use gf_nfg::{Labels, Table};
use gf_token::FormFault;
use gf_tree::Game;
use std::alloc::{AllocError, Global};

/// The table of a game with these labels of each player's strategies, and these payoffs.
#[tactic(auto, using(crate::proofs::lemmas::form::Forms::table_steps))]
pub(crate) fn table_with(
    alloc: Global,
    game: &Game<'_>,
    labels: Vec<Labels>,
    rows: Vec<Fraction>,
) -> Result<Table, AllocError>
    requires players { length game.now.players ≤ 4294967295 }
    requires fits { FitsTable (length game.now.players) labels.items rows.items }
    ensures { IfOk result (λ t. IsTableOf t game.now.title game.now.comment game.now.players
        labels.items rows.items) }
{
    Table::with_labels(
        alloc,
        game.title(),
        game.comment(),
        game.players(),
        labels,
        rows,
    )
}

/// The strategic form of a game, with these payoffs at its profiles.
fn form_with(
    alloc: Global,
    game: &Game<'_>,
    counts: &Counts,
    rows: Vec<Fraction>,
) -> Result<Table, AllocError>
    requires players { length game.now.players ≤ 4294967295 }
    requires counts { AreCounts game.now counts.now }
    requires rows { AreRowsAt (ArePayoffsAt game.now) (full_profiles game.now) rows.items }
    ensures { IfOk result (λ t. IsStrategicForm game.now t) }
{
    let labels = all_labels(alloc, counts)?;
    table_with(alloc, game, labels, rows)
}

/// The strategic form of a game: the table of its players and of their pure strategies, with the
/// payoffs at each profile.
///
/// A pure strategy has an action at each of its player's sets, in order of first use. Its label
/// joins their positions, from 1, by `-`: `1-2` (this project's profile). From one strategy to the
/// next, the last set's action advances fastest. The payoffs at a profile are those of
/// [`expected`](crate::expected).
///
/// The caller has to ensure that there are at most 4,294,967,295 players.
///
/// # Errors
///
/// `TooManyProfiles` if there are more than 1,048,576 profiles (this project's profile), whatever
/// their payoffs. `Overflow` with the number of a profile, from 1 in the order of the table, if
/// some player has no bottom-up value at it and each player has one at all profiles before it.
/// `Memory` if memory is refused.
pub fn table(alloc: Global, game: &Game<'_>) -> Result<Table, FormFault>
    requires { HasFewPlayers game.now }
    ensures form { IfOk result (λ t. IsStrategicForm game.now t) }
    ensures few { OnOk result (¬ (HasTooManyProfiles game.now)) }
    ensures values { OnOk result ((profile : List ℕ) → Contains (full_profiles game.now) profile
        → HasValues game.now profile) }
    ensures too_many { IsErrOf result FormFault.TooManyProfiles → HasTooManyProfiles game.now }
    ensures overflow { (position : ℕ) → IsErrOf result (FormFault.Overflow position)
        → ¬ (HasTooManyProfiles game.now) × OverflowsAt game.now position }
{
    let Some(counts) = Counts::new(alloc, game)? else {
        return Err(FormFault::TooManyProfiles);
    };
    let rows = full_rows(alloc, game, &counts)?;
    Ok(form_with(alloc, game, &counts, rows)?)
}
