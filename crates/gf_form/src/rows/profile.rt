//! The payoffs at profiles, and at each profile of the strategic form.

ghost use Rattle.std.specs.Prelude.{◌≡◌, ◌<◌, ◌≤◌, ℕ, true, IfOk, IsErrOf, OnOk, get_or, length};
ghost use Rattle.std.specs.List.{AllByRecursion};
ghost use Rattle.gf_nfg.specs.Limit.{profile_limit};
ghost use Rattle.gf_form.specs.inner.strategies.Counted.{AreCounts};
ghost use Rattle.gf_form.specs.inner.strategies.ProfileNumbers.{AreProfileNumbers};
ghost use Rattle.gf_form.specs.inner.strategies.ProfileNumbers.{numbered_profiles};
ghost use Rattle.gf_form.specs.inner.rows.ProfileRows.{AreRowsAt};
ghost use Rattle.gf_form.specs.Refusal.{HasValues, IsFirstWithout, OverflowsAt};
ghost use Rattle.gf_form.specs.StrategicForm.{ArePayoffsAt};
ghost use Rattle.gf_form.specs.Strategies.{full_profiles};

use crate::rows::asked::{Asked, Run};
use crate::rows::digits::Digits;
use crate::rows::listed::game_terms;
use crate::rows::written::Written;
use crate::strategies::counts::Counts;
use crate::strategies::profile_numbers::numbers_below;
use crate::values::payoffs::Payoffs;
use gf_fraction::Fraction;
use gf_token::FormFault;
use gf_tree::Game;
use std::alloc::{AllocError, Global};

/// Whether each number is its place, from 0.
fn are_places(numbers: &[u32]) -> bool
    ensures { result ≡ true → (i : ℕ) → i < length numbers.now → get_or numbers.now i 0 ≡ i }
{
    for place in 0..numbers.len() {
        if numbers[place] as usize != place {
            return false;
        }
    }
    true
}

/// What each player is paid at each of the profiles with these numbers, from 0, in their order.
pub(crate) fn profile_rows(
    alloc: Global,
    game: &Game<'_>,
    counts: &Counts,
    numbers: &[u32],
) -> Result<Vec<Fraction>, FormFault>
    requires players { length game.now.players ≤ 4294967295 }
    requires counts { AreCounts game.now counts.now }
    requires numbers { AreProfileNumbers game.now numbers.now }
    requires few { length numbers.now ≤ profile_limit }
    ensures rows { IfOk result (λ rows. AreRowsAt (ArePayoffsAt game.now)
        (numbered_profiles game.now numbers.now) rows.items) }
    ensures values { OnOk result (AllByRecursion (HasValues game.now)
        (numbered_profiles game.now numbers.now)) }
    ensures few { IsErrOf result FormFault.TooManyProfiles → ⊥ }
    ensures overflow { (position : ℕ) → IsErrOf result (FormFault.Overflow position)
        → IsFirstWithout (HasValues game.now) (numbered_profiles game.now numbers.now) position }
{
    let profiles = numbers.len() as u32;
    let players = game.players().len();
    let payoffs = Payoffs::new(alloc, game)?;
    let digits = Digits::new(alloc, counts)?;
    let asked = Asked {
        game,
        digits: &digits,
        payoffs: &payoffs,
        numbers,
        are_places: are_places(numbers),
    };
    let mut written = Written::new(alloc, profiles, players)?;
    let terms = game_terms(alloc, game, &digits, &payoffs)?;
    let run = Run {
        first: 0,
        count: counts.profiles.count,
        from: 0,
        to: profiles,
    };
    written.push_rows(&asked, &terms, &digits.digits, run)?;
    Ok(written.rows)
}

/// What each player is paid at each profile.
#[tactic(auto, using(crate::proofs::lemmas::strategies::PickedProfiles::full_steps))]
pub(crate) fn full_rows(
    alloc: Global,
    game: &Game<'_>,
    counts: &Counts,
) -> Result<Vec<Fraction>, FormFault>
    requires players { length game.now.players ≤ 4294967295 }
    requires counts { AreCounts game.now counts.now }
    ensures rows { IfOk result (λ rows.
        AreRowsAt (ArePayoffsAt game.now) (full_profiles game.now) rows.items) }
    ensures values { OnOk result
        (AllByRecursion (HasValues game.now) (full_profiles game.now)) }
    ensures few { IsErrOf result FormFault.TooManyProfiles → ⊥ }
    ensures overflow { (position : ℕ) → IsErrOf result (FormFault.Overflow position)
        → OverflowsAt game.now position }
{
    let numbers = numbers_below(alloc, counts.profiles.count)?;
    profile_rows(alloc, game, counts, &numbers)
}
