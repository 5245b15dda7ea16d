//! Sets at which a player has a choice, as the digits of a number: 0 if any action will do, and
//! otherwise the action's position.

ghost use Rattle.std.specs.Prelude.{◌≡◌, ◌<◌, ◌≤◌, ◌^◌, ◌++◌, ◌∷◌, ℕ, List, IfOk, MatchOption};
ghost use Rattle.gf_tree.specs.Game.{Game};
ghost use Rattle.gf_form.specs.inner.strategies.Counted.{AreCounts};
ghost use Rattle.gf_nfg.specs.Profiles.{product};
ghost use Rattle.gf_form.specs.inner.rows.DigitSteps.{steps_after, strides_of, width};
ghost use Rattle.gf_form.specs.inner.rows.GameDigits.{AreDigitsOf, HasDigits};
ghost use Rattle.gf_form.specs.inner.rows.Descents.{demanded};
ghost use Rattle.gf_form.specs.inner.reduced.Levels.{ArePositive};

use crate::strategies::counts::Counts;
use std::alloc::{AllocError, Global};

/// A digit: a set of a player who has several actions there.
#[derive(Clone, Copy)]
pub(crate) struct Digit {
    /// What one more at this digit adds to a number.
    pub step: u64,
    /// How many actions there are.
    pub actions: u32,
}

/// The action that a number demands at the digit with this step, if there are this many actions; 0
/// if any will do, or if there is no digit, and the step is 0.
#[tactic(auto, using(crate::proofs::lemmas::rows::Digits::demand_steps))]
pub(crate) fn demanded(demands: u64, step: u64, actions: usize) -> u64
    ensures { result ≡ demanded demands step actions }
{
    if step == 0 {
        return 0;
    }
    let demand = demands / step;
    match (actions as u64).checked_add(1) {
        Some(span) => demand % span,
        None => demand,
    }
}

/// Puts the digit of a set with this many actions before faster ones, which have this many values
/// together. Returns its step, and how many values they all have; `None` above the greatest number.
/// A set with one action has no digit, and its step is 0.
#[tactic(auto, using(crate::proofs::lemmas::rows::Digits::set_steps))]
fn put_digit(
    actions: u32,
    values: u64,
    digits: &mut Vec<Digit>,
) -> Result<Option<(u64, u64)>, AllocError>
    ensures { IfOk result (λ put. (later : List ℕ) → AreDigitsOf later digits.old.items values
        → MatchOption put (2 ^ 64 ≤ width (actions ∷ later))
        (λ put. AreDigitsOf (actions ∷ later) digits.new.items put.1
        × (steps_after 1 (actions ∷ later) ≡ put.0 ∷ steps_after 1 later))) }
{
    if actions < 2 {
        return Ok(Some((0, values)));
    }
    let Some(more) = values.checked_mul(u64::from(actions) + 1) else {
        return Ok(None);
    };
    // There are at most 20 digits: 2^20 profiles are the limit.
    digits.insert(
        0,
        Digit {
            step: values,
            actions,
        },
    )?;
    Ok(Some((values, more)))
}

/// Puts the digits of a player's sets before faster ones, which have this many values together.
/// Returns the step of each set, and how many values they all have; `None` above the greatest
/// number.
pub(crate) fn put_digits(
    alloc: Global,
    actions: &[u32],
    values: u64,
    digits: &mut Vec<Digit>,
) -> Result<Option<(Vec<u64>, u64)>, AllocError>
    ensures { IfOk result (λ put. (later : List ℕ) → AreDigitsOf later digits.old.items values
        → MatchOption put (2 ^ 64 ≤ width (actions.now ++ later))
        (λ put. AreDigitsOf (actions.now ++ later) digits.new.items put.1
        × (put.0.items ++ steps_after 1 later ≡ steps_after 1 (actions.now ++ later)))) }
{
    let mut steps = Vec::with_capacity(alloc, actions.len())?;
    let mut all = values;
    for place in (0..actions.len()).rev() {
        let Some((step, more)) = put_digit(actions[place], all, digits)? else {
            return Ok(None);
        };
        all = more;
        steps.push(step)?;
    }
    steps.reverse();
    Ok(Some((steps, all)))
}

/// What one more action at each set adds to the number of a profile, if there are this many actions
/// at each and this many choices at faster sets. Returns also how many choices all have.
fn strides(alloc: Global, actions: &[u32], faster: u32) -> Result<(Vec<u32>, u32), AllocError>
    ensures { IfOk result (λ made. (later : List ℕ) → faster ≡ product later
        → ArePositive (actions.now ++ later) → product (actions.now ++ later) < 2 ^ 32
        → (made.0.items ++ strides_of later ≡ strides_of (actions.now ++ later))
        × (made.1 ≡ product (actions.now ++ later))) }
{
    let mut strides = Vec::with_capacity(alloc, actions.len())?;
    let mut choices = faster;
    for place in (0..actions.len()).rev() {
        strides.push(choices)?;
        choices = choices.wrapping_mul(actions[place]);
    }
    strides.reverse();
    Ok((strides, choices))
}

/// The digits of a game.
#[derive(Drop)]
pub(crate) struct Digits {
    /// The step of the digit of each set of each player, in order of first use; 0 if there is only
    /// one action.
    pub steps: Vec<Vec<u64>>,
    /// What one more action there adds to the number of a profile.
    pub strides: Vec<Vec<u32>>,
    /// From the slowest on.
    pub digits: Vec<Digit>,
}

impl Digits {
    /// The digits of a game with this many actions.
    pub(crate) fn new(alloc: Global, counts: &Counts) -> Result<Digits, AllocError>
        requires { (g : Game) × AreCounts g counts.now }
        ensures { IfOk result (λ digits. (g : Game) → AreCounts g counts.now
            → HasDigits g digits) }
    {
        let mut steps = Vec::with_capacity(alloc, counts.actions.len())?;
        let mut all_strides = Vec::with_capacity(alloc, counts.actions.len())?;
        let mut digits = Vec::new(alloc);
        let mut values = 1;
        let mut choices = 1;
        for place in 0..counts.actions.len() {
            let (own, _) = counts.of_player(place);
            let (own_steps, more) = put_digits(alloc, own, values, &mut digits)?.unwrap();
            values = more;
            steps.push(own_steps)?;
            let (own_strides, all) = strides(alloc, own, choices)?;
            choices = all;
            all_strides.push(own_strides)?;
        }
        Ok(Digits {
            steps,
            strides: all_strides,
            digits,
        })
    }
}
