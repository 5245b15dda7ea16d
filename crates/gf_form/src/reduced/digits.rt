//! The digits of one player's demands: one for each of their sets at which they have several
//! actions.

ghost use Rattle.std.specs.Prelude.{◌≡◌, ◌<◌, ◌^◌, IfOk};
ghost use Rattle.gf_nfg.specs.Profiles.{product};
ghost use Rattle.gf_form.specs.inner.reduced.Levels.{ArePositive};
ghost use Rattle.gf_form.specs.inner.reduced.OwnDigits.{digits_from};
ghost use Rattle.gf_form.specs.inner.rows.DigitSteps.{steps_after};

use crate::rows::digits::put_digits;
use std::alloc::{AllocError, Global};

/// The digit of a set.
#[derive(Clone, Copy)]
pub(crate) struct OwnDigit {
    /// The place of the set among the player's, from 0.
    pub place: usize,
    /// What one more at this digit adds to demands.
    pub step: u64,
    /// How many actions there are.
    pub actions: u32,
}

/// The step of the digit of each set, if a player has this many actions at each; 0 if they have
/// only one there.
#[tactic(auto, using(crate::proofs::lemmas::reduced::SearchStarts::own_digit_steps))]
pub(crate) fn own_steps(alloc: Global, counts: &[u32]) -> Result<Vec<u64>, AllocError>
    requires some { ArePositive counts.now }
    requires few { product counts.now < 2 ^ 32 }
    ensures { IfOk result (λ steps. steps.items ≡ steps_after 1 counts.now) }
{
    let mut digits = Vec::new(alloc);
    let (steps, _) = put_digits(alloc, counts, 1, &mut digits)?.unwrap();
    Ok(steps)
}

/// The digits of sets with this many actions, from the slowest on, and with these steps.
#[tactic(auto, using(crate::proofs::lemmas::reduced::SearchStarts::own_digit_steps))]
pub(crate) fn own_digits(
    alloc: Global,
    counts: &[u32],
    steps: &[u64],
) -> Result<Vec<OwnDigit>, AllocError>
    requires { steps.now ≡ steps_after 1 counts.now }
    ensures { IfOk result (λ digits. digits.items ≡ digits_from 0 counts.now) }
{
    let mut digits = Vec::new(alloc);
    for place in 0..counts.len() {
        if counts[place] > 1 {
            digits.push(OwnDigit {
                place,
                step: steps[place],
                actions: counts[place],
            })?;
        }
    }
    Ok(digits)
}
