//! The renumbering that carries one game to another.

ghost use Rattle.std.specs.Prelude.{◌≡◌, ℕ, IfOk, MatchOption, OnOk, nat_eq, option_map};
ghost use Rattle.std.specs.BTreeMap.{get};
ghost use Rattle.std.specs.Ordering.{nat_cmp};
ghost use Rattle.gf_tree.specs.Description.{SetKey, same_set, set_of};
ghost use Rattle.gf_tree.specs.IsGame.{IsGame};
ghost use Rattle.gf_tree.specs.NodeOf.{outcome_of, set_of_step};
ghost use Rattle.gf_canon.specs.NewNumbers.{IsOnlyRenumbering};
ghost use Rattle.gf_canon.specs.inner.NumberMaps.{noted, number_of_set};
ghost use Rattle.gf_tree.specs.SameGame.{SameGame};

use crate::numbering::new_numbers::Renumbering;
use crate::sameness::walk::same_games;
use gf_token::Names;
use gf_tree::{Game, Step};
use std::alloc::{AllocError, Global};
use std::collections::BTreeMap;

/// The player and the number of the set at a step.
fn set_key(step: Step) -> Option<(u32, u32)>
    ensures { option_map (λ key. set_of key.0 key.1) result ≡ set_of_step step }
{
    match step {
        Step::Chance { set } => Some((0, set)),
        Step::Personal { player, set } => Some((player, set)),
        Step::Terminal => None,
    }
}

/// Gives the set at a step the number of the set at another.
fn note_set(sets: &mut BTreeMap<(u32, u32), u32>, old: Step, new: Step) -> Result<(), AllocError>
    ensures { OnOk result ((key : SetKey) → number_of_set sets.new key
        ≡ noted same_set (λ k. k.number) (set_of_step old) (set_of_step new)
        (number_of_set sets.old) key) }
{
    let (Some(key), Some((_, number))) = (set_key(old), set_key(new)) else {
        return Ok(());
    };
    match sets.insert(key, number) {
        Ok(_) => Ok(()),
        Err(_) => Err(AllocError),
    }
}

/// Gives an outcome the number of another. 0 is no outcome.
fn note_outcome(outcomes: &mut BTreeMap<u32, u32>, old: u32, new: u32) -> Result<(), AllocError>
    ensures { OnOk result ((key : ℕ) → get nat_cmp outcomes.new key
        ≡ noted nat_eq (λ n. n) (outcome_of old) (outcome_of new)
        (get nat_cmp outcomes.old) key) }
{
    if old == 0 || new == 0 {
        return Ok(());
    }
    match outcomes.insert(old, new) {
        Ok(_) => Ok(()),
        Err(_) => Err(AllocError),
    }
}

/// The new numbers of a game, which are those of a game that is the same, node by node.
fn numbers_between(alloc: Global, g: &Game<'_>, h: &Game<'_>) -> Result<Renumbering, AllocError>
    requires game { IsGame g.now }
    requires same { SameGame g.now h.now }
    ensures { IfOk result (λ r. IsOnlyRenumbering r g.now h.now) }
{
    let mut sets = BTreeMap::new(alloc);
    let mut outcomes = BTreeMap::new(alloc);
    let mut others = h.nodes();
    for node in g.nodes() {
        let Some(other) = others.next() else {
            break;
        };
        note_set(&mut sets, node.step, other.step)?;
        note_outcome(&mut outcomes, node.outcome, other.outcome)?;
    }
    Ok(Renumbering { sets, outcomes })
}

/// The only renumbering of information sets, player by player, and of outcomes that carries the
/// first game to the second, or `None` if none does (this project's profile).
///
/// # Errors
///
/// `AllocError` if memory is refused.
pub fn renumbering(
    alloc: Global,
    g: &Game<'_>,
    h: &Game<'_>,
) -> Result<Option<Renumbering>, AllocError>
    ensures { IfOk result (λ found. MatchOption found (¬ (SameGame g.now h.now))
        (λ r. IsOnlyRenumbering r g.now h.now)) }
{
    if !same_games(g, h, Names::Kept) {
        return Ok(None);
    }
    Ok(Some(numbers_between(alloc, g, h)?))
}
