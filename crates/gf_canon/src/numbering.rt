//! The canonical game.

ghost use Rattle.std.specs.Prelude.{◌≡◌, ◌<◌, ◌^◌, IfOk, length, map};
ghost use Rattle.gf_nfg.specs.Profiles.{positions};
ghost use Rattle.gf_tree.specs.KeysInOrder.{player_keys};
ghost use Rattle.gf_tree.specs.IsGame.{IsGame};
ghost use Rattle.gf_tree.specs.Spellable.{IsSpellable};
ghost use Rattle.gf_tree.specs.CanonicalGame.{canonical_game};
ghost use Rattle.gf_canon.specs.inner.ListedInOrder.{lists_in_order};

use gf_tree::Game;
use std::alloc::{AllocError, Global};

pub(crate) mod carry;
pub(crate) mod new_numbers;
pub(crate) mod pairs;

/// The numbers from 1 to `count`.
#[tactic(auto, using(crate::proofs::lemmas::numbers::Canonical::number_more))]
fn numbers_to(alloc: Global, count: usize) -> Result<Vec<u32>, AllocError>
    requires { count < 2 ^ 32 }
    ensures { IfOk result (λ numbers. numbers.items ≡ positions count) }
{
    let mut numbers = Vec::with_capacity(alloc, count)?;
    for before in 0..count as u32 {
        numbers.push_reserved(before + 1);
    }
    Ok(numbers)
}

/// The numbers of a player's sets in order of first use; none if there is no such player.
#[tactic(auto, using(crate::proofs::lemmas::numbers::Canonical::no_numbers))]
fn own_numbers(alloc: Global, g: &Game<'_>, player: usize) -> Result<Vec<u32>, AllocError>
    requires { IsSpellable g.now }
    ensures { IfOk result (λ numbers. numbers.items
        ≡ positions (length (player_keys g.now player))) }
{
    match u32::try_from(player) {
        Ok(player) => numbers_to(alloc, g.set_count(player)),
        Err(_) => Ok(Vec::new(alloc)),
    }
}

/// The numbers of each player's sets, chance first.
#[tactic(auto, using(crate::proofs::lemmas::numbers::Canonical::list_more))]
fn set_numbers(alloc: Global, g: &Game<'_>) -> Result<Vec<Vec<u32>>, AllocError>
    ensures lists { IfOk result (λ lists.
        map (λ own. own.items) lists.items ≡ lists_in_order g.now) }
    ensures is_game { IsGame g.now }
{
    let players = g.players().len();
    let mut lists = Vec::new(alloc);
    lists.push(own_numbers(alloc, g, 0)?)?;
    for at in 0..players {
        lists.push(own_numbers(alloc, g, at + 1)?)?;
    }
    Ok(lists)
}

/// The same game by its canonical numbers: the sets of each player and of chance, and the outcomes,
/// are numbered from 1 in order of first use in prefix order.
///
/// # Errors
///
/// `AllocError` if memory is refused.
pub fn renumber<'a>(alloc: Global, g: &Game<'a>) -> Result<Game<'a>, AllocError>
    ensures { IfOk result (λ game. game ≡ canonical_game g.now) }
{
    let sets = set_numbers(alloc, g)?;
    let outcomes = numbers_to(alloc, g.outcome_count())?;
    g.with_numbers(alloc, &sets, &outcomes)
}
