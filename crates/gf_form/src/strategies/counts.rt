//! How many actions, strategies and profiles the players of a game have.

ghost use Rattle.std.specs.Prelude.{◌≡◌, ◌<◌, ◌≤◌, ◌+◌, IfOk, MatchOption, length, unwrap_or};
ghost use Rattle.gf_token.specs.Positions.{at_position};
ghost use Rattle.gf_nfg.specs.Limit.{profile_limit};
ghost use Rattle.gf_nfg.specs.Profiles.{product};
ghost use Rattle.gf_tree.specs.Game.{Game};
ghost use Rattle.gf_tree.specs.IsGame.{IsGame};
ghost use Rattle.gf_form.specs.inner.strategies.Counted.{AreCounts};
ghost use Rattle.gf_form.specs.Refusal.{HasTooManyProfiles};
ghost use Rattle.gf_form.specs.Strategies.{action_counts, strategies};

use gf_nfg::ProfileCount;
use gf_tree::Game;
use std::alloc::{AllocError, Global};

/// How many actions there are at a player's set, by its position from 1 among theirs; 0 if they
/// have no such set.
#[tactic(auto, using(crate::proofs::lemmas::strategies::CountedActions::action_steps))]
pub(crate) fn action_count(game: &Game<'_>, player: u32, position: usize) -> usize
    requires is_game { IsGame game.now }
    ensures { result ≡ unwrap_or (at_position (action_counts game.now player) position) 0 }
{
    let Some(number) = game.set_number(player, position) else {
        return 0;
    };
    match game.infoset(player, number) {
        Some((_, actions)) => actions.len(),
        None => 0,
    }
}

/// How many actions there are at each of a player's sets, and how many strategies they have; `None`
/// if there are more of these alone than a table may have profiles.
fn own_counts(
    alloc: Global,
    game: &Game<'_>,
    player: u32,
) -> Result<Option<(Vec<u32>, ProfileCount)>, AllocError>
    requires is_game { IsGame game.now }
    ensures { IfOk result (λ own. MatchOption own
        (profile_limit < length (strategies game.now player))
        (λ own. (own.0.items ≡ action_counts game.now player)
        × (own.1.count ≡ length (strategies game.now player)))) }
{
    let count = game.set_count(player);
    let mut actions = Vec::with_capacity(alloc, count)?;
    let mut strategies = ProfileCount::one();
    for before in 0..count {
        let own = action_count(game, player, before + 1);
        let Some(more) = strategies.times(own) else {
            return Ok(None);
        };
        strategies = more;
        actions.push(own as u32)?;
    }
    Ok(Some((actions, strategies)))
}

/// How many actions there are at each set of each player, and how many strategies and profiles.
#[derive(Drop)]
pub(crate) struct Counts {
    /// For each player, and for each of their sets in order of first use.
    pub actions: Vec<Vec<u32>>,
    /// For each player.
    pub strategies: Vec<u32>,
    pub profiles: ProfileCount,
}

impl Counts {
    /// How many actions there are at each set of the player at this place, and how many strategies
    /// they have.
    #[tactic(auto, using(crate::proofs::lemmas::strategies::CountedActions::given_steps))]
    pub(crate) fn of_player(&self, place: usize) -> (&[u32], u32)
        requires counted { (g : Game) × AreCounts g self.now }
        requires within { place < length self.now.actions.items }
        ensures some { 0 < result.1 }
        ensures whole { result.1 ≡ product result.0.now }
        ensures counts { (g : Game) → AreCounts g self.now
            → result.0.now ≡ action_counts g (place + 1) }
    {
        (&self.actions[place], self.strategies[place])
    }

    /// The counts of a game; `None` if it has more profiles than a table may have.
    pub(crate) fn new(alloc: Global, game: &Game<'_>) -> Result<Option<Counts>, AllocError>
        requires { length game.now.players ≤ 4294967295 }
        ensures { IfOk result
            (λ counts. MatchOption counts (HasTooManyProfiles game.now) (AreCounts game.now)) }
    {
        let players = game.players().len();
        let mut actions = Vec::with_capacity(alloc, players)?;
        let mut strategies = Vec::with_capacity(alloc, players)?;
        let mut profiles = ProfileCount::one();
        for before in 0..players {
            let Some((own, count)) = own_counts(alloc, game, before as u32 + 1)? else {
                return Ok(None);
            };
            let Some(more) = profiles.times(count.count as usize) else {
                return Ok(None);
            };
            profiles = more;
            actions.push(own)?;
            strategies.push(count.count)?;
        }
        Ok(Some(Counts {
            actions,
            strategies,
            profiles,
        }))
    }
}
