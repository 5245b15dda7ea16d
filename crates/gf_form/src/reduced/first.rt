//! The reduced strategies of a player. Among the strategies that reduce to the same one, only the
//! first has the first action at each set that is not relevant under it.

ghost use Rattle.std.specs.Prelude.{◌≡◌, ◌≤◌, ◌<◌, ◌+◌, ◌^◌, ℕ, false, true, IfOk};
ghost use Rattle.std.specs.Prelude.{OnOk, get_or, if◌then◌else◌, length, map};
ghost use Rattle.gf_nfg.specs.Profiles.{product};
ghost use Rattle.gf_tree.specs.IsGame.{IsGame};
ghost use Rattle.gf_form.specs.inner.strategies.Counted.{AreCounts};
ghost use Rattle.gf_form.specs.inner.reduced.Firsts.{AreFirsts, AreFirstsOf};
ghost use Rattle.gf_form.specs.inner.reduced.Relevance.{FindRelevance};
ghost use Rattle.gf_form.specs.inner.reduced.Search.{AreFirstBelow, AreFoundTo, AreOwn};
ghost use Rattle.gf_form.specs.inner.reduced.Search.{IsPlayer, IsSearched};
ghost use Rattle.gf_form.specs.Reduced.{reduced_labels};
ghost use Rattle.gf_form.specs.Strategies.{action_counts, players_of, strategies};

use crate::reduced::digits::{OwnDigit, own_digits, own_steps};
use crate::reduced::labels::labels_of;
use crate::reduced::level::Level;
use crate::reduced::survey::visits_in;
use crate::reduced::visits::Visit;
use crate::strategies::counts::Counts;
use crate::strategies::numbered::strategy_labels;
use gf_nfg::Labels;
use gf_tree::Game;
use std::alloc::{AllocError, Global};

/// A player, and the digits of their sets.
#[derive(Drop)]
pub(crate) struct Player<'q, 'a> {
    pub game: &'q Game<'a>,
    pub number: u32,
    /// How many actions there are at each of their sets.
    pub counts: &'q [u32],
    /// How many strategies they have.
    pub whole: u32,
    pub digits: Vec<OwnDigit>,
}

/// A search for the first strategies of a player that reduce to each of their reduced ones. It
/// chooses at one digit after another, the slowest first, and goes no further if a set at which it
/// chose an action other than the first cannot be met any more. Sets without a digit have one
/// action, so they never decide this. Its levels leave them out, since there may be many levels
/// below which nothing is found.
#[derive(Drop)]
struct Search {
    /// Whether the set of each digit can still be met, or need not be.
    met: Vec<bool>,
    /// The numbers of the first strategies, from 0.
    numbers: Vec<u32>,
    /// Levels that are no longer needed, whatever they hold.
    spare: Vec<Level>,
}

/// Whether all flags are set.
fn are_set(flags: &[bool]) -> bool
    ensures set { result ≡ true → (k : ℕ) → k < length flags.now → get_or flags.now k false ≡ true }
    ensures unset { result ≡ false
        → (k : ℕ) × (k < length flags.now) × (get_or flags.now k false ≡ false) }
{
    flags.iter().all(|flag| *flag)
}

impl Search {
    /// Appends this many numbers, from this one on, which are all those of first strategies.
    fn push_all(
        &mut self,
        player: &Player<'_, '_>,
        number: u32,
        count: u32,
    ) -> Result<(), AllocError>
        requires is_game { IsGame player.now.game.now }
        requires found { AreFoundTo player.now.game.now player.now.number self.old.numbers.items
            number }
        requires within { number + count
            ≤ length (strategies player.now.game.now player.now.number) }
        requires few { number + count < 2 ^ 32 }
        requires firsts { AreFirstBelow player.now.game.now player.now.number number count }
        ensures found { OnOk result (AreFoundTo player.now.game.now player.now.number
            self.new.numbers.items (number + count)) }
    {
        for before in 0..count {
            self.numbers.push(number + before)?;
        }
        Ok(())
    }

    /// How many actions are tried at the digit at this depth: if its set cannot be met, the first
    /// one alone.
    fn actions_tried(&self, depth: usize, digit: OwnDigit) -> u32
        requires some { 0 < digit.actions }
        requires there { depth < length self.now.met.items }
        ensures all { result
            ≡ (if get_or self.now.met.items depth false then digit.actions else 1) }
        ensures upto { result ≤ digit.actions }
    {
        if self.met[depth] { digit.actions } else { 1 }
    }

    /// Appends the numbers of the first strategies among those with the choices at the first
    /// digits, as many as the depth says; these are the other ones. They have numbers from this one
    /// on, and there are `count` of them.
    #[tactic(auto, using(crate::proofs::lemmas::reduced::Searches::search_steps))]
    fn push_below(
        &mut self,
        player: &Player<'_, '_>,
        digits: &[OwnDigit],
        level: &Level,
        depth: usize,
        number: u32,
        count: u32,
    ) -> Result<(), AllocError>
        requires player { IsPlayer player.now }
        requires below { IsSearched player.now digits.now level.now depth number count }
        requires found { AreFoundTo player.now.game.now player.now.number self.old.numbers.items
            number }
        ensures found { OnOk result (AreFoundTo player.now.game.now player.now.number
            self.new.numbers.items (number + count)) }
    {
        if are_set(&level.known) {
            return self.push_all(player, number, count);
        }
        level.mark(&mut self.met)?;
        if !are_set(&self.met[..depth]) {
            return Ok(());
        }
        let Some((digit, faster)) = digits.split_first() else {
            return self.push_all(player, number, count);
        };
        let each = count / digit.actions;
        let tried = self.actions_tried(depth, *digit);
        let mut left = Level::reused(&mut self.spare);
        for before in 0..tried {
            left.choose_at(level, digit.step, u64::from(before + 1), depth)?;
            self.push_below(
                player,
                faster,
                &left,
                depth + 1,
                number + before * each,
                each,
            )?;
        }
        self.spare.push(left)?;
        Ok(())
    }
}

/// The visits to sets with a digit, each to the place of the digit, from 0.
fn own_visits(
    alloc: Global,
    visits: &[Visit],
    digits: &[OwnDigit],
) -> Result<Vec<Visit>, AllocError>
    requires { length digits.now < 2 ^ 32 }
    ensures { IfOk result (λ own. AreOwn digits.now visits.now own.items) }
{
    let mut own = Vec::new(alloc);
    for visit in visits {
        // There are at most 20 digits: 2^20 profiles are the limit.
        for position in 0..digits.len() {
            if digits[position].place == visit.set as usize {
                own.push(Visit {
                    demands: visit.demands,
                    set: position as u32,
                })?;
            }
        }
    }
    Ok(own)
}

/// The numbers of the first strategies of a player, from 0, of whom these are the visits.
#[tactic(auto, using(crate::proofs::lemmas::reduced::SearchStarts::start_steps))]
fn first_numbers(
    alloc: Global,
    player: &Player<'_, '_>,
    visits: &[Visit],
) -> Result<Vec<u32>, AllocError>
    requires player { IsPlayer player.now }
    requires visits { FindRelevance player.now.game.now player.now.number visits.now }
    ensures { IfOk result (λ numbers. AreFirstsOf player.now.game.now numbers.items
        player.now.number) }
{
    let whole = player.whole;
    let own = own_visits(alloc, visits, &player.digits)?;
    let level = Level::of_visits(alloc, &own, player.digits.len())?;
    let mut search = Search {
        met: Vec::new(alloc),
        numbers: Vec::new(alloc),
        spare: Vec::new(alloc),
    };
    search.push_below(player, &player.digits, &level, 0, 0, whole)?;
    Ok(search.numbers)
}

/// The number of the only strategy of a player, and its label. They have one action at each of
/// their sets, so all of them are relevant, and there is no need to walk the tree for them.
#[tactic(auto, using(crate::proofs::lemmas::reduced::Coming::only_label))]
fn only_strategy(
    alloc: Global,
    game: &Game<'_>,
    player: u32,
    counts: &[u32],
) -> Result<(Vec<u32>, Labels), AllocError>
    requires is_game { IsGame game.now }
    requires counts { counts.now ≡ action_counts game.now player }
    requires one { product counts.now ≡ 1 }
    ensures firsts { IfOk result (λ own. AreFirstsOf game.now own.0.items player) }
    ensures labels { IfOk result (λ own. own.1 ≡ reduced_labels game.now player) }
{
    let mut firsts = Vec::with_capacity(alloc, 1)?;
    firsts.push(0)?;
    let labels = strategy_labels(alloc, counts, 1)?;
    Ok((firsts, labels))
}

/// The numbers of the first strategies that reduce to each reduced strategy of a player, from 0,
/// and the labels of the reduced ones. Each of their sets has this many actions, and they have
/// `whole` strategies.
#[tactic(auto, using(crate::proofs::lemmas::reduced::SearchStarts::start_steps))]
fn own_strategies(
    alloc: Global,
    game: &Game<'_>,
    player: u32,
    counts: &[u32],
    whole: u32,
) -> Result<(Vec<u32>, Labels), AllocError>
    requires is_game { IsGame game.now }
    requires counts { counts.now ≡ action_counts game.now player }
    requires whole { whole ≡ product counts.now }
    ensures firsts { IfOk result (λ own. AreFirstsOf game.now own.0.items player) }
    ensures labels { IfOk result (λ own. own.1 ≡ reduced_labels game.now player) }
{
    if whole == 1 {
        return only_strategy(alloc, game, player, counts);
    }
    let steps = own_steps(alloc, counts)?;
    let digits = own_digits(alloc, counts, &steps)?;
    let visits = visits_in(alloc, game, player, &steps)?;
    let player = Player {
        game,
        number: player,
        counts,
        whole,
        digits,
    };
    let numbers = first_numbers(alloc, &player, &visits)?;
    let labels = labels_of(alloc, &player, &visits, &numbers)?;
    Ok((numbers, labels))
}

/// The numbers of the first strategies of each player, and the labels of their reduced ones.
pub(crate) fn all_reduced(
    alloc: Global,
    game: &Game<'_>,
    counts: &Counts,
) -> Result<(Vec<Vec<u32>>, Vec<Labels>), AllocError>
    requires players { length game.now.players ≤ 4294967295 }
    requires counts { AreCounts game.now counts.now }
    ensures firsts { IfOk result
        (λ all. AreFirsts game.now (map (λ own. own.items) all.0.items)) }
    ensures labels { IfOk result
        (λ all. all.1.items ≡ map (reduced_labels game.now) (players_of game.now)) }
{
    let mut firsts = Vec::with_capacity(alloc, counts.actions.len())?;
    let mut labels = Vec::with_capacity(alloc, counts.actions.len())?;
    for place in 0..counts.actions.len() {
        let player = place as u32 + 1;
        let (actions, whole) = counts.of_player(place);
        let (own, names) = own_strategies(alloc, game, player, actions, whole)?;
        firsts.push(own)?;
        labels.push(names)?;
    }
    Ok((firsts, labels))
}
