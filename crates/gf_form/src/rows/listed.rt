//! The terms of the nodes that choices can reach.

ghost use Rattle.std.specs.Prelude.{◌≡◌, ◌<◌, ◌≤◌, ◌++◌, ℕ, List, IfOk, IfSome, IsTrue, OnOk};
ghost use Rattle.std.specs.Prelude.{get_or, length, map, pos};
ghost use Rattle.gf_fraction.specs.Ratio.{IsWithin};
ghost use Rattle.std.specs.List.{AllByRecursion};
ghost use Rattle.std.specs.List.Sorted.{IsNonDecreasingBy};
ghost use Rattle.gf_tree.specs.Game.{Game};
ghost use Rattle.gf_form.specs.inner.rows.TermLists.{AreAlike, AreInOrder, EndsBelow, IsShaped};
ghost use Rattle.gf_form.specs.inner.rows.TermLists.{all_terms};
ghost use Rattle.gf_form.specs.inner.rows.KeptNodes.{paid_reached};
ghost use Rattle.gf_form.specs.inner.rows.ListedNodes.{TellNodes, HasShares, IsShareAt};
ghost use Rattle.gf_form.specs.inner.rows.ItemRows.{HasRow};
ghost use Rattle.gf_form.specs.inner.values.PaidRows.{rows_of};
ghost use Rattle.gf_form.specs.inner.rows.Paying.{AreFitting, AreListed};
ghost use Rattle.gf_form.specs.inner.values.Rows.{ArePaid};
ghost use Rattle.gf_form.specs.Strategies.{choices_by};
ghost use Rattle.gf_form.specs.declared.rows.paths.Path.{Path};

use crate::rows::digits::Digits;
use crate::rows::paid_nodes::paid_sums;
use crate::rows::paths::Path;
use crate::rows::share::{Share, payoff_at, share_of};
use crate::rows::sums::{combined, least_common_multiple};
use crate::rows::terms::{Head, LARGEST, Scaled, Terms};
use crate::values::payoffs::Payoffs;
use gf_fraction::Fraction;
use gf_tree::Game;
use std::alloc::{AllocError, Global};

/// A denominator that serves what a path adds to each of these payoffs: that of the path times the
/// least one that serves the payoffs; `None` if it is too large.
fn denominator(path: Path, row: &[Fraction]) -> Option<u128> {
    let mut least = 1;
    for payoff in row {
        least = least_common_multiple(least, payoff.den())?;
    }
    path.den.checked_mul(least)
}

/// The least common multiple of these nodes' denominators; `None` if it is too large.
fn common_denominator(nodes: &[Path], payoffs: &Payoffs<'_>) -> Option<u128> {
    let mut common = 1;
    for node in nodes {
        let own = denominator(*node, payoffs.at(node.outcome))?;
        common = least_common_multiple(common, own)?;
    }
    Some(common)
}

/// What nodes add together to the payoff of the player at this place, from 0, over a denominator;
/// `None` if that is not a whole number, or is too large.
fn shares_of(nodes: &[Path], payoffs: &Payoffs<'_>, place: usize, den: u128) -> Option<Share>
    ensures shares { IfSome result (λ sum. (g : Game) → ArePaid g (rows_of payoffs.now)
        → HasShares g nodes.now place den sum.bound sum.amount) }
    ensures within { IfSome result (λ sum. IsWithin sum.amount) }
{
    if den == 0 {
        return None;
    }
    let mut sum = Share {
        amount: 0,
        bound: 0,
    };
    for node in nodes {
        let payoff = payoff_at(payoffs, node.outcome, place);
        let share = share_of(*node, payoff, den)?;
        let amount = combined(sum.amount, 1, share.amount, 1)?;
        let bound = sum.bound.checked_add(share.bound)?;
        sum = Share { amount, bound };
    }
    Some(sum)
}

/// Appends what these nodes add for each player, over this denominator if it serves; says what the
/// numbers are over.
fn push_shares(
    numbers: &mut Vec<i128>,
    nodes: &[Path],
    payoffs: &Payoffs<'_>,
    players: usize,
    den: u128,
) -> Result<Scaled, AllocError>
    ensures { IfOk result (λ over. HasRow (IsShareAt (rows_of payoffs.now) nodes.now over) players
        numbers.old.items numbers.new.items) }
{
    let mut over = Scaled { den, size: 0 };
    for place in 0..players {
        let number = match shares_of(nodes, payoffs, place, over.den) {
            Some(sum) => {
                over.size = over.size.max(sum.bound);
                sum.amount
            }
            None => {
                over.den = 0;
                0
            }
        };
        numbers.push(number)?;
    }
    Ok(over)
}

/// Appends the term of nodes that have these demands, over this denominator if it serves.
fn push_nodes(
    terms: &mut Terms,
    demands: u64,
    nodes: &[Path],
    payoffs: &Payoffs<'_>,
    den: u128,
) -> Result<(), AllocError>
    requires order { AreInOrder terms.old }
    requires ends { EndsBelow terms.old.demands.items demands }
    requires alike { AllByRecursion (λ (r : Path). r.demands ≡ demands) nodes.now }
    ensures told { OnOk result ((rs : List Path) → TellNodes (rows_of payoffs.now) rs terms.old
        → TellNodes (rows_of payoffs.now) (rs ++ nodes.now) terms.new) }
    ensures ends { OnOk result (EndsBelow terms.new.demands.items demands) }
    ensures players { terms.new.players ≡ terms.old.players }
{
    let over = push_shares(&mut terms.numbers, nodes, payoffs, terms.players, den)?;
    terms.push_head(Head {
        demands,
        den: over.den,
        size: over.size,
    })?;
    Ok(())
}

/// The place after the last of the nodes that have the demands of the one at this place, from 0.
fn alike_end(nodes: &[Path], start: usize) -> usize
    requires { start < length nodes.now }
    ensures onward { start < result }
    ensures within { result ≤ length nodes.now }
    ensures alike { (d : Path) (k : ℕ) → start ≤ k → k < result
        → (get_or nodes.now k d).demands ≡ (get_or nodes.now start d).demands }
{
    let demands = nodes[start].demands;
    let mut end = start + 1;
    while end < nodes.len() && nodes[end].demands == demands {
        end += 1;
    }
    end
}

/// Whether all numbers are zero.
fn are_zero(numbers: &[i128]) -> bool
    ensures { IsTrue result → (k : ℕ) → get_or numbers.now k (pos 0) ≡ pos 0 }
{
    numbers.iter().all(|number| *number == 0)
}

/// Appends the term of nodes that have these demands, over the denominator of the others and without
/// its size, unless it adds nothing. Returns what the sizes come to, with that of the others; `None`
/// if the terms do not fit together.
fn push_fitting(
    terms: &mut Terms,
    demands: u64,
    nodes: &[Path],
    payoffs: &Payoffs<'_>,
    size: u128,
) -> Result<Option<u128>, AllocError>
    requires order { AreInOrder terms.old }
    requires ends { EndsBelow terms.old.demands.items demands }
    requires alike { AllByRecursion (λ (r : Path). r.demands ≡ demands) nodes.now }
    ensures fitting { IfOk result (λ more. IfSome more (λ more. (rs : List Path)
        → AreFitting (rows_of payoffs.now) rs size terms.old
        → AreFitting (rows_of payoffs.now) (rs ++ nodes.now) more terms.new)) }
    ensures ends { OnOk result (EndsBelow terms.new.demands.items demands) }
    ensures alike { AreAlike terms.new terms.old }
{
    let before = terms.numbers.len();
    let over = push_shares(&mut terms.numbers, nodes, payoffs, terms.players, terms.den)?;
    let Some(more) = size.checked_add(over.size) else {
        return Ok(None);
    };
    if over.den != terms.den || more > LARGEST {
        return Ok(None);
    }
    if are_zero(&terms.numbers[before..]) {
        terms.numbers.truncate(before);
        return Ok(Some(more));
    }
    terms.push_head(Head {
        demands,
        den: over.den,
        size: 0,
    })?;
    Ok(Some(more))
}

/// The terms of nodes in order of demands that add something, over this denominator, so that they
/// are quick to add; `None` if they do not fit together.
fn listed_over(
    alloc: Global,
    nodes: &[Path],
    payoffs: &Payoffs<'_>,
    players: usize,
    den: u128,
) -> Result<Option<Terms>, AllocError>
    requires { IsNonDecreasingBy (λ (r : Path). r.demands) nodes.now }
    ensures listed { IfOk result (λ found. IfSome found (λ terms.
        AreListed (rows_of payoffs.now) players nodes.now (all_terms terms))) }
    ensures order { IfOk result (λ found. IfSome found AreInOrder) }
    ensures players { IfOk result (λ found. IfSome found (λ terms. terms.players ≡ players)) }
{
    if den == 0 || den > LARGEST {
        return Ok(None);
    }
    let mut terms = Terms::new(alloc, players, den);
    let mut size = 0;
    let mut start = 0;
    while start < nodes.len() {
        let end = alike_end(nodes, start);
        let alike = &nodes[start..end];
        match push_fitting(&mut terms, nodes[start].demands, alike, payoffs, size)? {
            Some(more) => size = more,
            None => return Ok(None),
        }
        start = end;
    }
    Ok(Some(terms))
}

/// The terms of nodes in order of demands, each over the least denominator that serves it.
fn listed_apart(
    alloc: Global,
    nodes: &[Path],
    payoffs: &Payoffs<'_>,
    players: usize,
) -> Result<Terms, AllocError>
    requires { IsNonDecreasingBy (λ (r : Path). r.demands) nodes.now }
    ensures listed { IfOk result
        (λ terms. AreListed (rows_of payoffs.now) players nodes.now (all_terms terms)) }
    ensures order { IfOk result AreInOrder }
    ensures players { IfOk result (λ terms. terms.players ≡ players) }
{
    let mut terms = Terms::new(alloc, players, 0);
    let mut start = 0;
    while start < nodes.len() {
        let end = alike_end(nodes, start);
        let alike = &nodes[start..end];
        let den = common_denominator(alike, payoffs).unwrap_or(0);
        push_nodes(&mut terms, nodes[start].demands, alike, payoffs, den)?;
        start = end;
    }
    Ok(terms)
}

/// The terms of nodes in order of demands: over one denominator if they fit together.
fn listed(
    alloc: Global,
    nodes: &[Path],
    payoffs: &Payoffs<'_>,
    players: usize,
) -> Result<Terms, AllocError>
    requires { IsNonDecreasingBy (λ (r : Path). r.demands) nodes.now }
    ensures listed { IfOk result
        (λ terms. AreListed (rows_of payoffs.now) players nodes.now (all_terms terms)) }
    ensures order { IfOk result AreInOrder }
    ensures players { IfOk result (λ terms. terms.players ≡ players) }
{
    if let Some(common) = common_denominator(nodes, payoffs) {
        if let Some(terms) = listed_over(alloc, nodes, payoffs, players, common)? {
            return Ok(terms);
        }
    }
    listed_apart(alloc, nodes, payoffs, players)
}

/// The terms of a game.
pub(crate) fn game_terms(
    alloc: Global,
    game: &Game<'_>,
    digits: &Digits,
    payoffs: &Payoffs<'_>,
) -> Result<Terms, AllocError>
    ensures listed { IfOk result (λ terms. AreListed (rows_of payoffs.now)
        (length game.now.players) (paid_reached (rows_of payoffs.now) game.now
        (choices_by game.now (map (λ own. own.items) digits.now.steps.items))) (all_terms terms)) }
    ensures order { IfOk result AreInOrder }
    ensures players { IfOk result (λ terms. terms.players ≡ length game.now.players) }
{
    let players = game.players().len();
    let nodes = paid_sums(alloc, game, digits, payoffs)?;
    listed(alloc, &nodes, payoffs, players)
}
