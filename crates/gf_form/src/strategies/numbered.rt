//! The strategies of a player by their numbers, and their labels.

ghost use Rattle.std.specs.Prelude.{◌≡◌, ◌<◌, ◌+◌, ◌-◌, ◌++◌, [], ◌∷◌, ℕ, List, OnOk, IfOk, IfSome};
ghost use Rattle.std.specs.Prelude.{get_or, length, map};
ghost use Rattle.gf_nfg.specs.Profiles.{product};
ghost use Rattle.gf_form.specs.Strategies.{all_choices, strategy_label};

use crate::division::quotient;
use crate::strategies::label_text::write_label;
use gf_nfg::Labels;
use gf_token::Label;
use std::alloc::{AllocError, Global};

/// Replaces another strategy by the one with this number, from 0. At sets with this many actions
/// each there are `whole` strategies, and the last set's action advances fastest.
pub(crate) fn write_strategy(
    counts: &[u32],
    whole: u32,
    number: u32,
    strategy: &mut Vec<u32>,
) -> Result<(), AllocError>
    requires whole { whole ≡ product counts.now }
    requires within { number < whole }
    ensures { OnOk result (strategy.new.items ≡ get_or (all_choices counts.now) number []) }
{
    strategy.clear();
    let mut stride = whole;
    let mut rest = number;
    for count in counts {
        stride = quotient(stride, *count);
        strategy.push(rest / stride + 1)?;
        rest %= stride;
    }
    Ok(())
}

/// No labels, and room for this many, each with a choice at this many sets. A choice takes at least
/// a byte, and there is a dash between any two: labels that memory cannot hold are refused before
/// the first one is made, and not after memory is full.
pub(crate) fn room_for_choices(
    alloc: Global,
    count: usize,
    sets: usize,
) -> Result<Labels, AllocError>
    ensures { IfOk result (λ labels. labels ≡ []) }
{
    let least = sets.saturating_mul(2).saturating_sub(1);
    let mut labels = Labels::new(alloc);
    labels.reserve(count, count.saturating_mul(least))?;
    Ok(labels)
}

/// The labels of all strategies at sets with this many actions each, one by one; there are `whole`
/// strategies.
fn labels_in_turn(alloc: Global, counts: &[u32], whole: u32) -> Result<Labels, AllocError>
    requires { whole ≡ product counts.now }
    ensures { IfOk result (λ labels. labels ≡ map strategy_label (all_choices counts.now)) }
{
    let mut labels = room_for_choices(alloc, whole as usize, counts.len())?;
    let mut strategy = Vec::with_capacity(alloc, counts.len())?;
    let mut relevant = Vec::new(alloc);
    relevant.resize(counts.len(), true)?;
    let mut text = Vec::new(alloc);
    for number in 0..whole {
        write_strategy(counts, whole, number, &mut strategy)?;
        write_label(&relevant, &strategy, &mut text)?;
        labels.push(Label::of_spelling(&text))?;
    }
    Ok(labels)
}

/// How many strategies there are at sets with this many actions each; `None` above the greatest
/// number.
#[tactic(auto, using(crate::proofs::lemmas::strategies::CountedActions::product_steps))]
fn strategy_count(counts: &[u32]) -> Option<u32>
    ensures { IfSome result (λ whole. whole ≡ product counts.now) }
{
    let mut whole: u32 = 1;
    for count in counts {
        whole = whole.checked_mul(*count)?;
    }
    Some(whole)
}

/// No labels, and room for each of the first joined to each of the others.
fn room_for(alloc: Global, firsts: &Labels, others: &Labels) -> Result<Labels, AllocError>
    ensures { IfOk result (λ labels. labels ≡ []) }
{
    let count = firsts.len().saturating_mul(others.len());
    let before = firsts.size().saturating_mul(others.len());
    let after = others.size().saturating_mul(firsts.len());
    let mut labels = Labels::new(alloc);
    labels.reserve(count, before.saturating_add(after).saturating_add(count))?;
    Ok(labels)
}

/// The labels of all strategies, from those at the first sets and those at the others.
#[tactic(auto, using(crate::proofs::lemmas::strategies::StrategiesByNumber::joined_steps))]
fn joined_labels(alloc: Global, firsts: &Labels, others: &Labels) -> Result<Labels, AllocError>
    ensures { IfOk result (λ labels. (counts later : List ℕ) → 0 < length counts
        → 0 < length later → firsts.now ≡ map strategy_label (all_choices counts)
        → others.now ≡ map strategy_label (all_choices later)
        → labels ≡ map strategy_label (all_choices (counts ++ later))) }
{
    let mut labels = room_for(alloc, firsts, others)?;
    for first in 0..firsts.len() {
        let before = firsts.label(first);
        for other in 0..others.len() {
            labels.push_joined(&[before, others.label(other)])?;
        }
    }
    Ok(labels)
}

/// The labels of all strategies at sets with this many actions each; there are `whole` strategies.
/// There are few labels for half of the sets, and joining them is less work than writing each
/// action anew.
pub(crate) fn strategy_labels(
    alloc: Global,
    counts: &[u32],
    whole: u32,
) -> Result<Labels, AllocError>
    requires { whole ≡ product counts.now }
    ensures { IfOk result (λ labels. labels ≡ map strategy_label (all_choices counts.now)) }
{
    let (first, others) = counts.split_at(counts.len() / 2);
    if first.is_empty() {
        return labels_in_turn(alloc, counts, whole);
    }
    match (strategy_count(first), strategy_count(others)) {
        (Some(before), Some(after)) => {
            let firsts = labels_in_turn(alloc, first, before)?;
            let others = labels_in_turn(alloc, others, after)?;
            joined_labels(alloc, &firsts, &others)
        }
        _ => labels_in_turn(alloc, counts, whole),
    }
}
