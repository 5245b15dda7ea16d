//! Profiles whose payoffs are asked for, and runs of those at which the choice at the slowest digit
//! is the same.

ghost use Rattle.std.specs.Prelude.{◌≡◌, ◌+◌, ◌/◌, ◌<◌, ◌≤◌, ◌∷◌, ℕ, IfOk, get_or, length, true};
ghost use Rattle.gf_form.specs.inner.rows.TermLists.{AreWithin};
ghost use Rattle.gf_form.specs.inner.rows.SettledRows.{IsAsked, SettleBy};

use crate::division::quotient;
use crate::rows::chosen::Chosen;
use crate::rows::digits::{Digit, Digits};
use crate::rows::terms::Terms;
use crate::values::payoffs::Payoffs;
use gf_tree::Game;
use std::alloc::AllocError;

/// Profiles of a game.
#[derive(Drop)]
pub(crate) struct Asked<'q, 'g, 'a> {
    pub game: &'g Game<'a>,
    pub digits: &'q Digits,
    pub payoffs: &'q Payoffs<'g>,
    /// The number of each profile among all, from 0.
    pub numbers: &'q [u32],
    /// Whether each is known to be its place.
    pub are_places: bool,
}

/// Profiles in turn, whose numbers among all are in a range.
#[derive(Clone, Copy)]
pub(crate) struct Run {
    /// The first number of the range, and how many there are.
    pub first: u32,
    pub count: u32,
    /// The place of the first profile, from 0, and that after the last one.
    pub from: u32,
    pub to: u32,
}

impl Asked<'_, '_, '_> {
    /// How far the numbers of these profiles are apart, if they ascend.
    pub(crate) fn span(&self, run: Run) -> u32
        requires within { run.to ≤ length self.now.numbers.now }
    {
        if run.from >= run.to {
            return 0;
        }
        let last = self.numbers[run.to as usize - 1];
        last.saturating_sub(self.numbers[run.from as usize])
    }
}

/// Which part of this many numbers each, from 0, a number is in. Quick if it is this one.
#[inline(always)]
fn part_of(number: u32, count: u32, guess: u64) -> u32
    requires { 0 < count }
    ensures { result ≡ number / count }
{
    if let Ok(part) = u32::try_from(guess) {
        let start = guess * u64::from(count);
        let after = start + u64::from(count);
        if start <= u64::from(number) && u64::from(number) < after {
            return part;
        }
    }
    number / count
}

/// The place after the last number, between one place and another, in the run of numbers that are
/// at least `first` and exceed it by less than `count`. If each number is its place, none of them
/// has to be read.
fn run_end(numbers: &[u32], are_places: bool, from: u32, to: u32, first: u32, count: u32) -> u32
    requires places { are_places ≡ true → (i : ℕ) → i < length numbers.now
        → get_or numbers.now i 0 ≡ i }
    requires from { from ≤ to }
    requires to { to ≤ length numbers.now }
    ensures onward { from ≤ result }
    ensures within { result ≤ to }
    ensures run { (i : ℕ) → from ≤ i → i < result → (first ≤ get_or numbers.now i 0)
        × (get_or numbers.now i 0 < first + count) }
{
    if are_places && first <= from {
        return first.saturating_add(count).min(to).max(from);
    }
    let mut end = from;
    while end < to {
        let number = numbers[end as usize];
        if number < first || number - first >= count {
            return end;
        }
        end += 1;
    }
    end
}

impl Terms {
    /// Replaces these terms by what they come to at the choice of the first of these profiles at
    /// the slowest digit. Returns those profiles, from the first on, at which the choice is the
    /// same, and the terms that count there. Quick if those of the choice before it are given.
    #[inline(always)]
    pub(crate) fn choose(
        &mut self,
        asked: &Asked<'_, '_, '_>,
        terms: &Terms,
        slowest: Digit,
        faster: &[Digit],
        run: Run,
        near: Chosen,
    ) -> Result<(Run, Chosen), AllocError>
        requires asked { IsAsked asked.now }
        requires some { run.from < run.to }
        requires near { AreWithin terms.now.demands.items near }
        requires within { run.to ≤ length asked.now.numbers.now }
        requires players { self.old.players ≡ terms.now.players }
        requires settled { SettleBy asked.now terms.now (slowest ∷ faster.now) run }
        ensures players { self.new.players ≡ self.old.players }
        ensures from { IfOk result (λ next. next.0.from ≡ run.from) }
        ensures onward { IfOk result (λ next. run.from < next.0.to) }
        ensures to { IfOk result (λ next. next.0.to ≤ run.to) }
        ensures settled { IfOk result
            (λ next. SettleBy asked.now self.new faster.now next.0) }
        ensures near { IfOk result (λ next. AreWithin terms.now.demands.items next.1) }
    {
        let count = quotient(run.count, slowest.actions);
        let number = asked.numbers[run.from as usize] - run.first;
        let before = part_of(number, count, near.action);
        let first = run.first + before * count;
        let action = u64::from(before) + 1;
        let chosen = near.next(&terms.demands, slowest.step, action);
        self.merge(terms, chosen, slowest.step, action)?;
        let from = run.from;
        let are_places = asked.are_places;
        let to = run_end(asked.numbers, are_places, from + 1, run.to, first, count);
        let alike = Run {
            first,
            count,
            from,
            to,
        };
        Ok((alike, chosen))
    }
}
