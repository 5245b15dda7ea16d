//! The labels of reduced strategies.

ghost use Rattle.std.specs.Prelude.{◌≡◌, ◌≤◌, ◌<◌, ◌*◌, ◌∷◌, ◌/◌, ◌%◌, [], ℕ, false, map};
ghost use Rattle.std.specs.Prelude.{drop, get_or, IfOk, length, OnOk, take};
ghost use Rattle.std.specs.List.{AllByRecursion};
ghost use Rattle.std.specs.List.Sorted.{IsPermutation};
ghost use Rattle.gf_form.specs.Reduced.{reduced_labels};
ghost use Rattle.gf_form.specs.inner.reduced.Firsts.{AreFirstsOf};
ghost use Rattle.gf_form.specs.inner.reduced.Levels.{IsLevel, can_be_met};
ghost use Rattle.gf_form.specs.inner.reduced.Relevance.{FindRelevance};
ghost use Rattle.gf_form.specs.inner.reduced.Rows.{AreFound, HasRoom, HasRow, Marked, is_left_by};
ghost use Rattle.gf_form.specs.inner.reduced.Search.{ChooseInTurn, IsPlayer};
ghost use Rattle.gf_form.specs.declared.reduced.labels.Found.{Found};

use crate::division::divided;
use crate::reduced::digits::OwnDigit;
use crate::reduced::first::Player;
use crate::reduced::level::Level;
use crate::reduced::visits::Visit;
use crate::strategies::label_text::write_label;
use crate::strategies::numbered::{room_for_choices, write_strategy};
use gf_nfg::Labels;
use gf_token::Label;
use std::alloc::{AllocError, Global};

/// A strategy that was found.
#[derive(Clone, Copy)]
pub(crate) struct Found {
    /// Its place among those that were found, from 0.
    pub place: usize,
    /// Its number among all, from 0.
    pub number: u32,
}

/// Which sets are relevant under each of some strategies. It goes down digit by digit, the slowest
/// first, with the strategies that choose alike so far. Visits that demand nothing at a digit are
/// looked at once, whatever is chosen there, if copying them for each action would take longer.
#[derive(Drop)]
pub(crate) struct Relevance {
    alloc: Global,
    /// Whether each set was found to be relevant under each strategy, strategy by strategy.
    pub flags: Vec<bool>,
    /// How many sets there are.
    pub sets: usize,
    /// Levels that are no longer needed, whatever they hold.
    spare: Vec<Level>,
}

/// The choice, from 0, at the slowest digit under the strategy with this number. There are `count`
/// choices at the digits that are left, and `each` at all but this one.
#[inline(always)]
fn choice(number: u32, count: u32, each: u32) -> u32
    requires count { 0 < count }
    requires each { 0 < each }
    ensures { result ≡ number % count / each }
{
    let (_, left) = divided(number, count);
    divided(left, each).0
}

/// How many of these strategies, from the first one on, make this choice, from 0, at the slowest
/// digit. There are `count` choices at the digits that are left, and `each` at all but this one.
fn alike(strategies: &[Found], count: u32, each: u32, before: u32) -> usize
    requires count { 0 < count }
    requires each { 0 < each }
    ensures within { result ≤ length strategies.now }
    ensures same { AllByRecursion (λ found. found.number % count / each ≡ before)
        (take result strategies.now) }
    ensures some { (d : Found) → 0 < length strategies.now
        → (get_or strategies.now 0 d).number % count / each ≡ before → 0 < result }
{
    let mut end = 0;
    while end < strategies.len() && choice(strategies[end].number, count, each) == before {
        end += 1;
    }
    end
}

/// These strategies, in the order of their choices at the digits that are left, at which there are
/// this many.
fn by_choices(alloc: Global, strategies: &[Found], count: u32) -> Result<Vec<Found>, AllocError>
    ensures { IfOk result (λ ordered. IsPermutation strategies.now ordered.items) }
{
    let mut ordered = Vec::new(alloc);
    ordered.extend_from_slice(strategies)?;
    ordered.sort_unstable_by_key(|found| found.number.checked_rem(count));
    Ok(ordered)
}

/// Whether these demands may say something at the slowest of these digits.
fn is_next(digits: &[OwnDigit], demands: u64) -> bool {
    match digits.first() {
        Some(digit) => digit.step <= demands,
        None => false,
    }
}

impl Relevance {
    /// No set is found yet, for this many strategies and sets.
    fn new(alloc: Global, count: usize, sets: usize) -> Result<Relevance, AllocError>
        ensures sets { IfOk result (λ r. r.sets ≡ sets) }
        ensures room { IfOk result (λ r. length r.flags.items ≡ count * sets) }
        ensures none { IfOk result (λ r. (k : ℕ) → get_or r.flags.items k false ≡ false) }
    {
        let mut flags = Vec::new(alloc);
        flags.resize(count.saturating_mul(sets), false)?;
        Ok(Relevance {
            alloc,
            flags,
            sets,
            spare: Vec::new(alloc),
        })
    }

    /// Whether each set is relevant under the strategy at this place.
    fn row(&self, place: usize) -> &[bool]
        requires { HasRoom self.now place }
        ensures { result.now ≡ take self.now.sets (drop (place * self.now.sets) self.now.flags.items) }
    {
        let start = place * self.sets;
        &self.flags[start..start + self.sets]
    }

    /// Marks the sets with these flags as relevant under a strategy.
    fn mark(&mut self, met: &[bool], found: Found)
        requires counted { length met.now ≡ self.old.sets }
        requires room { HasRoom self.old found.place }
        ensures { Marked (λ place f. get_or met.now place false) (found ∷ []) self.old self.new }
    {
        let start = found.place * self.sets;
        for place in 0..met.len() {
            self.flags[start + place] |= met[place];
        }
    }

    /// The same under these strategies.
    fn mark_each(&mut self, player: &Player<'_, '_>, met: &[bool], strategies: &[Found])
        requires counted { length met.now ≡ self.old.sets }
        requires found { AreFound player.now.game.now player.now.number self.old strategies.now }
        ensures { Marked (λ place f. get_or met.now place false) strategies.now self.old self.new }
    {
        for found in strategies {
            self.mark(met, *found);
        }
    }

    /// Marks the sets that can be met, whatever is chosen at the digits that are left.
    fn mark_all(
        &mut self,
        player: &Player<'_, '_>,
        level: &Level,
        strategies: &[Found],
    ) -> Result<(), AllocError>
        requires level { IsLevel self.old.sets level.now }
        requires found { AreFound player.now.game.now player.now.number self.old strategies.now }
        ensures { OnOk result (Marked (λ place f. can_be_met place level.now) strategies.now
            self.old self.new) }
    {
        let mut met = Vec::new(self.alloc);
        level.mark(&mut met)?;
        self.mark_each(player, &met, strategies);
        Ok(())
    }

    /// Whether copying this many free visits for each action takes longer than looking at all visits
    /// once and marking the sets once more.
    fn is_apart(&self, level: &Level, free: usize, digit: OwnDigit, strategies: usize) -> bool {
        let copies = free.saturating_mul(strategies.min(digit.actions as usize));
        let marks = strategies.saturating_mul(self.sets);
        copies > marks.saturating_add(level.visits.len())
    }

    /// Marks the sets that are met under these strategies, which made the choices so far. These
    /// digits are left, with `count` choices together.
    #[cycle(below)]
    fn mark_below(
        &mut self,
        player: &Player<'_, '_>,
        digits: &[OwnDigit],
        level: &Level,
        strategies: &[Found],
        count: u32,
    ) -> Result<(), AllocError>
        requires turn { ChooseInTurn player.now.game.now player.now.number digits.now count }
        requires level { IsLevel self.old.sets level.now }
        requires found { AreFound player.now.game.now player.now.number self.old strategies.now }
        ensures marked { OnOk result (Marked (is_left_by player.now.game.now player.now.number
            digits.now level.now) strategies.now self.old self.new) }
    {
        let Some((digit, faster)) = digits.split_first() else {
            return self.mark_all(player, level, strategies);
        };
        let free = level.count_free(digit.step);
        if !self.is_apart(level, free, *digit, strategies.len()) {
            return self.mark_at(player, *digit, faster, level, strategies, count);
        }
        self.mark_each(player, &level.known, strategies);
        let (free, own) = level.visits.split_at(free);
        let free = Level::of_visits(self.alloc, free, self.sets)?;
        self.mark_at(player, *digit, faster, &free, strategies, count)?;
        let own = Level::of_visits(self.alloc, own, self.sets)?;
        self.mark_at(player, *digit, faster, &own, strategies, count)
    }

    /// Marks the sets that are met, one choice at the slowest digit after another.
    #[cycle(below)]
    fn mark_at(
        &mut self,
        player: &Player<'_, '_>,
        digit: OwnDigit,
        faster: &[OwnDigit],
        level: &Level,
        strategies: &[Found],
        count: u32,
    ) -> Result<(), AllocError>
        requires turn { ChooseInTurn player.now.game.now player.now.number (digit ∷ faster.now) count }
        requires level { IsLevel self.old.sets level.now }
        requires found { AreFound player.now.game.now player.now.number self.old strategies.now }
        ensures marked { OnOk result (Marked (is_left_by player.now.game.now player.now.number
            (digit ∷ faster.now) level.now) strategies.now self.old self.new) }
    {
        let Some(last) = level.visits.last() else {
            return self.mark_all(player, level, strategies);
        };
        let each = count / digit.actions;
        if last.demands < digit.step {
            if !is_next(faster, last.demands) {
                return self.mark_below(player, faster, level, strategies, each);
            }
            let ordered = by_choices(self.alloc, strategies, each)?;
            return self.mark_below(player, faster, level, &ordered, each);
        }
        let mut left = Level::reused(&mut self.spare);
        let mut rest = strategies;
        while !rest.is_empty() {
            let before = choice(rest[0].number, count, each);
            let (own, others) = rest.split_at(alike(rest, count, each, before));
            left.choose(level, digit.step, u64::from(before) + 1)?;
            self.mark_below(player, faster, &left, own, each)?;
            rest = others;
        }
        self.spare.push(left)?;
        Ok(())
    }
}

/// The strategies with these numbers.
fn listed(alloc: Global, numbers: &[u32]) -> Result<Vec<Found>, AllocError>
    ensures counted { IfOk result (λ all. length all.items ≡ length numbers.now) }
    ensures each { IfOk result (λ all. (place : ℕ) (d : Found) → place < length numbers.now
        → get_or all.items place d ≡ record { place = place; number = get_or numbers.now place 0 }) }
{
    let mut strategies = Vec::with_capacity(alloc, numbers.len())?;
    for place in 0..numbers.len() {
        strategies.push(Found {
            place,
            number: numbers[place],
        })?;
    }
    Ok(strategies)
}

/// The labels of a player's reduced strategies, if the first ones that reduce to them have these
/// numbers, and these are their visits.
pub(crate) fn labels_of(
    alloc: Global,
    player: &Player<'_, '_>,
    visits: &[Visit],
    numbers: &[u32],
) -> Result<Labels, AllocError>
    requires player { IsPlayer player.now }
    requires visits { FindRelevance player.now.game.now player.now.number visits.now }
    requires firsts { AreFirstsOf player.now.game.now numbers.now player.now.number }
    ensures { IfOk result
        (λ labels. labels ≡ reduced_labels player.now.game.now player.now.number) }
{
    let sets = player.counts.len();
    let level = Level::of_visits(alloc, visits, sets)?;
    let strategies = listed(alloc, numbers)?;
    let mut relevance = Relevance::new(alloc, numbers.len(), sets)?;
    relevance.mark_below(player, &player.digits, &level, &strategies, player.whole)?;
    write_labels(alloc, player, numbers, &relevance)
}

/// The labels of the strategies with these numbers.
fn write_labels(
    alloc: Global,
    player: &Player<'_, '_>,
    numbers: &[u32],
    relevance: &Relevance,
) -> Result<Labels, AllocError>
    requires player { IsPlayer player.now }
    requires firsts { AreFirstsOf player.now.game.now numbers.now player.now.number }
    requires rows { (place : ℕ) → place < length numbers.now → HasRow player.now.game.now
        player.now.number numbers.now relevance.now place }
    ensures { IfOk result
        (λ labels. labels ≡ reduced_labels player.now.game.now player.now.number) }
{
    let mut labels = room_for_choices(alloc, numbers.len(), player.counts.len())?;
    let mut strategy = Vec::new(alloc);
    let mut text = Vec::new(alloc);
    for place in 0..numbers.len() {
        write_strategy(player.counts, player.whole, numbers[place], &mut strategy)?;
        write_label(relevance.row(place), &strategy, &mut text)?;
        labels.push(Label::of_spelling(&text))?;
    }
    Ok(labels)
}
