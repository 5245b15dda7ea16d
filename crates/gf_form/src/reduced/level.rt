//! What is left of a player's visits after choices at the slower digits.

ghost use Rattle.std.specs.Prelude.{◌≡◌, ◌≤◌, ◌<◌, ◌+◌, ◌*◌, ◌^◌, true, false, [], ℕ, length, get_or};
ghost use Rattle.std.specs.Prelude.{IfOk, MatchOption, OnOk};
ghost use Rattle.std.specs.List.Sorted.{IsNonDecreasingBy};
ghost use Rattle.gf_form.specs.inner.reduced.Levels.{Adds, AreOrdered, AreParts, AreTaken};
ghost use Rattle.gf_form.specs.inner.reduced.Levels.{HaveBelow, IsChosen, IsChosenAt, IsLevel};
ghost use Rattle.gf_form.specs.inner.reduced.Levels.{Marks, Takes};
ghost use Rattle.gf_form.specs.inner.reduced.Visits.{HoldTheSame};

use crate::reduced::visits::{Visit, put_in_order};
use std::alloc::{AllocError, Global};

/// The visits that the choices so far allow.
#[derive(Drop)]
pub(crate) struct Level {
    /// Those to sets that are not known to be met, with their demands at the digits that are left,
    /// each once and in order of demands.
    pub visits: Vec<Visit>,
    /// Whether each set is known to be met, whatever is chosen at the digits that are left.
    pub known: Vec<bool>,
}

/// What is left of the visits that count if an action is chosen at the slowest digit.
#[derive(Drop)]
struct Parts<'v> {
    /// The visits that demand nothing there, in order of demands.
    free: &'v [Visit],
    /// Those that demand the action there, in order of demands.
    own: &'v [Visit],
    /// What the action adds to the demands of these.
    lowest: u64,
}

/// How many of these visits, in order of demands, demand less than a number.
fn count_below(visits: &[Visit], number: u64) -> usize
    requires { IsNonDecreasingBy (λ (v : Visit). v.demands) visits.now }
    ensures { HaveBelow visits.now number result }
{
    visits.partition_point(|visit| visit.demands < number)
}

/// What is left of these visits if this action is chosen at the slowest digit, with this step.
fn parts_of(visits: &[Visit], step: u64, action: u64) -> Parts<'_>
    requires fits { action * step + step < 2 ^ 64 }
    requires ordered { IsNonDecreasingBy (λ (v : Visit). v.demands) visits.now }
    ensures { AreParts step action visits.now result }
{
    let lowest = action * step;
    let (free, others) = visits.split_at(count_below(visits, step));
    let (_, rest) = others.split_at(count_below(others, lowest));
    let (own, _) = rest.split_at(count_below(rest, lowest + step));
    Parts { free, own, lowest }
}

impl Parts<'_> {
    /// Takes the next visit, if none is left that demands the action.
    fn next_free(&mut self) -> Option<Visit>
        requires free { length self.old.own.now ≡ 0 }
        ensures { MatchOption result (AreTaken self.old) (λ visit. Takes visit self.old self.new) }
    {
        let Some((free, rest)) = self.free.split_first() else {
            return None;
        };
        self.free = rest;
        Some(*free)
    }

    /// Takes the next visit, in order of demands, and those with the same demands in order of sets.
    /// If the same is left of two visits, it takes both at once.
    fn next(&mut self) -> Option<Visit>
        requires ordered { AreOrdered self.old }
        ensures { MatchOption result (AreTaken self.old) (λ visit. Takes visit self.old self.new) }
    {
        let Some((own, own_rest)) = self.own.split_first() else {
            return self.next_free();
        };
        let left = Visit {
            demands: own.demands - self.lowest,
            set: own.set,
        };
        let Some((free, free_rest)) = self.free.split_first() else {
            self.own = own_rest;
            return Some(left);
        };
        if free.is_before(left) {
            self.free = free_rest;
            return Some(*free);
        }
        self.own = own_rest;
        if left == *free {
            self.free = free_rest;
        }
        Some(left)
    }
}

impl Level {
    /// No visits.
    pub(crate) fn none(alloc: Global) -> Level
        ensures visits { result.visits.items ≡ [] }
        ensures known { result.known.items ≡ [] }
    {
        Level {
            visits: Vec::new(alloc),
            known: Vec::new(alloc),
        }
    }

    /// A level to be filled anew, in the room of one that is no longer needed.
    pub(crate) fn reused(spare: &mut Vec<Level>) -> Level {
        match spare.pop() {
            Some(level) => level,
            None => Level::none(*spare.allocator()),
        }
    }

    /// These visits to this many sets, before any choice.
    pub(crate) fn of_visits(
        alloc: Global,
        visits: &[Visit],
        sets: usize,
    ) -> Result<Level, AllocError>
        ensures visits { IfOk result (λ level. HoldTheSame visits.now level.visits.items) }
        ensures unknown { IfOk result (λ level. (place : ℕ)
            → get_or level.known.items place false ≡ false) }
        ensures level { IfOk result (IsLevel sets) }
    {
        let mut level = Level::none(alloc);
        level.visits.extend_from_slice(visits)?;
        level.known.resize(sets, false)?;
        put_in_order(&mut level.visits);
        Ok(level)
    }

    /// How many visits demand nothing at the slowest digit, which has this step.
    pub(crate) fn count_free(&self, step: u64) -> usize
        requires { IsNonDecreasingBy (λ (v : Visit). v.demands) self.now.visits.items }
        ensures { result ≤ length self.now.visits.items }
    {
        count_below(&self.visits, step)
    }

    /// Adds a visit, if it is to a set of the level that is not known to be met.
    #[tactic(auto, using(crate::proofs::lemmas::reduced::LevelsChosen::add_steps))]
    fn add(&mut self, visit: Visit) -> Result<(), AllocError>
        ensures { OnOk result (Adds visit self.old self.new) }
    {
        let place = visit.set as usize;
        if place >= self.known.len() {
            return Ok(());
        }
        if self.known[place] {
            return Ok(());
        }
        if visit.demands == 0 {
            self.known[place] = true;
            return Ok(());
        }
        self.visits.push(visit)?;
        Ok(())
    }

    /// Replaces this by what is left of another level if this action is chosen at its slowest
    /// digit, with this step.
    pub(crate) fn choose(&mut self, from: &Level, step: u64, action: u64) -> Result<(), AllocError>
        requires fits { action * step + step < 2 ^ 64 }
        requires ordered { IsNonDecreasingBy (λ (v : Visit). v.demands) from.now.visits.items }
        ensures chosen { OnOk result (IsChosen step action from.now self.new) }
        ensures level { OnOk result (IsLevel (length from.now.known.items) self.new) }
    {
        self.visits.clear();
        self.known.clear();
        self.known.extend_from_slice(&from.known)?;
        let mut parts = parts_of(&from.visits, step, action);
        while let Some(visit) = parts.next() {
            self.add(visit)?;
        }
        Ok(())
    }

    /// The same, but the set at this place need not be met if the action is the first one.
    pub(crate) fn choose_at(
        &mut self,
        from: &Level,
        step: u64,
        action: u64,
        place: usize,
    ) -> Result<(), AllocError>
        requires fits { action * step + step < 2 ^ 64 }
        requires ordered { IsNonDecreasingBy (λ (v : Visit). v.demands) from.now.visits.items }
        requires there { place < length from.now.known.items }
        ensures chosen { OnOk result (IsChosenAt place step action from.now self.new) }
        ensures level { OnOk result (IsLevel (length from.now.known.items) self.new) }
    {
        self.choose(from, step, action)?;
        if action == 1 {
            self.known[place] = true;
        }
        Ok(())
    }

    /// Replaces flags by whether each set can be met.
    #[tactic(auto, using(crate::proofs::lemmas::reduced::LevelsChosen::mark_steps))]
    pub(crate) fn mark(&self, met: &mut Vec<bool>) -> Result<(), AllocError>
        ensures { OnOk result (Marks self.now met.new.items) }
    {
        met.clear();
        met.extend_from_slice(&self.known)?;
        for visit in &self.visits {
            let place = visit.set as usize;
            if place < met.len() {
                met[place] = true;
            }
        }
        Ok(())
    }
}
