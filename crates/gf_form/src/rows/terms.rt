//! What the players are paid, as a list of terms: what each adds to their payoffs, and what it
//! demands of the choices.

ghost use Rattle.std.specs.Prelude.{◌≡◌, ◌+◌, ◌<◌, ◌≤◌, ◌++◌, [], ◌∷◌, IsTrue, OnOk, get_or};
ghost use Rattle.std.specs.Prelude.{length, map};
ghost use Rattle.gf_form.specs.inner.rows.TermLists.{AreAlike, IsShaped, IsNoted, all_terms};
ghost use Rattle.gf_form.specs.inner.rows.TermLists.{with_demands, lowered, AreInOrder, MayCome};
ghost use Rattle.gf_form.specs.inner.rows.TermLists.{part, scaled_at, term_at};

use std::alloc::{AllocError, Global};

/// The greatest denominator, and the greatest sum of sizes.
pub(crate) const LARGEST: u128 = i128::MAX as u128;

/// What a term demands, and what its numbers are over.
#[derive(Clone, Copy)]
pub(crate) struct Head {
    /// The choices that it demands, by their digits.
    pub demands: u64,
    /// The denominator of its numbers; 0 if they are not known to fit.
    pub den: u128,
    /// At least the sum of the sizes of what was added, for each player.
    pub size: u128,
}

/// What the numbers of a term are over, as in its head.
#[derive(Clone, Copy)]
pub(crate) struct Scaled {
    pub den: u128,
    pub size: u128,
}

/// Terms, each with a number for each player.
#[derive(Drop)]
pub(crate) struct Terms {
    pub players: usize,
    /// The choices that each demands.
    pub demands: Vec<u64>,
    /// What the numbers of the first ones are over.
    pub scaled: Vec<Scaled>,
    /// The denominator of all others. Their sizes do not count, since all of them fit together.
    pub den: u128,
    /// The numbers of one term after those of another.
    pub numbers: Vec<i128>,
}

/// Appends these, quickly if they are few.
#[inline(always)]
pub(crate) fn push_few<T: Copy>(items: &mut Vec<T>, few: &[T]) -> Result<(), AllocError>
    ensures { OnOk result (items.new.items ≡ items.old.items ++ few.now) }
{
    items.reserve(few.len())?;
    for place in 0..few.len() {
        items.push_reserved(few[place]);
    }
    Ok(())
}

impl Terms {
    /// No terms. Those to come are over this denominator, unless they are over others.
    pub(crate) fn new(alloc: Global, players: usize, den: u128) -> Terms
        ensures none { all_terms result ≡ [] }
        ensures demands { result.demands.items ≡ [] }
        ensures players { result.players ≡ players }
        ensures den { result.den ≡ den }
        ensures shaped { IsShaped result }
    {
        Terms {
            players,
            demands: Vec::new(alloc),
            scaled: Vec::new(alloc),
            den,
            numbers: Vec::new(alloc),
        }
    }

    /// A list to be filled anew, in the room of one that is no longer needed.
    #[inline(always)]
    pub(crate) fn reused(spare: &mut Vec<Terms>, players: usize) -> Terms
        ensures { result.players ≡ players }
    {
        match spare.pop() {
            Some(mut list) => {
                list.players = players;
                list
            }
            None => Terms::new(*spare.allocator(), players, 0),
        }
    }

    /// No terms are left. Those to come are over this denominator, unless they are over others.
    pub(crate) fn clear(&mut self, den: u128)
        ensures none { all_terms self.new ≡ [] }
        ensures players { self.new.players ≡ self.old.players }
        ensures den { self.new.den ≡ den }
        ensures shaped { IsShaped self.new }
    {
        self.demands.clear();
        self.scaled.clear();
        self.numbers.clear();
        self.den = den;
    }

    /// Whether there is at most one term, and it demands nothing.
    #[inline]
    pub(crate) fn demand_nothing(&self) -> bool
        ensures { IsTrue result → (length self.now.demands.items ≤ 1)
            × (get_or self.now.demands.items 0 0 ≡ 0) }
    {
        let count = self.demands.len();
        count == 0 || count == 1 && self.demands[0] == 0
    }

    /// The numbers of the term at this place, from 0.
    #[inline]
    pub(crate) fn row(&self, place: usize) -> &[i128]
        requires shaped { IsShaped self.now }
        requires within { place < length self.now.demands.items }
        ensures { result.now ≡ (term_at self.now place).row }
    {
        let start = place * self.players;
        &self.numbers[start..start + self.players]
    }

    /// What the numbers of the term at this place, from 0, are over.
    #[inline]
    fn scaled_at(&self, place: usize) -> Scaled
        ensures { result ≡ scaled_at self.now place }
    {
        match self.scaled.get(place) {
            Some(scaled) => *scaled,
            None => Scaled {
                den: self.den,
                size: 0,
            },
        }
    }

    /// What the term at this place, from 0, demands, and what its numbers are over.
    #[inline]
    pub(crate) fn head(&self, place: usize) -> Head
        requires { place < length self.now.demands.items }
        ensures { result ≡ (term_at self.now place).head }
    {
        let scaled = self.scaled_at(place);
        Head {
            demands: self.demands[place],
            den: scaled.den,
            size: scaled.size,
        }
    }

    /// Notes what the next term is over, and so what each before it is over.
    #[inline(never)]
    #[tactic(auto, using(crate::proofs::lemmas::rows::FlatRows::noted))]
    fn note(&mut self, next: Scaled) -> Result<(), AllocError>
        requires { length self.old.scaled.items ≤ length self.old.demands.items }
        ensures noted { OnOk result (IsNoted self.old self.new next.den next.size) }
        ensures all { OnOk result
            (length self.new.scaled.items ≡ length self.new.demands.items + 1) }
        ensures demands { self.new.demands ≡ self.old.demands }
        ensures numbers { self.new.numbers ≡ self.old.numbers }
        ensures alike { AreAlike self.new self.old }
    {
        while self.scaled.len() < self.demands.len() {
            self.scaled.push(Scaled {
                den: self.den,
                size: 0,
            })?;
        }
        self.scaled.push(next)?;
        Ok(())
    }

    /// Appends a head, for the numbers that were appended last.
    #[inline(always)]
    #[tactic(auto, using(std::proofs::lemmas::List::get_or_past))]
    pub(crate) fn push_head(&mut self, head: Head) -> Result<(), AllocError>
        requires { length self.old.scaled.items ≤ length self.old.demands.items }
        ensures noted { OnOk result (IsNoted self.old self.new head.den head.size) }
        ensures demands { OnOk result
            (self.new.demands.items ≡ self.old.demands.items ++ head.demands ∷ []) }
        ensures scaled { OnOk result
            (length self.new.scaled.items ≤ length self.new.demands.items) }
        ensures numbers { self.new.numbers ≡ self.old.numbers }
        ensures alike { AreAlike self.new self.old }
    {
        if head.den != self.den || head.size > 0 {
            self.note(Scaled {
                den: head.den,
                size: head.size,
            })?;
        }
        self.demands.push(head.demands)?;
        Ok(())
    }

    /// Appends demands, for the numbers that were appended last, over what the term at this place
    /// of an alike list, from 0, is over.
    #[inline(always)]
    fn push_like(&mut self, from: &Terms, place: usize, demands: u64) -> Result<(), AllocError>
        requires scaled { length self.old.scaled.items ≤ length self.old.demands.items }
        requires den { self.old.den ≡ from.now.den }
        requires within { place < length from.now.demands.items }
        ensures noted { OnOk result (IsNoted self.old self.new (term_at from.now place).head.den
            (term_at from.now place).head.size) }
        ensures demands { OnOk result
            (self.new.demands.items ≡ self.old.demands.items ++ demands ∷ []) }
        ensures scaled { OnOk result
            (length self.new.scaled.items ≤ length self.new.demands.items) }
        ensures numbers { self.new.numbers ≡ self.old.numbers }
        ensures alike { AreAlike self.new self.old }
    {
        if place < from.scaled.len() {
            self.note(from.scaled[place])?;
        }
        self.demands.push(demands)?;
        Ok(())
    }

    /// Appends the term of an alike list at this place, from 0, with these demands.
    #[inline(always)]
    pub(crate) fn push_as(
        &mut self,
        from: &Terms,
        place: usize,
        demands: u64,
    ) -> Result<(), AllocError>
        requires alike { AreAlike self.old from.now }
        requires shaped { IsShaped self.old × IsShaped from.now }
        requires within { place < length from.now.demands.items }
        ensures pushed { OnOk result (all_terms self.new
            ≡ all_terms self.old ++ with_demands demands (term_at from.now place) ∷ []) }
        ensures alike { AreAlike self.new self.old }
        ensures shaped { OnOk result (IsShaped self.new) }
    {
        push_few(&mut self.numbers, from.row(place))?;
        self.push_like(from, place, demands)?;
        Ok(())
    }

    /// Appends the term of an alike list at this place, from 0, with its demands lowered by this.
    #[inline(always)]
    pub(crate) fn push(&mut self, from: &Terms, place: usize, less: u64) -> Result<(), AllocError>
        requires alike { AreAlike self.old from.now }
        requires shaped { IsShaped self.old × IsShaped from.now }
        requires within { place < length from.now.demands.items }
        requires less { less ≤ (term_at from.now place).head.demands }
        ensures pushed { OnOk result (all_terms self.new
            ≡ all_terms self.old ++ lowered less (term_at from.now place) ∷ []) }
        ensures alike { AreAlike self.new self.old }
        ensures shaped { OnOk result (IsShaped self.new) }
    {
        self.push_as(from, place, from.demands[place] - less)
    }

    /// Appends the terms of an alike list from one place up to another, with their demands lowered
    /// by this.
    #[inline(always)]
    pub(crate) fn push_part(
        &mut self,
        from: &Terms,
        start: usize,
        end: usize,
        less: u64,
    ) -> Result<(), AllocError>
        requires alike { AreAlike self.old from.now }
        requires order { AreInOrder self.old × AreInOrder from.now }
        requires may { MayCome from.now self.old less start end }
        ensures pushed { OnOk result (all_terms self.new
            ≡ all_terms self.old ++ map (lowered less) (part start end (all_terms from.now))) }
        ensures alike { AreAlike self.new self.old }
        ensures order { OnOk result (AreInOrder self.new) }
    {
        for place in start..end {
            self.push(from, place, less)?;
        }
        Ok(())
    }
}
