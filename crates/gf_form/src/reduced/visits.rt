//! The visits of a player to their sets: the ways to come to them, as far as their own moves
//! distinguish them.

ghost use Rattle.std.specs.Prelude.{◌≡◌, ◌≤◌, false, true};
ghost use Rattle.std.specs.List.Sorted.{IsNonDecreasingBy};
ghost use Rattle.gf_form.specs.declared.reduced.visits.Visit.{Visit};
ghost use Rattle.gf_form.specs.inner.reduced.Visits.{HoldTheSame, order_of};

/// A way to come to a set.
#[derive(Clone, Copy, PartialEq, Eq)]
pub(crate) struct Visit {
    /// The choices that it demands of the player, by the digits of their sets.
    pub demands: u64,
    /// The place of the set, from 0: among the player's, or, in the search, among those with a
    /// digit.
    pub set: u32,
}

impl Visit {
    /// A number that orders visits by demands, and those with the same demands by set.
    fn order(self) -> u128
        ensures { result ≡ order_of self }
    {
        u128::from(self.demands) * (1 << 32) + u128::from(self.set)
    }

    /// Whether this visit comes before another one, by demands, and then by set.
    pub(crate) fn is_before(self, other: Visit) -> bool
        ensures before { result ≡ true → self.demands ≤ other.demands }
        ensures after { result ≡ false → other.demands ≤ self.demands }
    {
        self.demands < other.demands || self.demands == other.demands && self.set < other.set
    }
}

/// Puts visits in order of demands, and those with the same demands in order of sets: in one pass
/// if they are in order. They are not hashed, since a file could choose visits that collide.
pub(crate) fn put_in_order(visits: &mut Vec<Visit>)
    ensures same { HoldTheSame visits.old.items visits.new.items }
    ensures ordered { IsNonDecreasingBy (λ (v : Visit). v.demands) visits.new.items }
{
    visits.sort_unstable_by_key(|visit| visit.order());
}

/// Drops each visit that repeats the one before it.
pub(crate) fn drop_repeats(visits: &mut Vec<Visit>)
    ensures { HoldTheSame visits.old.items visits.new.items }
{
    visits.dedup();
}
