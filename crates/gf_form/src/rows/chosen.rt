//! Which of some terms count at an action of the slowest digit, by their places.

ghost use Rattle.std.specs.Prelude.{◌+◌, ◌*◌, ◌<◌, ◌≤◌, ◌^◌, ℕ, List, length};
ghost use Rattle.std.specs.List.Sorted.{IsNonDecreasing};
ghost use Rattle.gf_form.specs.inner.rows.TermLists.{AreChosen, AreWithin, CountsBelow};

/// The terms that demand nothing at the slowest digit, and those that demand an action there.
#[derive(Clone, Copy)]
pub(crate) struct Chosen {
    /// The action, by its position; 0 if these are none yet.
    pub action: u64,
    /// How many demand nothing there. They are the first ones.
    pub free: usize,
    /// The place of the first one that demands the action, and that after the last one, from 0.
    pub start: usize,
    pub end: usize,
}

/// How many of these demands, in order, are below a number. Quick if a guess is close.
pub(crate) fn count_near(demands: &[u64], number: u64, guess: usize) -> usize
    requires ordered { IsNonDecreasing demands.now }
    requires within { guess ≤ length demands.now }
    ensures { CountsBelow demands.now number result }
{
    let mut count = guess;
    while count > 0 && demands[count - 1] >= number {
        count -= 1;
    }
    while count < demands.len() && demands[count] < number {
        count += 1;
    }
    count
}

impl Chosen {
    /// No terms yet.
    pub(crate) fn none() -> Chosen
        ensures { (demands : List ℕ) → AreWithin demands result }
    {
        Chosen {
            action: 0,
            free: 0,
            start: 0,
            end: 0,
        }
    }

    /// The terms with these demands that count at this action of a digit with this step. Quick if
    /// these are those of the action before it.
    pub(crate) fn next(self, demands: &[u64], step: u64, action: u64) -> Chosen
        requires ordered { IsNonDecreasing demands.now }
        requires within { AreWithin demands.now self }
        requires fits { action * step + step < 2 ^ 64 }
        ensures chosen { AreChosen demands.now step action result }
        ensures within { AreWithin demands.now result }
    {
        let lowest = action * step;
        let free = count_near(demands, step, self.free);
        let start = count_near(demands, lowest, self.end.max(free));
        let end = count_near(demands, lowest + step, start);
        Chosen {
            action,
            free,
            start,
            end,
        }
    }
}
