//! Places in classes that are merged.

ghost use Rattle.std.specs.Prelude.{◌≡◌, ◌<◌, ℕ, List, IfOk, false, length};
ghost use Rattle.gf_fraction.specs.Ratio.{Ratio};
ghost use Rattle.gf_nfg.specs.inner.Classes.{ShareRows};

use std::alloc::{AllocError, Global};
use std::marker::Model;

/// Places from 0 on, each in one class. From parent to parent, each place leads to the root of its
/// class, which is its own parent.
#[derive(Drop)]
pub(crate) struct Classes {
    parents: Vec<usize>,
}

impl Model for Classes {
    ghost use Rattle.std.specs.Prelude.{List, ℕ};
    ghost use Rattle.gf_nfg.specs.inner.Classes.{LeadBack};

    ghost Value = { List ℕ };

    ghost view = { λ c. c.parents.items };

    ghost invariant = { λ c. LeadBack c.parents.items };
}

impl Classes {
    /// This many places, each in a class of its own.
    pub(crate) fn new(alloc: Global, places: usize) -> Result<Classes, AllocError>
        ensures places { IfOk result (λ classes. length classes ≡ places) }
        ensures rows { IfOk result
            (λ classes. (row : ℕ → List Ratio) → ShareRows row classes) }
    {
        let parents: Vec<usize> = (0..places).collect(alloc)?;
        Ok(Classes { parents })
    }

    /// The root of the class of this place. The places on the way are moved nearer to it, so that
    /// paths stay short.
    fn root(&mut self, place: usize) -> usize
        requires { place < length self.old }
        ensures is_place { result < length self.new }
        ensures places { length self.new ≡ length self.old }
        ensures rows { (row : ℕ → List Ratio) → ShareRows row self.old
            → ShareRows row self.new × (row result ≡ row place) }
    {
        let mut at = place;
        while self.parents[at] != at {
            let nearer = self.parents[self.parents[at]];
            self.parents[at] = nearer;
            at = nearer;
        }
        at
    }

    /// Merges the classes of two places. Returns whether they were different.
    pub(crate) fn unite(&mut self, a: usize, b: usize) -> bool
        requires first { a < length self.old }
        requires second { b < length self.old }
        ensures places { length self.new ≡ length self.old }
        ensures known { (row : ℕ → List Ratio) → result ≡ false → ShareRows row self.old
            → row a ≡ row b }
        ensures rows { (row : ℕ → List Ratio) → row a ≡ row b → ShareRows row self.old
            → ShareRows row self.new }
    {
        let first = self.root(a);
        let second = self.root(b);
        self.parents[first.max(second)] = first.min(second);
        first != second
    }
}
