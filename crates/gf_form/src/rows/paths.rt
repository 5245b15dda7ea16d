//! Paths to the nodes that choices can reach, and what they demand.
//!
//! Below a child of probability 0, nothing counts but whether its value is defined. That of a leaf
//! always is, and that of a player's node without an outcome is the value of a child. So a path is
//! idle there: it starts anew at the next node whose value is a sum, if there is one.

ghost use Rattle.std.specs.Prelude.{◌≡◌};
ghost use Rattle.gf_tree.specs.Branches.{game_of, tree_of};
ghost use Rattle.gf_tree.specs.Subtrees.{root_node};
ghost use Rattle.gf_form.specs.inner.rows.ReachedNodes.{by_chance, is_sum, met_node};
ghost use Rattle.gf_form.specs.inner.rows.ReachedNodes.{root_path};

use crate::rows::descent::Handed;
use crate::values::walk::chance_of;
use gf_fraction::Fraction;
use gf_tree::Branch;

/// A path from the root, to a node that choices can reach.
#[derive(Clone, Copy)]
pub(crate) struct Path {
    /// The product of the numerators of its probabilities.
    pub weight: u128,
    /// The same from where it started anew last; 0 if it is idle.
    pub bound: u128,
    /// The product of the denominators of its probabilities, from there on as well; 0 if a product
    /// does not fit.
    pub den: u128,
    /// The choices that it demands, by their digits.
    pub demands: u64,
    /// The position of the outcome at the last node that was met, among those of the game, from 1;
    /// 0 is none.
    pub outcome: u32,
}

impl Path {
    /// The path to the root.
    pub(crate) fn root() -> Path
        ensures { result ≡ root_path }
    {
        Path {
            weight: 1,
            bound: 1,
            den: 1,
            demands: 0,
            outcome: 0,
        }
    }

    /// The same, if its numbers do not fit.
    pub(crate) fn unknown(self) -> Path
        ensures { result ≡ record {
          weight = 0;
          bound = 1;
          den = 0;
          demands = self.demands;
          outcome = self.outcome;
        } }
    {
        Path {
            weight: 0,
            bound: 1,
            den: 0,
            ..self
        }
    }

    /// One step further, by an action of this probability.
    fn by_chance(self, chance: Fraction) -> Path
        ensures { result ≡ by_chance self chance }
    {
        let size = chance.num().unsigned_abs();
        let weight = self.weight.checked_mul(size);
        let bound = self.bound.checked_mul(size);
        let den = self.den.checked_mul(chance.den());
        match (weight, bound, den) {
            (Some(weight), Some(bound), Some(den)) => Path {
                weight,
                bound,
                den,
                ..self
            },
            _ => self.unknown(),
        }
    }

    /// This path up to its last node, which is the root of this branch. It starts anew there if it
    /// was idle and the node's value is a sum.
    pub(crate) fn met_node(self, branch: &Branch<'_, '_>) -> Path
        ensures { result ≡ met_node (game_of branch.now) self (root_node (tree_of branch.now)) }
    {
        let outcome = branch.outcome_position();
        if self.bound > 0 {
            return Path { outcome, ..self };
        }
        if !is_sum(branch) {
            return Path { outcome: 0, ..self };
        }
        Path {
            bound: 1,
            den: 1,
            outcome,
            ..self
        }
    }
}

/// Whether the value at the root of a branch is a sum.
fn is_sum(branch: &Branch<'_, '_>) -> bool
    ensures { result ≡ is_sum (game_of branch.now) (root_node (tree_of branch.now)) }
{
    match branch.mover() {
        None => false,
        Some((player, _)) => player == 0 || branch.outcome_position() > 0,
    }
}

impl Handed for Path {
    ghost use Rattle.gf_form.specs.inner.rows.ReachedNodes.{path_handing};

    ghost handing = { path_handing };

    fn demands(&self) -> u64 {
        self.demands
    }

    fn below(&self, node: &Branch<'_, '_>, position: usize, demands: u64) -> Path {
        let path = Path {
            demands,
            ..self.met_node(node)
        };
        match node.mover() {
            Some((0, _)) => path.by_chance(chance_of(node, position)),
            _ => path,
        }
    }
}
