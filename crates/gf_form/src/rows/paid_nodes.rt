//! The nodes that pay somebody something, among those that choices can reach.

ghost use Rattle.std.specs.Prelude.{◌≡◌, IfOk, IfSome, false, map, true};
ghost use Rattle.std.specs.List.Sorted.{IsNonDecreasingBy};
ghost use Rattle.gf_form.specs.inner.rows.KeptNodes.{paid_reached};
ghost use Rattle.gf_form.specs.inner.rows.SummedNodes.{HaveSharesOf, IsNodeSum, IsPathSum};
ghost use Rattle.gf_form.specs.inner.values.PaidRows.{rows_of};
ghost use Rattle.gf_form.specs.Strategies.{choices_by};
ghost use Rattle.gf_form.specs.declared.rows.paths.Path.{Path};

use crate::rows::descent::{Descent, Steps};
use crate::rows::digits::Digits;
use crate::rows::paths::Path;
use crate::rows::sums::{scale_of, times};
use crate::rows::terms::Head;
use crate::values::payoffs::Payoffs;
use gf_tree::Game;
use std::alloc::{AllocError, Global};

/// Greater than each position of an outcome.
const RADIX: u128 = 1 << 32;

/// What a path demands, and what its weight is over.
#[inline(always)]
fn head_of(path: Path) -> Head
    ensures { result ≡ record { demands = path.demands; den = path.den; size = path.bound } }
{
    Head {
        demands: path.demands,
        den: path.den,
        size: path.bound,
    }
}

/// What the nodes at the ends of two paths add together, if they demand the same and pay the same
/// outcome: over the least denominator that serves both. `None` if the numbers do not fit.
#[inline(always)]
fn sum_of(a: Path, b: Path) -> Option<Path>
    ensures sum { IfSome result (IsPathSum a b) }
    ensures demands { IfSome result (λ sum. sum.demands ≡ a.demands) }
    ensures outcome { IfSome result (λ sum. sum.outcome ≡ a.outcome) }
{
    let scale = scale_of(head_of(a), head_of(b))?;
    let own = times(a.weight, scale.first)?;
    let other = times(b.weight, scale.second)?;
    Some(Path {
        weight: own.checked_add(other)?,
        bound: scale.size,
        den: scale.den,
        ..a
    })
}

impl Path {
    /// A number that orders nodes by demands, those with the same demands by outcome, and those
    /// with the same outcome by denominator, as far as its last digits go.
    fn order(self) -> u128 {
        let demands = self.demands as u128;
        let outcome = self.outcome as u128;
        (demands * RADIX + outcome) * RADIX + self.den % RADIX
    }

    /// Adds another node to this one, if it has the same demands and outcome. If the sum does not
    /// fit, it is not known; then what the nodes add would not fit either.
    #[inline(always)]
    fn absorbs(&mut self, other: Path) -> bool
        ensures sum { result ≡ true → IsNodeSum self.old other self.new }
        ensures same { result ≡ false → self.new ≡ self.old }
    {
        if self.demands != other.demands || self.outcome != other.outcome {
            return false;
        }
        *self = match sum_of(*self, other) {
            Some(sum) => sum,
            None => self.unknown(),
        };
        true
    }
}

/// These nodes in prefix order.
fn paid_nodes(
    alloc: Global,
    game: &Game<'_>,
    digits: &Digits,
    payoffs: &Payoffs<'_>,
) -> Result<Vec<Path>, AllocError>
    ensures { IfOk result (λ nodes. nodes.items ≡ paid_reached (rows_of payoffs.now) game.now
        (choices_by game.now (map (λ own. own.items) digits.now.steps.items))) }
{
    let mut nodes = Vec::new(alloc);
    let mut walk = Descent::new(alloc, game, Steps::All(&digits.steps), Path::root());
    while let Some((branch, path)) = walk.next()? {
        let node = path.met_node(&branch);
        if !payoffs.at(node.outcome).is_empty() {
            nodes.push(node)?;
        }
    }
    Ok(nodes)
}

/// Adds up neighbours with the same demands and outcome.
fn add_up(nodes: &mut Vec<Path>)
    ensures { HaveSharesOf nodes.old.items nodes.new.items }
{
    // First those over the same denominator, which takes no division.
    nodes.dedup_by(|node, last| node.den == last.den && last.absorbs(*node));
    nodes.dedup_by(|node, last| last.absorbs(*node));
}

/// These nodes in order of demands, with those that have the same demands and outcome as one.
pub(crate) fn paid_sums(
    alloc: Global,
    game: &Game<'_>,
    digits: &Digits,
    payoffs: &Payoffs<'_>,
) -> Result<Vec<Path>, AllocError>
    ensures shares { IfOk result (λ nodes. HaveSharesOf (paid_reached (rows_of payoffs.now) game.now
        (choices_by game.now (map (λ own. own.items) digits.now.steps.items))) nodes.items) }
    ensures ordered { IfOk result
        (λ nodes. IsNonDecreasingBy (λ (r : Path). r.demands) nodes.items) }
{
    let mut nodes = paid_nodes(alloc, game, digits, payoffs)?;
    nodes.sort_unstable_by_key(|node| node.order());
    add_up(&mut nodes);

    // They are still in order, so this takes one pass.
    nodes.sort_unstable_by_key(|node| node.demands);
    Ok(nodes)
}
