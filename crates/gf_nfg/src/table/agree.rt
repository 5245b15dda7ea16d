//! Whether two tables are the same to play.

ghost use Rattle.std.specs.Prelude.{◌≡◌, ◌↔◌, IfOk, IsTrue};
ghost use Rattle.gf_nfg.specs.SameTable.{SamePlay};
ghost use Rattle.gf_nfg.specs.inner.TextParts.{frame_by};

use crate::table::Table;
use crate::table::classes::Classes;
use crate::table::frame::Frame;
use crate::table::rows::Rows;
use gf_fraction::Fraction;
use gf_token::Names;
use std::alloc::{AllocError, Global};

/// Whether both are the same; title and comment count if `names` are kept.
pub(crate) fn same_frame(a: &Frame, b: &Frame, names: Names) -> bool
    ensures { IsTrue result ↔ (frame_by names a.now ≡ frame_by names b.now) }
{
    names.agree(a.title(), b.title()) && names.agree(a.comment(), b.comment()) && a.plays_as(b)
}

/// Whether both rows are the same.
#[tactic(auto, using(crate::proofs::lemmas::tables::Agreement::same_by_payoffs))]
pub(crate) fn same_row(a: &[Fraction], b: &[Fraction]) -> bool
    ensures { IsTrue result ↔ (a.now ≡ b.now) }
{
    a == b
}

/// Whether both have the same rows.
#[tactic(auto, using(crate::proofs::lemmas::tables::Agreement::same_more))]
fn same_rows(a: &Rows, b: &Rows) -> bool
    ensures { IsTrue result ↔ (a.now ≡ b.now) }
{
    if a.len() != b.len() {
        return false;
    }
    for place in 0..a.len() {
        if !same_row(a.row(place), b.row(place)) {
            return false;
        }
    }
    true
}

/// Whether both have the same rows. If profiles share rows in both, rows that were found to be the
/// same are in one class from then on, so there are fewer comparisons than the two have rows. Two
/// files that number the same outcomes in the same way need no classes.
pub(crate) fn same_kept_rows(alloc: Global, a: &Rows, b: &Rows) -> Result<bool, AllocError>
    ensures { IfOk result (λ answer. IsTrue answer ↔ (a.now ≡ b.now)) }
{
    let (Some((left, m)), Some((right, n))) = (a.shared(), b.shared()) else {
        return Ok(same_rows(a, b));
    };
    if m.len() != n.len() {
        return Ok(false);
    }
    if m == n && left.is_kept_as(right) {
        return Ok(true);
    }
    let mut classes = Classes::new(alloc, left.len() + right.len())?;
    for place in 0..m.len() {
        let (m, n) = (m[place] as usize, n[place] as usize);
        if classes.unite(m, left.len() + n) && !same_row(left.row(m), right.row(n)) {
            return Ok(false);
        }
    }
    Ok(true)
}

impl Table {
    /// Whether the players, the labels of their strategies and the payoffs at each profile are the
    /// same in both. Titles and comments do not count. This takes no memory.
    ///
    /// It takes time for each payoff that is spelled, and a file in outcome version can spell a
    /// hundred thousand of them for each of its bytes. `plays_alike` takes time only for what the
    /// tables keep.
    pub fn play_agrees(&self, o: &Table) -> bool
        ensures { IsTrue result ↔ SamePlay self.now o.now }
    {
        self.frame().plays_as(o.frame()) && same_rows(self.rows(), o.rows())
    }

    /// What `play_agrees` returns, in time that grows with what both tables keep: the payoffs of
    /// each outcome, and the number of the outcome at each profile. This takes memory for a place
    /// for each outcome.
    ///
    /// # Errors
    ///
    /// `AllocError` if memory is refused.
    // No edit: `Table::play_agrees` has one, and proofs of gf_canon rely on this.
    pub fn plays_alike(&self, alloc: Global, o: &Table) -> Result<bool, AllocError>
        ensures { IfOk result (λ answer. IsTrue answer ↔ SamePlay self.now o.now) }
    {
        Ok(self.frame().plays_as(o.frame()) && same_kept_rows(alloc, self.rows(), o.rows())?)
    }
}
