//! A strategic file that is compared with a table while it is read.

ghost use Rattle.std.specs.Prelude.{◌≡◌, ◌↔◌, [], ℕ, List, IfErr, IfOk, IsTrue};
ghost use Rattle.std.specs.List.{flat_map};
ghost use Rattle.gf_nfg.specs.declared.comparison.CompareFault.{CompareFault};
ghost use Rattle.gf_nfg.specs.inner.ComparedTable.{IsCompared};
ghost use Rattle.gf_nfg.specs.Judgement.{IsNotCompared};
ghost use Rattle.gf_nfg.specs.Limit.{IsWithinLimit};
ghost use Rattle.gf_nfg.specs.NamedBy.{named_by};
ghost use Rattle.gf_nfg.specs.SameTable.{SameTable};
ghost use Rattle.gf_nfg.specs.Table.{Table as table, rows};
ghost use Rattle.gf_nfg.specs.TableText.{SpellsTable};
ghost use Rattle.gf_nfg.specs.inner.Meaning.{frame_in, table_of};
ghost use Rattle.gf_nfg.specs.inner.ReaderState.{HasCounts, content_in, content_of};
ghost use Rattle.gf_nfg.specs.inner.TextParts.{frame_by};
ghost use Rattle.gf_nfg.specs.inner.ToldTable.{HasToldTable, MeansTable};

use crate::heading::Heading;
use crate::listed::ListedTable;
use crate::read::tell_nfg;
use crate::receive::{Kept, Receive, Version};
use crate::table::Table;
use crate::table::agree::{same_frame, same_kept_rows};
use crate::table::frame::Frame;
use crate::table::payoffs_in_turn::{PayoffsInTurn, same_left};
use gf_fraction::Fraction;
use gf_token::{Fault, Names};
use std::alloc::{AllocError, Global};

/// A comparison of a table with a file that is told.
#[derive(Drop)]
pub(crate) struct Comparison<'t> {
    /// What is left of the table's payoffs. After a difference it stands still.
    left: PayoffsInTurn<'t>,
    /// No difference was found.
    same: bool,
    version: Version,
    /// In outcome version payoffs and numbers, which are compared at the end.
    kept: Kept,
}

impl<'t, 'a> Receive<'a> for Comparison<'t> {
    ghost use Rattle.std.specs.Prelude.{◌≡◌, ◌≤◌, [], IsTrue, vec_capacity, vec_len};
    ghost use Rattle.gf_nfg.specs.inner.ComparedTable.{IsCompared};

    ghost untold = { λ c. IsTrue c.same
        × (c.kept.payoffs.items ≡ []) × (c.kept.numbers.items ≡ []) };

    ghost holds = { λ untold c told. IsCompared untold.left c told };

    ghost payoffs_full = { λ c. vec_capacity c.kept.payoffs ≤ vec_len c.kept.payoffs };

    ghost numbers_full = { λ c. vec_capacity c.kept.numbers ≤ vec_len c.kept.numbers };

    fn heading(
        &mut self,
        _heading: &Heading<'a>,
        version: Version,
        expected: usize,
    ) -> Result<(), AllocError> {
        self.version = version;
        match version {
            Version::Payoffs => Ok(()),
            Version::Outcomes => self.kept.numbers.reserve(expected),
        }
    }

    #[inline(always)]
    fn payoff(&mut self, payoff: Fraction) -> Result<(), AllocError> {
        match self.version {
            Version::Payoffs => {
                if self.same {
                    self.same = match self.left.next() {
                        Some(other) => other == payoff,
                        None => false,
                    };
                }
                Ok(())
            }
            Version::Outcomes => {
                self.kept.payoffs.push(payoff)?;
                Ok(())
            }
        }
    }

    #[inline(always)]
    fn number(&mut self, number: u32) -> Result<(), AllocError> {
        self.kept.numbers.push(number)?;
        Ok(())
    }
}

impl<'t> Comparison<'t> {
    /// Nothing was told.
    fn new(alloc: Global, t: &'t ListedTable) -> Comparison<'t>
        ensures left { result.left ≡ flat_map (λ row. row) (rows t.entry.now) }
        ensures same { IsTrue result.same }
        ensures kept { (result.kept.payoffs.items ≡ []) × (result.kept.numbers.items ≡ []) }
    {
        Comparison {
            left: t.payoffs_in_turn(),
            same: true,
            version: Version::Payoffs,
            kept: Kept::new(alloc),
        }
    }

    /// Whether the table is the same as that which was told with this heading; title and comment
    /// count if `names` are kept.
    fn is_same(
        mut self,
        alloc: Global,
        t: &ListedTable,
        heading: &Heading<'_>,
        names: Names,
    ) -> Result<bool, AllocError>
        requires { (bytes : List ℕ) × HasToldTable
            (IsCompared (flat_map (λ row. row) (rows t.now))) bytes heading.now self }
        ensures { (bytes : List ℕ) → HasToldTable
            (IsCompared (flat_map (λ row. row) (rows t.now))) bytes heading.now self.entry
            → (u : table) × SpellsTable bytes u × IsWithinLimit u × IfOk result (λ answer.
            IsTrue answer ↔ SameTable (named_by names t.now) (named_by names u)) }
    {
        match self.version {
            Version::Payoffs => self.ends_with(alloc, t.frame(), heading, names),
            Version::Outcomes => same_parts(alloc, t, heading, self.kept, names),
        }
    }

    /// Whether a heading is the same as this frame, and nothing is left to compare; title and
    /// comment count if `names` are kept.
    fn ends_with(
        &mut self,
        alloc: Global,
        own: &Frame,
        heading: &Heading<'_>,
        names: Names,
    ) -> Result<bool, AllocError>
        requires { HasCounts heading.now }
        ensures { IfOk result (λ answer. IsTrue answer
            ↔ ((frame_by names own.now ≡ frame_by names (frame_in (content_in heading.now)))
            × (IsTrue self.old.same × (self.old.left ≡ [])))) }
    {
        let frame = heading.frame(alloc)?;
        let same = same_frame(own, &frame, names);
        // A call is cheaper to check than the drop where the scope ends.
        drop(frame);
        Ok(same && self.same && self.left.next().is_none())
    }
}

/// Whether this heading and what was kept mean the same table; title and comment count if `names` are
/// kept.
fn same_parts(
    alloc: Global,
    t: &ListedTable,
    heading: &Heading<'_>,
    kept: Kept,
    names: Names,
) -> Result<bool, AllocError>
    requires { (bytes : List ℕ) × MeansTable bytes (content_of heading.now kept) }
    ensures { IfOk result (λ answer. IsTrue answer ↔ SameTable (named_by names t.now)
        (named_by names (table_of (content_of heading.now kept)))) }
{
    let other = heading.table(alloc, kept)?;
    let same = same_table(alloc, t, &other, names);
    drop(other);
    same
}

/// Whether both tables are the same; title and comment count if `names` are kept.
#[tactic(auto, using(crate::proofs::lemmas::tables::Listed::same_listed))]
fn same_table(
    alloc: Global,
    t: &ListedTable,
    other: &Table,
    names: Names,
) -> Result<bool, AllocError>
    ensures { IfOk result (λ answer. IsTrue answer
        ↔ SameTable (named_by names t.now) (named_by names other.now)) }
{
    if !same_frame(t.frame(), other.frame(), names) {
        return Ok(false);
    }
    match t.shared() {
        Some(own) => same_kept_rows(alloc, own, other.rows()),
        None => Ok(same_left(t.payoffs_in_turn(), PayoffsInTurn::new(other.rows()))),
    }
}

/// Why a file is not compared with a table.
#[derive(Clone, Copy)]
pub enum CompareFault {
    /// The file is refused with this fault.
    Refused(Fault),
    /// It is accepted, and memory to compare it is refused.
    Memory,
}

impl From<Fault> for CompareFault {
    ghost from_gives = { λ fault refused. refused ≡ CompareFault.Refused fault };

    fn from(fault: Fault) -> CompareFault {
        CompareFault::Refused(fault)
    }
}

impl From<AllocError> for CompareFault {
    ghost from_gives = { λ _ fault. fault ≡ CompareFault.Memory };

    fn from(_: AllocError) -> CompareFault {
        CompareFault::Memory
    }
}

/// Whether a strategic file means the same table as this one, with which it is compared while it is
/// read; title and comment count if `names` are kept.
///
/// # Errors
///
/// - `Refused`: the file is refused, as `read_nfg` refuses.
/// - `Memory`: it is accepted, and memory to compare it is refused.
pub fn compare_nfg(
    alloc: Global,
    t: &ListedTable,
    input: &[u8],
    names: Names,
) -> Result<bool, CompareFault>
    ensures same { IfOk result (λ answer. (u : table) × SpellsTable input.now u × IsWithinLimit u
        × (IsTrue answer ↔ SameTable (named_by names t.now) (named_by names u))) }
    ensures refused { IfErr result (IsNotCompared input.now) }
{
    let mut comparison = Comparison::new(alloc, t);
    let heading = tell_nfg(alloc, input, &mut comparison)?;
    let same = comparison.is_same(alloc, t, &heading, names);
    drop(heading);
    Ok(same?)
}
