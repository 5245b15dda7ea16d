//! Tables that are only compared: most take less memory than a `Table`.

ghost use Rattle.std.specs.Prelude.{◌≡◌, [], ℕ, List, IfOk, IfSome};
ghost use Rattle.std.specs.List.{flat_map};
ghost use Rattle.gf_fraction.specs.Ratio.{whole};
ghost use Rattle.gf_nfg.specs.Limit.{IsWithinLimit};
ghost use Rattle.gf_nfg.specs.Table.{IsTable, rows};
ghost use Rattle.gf_nfg.specs.TableText.{SpellsTable};
ghost use Rattle.gf_nfg.specs.inner.ListedTable.{IsListing};
ghost use Rattle.gf_nfg.specs.inner.ToldTable.{HasToldTable};

use crate::heading::Heading;
use crate::receive::{Kept, Receive, Version};
use crate::table::Table;
use crate::table::frame::Frame;
use crate::table::payoffs_in_turn::PayoffsInTurn;
use crate::table::rows::Rows;
use gf_fraction::Fraction;
use std::alloc::{AllocError, Global};
use std::marker::Model;

/// The whole number that a payoff is, if it fits 64 bits.
#[inline(always)]
fn small(payoff: Fraction) -> Option<i64>
    ensures { IfSome result (λ n. payoff ≡ whole n) }
{
    if payoff.den() != 1 {
        return None;
    }
    i64::try_from(payoff.num()).ok()
}

/// A receiver that keeps payoffs and numbers. In payoff version the first payoffs take 8 bytes
/// each, as long as they are whole numbers that fit 64 bits.
#[derive(Drop)]
pub(crate) struct Listing {
    whole: Vec<i64>,
    /// No payoff was kept elsewhere, and the next one may be small.
    small: bool,
    /// The other payoffs, and all of them in outcome version.
    kept: Kept,
}

impl Listing {
    /// Nothing yet.
    pub(crate) fn new(alloc: Global) -> Listing
        ensures whole { result.whole.items ≡ [] }
        ensures kept { (result.kept.payoffs.items ≡ []) × (result.kept.numbers.items ≡ []) }
    {
        Listing {
            whole: Vec::new(alloc),
            small: false,
            kept: Kept::new(alloc),
        }
    }
}

impl<'a> Receive<'a> for Listing {
    ghost use Rattle.std.specs.Prelude.{◌≡◌, ◌≤◌, ◌⊎◌, [], vec_capacity, vec_len};
    ghost use Rattle.gf_nfg.specs.inner.ListedTable.{IsListing};

    ghost untold = { λ l. (l.whole.items ≡ [])
        × (l.kept.payoffs.items ≡ []) × (l.kept.numbers.items ≡ []) };

    ghost holds = { λ _ l told. IsListing l told };

    ghost payoffs_full = { λ l. (vec_capacity l.whole ≤ vec_len l.whole)
        ⊎ (vec_capacity l.kept.payoffs ≤ vec_len l.kept.payoffs) };

    ghost numbers_full = { λ l. vec_capacity l.kept.numbers ≤ vec_len l.kept.numbers };

    fn heading(
        &mut self,
        _heading: &Heading<'a>,
        version: Version,
        expected: usize,
    ) -> Result<(), AllocError> {
        match version {
            Version::Payoffs => {
                self.whole.reserve(expected)?;
                self.small = true;
            }
            Version::Outcomes => {
                self.kept.numbers.reserve(expected)?;
                self.small = false;
            }
        }
        Ok(())
    }

    #[inline(always)]
    fn payoff(&mut self, payoff: Fraction) -> Result<(), AllocError> {
        if self.small {
            if let Some(number) = small(payoff) {
                self.whole.push(number)?;
                return Ok(());
            }
        }
        self.kept.payoffs.push(payoff)?;
        self.small = false;
        Ok(())
    }

    #[inline(always)]
    fn number(&mut self, number: u32) -> Result<(), AllocError> {
        self.kept.numbers.push(number)?;
        Ok(())
    }
}

/// A table, by what is kept of its payoffs.
#[derive(Drop)]
enum Body {
    /// Those of the profiles in turn: whole numbers, and then others.
    InTurn(Frame, Vec<i64>, Vec<Fraction>),
    /// Rows that profiles share.
    Shared(Table),
}

/// A table that is only compared.
#[derive(Drop)]
pub struct ListedTable {
    body: Body,
}

impl Model for ListedTable {
    ghost use Rattle.gf_nfg.specs.Table.{Table as table};
    ghost use Rattle.gf_nfg.specs.inner.ListedTable.{IsListed, listed};

    ghost Value = { table };

    ghost view = { λ t. listed t.body };

    ghost invariant = { λ t. IsListed t.body };
}

impl ListedTable {
    /// The table that was told with this heading.
    pub(crate) fn told(
        alloc: Global,
        heading: &Heading<'_>,
        listing: Listing,
    ) -> Result<ListedTable, AllocError>
        requires { (bytes : List ℕ) × HasToldTable IsListing bytes heading.now listing }
        ensures { IfOk result (λ t. (bytes : List ℕ)
            → HasToldTable IsListing bytes heading.now listing
            → SpellsTable bytes t × IsWithinLimit t) }
    {
        let Listing { whole, kept, .. } = listing;
        if kept.numbers.is_empty() {
            let frame = heading.frame(alloc)?;
            return Ok(ListedTable {
                body: Body::InTurn(frame, whole, kept.payoffs),
            });
        }
        let table = heading.table(alloc, kept)?;
        Ok(ListedTable {
            body: Body::Shared(table),
        })
    }

    /// Everything except the payoffs.
    pub(crate) fn frame(&self) -> &Frame
        ensures is_table { IsTable self.now }
        ensures frame { result.now ≡ record {
          title = self.now.title;
          comment = self.now.comment;
          players = self.now.players;
          strategies = self.now.strategies;
        } }
    {
        match &self.body {
            Body::InTurn(frame, _, _) => frame,
            Body::Shared(table) => table.frame(),
        }
    }

    /// The payoffs of all profiles in turn.
    pub(crate) fn payoffs_in_turn(&self) -> PayoffsInTurn<'_>
        ensures { result ≡ flat_map (λ row. row) (rows self.now) }
    {
        match &self.body {
            Body::InTurn(_, whole, others) => PayoffsInTurn::of_lists(whole, others),
            Body::Shared(table) => PayoffsInTurn::new(table.rows()),
        }
    }

    /// The payoffs at each profile, if profiles share them.
    pub(crate) fn shared(&self) -> Option<&Rows>
        ensures { IfSome result (λ own. own.now ≡ rows self.now) }
    {
        match &self.body {
            Body::InTurn(_, _, _) => None,
            Body::Shared(table) => Some(table.rows()),
        }
    }
}
