//! All of a strategic file except its payoffs, as it was read, and the table that it means with them.

ghost use Rattle.std.specs.Prelude.{◌≡◌, List, ℕ, IfOk};
ghost use Rattle.gf_nfg.specs.inner.Machine.{nothing};
ghost use Rattle.gf_nfg.specs.inner.Meaning.{IsComplete, frame_in, rows_by, table_of};
ghost use Rattle.gf_nfg.specs.inner.ReaderState.{HasCounts, content_in, content_of};
ghost use Rattle.gf_nfg.specs.inner.ToldTable.{MeansTable};

use crate::limit::ProfileCount;
use crate::receive::Kept;
use crate::table::Table;
use crate::table::frame::Frame;
use crate::table::rows::Rows;
use crate::table::strategies::StrategyLists;
use gf_token::Label;
use std::alloc::{AllocError, Global};

/// What comes before the payoffs of a strategic file. Its labels are slices of the input.
#[derive(Drop)]
pub struct Heading<'a> {
    pub title: Label<'a>,
    /// Empty if the file has none.
    pub comment: Label<'a>,
    pub players: Vec<Label<'a>>,
    /// How many strategies each player has.
    pub counts: Vec<u32>,
    /// The strategies' labels in turn; none if the file gives only counts.
    pub labels: Vec<Label<'a>>,
    /// The product of the counts.
    pub profiles: ProfileCount,
}

impl<'a> Heading<'a> {
    /// What was read before the first token.
    pub(crate) fn new(alloc: Global) -> Heading<'a>
        ensures { content_in result ≡ nothing }
    {
        let empty = Label::of_spelling(b"");
        Heading {
            title: empty,
            comment: empty,
            players: Vec::new(alloc),
            counts: Vec::new(alloc),
            labels: Vec::new(alloc),
            profiles: ProfileCount::one(),
        }
    }

    /// The players' strategies, in memory of their own.
    fn strategies(&self, alloc: Global) -> Result<StrategyLists, AllocError>
        ensures { IfOk result (λ lists. lists ≡ (frame_in (content_in self.now)).strategies) }
    {
        if self.labels.is_empty() {
            StrategyLists::counted(alloc, &self.counts)
        } else {
            StrategyLists::grouped(alloc, &self.counts, &self.labels)
        }
    }

    /// The title, the comment, the players and their strategies, in memory of their own.
    #[tactic(auto, using(crate::proofs::lemmas::tables::Strategies::as_many_lists))]
    pub(crate) fn frame(&self, alloc: Global) -> Result<Frame, AllocError>
        requires { HasCounts self.now }
        ensures { IfOk result (λ frame. frame ≡ frame_in (content_in self.now)) }
    {
        let strategies = self.strategies(alloc)?;
        Frame::new(alloc, self.title, self.comment, &self.players, strategies)
    }

    /// A row for each profile, of the payoffs behind the heading. These are not copied.
    #[tactic(auto, using(crate::proofs::lemmas::tables::Meaning::rows_of_parts))]
    pub(crate) fn rows(&self, alloc: Global, kept: Kept) -> Result<Rows, AllocError>
        requires { IsComplete (content_of self.now kept) }
        ensures { IfOk result
            (λ rows. rows ≡ rows_by (content_of self.now kept) kept.numbers.items) }
    {
        let (players, profiles) = (self.players.len(), self.profiles.count);
        Rows::new(alloc, players, profiles, kept.payoffs, kept.numbers)
    }

    /// The table that the heading and what is behind it mean.
    pub(crate) fn table(&self, alloc: Global, kept: Kept) -> Result<Table, AllocError>
        requires { (bytes : List ℕ) × MeansTable bytes (content_of self.now kept) }
        ensures { IfOk result (λ t. t ≡ table_of (content_of self.now kept)) }
    {
        let frame = self.frame(alloc)?;
        let rows = self.rows(alloc, kept)?;
        Ok(Table::of_parts(frame, rows))
    }
}
