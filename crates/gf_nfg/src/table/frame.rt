//! A table without its payoffs.

ghost use Rattle.std.specs.Prelude.{◌≡◌, ◌<◌, ◌↔◌, Some, IfOk, IsTrue, length, map, slice_get};
ghost use Rattle.gf_token.specs.Label.{label_of};
ghost use Rattle.gf_nfg.specs.inner.TableParts.{own_of};

use crate::table::labels::Labels;
use crate::table::strategies::StrategyLists;
use gf_token::Label;
use std::alloc::{AllocError, Global};
use std::marker::Model;

/// A table without its payoffs: its title, its comment, its players and their strategies.
#[derive(Drop)]
pub(crate) struct Frame {
    title_and_comment: Labels,
    players: Labels,
    strategies: StrategyLists,
}

impl Model for Frame {
    ghost use Rattle.gf_nfg.specs.inner.TableParts.{AreFrameParts, Frame, frame_of};

    ghost Value = { Frame };

    ghost view = { λ f. frame_of f.title_and_comment f.players f.strategies };

    ghost invariant = { λ f. AreFrameParts f.title_and_comment f.players f.strategies };
}

impl Frame {
    /// The players have these strategies, a list for each.
    pub(crate) fn new(
        alloc: Global,
        title: Label<'_>,
        comment: Label<'_>,
        players: &[Label<'_>],
        strategies: StrategyLists,
    ) -> Result<Frame, AllocError>
        requires { length strategies ≡ length players.now }
        ensures { IfOk result (λ frame. frame ≡ record {
          title = label_of title.entry;
          comment = label_of comment.entry;
          players = map label_of players.now;
          strategies = strategies;
        }) }
    {
        let mut title_and_comment = Labels::new(alloc);
        title_and_comment.extend(&[title, comment])?;
        let mut names = Labels::new(alloc);
        names.extend(players)?;
        Ok(Frame {
            title_and_comment,
            players: names,
            strategies,
        })
    }

    /// How many bytes the labels have in a text, with their quotes and a byte after each.
    pub(crate) fn room(&self) -> usize {
        let lists = [
            &self.title_and_comment,
            &self.players,
            self.strategies.labels(),
        ];
        let mut room: usize = 0;
        for list in lists {
            room = room.saturating_add(list.size());
            room = room.saturating_add(list.len().saturating_mul(3));
        }
        room
    }

    pub(crate) fn title(&self) -> Label<'_>
        ensures { label_of result ≡ self.now.title }
    {
        self.title_and_comment.label(0)
    }

    pub(crate) fn comment(&self) -> Label<'_>
        ensures { label_of result ≡ self.now.comment }
    {
        self.title_and_comment.label(1)
    }

    /// Whether both have the same players with the same strategies.
    pub(crate) fn plays_as(&self, o: &Frame) -> bool
        ensures { IsTrue result
            ↔ ((self.now.players ≡ o.now.players) × (self.now.strategies ≡ o.now.strategies)) }
    {
        self.players.is_same(&o.players) && self.strategies.is_same(&o.strategies)
    }

    /// How many players there are.
    pub(crate) fn players(&self) -> usize
        ensures players { result ≡ length self.now.players }
        ensures one_list_each { length self.now.strategies ≡ length self.now.players }
    {
        self.players.len()
    }

    /// The name of the player at this place, from 0.
    pub(crate) fn player(&self, at: usize) -> Label<'_>
        requires { at < length self.now.players }
        ensures { slice_get self.now.players at ≡ Some (label_of result) }
    {
        self.players.label(at)
    }

    /// The strategies of each player.
    pub(crate) fn lists(&self) -> &StrategyLists
        ensures { result.now ≡ self.now.strategies }
    {
        &self.strategies
    }

    /// The strategies of each player, without the rest.
    pub(crate) fn into_lists(self) -> StrategyLists
        ensures { result ≡ self.strategies }
    {
        self.strategies
    }

    /// How many strategies the player at this place has.
    pub(crate) fn strategies(&self, at: usize) -> usize
        requires { at < length self.now.players }
        ensures { result ≡ length (own_of self.now at) }
    {
        self.strategies.count(at)
    }

    /// The label of a strategy of the player at this place.
    pub(crate) fn strategy(&self, at: usize, strategy: usize) -> Label<'_>
        requires { strategy < length (own_of self.now at) }
        ensures { slice_get (own_of self.now at) strategy ≡ Some (label_of result) }
    {
        self.strategies.label(at, strategy)
    }
}
