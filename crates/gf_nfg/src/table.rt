//! Strategic files in memory: the players, their strategies, and the payoffs at each profile.

ghost use Rattle.std.specs.Prelude.{◌≡◌, ◌*◌, ◌<◌, ◌≤◌, IfOk, length, map};
ghost use Rattle.std.specs.Prelude.{MatchOption, min, option_and_then, option_map, vec_len};
ghost use Rattle.std.specs.List.{AllByRecursion};
ghost use Rattle.gf_fraction.specs.Ratio.{IsFraction};
ghost use Rattle.gf_token.specs.Label.{label_of};
ghost use Rattle.gf_token.specs.Positions.{at_position};
ghost use Rattle.gf_nfg.specs.Limit.{IsWithinLimit, profile_limit};
ghost use Rattle.gf_nfg.specs.ProfilePlaces.{IsProfile};
ghost use Rattle.gf_nfg.specs.Profiles.{product};
ghost use Rattle.gf_nfg.specs.Spellable.{IsSpellable};
ghost use Rattle.gf_nfg.specs.Table.{IsTable, PaysAt, rows};
ghost use Rattle.gf_nfg.specs.TableOfParts.{IsTableOf};
ghost use Rattle.gf_nfg.specs.inner.TableParts.{AreParts, IsHeld, table_with};

use crate::table::frame::Frame;
use crate::table::labels::Labels;
use crate::table::profile::place_of;
use crate::table::rows::Rows;
use crate::table::strategies::StrategyLists;
use gf_fraction::Fraction;
use gf_token::Label;
use std::alloc::{AllocError, Global};
use std::marker::Model;

pub(crate) mod agree;
pub(crate) mod classes;
pub(crate) mod frame;
pub(crate) mod labels;
pub(crate) mod payoffs_in_turn;
pub(crate) mod pieces;
pub(crate) mod profile;
pub(crate) mod rows;
pub(crate) mod strategies;

/// A table: a title, a comment, players with at least one strategy each, and the payoffs at each
/// profile of strategies. It has at most 1,048,576 profiles. Players and strategies are counted
/// from 1.
#[derive(Drop)]
pub struct Table {
    frame: Frame,
    payoffs: Rows,
}

impl Model for Table {
    ghost use Rattle.gf_nfg.specs.Table.{Table};
    ghost use Rattle.gf_nfg.specs.inner.TableParts.{IsHeld, table_with};

    ghost Value = { Table };

    ghost view = { λ t. table_with t.frame t.payoffs };

    ghost invariant = { λ t. IsHeld t.frame t.payoffs };
}

/// How many profiles the players of a table with these payoffs have.
fn profiles_of(frame: &Frame, payoffs: &[Fraction]) -> u32
    requires { AreParts frame.now payoffs.now }
    ensures { result ≡ product (map length frame.now.strategies) }
{
    let players = frame.players();
    if players == 0 {
        return 1;
    }
    (payoffs.len() / players) as u32
}

impl Table {
    /// The table of this frame, with a row at each profile.
    pub(crate) fn of_parts(frame: Frame, payoffs: Rows) -> Table
        requires { IsHeld frame payoffs }
        ensures { result ≡ table_with frame payoffs }
    {
        Table { frame, payoffs }
    }

    /// The table of these parts. The rows are the payoffs at each profile in the order of a file:
    /// the first player's strategy advances fastest, and each profile has one payoff for each
    /// player (Gambit documentation, "Game representation formats").
    ///
    /// The caller has to ensure that there are at most 4,294,967,295 players, one list of at least
    /// one strategy for each, at most 1,048,576 profiles (this project's profile), and as many
    /// payoffs as profiles times players.
    ///
    /// # Errors
    ///
    /// `AllocError` if memory is refused.
    pub fn new(
        alloc: Global,
        title: Label<'_>,
        comment: Label<'_>,
        players: &[Label<'_>],
        strategies: &[Vec<Label<'_>>],
        rows: &[Fraction],
    ) -> Result<Table, AllocError>
        requires players { length players.now ≤ 4294967295 }
        requires one_list_each { length strategies.now ≡ length players.now }
        requires some_strategy { AllByRecursion (λ own. 0 < vec_len own) strategies.now }
        requires profiles { product (map vec_len strategies.now) ≤ profile_limit }
        requires rows { length rows.now
            ≡ product (map vec_len strategies.now) * length players.now }
        ensures { IfOk result (λ t. IsTableOf t (label_of title.entry) (label_of comment.entry)
            (map label_of players.now) (map (λ own. map label_of own.items) strategies.now)
            rows.now) }
    {
        let strategies = StrategyLists::of_lists(alloc, strategies)?;
        let frame = Frame::new(alloc, title, comment, players, strategies)?;
        let rows = Vec::from_clones(alloc, rows)?;
        Table::in_turn(alloc, frame, rows)
    }

    /// The table of these parts, as `new` makes it. The payoffs are not copied, nor are the labels
    /// of the strategies if there is only one player.
    ///
    /// # Errors
    ///
    /// `AllocError` if memory is refused.
    // No edit: `Table::new` has one, and proofs of gf_form rely on this.
    #[tactic(auto, using(crate::proofs::lemmas::tables::Made::made_of_labels))]
    pub fn with_labels(
        alloc: Global,
        title: Label<'_>,
        comment: Label<'_>,
        players: &[Label<'_>],
        strategies: Vec<Labels>,
        rows: Vec<Fraction>,
    ) -> Result<Table, AllocError>
        requires players { length players.now ≤ 4294967295 }
        requires one_list_each { length strategies.items ≡ length players.now }
        requires some_strategy { AllByRecursion (λ own. 0 < length own) strategies.items }
        requires profiles { product (map length strategies.items) ≤ profile_limit }
        requires fractions { AllByRecursion IsFraction rows.items }
        requires rows { length rows.items
            ≡ product (map length strategies.items) * length players.now }
        ensures { IfOk result (λ t. IsTableOf t (label_of title.entry) (label_of comment.entry)
            (map label_of players.now) strategies.items rows.items) }
    {
        let strategies = StrategyLists::of_labels(alloc, strategies)?;
        let frame = Frame::new(alloc, title, comment, players, strategies)?;
        Table::in_turn(alloc, frame, rows)
    }

    /// The table of this frame and of payoffs in the order of a file.
    fn in_turn(alloc: Global, frame: Frame, rows: Vec<Fraction>) -> Result<Table, AllocError>
        requires { AreParts frame rows.items }
        ensures { IfOk result (λ t. IsTableOf t frame.title frame.comment frame.players
            frame.strategies rows.items) }
    {
        let profiles = profiles_of(&frame, &rows);
        let payoffs = Rows::new(alloc, frame.players(), profiles, rows, Vec::new(alloc))?;
        Ok(Table::of_parts(frame, payoffs))
    }

    /// Everything except the payoffs.
    pub(crate) fn frame(&self) -> &Frame
        ensures is_table { IsTable self.now }
        ensures spellable { IsSpellable self.now }
        ensures frame { result.now ≡ record {
          title = self.now.title;
          comment = self.now.comment;
          players = self.now.players;
          strategies = self.now.strategies;
        } }
    {
        &self.frame
    }

    /// The payoffs at each profile.
    pub(crate) fn rows(&self) -> &Rows
        ensures { result.now ≡ rows self.now }
    {
        &self.payoffs
    }

    /// Everything except the payoffs, and the payoffs at each profile.
    pub(crate) fn into_parts(self) -> (Frame, Rows)
        ensures is_table { IsTable self }
        ensures frame { result.0 ≡ record {
          title = self.title;
          comment = self.comment;
          players = self.players;
          strategies = self.strategies;
        } }
        ensures rows { result.1 ≡ rows self }
    {
        let Table { frame, payoffs } = self;
        (frame, payoffs)
    }

    /// The title.
    // No edit: it returns a part.
    pub fn title(&self) -> Label<'_>
        ensures { label_of result ≡ self.now.title }
    {
        self.frame.title()
    }

    /// The comment, which is empty if the file has none.
    // No edit: it returns a part.
    pub fn comment(&self) -> Label<'_>
        ensures { label_of result ≡ self.now.comment }
    {
        self.frame.comment()
    }

    /// How many players there are, or 4,294,967,295 if there are more.
    pub fn players(&self) -> u32
        ensures { result ≡ min (length self.now.players) 4294967295 }
    {
        self.frame.players().min(u32::MAX as usize) as u32
    }

    /// The name of player `i`, or `None` if there is no such player.
    // No edit: it returns a part.
    pub fn player(&self, i: u32) -> Option<Label<'_>>
        ensures { option_map label_of result ≡ at_position self.now.players i }
    {
        let i = i as usize;
        if i == 0 || i > self.frame.players() {
            return None;
        }
        Some(self.frame.player(i - 1))
    }

    /// How many strategies player `i` has, or `None` if there is no such player.
    // No edit: it returns a part.
    pub fn strategies(&self, i: u32) -> Option<u32>
        ensures { result ≡ option_map length (at_position self.now.strategies i) }
    {
        let i = i as usize;
        if i == 0 || i > self.frame.players() {
            return None;
        }
        Some(self.frame.strategies(i - 1) as u32)
    }

    /// The label of strategy `s` of player `i`, or `None` if there is no such strategy.
    pub fn strategy(&self, i: u32, s: u32) -> Option<Label<'_>>
        ensures { option_map label_of result
            ≡ option_and_then (λ own. at_position own s) (at_position self.now.strategies i) }
    {
        let (i, s) = (i as usize, s as usize);
        if i == 0 || i > self.frame.players() || s == 0 || s > self.frame.strategies(i - 1) {
            return None;
        }
        Some(self.frame.strategy(i - 1, s - 1))
    }

    /// How many profiles there are: at most 1,048,576.
    ///
    /// The contract says that a file can hold each table: each player has a strategy, and each
    /// profile one entry with one payoff for each player (`is_table`); its labels can be spelled,
    /// and its payoffs are fractions (`spellable`); and it is within the limit of profiles
    /// (`within`).
    // No edit: it returns a part.
    pub fn profiles(&self) -> u32
        ensures number { result ≡ length self.now.entries }
        ensures is_table { IsTable self.now }
        ensures spellable { IsSpellable self.now }
        ensures within { IsWithinLimit self.now }
    {
        self.payoffs.len()
    }

    /// The payoffs at the profile of these strategies, one for each player. `None` if the list has
    /// another length than the list of players, or if a number is not a strategy of its player.
    pub fn payoffs(&self, profile: &[u32]) -> Option<&[Fraction]>
        ensures { MatchOption result
            (¬ (IsProfile (map length self.now.strategies) profile.now))
            (λ row. PaysAt self.now profile.now row.now) }
    {
        Some(self.payoffs.row(place_of(&self.frame, profile)?))
    }
}
