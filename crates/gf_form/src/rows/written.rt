//! The payoffs at the profiles of a table, from the terms of which they are sums.

ghost use Rattle.std.specs.Prelude.{◌≡◌, ◌+◌, ◌/◌, ◌<◌, ◌≤◌, [], ◌∷◌, ℕ, List, IfOk, IfSome};
ghost use Rattle.std.specs.Prelude.{IsErrOf, OnOk, None, get_or, length};
ghost use Rattle.gf_form.specs.inner.values.NodeLists.{AreNodesOf};
ghost use Rattle.gf_form.specs.Refusal.{HasValues};
ghost use Rattle.gf_form.specs.inner.rows.Pairs.{IsPaidPair};
ghost use Rattle.gf_form.specs.inner.rows.SettledRows.{AreDue, AreTermsFor, AreWritten, IsAsked};
ghost use Rattle.gf_form.specs.inner.rows.SettledRows.{IsRightlyRefused, SettleBy, SettleRows};
ghost use Rattle.gf_form.specs.StrategicForm.{ArePayoffsAt};
ghost use Rattle.gf_form.specs.Strategies.{full_profiles};

use crate::fault::EvalFault;
use crate::rows::asked::{Asked, Run};
use crate::rows::chosen::Chosen;
use crate::rows::digits::Digit;
use crate::rows::pairs::Pair;
use crate::rows::terms::{Terms, push_few};
use crate::values::choices::Choices;
use crate::values::expectation::expected_with;
use crate::values::nodes::Nodes;
use gf_fraction::{Fraction, SharedDenominator};
use gf_token::FormFault;
use gf_tree::Game;
use std::alloc::{AllocError, Global};

/// The rows so far, and what is kept for those that are worked out by a walk.
#[derive(Drop)]
pub(crate) struct Written<'g, 'a> {
    pub alloc: Global,
    pub rows: Vec<Fraction>,
    /// The nodes of the game, from the first walk on.
    pub nodes: Option<Nodes<'g, 'a>>,
    /// Rows that are no longer needed, whatever they hold.
    pub spare_rows: Vec<Vec<Fraction>>,
    /// The denominator of the last pair.
    pub shared: SharedDenominator,
    /// Lists that are no longer needed, whatever they hold.
    pub spare: Vec<Terms>,
}

/// What each player is paid at the profile with this number, from 0, by a walk through the tree.
fn row_by_walk<'g, 'a>(
    alloc: Global,
    asked: &Asked<'_, 'g, 'a>,
    nodes: &Nodes<'g, 'a>,
    profile: u32,
    spare: &mut Vec<Vec<Fraction>>,
) -> Result<Vec<Fraction>, EvalFault>
    requires asked { IsAsked asked.now }
    requires nodes { AreNodesOf asked.now.game.now nodes.now }
    requires within { profile < length (full_profiles asked.now.game.now) }
    ensures payoffs { IfOk result (λ row. ArePayoffsAt asked.now.game.now
        (get_or (full_profiles asked.now.game.now) profile []) row.items) }
    ensures values { OnOk result (HasValues asked.now.game.now
        (get_or (full_profiles asked.now.game.now) profile [])) }
    ensures overflow { IsErrOf result EvalFault.Overflow → ¬ (HasValues asked.now.game.now
        (get_or (full_profiles asked.now.game.now) profile [])) }
{
    let choices = Choices::OfProfile(profile, asked.digits);
    expected_with(alloc, asked.game, asked.payoffs, nodes, choices, spare)
}

impl<'g, 'a> Written<'g, 'a> {
    /// No rows yet, and room for those of this many profiles.
    pub(crate) fn new(
        alloc: Global,
        profiles: u32,
        players: usize,
    ) -> Result<Written<'g, 'a>, AllocError>
        requires { players ≤ 4294967295 }
        ensures rows { IfOk result (λ written. written.rows.items ≡ []) }
        ensures nodes { IfOk result (λ written. written.nodes ≡ None) }
    {
        Ok(Written {
            alloc,
            rows: Vec::with_capacity(alloc, profiles as usize * players)?,
            nodes: None,
            spare_rows: Vec::new(alloc),
            shared: SharedDenominator::new(1),
            spare: Vec::new(alloc),
        })
    }

    /// Takes the list of the game's nodes, which is made for the first walk, to the profile with
    /// this number.
    fn take_nodes(
        &mut self,
        asked: &Asked<'_, 'g, 'a>,
        profile: u32,
    ) -> Result<Nodes<'g, 'a>, AllocError>
        requires asked { IsAsked asked.now }
        requires within { profile < length (full_profiles asked.now.game.now) }
        requires nodes { IfSome self.old.nodes (AreNodesOf asked.now.game.now) }
        ensures nodes { IfOk result (AreNodesOf asked.entry.now.game.now) }
        ensures rows { self.new.rows ≡ self.old.rows }
    {
        if let Some(nodes) = self.nodes.take() {
            return Ok(nodes);
        }
        let mut nodes = Nodes::new(self.alloc, asked.game)?;
        let choices = Choices::OfProfile(profile, asked.digits);
        let (game, profiles) = (asked.game, asked.numbers.len());
        let spare = &mut self.spare_rows;
        nodes.find_still(self.alloc, game, asked.payoffs, choices, profiles, spare)?;
        Ok(nodes)
    }

    /// Appends the row of the profile at this place, from 0, by a walk.
    #[inline(never)]
    fn push_walked(&mut self, asked: &Asked<'_, 'g, 'a>, before: u32) -> Result<(), FormFault>
        requires asked { IsAsked asked.now }
        requires within { before < length asked.now.numbers.now }
        requires written { AreWritten asked.now before self.old }
        ensures written { OnOk result (AreWritten asked.now (before + 1) self.new) }
        ensures refused { IsRightlyRefused asked.now result }
    {
        let number = asked.numbers[before as usize];
        let nodes = self.take_nodes(asked, number)?;
        match row_by_walk(self.alloc, asked, &nodes, number, &mut self.spare_rows) {
            Ok(row) => {
                self.nodes = Some(nodes);
                self.rows.extend_from_slice(&row)?;
                self.spare_rows.push(row)?;
                Ok(())
            }
            Err(EvalFault::Overflow) => Err(FormFault::Overflow {
                profile: before + 1,
            }),
            Err(EvalFault::Memory) => Err(FormFault::Memory),
        }
    }

    /// Appends the rows of the profiles from one place up to another, each by a walk.
    pub(crate) fn push_all_walked(
        &mut self,
        asked: &Asked<'_, 'g, 'a>,
        from: u32,
        to: u32,
    ) -> Result<(), FormFault>
        requires asked { IsAsked asked.now }
        requires places { from ≤ to }
        requires within { to ≤ length asked.now.numbers.now }
        requires written { AreWritten asked.now from self.old }
        ensures written { OnOk result (AreWritten asked.now to self.new) }
        ensures refused { IsRightlyRefused asked.now result }
    {
        for before in from..to {
            self.push_walked(asked, before)?;
        }
        Ok(())
    }

    /// Appends the row of the profile at this place, from 0: that of a pair, if there is one and
    /// its numbers fit, and otherwise one by a walk.
    #[inline(always)]
    fn push_row(
        &mut self,
        asked: &Asked<'_, 'g, 'a>,
        pair: Option<Pair<'_>>,
        players: usize,
        before: u32,
    ) -> Result<(), FormFault>
        requires asked { IsAsked asked.now }
        requires within { before < length asked.now.numbers.now }
        requires written { AreWritten asked.now before self.old }
        requires players { players ≡ length asked.now.game.now.players }
        requires paid { IfSome pair
            (IsPaidPair asked.now.game.now (get_or asked.now.numbers.now before 0)) }
        ensures written { OnOk result (AreWritten asked.now (before + 1) self.new) }
        ensures refused { IsRightlyRefused asked.now result }
    {
        if let Some(pair) = pair {
            if pair.push_to(players, &mut self.shared, &mut self.rows)? {
                return Ok(());
            }
        }
        self.push_walked(asked, before)
    }

    /// Appends the rows of these profiles, by at most one term, which demands nothing: copies of
    /// one, which is worked out once.
    fn push_alike(
        &mut self,
        asked: &Asked<'_, 'g, 'a>,
        terms: &Terms,
        run: Run,
    ) -> Result<(), FormFault>
        requires due { AreDue asked.now run self.old }
        requires terms { AreTermsFor asked.now terms.now }
        requires settles { (actions : List ℕ) × SettleRows asked.now actions terms.now run }
        requires alike { (length terms.now.demands.items ≤ 1)
            × (get_or terms.now.demands.items 0 0 ≡ 0) }
        ensures written { OnOk result (AreWritten asked.now run.to self.new) }
        ensures refused { IsRightlyRefused asked.now result }
    {
        let all = terms.demands.len();
        let alone = Chosen {
            action: 0,
            free: all,
            start: all,
            end: all,
        };
        if let Some(pair) = terms.pair(alone) {
            let mut row = Vec::with_capacity(self.alloc, terms.players)?;
            if pair.push_to(terms.players, &mut self.shared, &mut row)? {
                for before in run.from..run.to {
                    push_few(&mut self.rows, &row)?;
                }
                return Ok(());
            }
        }
        self.push_all_walked(asked, run.from, run.to)
    }

    /// Appends the rows of these profiles, by what the terms come to at the choice for the only
    /// digit.
    fn push_last(
        &mut self,
        asked: &Asked<'_, 'g, 'a>,
        terms: &Terms,
        run: Run,
    ) -> Result<(), FormFault>
        requires due { AreDue asked.now run self.old }
        requires terms { AreTermsFor asked.now terms.now }
        requires settles { (actions : List ℕ) × (length actions ≡ 1)
            × SettleRows asked.now actions terms.now run }
        ensures written { OnOk result (AreWritten asked.now run.to self.new) }
        ensures refused { IsRightlyRefused asked.now result }
    {
        let mut chosen = Chosen::none();
        for before in run.from..run.to {
            let action = u64::from(asked.numbers[before as usize] - run.first) + 1;
            chosen = chosen.next(&terms.demands, 1, action);
            self.push_row(asked, terms.pair(chosen), terms.players, before)?;
        }
        Ok(())
    }

    /// Appends the rows of these profiles, by what the terms come to at the choices for these
    /// digits.
    #[cycle(rows)]
    pub(crate) fn push_rows(
        &mut self,
        asked: &Asked<'_, 'g, 'a>,
        terms: &Terms,
        digits: &[Digit],
        run: Run,
    ) -> Result<(), FormFault>
        requires due { AreDue asked.now run self.old }
        requires settled { SettleBy asked.now terms.now digits.now run }
        ensures written { OnOk result (AreWritten asked.now run.to self.new) }
        ensures refused { IsRightlyRefused asked.now result }
    {
        if terms.demand_nothing() {
            return self.push_alike(asked, terms, run);
        }
        let Some((slowest, faster)) = digits.split_first() else {
            return self.push_all_walked(asked, run.from, run.to);
        };
        if faster.is_empty() {
            return self.push_last(asked, terms, run);
        }
        if terms.have_many_free(*slowest, run.count)
            && asked.span(run) >= run.count / slowest.actions.max(1)
        {
            return self.push_summed(asked, terms, *slowest, faster, run);
        }
        self.push_each(asked, terms, *slowest, faster, run)
    }

    /// Appends the rows of these profiles, one choice at the slowest digit after another. The terms
    /// that demand nothing there are first added up.
    #[cycle(rows)]
    #[inline(never)]
    fn push_summed(
        &mut self,
        asked: &Asked<'_, 'g, 'a>,
        terms: &Terms,
        slowest: Digit,
        faster: &[Digit],
        run: Run,
    ) -> Result<(), FormFault>
        requires due { AreDue asked.now run self.old }
        requires settled { SettleBy asked.now terms.now (slowest ∷ faster.now) run }
        ensures written { OnOk result (AreWritten asked.now run.to self.new) }
        ensures refused { IsRightlyRefused asked.now result }
    {
        let summed = terms.summed(slowest, faster, run.count, &mut self.spare)?;
        self.push_each(asked, &summed, slowest, faster, run)
    }

    /// Appends the rows of these profiles, one choice at the slowest digit after another.
    #[cycle(rows)]
    #[inline(always)]
    fn push_each(
        &mut self,
        asked: &Asked<'_, 'g, 'a>,
        terms: &Terms,
        slowest: Digit,
        faster: &[Digit],
        run: Run,
    ) -> Result<(), FormFault>
        requires due { AreDue asked.now run self.old }
        requires settled { SettleBy asked.now terms.now (slowest ∷ faster.now) run }
        ensures written { OnOk result (AreWritten asked.now run.to self.new) }
        ensures refused { IsRightlyRefused asked.now result }
    {
        let mut level = Terms::reused(&mut self.spare, terms.players);
        let mut rest = run;
        let mut chosen = Chosen::none();
        while rest.from < rest.to {
            let (next, now) = level.choose(asked, terms, slowest, faster, rest, chosen)?;
            chosen = now;
            self.push_rows(asked, &level, faster, next)?;
            rest.from = next.to;
        }
        self.spare.push(level)?;
        Ok(())
    }
}
