//! A walk down a tree, from a node to those of its children that the demands of the path allow.

ghost use Rattle.std.specs.Prelude.{◌≡◌, ◌≤◌, ◌+◌, ℕ, [], ◌∷◌, ◌++◌, None, IfOk, MatchOption, OnOk};
ghost use Rattle.std.specs.Prelude.{OnErr, option_map, vec_capacity, vec_len};
ghost use Rattle.gf_tree.specs.Branches.{game_of, tree_of};
ghost use Rattle.gf_tree.specs.BranchesLeft.{branches_given};
ghost use Rattle.gf_tree.specs.Subtrees.{root_node};
ghost use Rattle.gf_form.specs.inner.rows.Descents.{Handing, demands_below, open_stops, open_turns};
ghost use Rattle.gf_form.specs.inner.rows.Descents.{step_at, stop_at, stops, stops_after};
ghost use Rattle.gf_form.specs.inner.rows.Descents.{stops_left, turns, turns_left};

use crate::rows::digits::demanded;
use crate::values::choices::at_set;
use crate::values::positions::at;
use gf_tree::{Branch, Branches, Game};
use std::alloc::{AllocError, Global};

/// The steps of the digits of sets.
#[derive(Clone, Copy)]
pub(crate) enum Steps<'s> {
    /// Those of all players' sets.
    All(&'s [Vec<u64>]),
    /// Those of one player's sets.
    Own(u32, &'s [u64]),
}

/// What a node hands down to its children.
pub(crate) trait Handed: Copy {
    ghost handing: { Handing Self };

    /// What the path demands of choices, by their digits.
    fn demands(&self) -> u64
        ensures { result ≡ handing.demands self.now };

    /// What the child of a node at this position gets, if the path to it has these demands.
    fn below(&self, node: &Branch<'_, '_>, position: usize, demands: u64) -> Self
        ensures { result ≡ handing.below (game_of node.now) (root_node (tree_of node.now)) self.now
            position demands };
}

/// A node with children that are still to come.
#[derive(Drop)]
struct Open<'g, 'a, S> {
    node: Branch<'g, 'a>,
    rest: Branches<'g, 'a>,
    state: S,
    /// The step of the digit at its set; 0 if there is none.
    step: u64,
    /// The position of the action that the path demands there; 0 if any will do.
    action: u64,
}

/// A walk that gives the nodes that it meets, in prefix order.
#[derive(Drop)]
pub(crate) struct Descent<'s, 'g, 'a, S> {
    steps: Steps<'s>,
    /// The branch that comes next.
    next: Option<(Branch<'g, 'a>, S)>,
    open: Vec<Open<'g, 'a, S>>,
}

impl<'s> Steps<'s> {
    /// The step of the digit of a player's set at this position; 0 if there is none.
    fn at(&self, player: u32, position: u32) -> u64
        ensures { result ≡ step_at self.now player position }
    {
        match self {
            Steps::All(steps) => at_set(*steps, player, position).unwrap_or(0),
            Steps::Own(own, steps) if *own == player => {
                at(*steps, position as usize).copied().unwrap_or(0)
            }
            _ => 0,
        }
    }
}

impl<'g, 'a, S: Handed> Open<'g, 'a, S> {
    /// What the child that was given last gets, if the path can go there. The demands fit: the
    /// digits have fewer than 2^64 values together.
    fn handed(&self) -> Option<S>
        ensures { result ≡ option_map (S.handing.below (game_of self.now.node)
            (root_node (tree_of self.now.node)) self.now.state (branches_given self.now.rest))
            (demands_below (S.handing.demands self.now.state) self.now.step self.now.action
            (branches_given self.now.rest)) }
    {
        let position = self.rest.given();
        let mut demands = self.state.demands();
        if self.action == 0 {
            demands = demands.wrapping_add((position as u64).wrapping_mul(self.step));
        } else if position as u64 != self.action {
            return None;
        }
        Some(self.state.below(&self.node, position, demands))
    }
}

impl<'s, 'g, 'a, S: Handed> Descent<'s, 'g, 'a, S> {
    /// A walk through the whole tree of a game, from this state on.
    pub(crate) fn new(
        alloc: Global,
        game: &'g Game<'a>,
        steps: Steps<'s>,
        state: S,
    ) -> Descent<'s, 'g, 'a, S>
        ensures { stops_left S.handing result ≡ stops S.handing steps.entry game.entry.now state
            game.entry.now.tree }
    {
        Descent {
            steps,
            next: Some((game.root(), state)),
            open: Vec::new(alloc),
        }
    }

    /// Opens a node.
    fn enter(&mut self, branch: &Branch<'g, 'a>, state: &S) -> Result<(), AllocError>
        requires { self.old.next ≡ None }
        ensures same { self.new.steps ≡ self.old.steps }
        ensures left { OnOk result (stops S.handing self.old.steps (game_of branch.now) state.now
            (tree_of branch.now) ++ stops_after S.handing self.old
            ≡ stop_at (game_of branch.now) (root_node (tree_of branch.now)) state.now
            ∷ stops_left S.handing self.new) }

        // It fails only if there was no room.
        ensures full { OnErr result (vec_capacity self.old.«open» ≤ vec_len self.old.«open») }
    {
        let Some((player, position)) = branch.mover() else {
            return Ok(());
        };
        let step = self.steps.at(player, position);
        self.open.push(Open {
            action: demanded(state.demands(), step, branch.children()),
            rest: branch.child_branches(),
            node: *branch,
            state: *state,
            step,
        })?;
        Ok(())
    }

    /// Goes past the next child of an open node, which comes next if the path can go there.
    #[tactic(auto, using(crate::proofs::lemmas::rows::Descents::descent_steps))]
    fn go_on(&mut self, mut node: Open<'g, 'a, S>) -> Result<(), AllocError>
        requires { self.old.next ≡ None }
        ensures same { self.new.steps ≡ self.old.steps }
        ensures left { OnOk result (open_stops S.handing self.old.steps node.entry
            ++ stops_after S.handing self.old ≡ stops_left S.handing self.new) }
        ensures turns { OnOk result
            (turns_left self.new ≤ open_turns node.entry + turns self.old.«open».items) }

        // It fails only if there was no room.
        ensures full { OnErr result (vec_capacity self.old.«open» ≤ vec_len self.old.«open») }
    {
        let Some(child) = node.rest.next() else {
            return Ok(());
        };
        let handed = node.handed();
        self.open.push(node)?;
        if let Some(state) = handed {
            self.next = Some((child, state));
        }
        Ok(())
    }

    /// The next node, with its state, or `None` after the last one.
    #[tactic(auto, using(crate::proofs::lemmas::rows::Descents::descent_steps))]
    pub(crate) fn next(&mut self) -> Result<Option<(Branch<'g, 'a>, S)>, AllocError>
        ensures { IfOk result (λ found. MatchOption found (stops_left S.handing self.old ≡ [])
            (λ found. stops_left S.handing self.old ≡ stop_at (game_of found.0)
            (root_node (tree_of found.0)) found.1 ∷ stops_left S.handing self.new)) }
    {
        loop {
            if let Some((branch, state)) = self.next.take() {
                self.enter(&branch, &state)?;
                return Ok(Some((branch, state)));
            }
            match self.open.pop() {
                None => return Ok(None),
                Some(node) => self.go_on(node)?,
            }
        }
    }
}
