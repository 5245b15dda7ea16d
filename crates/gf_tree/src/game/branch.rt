//! Subtrees of a game's tree.

ghost use Rattle.std.specs.Prelude.{◌≡◌, ◌<◌, length};
ghost use Rattle.gf_tree.specs.Subtrees.{child_trees, root_node, subtree_at, subtrees};

use crate::game::Game;
use crate::game::action::Action;
use crate::game::branches::Branches;
use crate::game::node::Node;

/// A node of a game with the branches below it.
#[derive(Clone, Copy)]
pub struct Branch<'g, 'a> {
    game: &'g Game<'a>,
    /// The place of its root among the nodes in prefix order.
    at: usize,
    ghost within: { at < length (subtrees game.now.tree) },
}

impl<'g, 'a> Branch<'g, 'a> {
    ghost use Rattle.std.specs.Prelude.{[], Some, IfSome, MatchOption, option_map};
    ghost use Rattle.gf_token.specs.Positions.{at_position};
    ghost use Rattle.gf_tree.specs.Actions.{actions_of};
    ghost use Rattle.gf_tree.specs.Branches.{game_of, tree_of};
    ghost use Rattle.gf_tree.specs.BranchesLeft.{branches_given, branches_left, game_of_branches};
    ghost use Rattle.gf_tree.specs.KeysInOrder.{outcome_numbers};
    ghost use Rattle.gf_tree.specs.Game.{set_at};
    ghost use Rattle.gf_tree.specs.IsGame.{IsGame};
    ghost use Rattle.gf_tree.specs.Movers.{IsMover};
    ghost use Rattle.gf_tree.specs.NodeOf.{node_of};
    ghost use Rattle.gf_tree.specs.OutcomePositions.{position_among};

    /// The whole tree of a game.
    #[tactic(auto, using(crate::proofs::lemmas::stores::GameNodes::whole_game))]
    pub(crate) fn whole(game: &'g Game<'a>) -> Branch<'g, 'a>
        ensures game { game_of result ≡ game.entry.now }
        ensures tree { tree_of result ≡ game.entry.now.tree }
    {
        Branch { game, at: 0 }
    }

    /// The branch of the node at this place.
    pub(crate) fn at_place(game: &'g Game<'a>, at: usize) -> Branch<'g, 'a>
        requires { at < length (subtrees game.now.tree) }
        ensures game { game_of result ≡ game.entry.now }
        ensures tree { tree_of result ≡ subtree_at game.entry.now.tree at }
    {
        Branch { game, at }
    }

    /// The node at its root.
    pub fn node(&self) -> Node<'a>
        ensures { node_of result ≡ root_node (tree_of self.now) }
    {
        let game = self.game;
        game.node(self.at)
    }

    /// How many children that node has.
    // No edit: it passes on `Game::child_count`.
    pub fn children(&self) -> usize
        ensures { result ≡ length (child_trees (tree_of self.now)) }
    {
        let game = self.game;
        game.child_count(self.at)
    }

    /// The branch of a child, by its position from 1. `None` if there is no such child.
    ///
    /// Takes time in proportion to `i`; `child_branches` gives all of them in one walk.
    pub fn child(&self, i: usize) -> Option<Branch<'g, 'a>>
        ensures tree { option_map tree_of result ≡ at_position (child_trees (tree_of self.now)) i }
        ensures game { IfSome result (λ b. game_of b ≡ game_of self.now) }
    {
        if i == 0 || i > self.children() {
            return None;
        }
        let game = self.game;
        Some(Branch {
            game,
            at: game.child_place(self.at, i - 1),
        })
    }

    /// The branches of its children, from the first to the last.
    // No edit: it passes on `Branches::below`.
    pub fn child_branches(&self) -> Branches<'g, 'a>
        ensures game { game_of_branches result ≡ game_of self.now }
        ensures trees { branches_left result ≡ child_trees (tree_of self.now) }
        ensures none { branches_given result ≡ 0 }
    {
        Branches::below(self.game, self.at)
    }

    /// Who moves at its root: a player, counted from 1, or chance, which is player 0; and the
    /// position of the set, from 1, among their sets in order of first use. `None` if the game ends
    /// here.
    pub fn mover(&self) -> Option<(u32, u32)>
        ensures mover { IsMover (game_of self.now) (root_node (tree_of self.now)).set result }
        ensures is_game { IsGame (game_of self.now) }
    {
        let game = self.game;
        game.mover(self.at)
    }

    /// The actions at its root, from the first to the last; none if the game ends here.
    // No edit: it passes on `Game::actions`.
    pub fn actions(&self) -> &'g [Action<'a>]
        ensures { MatchOption (root_node (tree_of self.now)).set (actions_of result.now ≡ [])
            (λ key. option_map (λ set. set.actions) (set_at (game_of self.now) key)
            ≡ Some (actions_of result.now)) }
    {
        let game = self.game;
        game.actions(self.at)
    }

    /// The position of its root's outcome, from 1, among the outcomes in order of first use, or 0
    /// if it has none.
    // No edit: it passes on `Game::outcome_position`.
    pub fn outcome_position(&self) -> u32
        ensures { result ≡ position_among (outcome_numbers (game_of self.now))
            (root_node (tree_of self.now)).outcome }
    {
        let game = self.game;
        game.outcome_position(self.at)
    }
}
