//! The walk over the nodes of two games at once.

ghost use Rattle.std.specs.Prelude.{◌≡◌, ◌↔◌, IsTrue, map};
ghost use Rattle.gf_tree.specs.FileNodes.{file_nodes};
ghost use Rattle.gf_tree.specs.IsGame.{IsGame};
ghost use Rattle.gf_tree.specs.CanonicalGame.{canonical_game};
ghost use Rattle.gf_canon.specs.GameFile.GameFile.{extensive};
ghost use Rattle.gf_canon.specs.inner.NamedBy.{node_by};
ghost use Rattle.gf_canon.specs.SameBy.{SameBy};

use crate::sameness::counted::{same_heading, same_node};
use gf_token::Names;
use gf_tree::Game;

/// Whether the nodes of both games are the same by first-use numbers.
#[tactic(auto, using(crate::proofs::lemmas::sameness::WalkedNodes::walks_on))]
fn same_nodes(g: &Game<'_>, h: &Game<'_>, names: Names) -> bool
    ensures { IsTrue result ↔ (map (node_by names) (file_nodes (canonical_game g.now))
        ≡ map (node_by names) (file_nodes (canonical_game h.now))) }
{
    let mut others = h.nodes_by_first_use();
    for node in g.nodes_by_first_use() {
        let Some(other) = others.next() else {
            return false;
        };
        if !same_node(node, other, names) {
            return false;
        }
    }
    others.next().is_none()
}

/// Whether two games are the same. Sets and outcomes that a renumbering carries to each other have
/// the same first-use number, so each node is compared with one node, and nothing is searched for.
/// This takes no memory.
#[tactic(auto, using(crate::proofs::lemmas::sameness::WalkedNodes::same_by_walk))]
pub(crate) fn same_games(g: &Game<'_>, h: &Game<'_>, names: Names) -> bool
    ensures same { IsTrue result ↔ SameBy names (extensive g.now) (extensive h.now) }
    ensures games { IsGame g.now × IsGame h.now }
{
    same_heading(g.heading(), h.heading(), names) && same_nodes(g, h, names)
}
