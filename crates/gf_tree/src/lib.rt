//! Gambit extensive files: the trees that they spell, and the games that they mean.
#![tactic(auto)]

mod game;
mod hashers;
pub mod laws;
mod read;
mod reader;

pub use crate::game::action::{Action, same_actions};
pub use crate::game::branch::Branch;
pub use crate::game::branches::Branches;
pub use crate::game::file_node::{
    FileNode, OutcomeDescription, OutcomeUse, SetDescription, SetUse,
};
pub use crate::game::listed_game::ListedGame;
pub use crate::game::node::{Node, Step};
pub use crate::game::nodes::Nodes;
pub use crate::game::numbered_node::NumberedNode;
pub use crate::game::{FileNodes, Game};
pub use crate::read::{list_efg, read_efg, tell_efg};
pub use crate::reader::receive::{Receive, ToldHeading};
