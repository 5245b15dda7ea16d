//! What a game has in addition to its nodes.

use crate::game::outcomes::Outcomes;
use crate::game::sets::Sets;
use crate::hashers::Seed;
use gf_token::Label;

/// All of a game but its nodes.
#[derive(Drop)]
pub(crate) struct Parts<'a> {
    pub title: Label<'a>,
    pub comment: Label<'a>,
    pub players: Vec<Label<'a>>,
    /// What the hashers of the maps begin with.
    pub seed: Seed<'a>,
    pub sets: Sets<'a>,
    pub outcomes: Outcomes<'a>,
}
