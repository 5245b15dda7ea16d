//! What the players are paid if they choose given actions: the tree is walked once, and the sums
//! so far stand at the nodes on the path.

pub(crate) mod choices;
pub(crate) mod expectation;
pub(crate) mod nodes;
pub(crate) mod payoffs;
pub(crate) mod positions;
pub(crate) mod rows;
pub(crate) mod still;
pub(crate) mod walk;
