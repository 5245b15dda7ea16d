//! The canonical text of a tree: its heading, and a line for each node.

pub(crate) mod braces;
pub(crate) mod lines;
pub(crate) mod node_line;
pub(crate) mod numbers;
pub(crate) mod write;
