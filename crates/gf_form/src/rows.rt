//! The payoffs at all profiles of a form: the nodes that pay, as terms, are merged digit by digit.

pub(crate) mod asked;
pub(crate) mod chosen;
pub(crate) mod descent;
pub(crate) mod digits;
pub(crate) mod listed;
pub(crate) mod merge;
pub(crate) mod paid_nodes;
pub(crate) mod pairs;
pub(crate) mod paths;
pub(crate) mod profile;
pub(crate) mod share;
pub(crate) mod summed;
pub(crate) mod sums;
pub(crate) mod terms;
pub(crate) mod written;
