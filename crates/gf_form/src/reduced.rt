//! Reduced strategies: which sets are relevant under a strategy, and the first of the strategies
//! that reduce to one.

pub(crate) mod digits;
pub(crate) mod first;
pub(crate) mod labels;
pub(crate) mod level;
pub(crate) mod survey;
pub(crate) mod visits;
