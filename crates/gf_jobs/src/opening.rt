//! How inputs are opened.

pub mod inputs;
pub mod kept;
pub mod list;
pub mod opened;
pub mod replaced;
