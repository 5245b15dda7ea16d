//! Readers and writers: what is asked of them, again after an interruption, and what they count.

pub mod counted;
pub mod last_error;
pub mod sink;
pub mod source;
pub mod turns;
