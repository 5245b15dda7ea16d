//! The tokens of Gambit game files: labels, tokens with their spans, indices, and the faults that
//! name a place in a file; and why a game has no table.
//!
//! The rules are those of the Gambit documentation, "Game representation formats", and, where that
//! text leaves a choice, those of this project's profile.
#![tactic(auto)]

mod byte;
mod cursor;
mod fault;
mod form_fault;
mod heading;
mod index;
mod label;
pub mod laws;
mod names;
mod scan;
mod token;
mod write;

pub use cursor::Cursor;
pub use fault::{Fault, Span, What, Why};
pub use form_fault::FormFault;
pub use index::{IndexFault, read_index};
pub use label::Label;
pub use names::Names;
pub use token::{BareToken, Kind, TextToken, Token};
pub use write::write_label;
