//! Gambit game files by their canonical numbers: when two of them mean the same game, and the one
//! text for all of these.
#![tactic(auto)]

mod canonise;
mod checking;
mod hash;
mod kind;
pub mod laws;
mod meaning;
mod numbering;
mod sameness;
mod text;

pub use crate::canonise::{canonical, canonical_by, canonical_text};
pub use crate::checking::check;
pub use crate::hash::sha256_of;
pub use crate::kind::FileKind;
pub use crate::meaning::{Meaning, read_file};
pub use crate::numbering::carry::renumbering;
pub use crate::numbering::new_numbers::Renumbering;
pub use crate::numbering::pairs::{NumberPair, ReceivePairs, pairs_between, pairs_of_files};
pub use crate::numbering::renumber;
pub use crate::sameness::{SameFault, same, same_by, same_meaning};
pub use crate::text::write::write_efg;
pub use gf_nfg::TextPieces;
pub use gf_token::Names;
