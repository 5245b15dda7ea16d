//! Gambit strategic files: their tables, their reader and their canonical text.
#![tactic(auto)]

mod comparison;
mod heading;
pub mod laws;
mod limit;
mod listed;
mod read;
mod reader;
mod receive;
mod table;
mod text;

pub use crate::comparison::{CompareFault, compare_nfg};
pub use crate::limit::ProfileCount;
pub use crate::listed::ListedTable;
pub use crate::read::{check_nfg, list_nfg, read_nfg};
pub use crate::table::Table;
pub use crate::table::labels::Labels;
pub use crate::text::canonical::{canonical_nfg, text_of};
pub use crate::text::pieces::TextPieces;
pub use crate::text::write::write_nfg;
