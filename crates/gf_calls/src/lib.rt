//! The answers that a C program gets: checks, explanations of refusals, canonical texts and their
//! hashes, tables, comparisons and renumberings of game files, in numbers and in the caller's
//! buffers. Each answer is that of a call of gf_canon, gf_form or gf_explain, with its clauses;
//! gamefile_c exports them.
//!
//! Each call writes only what its status promises:
//! - `Done`: the answer is at the start of `out`, and `needed` is its length in bytes (of a
//!   renumbering: in pairs). Of a check, `kind` is the answer: 1 for a tree, 2 for a table.
//! - `TooSmall`: `needed` is that length, and `out` is as it was.
//! - `Refused`: `fault` has the code and the place in bytes from 0; of two files, `which` is 0 or 1.
//! - `OutOfMemory`: if memory ran out while a file was read, `fault` is set as for `Refused`, with
//!   the code 19.
//! - `Overflow`: `profile` is the number of the profile, from 1.
//! - `Different`, `TooManyProfiles`, `Misuse`: nothing is written.
//!
//! `write_explanation` answers `Refused` where another call answers `Done`, `Done` if the file is
//! valid, and sets `fault` for each refused file.
#![tactic(auto)]

mod canonising;
mod checking;
mod comparing;
mod explaining;
mod fault;
mod flags;
mod handing;
mod pair;
mod pairing;
mod status;
mod tabling;

pub use canonising::{write_canonical, write_hash};
pub use checking::check_file;
pub use comparing::compare;
pub use explaining::write_explanation;
pub use fault::FaultNumbers;
pub use pair::Pair;
pub use pairing::write_renumbering;
pub use status::Status;
pub use tabling::write_table;
