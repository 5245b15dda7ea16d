//! What the program does for a job: it finds and opens the files that the job names, makes the run for
//! them, and reports a fault in one line, or in words, with an exit status. It works over anything that
//! opens inputs, and over any writers.
#![tactic(auto)]

mod collections;
mod explain;
mod jobs;
pub mod laws;
mod opening;

pub use collections::erasing::Erasing;
pub use collections::file::CollectionFile;
pub use collections::kept_files::Repeats;
pub use collections::line::{FileLine, run_line};
pub use collections::paths::{FoundFiles, files_at};
pub use collections::progress::{Progress, Shown};
pub use explain::{Cause, Failed};
pub use jobs::ending::{answer, report};
pub use jobs::job::perform;
pub use jobs::many_files::Task;
pub use jobs::session::Session;
pub use opening::inputs::{Found, Identity, Inputs, Listing};
pub use opening::kept::Kept;
pub use opening::opened::{HostInputs, Opened};
