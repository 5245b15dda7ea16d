//! What the program does for a job, and how it ends.

pub mod ending;
pub mod job;
pub mod many_files;
pub mod one_file;
pub mod session;
pub mod two_files;
