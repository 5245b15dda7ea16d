//! The runs over many files: which files they are, and what is done with them.

pub mod erasing;
pub mod file;
pub mod folders;
pub mod groups;
pub mod kept_files;
pub mod line;
pub mod name;
pub mod paths;
pub mod progress;
pub mod rewrite;
