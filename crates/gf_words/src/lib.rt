//! What the words of a command line ask for: a job, a help text, or nothing that can be done.
#![tactic(auto)]

mod commands;
mod fault;
mod help;
mod job;
mod program;
mod request;
mod words;

pub use fault::WordsFault;
pub use job::{Input, Job, LineEnd, Paths, Request};
pub use words::{is_game_file, parse_request, parse_words};
