//! Words of a command line.

use crate::memory::Came;
use crate::memory::texts::right_if;
use gf_words::{Job, WordsFault, parse_words};
use std::alloc::Global;

/// Out of memory, words that ask for a job may be called wrong, but ask for no job.
pub fn parse(alloc: Global) -> Came {
    match parse_words(alloc, &["same", "a", "b"]) {
        Ok(Job::Same { a, b, map, .. }) => {
            right_if(a.as_str() == "a" && b.as_str() == "b" && !map)
        }
        Ok(_) | Err(WordsFault::Help(_)) => Came::Wrong,
        Err(WordsFault::Usage(_) | WordsFault::Memory) => Came::OutOfMemory,
    }
}
