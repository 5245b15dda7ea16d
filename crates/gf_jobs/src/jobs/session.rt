//! What the program does its jobs with.

use std::alloc::Global;

/// What a job works with.
#[derive(Drop)]
pub struct Session<'i, 'p, 'w, 'e, I, P, W, E> {
    pub alloc: Global,
    /// What opens inputs.
    pub inputs: &'i mut I,
    /// What is told how many files are done.
    pub progress: &'p mut P,
    pub output: &'w mut W,
    pub errors: &'e mut E,
    /// Whether a fault is explained in words.
    pub explain: bool,
}
