//! Runs over open inputs.

use crate::calls::{Run, make, second_of};
use crate::memory::Came;
use crate::memory::texts::{came_of_fault, right_if};
use crate::scripts::{AT_ONCE, Reader, Writer};
use gf_run::{RunFault, status};
use std::alloc::Global;

fn came_of_run_fault(fault: &RunFault) -> Came {
    if status(fault) != 5 {
        return Came::Wrong;
    }
    match fault {
        RunFault::Memory => Came::OutOfMemory,
        RunFault::Refused { fault, .. } => came_of_fault(*fault),
        _ => Came::Wrong,
    }
}

pub fn run(alloc: Global, run: &Run) -> Came {
    let mut first = Reader::new(run.first, &AT_ONCE);
    let mut second = Reader::new(second_of(run), &AT_ONCE);
    let mut output = Writer::new(run.text, &AT_ONCE);
    match make(alloc, run.call, &mut first, &mut second, &mut output) {
        Ok(answer) => right_if(answer == run.answer && output.is_done()),
        Err(fault) if output.has_taken(0) => came_of_run_fault(&fault),
        Err(_) => Came::Wrong,
    }
}
