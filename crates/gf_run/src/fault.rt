//! How a run may fail, and its exit status.

ghost use Rattle.std.specs.Prelude.{◌≡◌};
ghost use Rattle.gf_run.specs.Faults.{answer_status, fault_of, form_fault, is_of_second, status_of};
ghost use Rattle.gf_run.specs.declared.fault.RunFault.{RunFault};

use gf_canon::SameFault;
use gf_form::FormFault;
use gf_token::{Fault, Why};
use std::alloc::AllocError;
use thiserror::Error;

/// The input that a fault is about.
#[derive(Clone, Copy, Debug, PartialEq, Eq)]
pub enum Which {
    /// The one input of a run.
    Only,
    /// The first of two.
    First,
    /// The second of two.
    Second,
}

/// Why a run ended without its answer.
#[derive(Clone, Copy, Debug, PartialEq, Eq, Error)]
pub enum RunFault {
    /// An input is refused.
    #[error("refused: E{} at {}..{}", .fault.why.code(), .fault.span.start, .fault.span.end)]
    Refused { which: Which, fault: Fault },
    /// An input could not be opened or read.
    #[error("the input could not be read")]
    Read(Which),
    /// The output could not be written, or a text could not take the place of a file.
    #[error("the output could not be written")]
    Write,
    /// A game has no table. If memory runs out for it, a run returns `RunFault::Memory` instead.
    #[error("the game has no table")]
    Form(FormFault),
    /// Memory ran out.
    #[error("memory ran out")]
    Memory,
}

impl From<AllocError> for RunFault {
    ghost from_gives = { λ _ fault. fault ≡ RunFault.Memory };

    fn from(_: AllocError) -> RunFault {
        RunFault::Memory
    }
}

impl From<SameFault> for RunFault {
    ghost from_gives = { λ same fault. fault ≡ fault_of same };

    fn from(same: SameFault) -> RunFault {
        let (which, fault) = match same {
            SameFault::First(fault) => (Which::First, fault),
            SameFault::Second(fault) => (Which::Second, fault),
            SameFault::Memory => return RunFault::Memory,
        };
        RunFault::Refused { which, fault }
    }
}

impl From<FormFault> for RunFault {
    ghost from_gives = { λ form fault. fault ≡ form_fault form };

    fn from(form: FormFault) -> RunFault {
        match form {
            FormFault::Memory => RunFault::Memory,
            form => RunFault::Form(form),
        }
    }
}

/// The writer failed.
#[derive(Clone, Copy, Debug, Error)]
#[error("the text could not be written")]
pub struct WriteFault;

impl From<WriteFault> for RunFault {
    ghost from_gives = { λ _ fault. fault ≡ RunFault.Write };

    fn from(_: WriteFault) -> RunFault {
        RunFault::Write
    }
}

/// The refusal of the one input of a run.
pub(crate) fn refused(fault: Fault) -> RunFault
    ensures { result ≡ RunFault.Refused Which.Only fault }
{
    let which = Which::Only;
    RunFault::Refused { which, fault }
}

/// The exit status of a fault: 2 for a refusal, and for a game that has no table; 4 if a reader or
/// the writer failed; and 5 if memory ran out.
pub fn status(fault: &RunFault) -> u8
    ensures { result ≡ status_of fault.now }
{
    match fault {
        RunFault::Refused { fault, .. } => match fault.why {
            Why::Memory => 5,
            _ => 2,
        },
        RunFault::Form(FormFault::TooManyProfiles | FormFault::Overflow { .. }) => 2,
        RunFault::Read(_) | RunFault::Write => 4,
        RunFault::Form(FormFault::Memory) | RunFault::Memory => 5,
    }
}

/// Whether a fault is about the second of two inputs.
// No edit: `end_of` calls it and has one.
pub fn is_of_second(fault: &RunFault) -> bool
    ensures { result ≡ is_of_second fault.now }
{
    match fault {
        RunFault::Refused { which, .. } | RunFault::Read(which) => *which == Which::Second,
        RunFault::Write | RunFault::Form(_) | RunFault::Memory => false,
    }
}

/// The exit status of an answer: 0 if two files mean the same, a file is its own canonical text, or
/// no two files are duplicates; otherwise 1.
// No edit: `end_of` calls it and has one.
pub fn answer_status(good: bool) -> u8
    ensures { result ≡ answer_status good }
{
    if good { 0 } else { 1 }
}
