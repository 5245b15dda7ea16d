//! `gamefile` reads Gambit game files: it says what a file holds, writes its canonical text or the
//! hash of it, writes a tree as a table, and says which files mean the same.
#![tactic(auto)]

use arguments::request_given;
use gf_jobs::{Erasing, Found, HostInputs, Inputs, Shown, answer, perform};
use gf_run::Counted;
use gf_words::{Input, Job, Paths, Request, WordsFault};
use std::alloc::{AllocError, Global};
use std::io::IsTerminal;
use std::process::ExitCode;

mod arguments;

/// Whether standard error is a terminal on which it is shown how many files are done.
fn shows_progress(rt: &HostRuntime, request: &Request) -> bool {
    match request.job {
        Job::Canon { .. } | Job::Check(_) | Job::Table { .. } | Job::Same { .. } => false,
        _ => !request.quiet && rt.stderr().is_terminal(),
    }
}

fn alone(alloc: Global, path: &str) -> Result<Paths, AllocError> {
    let mut paths = Vec::new(alloc);
    paths.push(String::from_str(alloc, path)?)?;
    Ok(Paths::Named(paths))
}

/// What is asked for. To check a folder means to check the game files below it.
fn request(rt: &HostRuntime) -> Result<Request, WordsFault> {
    let mut request = request_given(rt)?;
    if let Job::Check(Input::File(path)) = &request.job {
        if let Found::Folder(_) = HostInputs::new(rt).look_at(path.as_str()) {
            request.job = Job::CheckAll(alone(rt.alloc(), path.as_str())?);
        }
    }
    Ok(request)
}

/// Does what is asked for, and returns the exit status. If progress is shown, it is erased before a
/// line is written.
fn run(rt: &HostRuntime, request: &Request) -> u8 {
    let shows = shows_progress(rt, request);
    let erases = shows && rt.stdout().is_terminal();
    let mut inputs = HostInputs::new(rt);
    let mut progress = Shown::new(rt, rt.stderr(), shows);
    let mut output = Counted::new(Erasing::new(rt.stdout(), erases));
    let mut errors = Counted::new(Erasing::new(rt.stderr(), shows));
    perform(
        rt.alloc(),
        &mut inputs,
        request,
        &mut progress,
        &mut output,
        &mut errors,
    )
}

fn main(rt: HostRuntime) -> ExitCode {
    ExitCode::from(match request(&rt) {
        Ok(request) => run(&rt, &request),
        Err(fault) => {
            let mut output = Counted::new(rt.stdout());
            let mut errors = Counted::new(rt.stderr());
            answer(&fault, &mut output, &mut errors)
        }
    })
}
