//! What the program does for a request.

ghost use Rattle.gf_jobs.specs.Performs.{IsSame, Performs, world_of};

use crate::collections::line::FileLine;
use crate::collections::progress::Progress;
use crate::jobs::many_files::Task;
use crate::jobs::one_file::OneTask;
use crate::jobs::session::Session;
use crate::opening::inputs::Inputs;
use gf_form::Strategies;
use gf_run::{LastError, Sink};
use gf_words::{Job, Request};
use std::alloc::Global;

/// Does the job of a request, and returns the exit status.
///
/// What the job names is opened, each file once, and the run for it is made:
///
/// - `Canon`: `run_canon`, or `run_canon_by` with names aside.
/// - `Check`: `run_check`.
/// - `Table`: `run_table`, or `run_table_reduced`.
/// - `Same`: `run_same_map` if `map` is true, otherwise `run_same`, or `run_same_by` with names aside.
///   The first file is opened, and then the second, before either is read.
/// - `CheckCanon`, `CheckAll`, `Hash`, `WriteCanon`, `Duplicates`: `run_task`, which makes `run_line`
///   for each of the files, or does what `Task` says.
///
/// The status is 0; or 1 if two files are compared and differ, if `CheckCanon` finds a file that is
/// not its own canonical text, or if `Duplicates` finds some that are the same game. Of several
/// files it is the worst. A fault is reported on standard error, and has its own status (see
/// `status`); it stays the same if the report cannot be written. An input that cannot be opened is
/// `Read`.
///
/// If the request says so, a fault is explained in words, by the bytes that were read of the file
/// that it is about: the explanation begins with the name of the file, the line and the column, if
/// the file is refused; then comes the line that would be written otherwise, without `A: ` or `B: `;
/// and then what is wrong, the line of the file with marks under the place, and a hint. Of several
/// files, it begins with the name in any case. If memory for it runs out, only the line is written.
pub fn perform<I: Inputs, P: Progress, W: Sink + LastError, E: Sink>(
    alloc: Global,
    inputs: &mut I,
    request: &Request,
    progress: &mut P,
    output: &mut W,
    errors: &mut E,
) -> u8
    ensures { Performs I.opener I.Opened.reader W.writer E.writer request.now.explain
        request.now.job result
        (record { inputs = inputs.old; output = output.old; errors = errors.old })
        (record { inputs = inputs.new; output = output.new; errors = errors.new }) }
{
    let mut session = Session {
        alloc,
        inputs,
        progress,
        output,
        errors,
        explain: request.explain,
    };
    session.perform_job(&request.job)
}

impl<I: Inputs, P: Progress, W: Sink + LastError, E: Sink> Session<'_, '_, '_, '_, I, P, W, E> {
    /// Does a job, and returns the exit status.
    fn perform_job(&mut self, job: &Job) -> u8
        ensures same { IsSame self.old self.new }
        ensures performed { Performs I.opener I.Opened.reader W.writer E.writer self.old.explain
            job.now result (world_of self.old) (world_of self.new) }
    {
        match job {
            Job::Canon { input, names } => self.perform_one(input, OneTask::Canon(*names)),
            Job::Check(input) => self.perform_one(input, OneTask::Check),
            Job::Table { input, reduced } if *reduced => {
                self.perform_one(input, OneTask::Table(Strategies::Reduced))
            }
            Job::Table { input, .. } => self.perform_one(input, OneTask::Table(Strategies::Pure)),
            Job::Same { a, b, map, names } => {
                self.perform_same(a.as_str(), b.as_str(), *map, *names)
            }
            Job::CheckCanon { files, names } => {
                self.perform_all(files, Task::Lines(FileLine::NotCanonical(*names)))
            }
            Job::WriteCanon { files, names } => self.perform_all(files, Task::Rewrites(*names)),
            Job::CheckAll(files) => self.perform_all(files, Task::Lines(FileLine::Kind)),
            Job::Hash { files, names, end } => {
                self.perform_all(files, Task::Lines(FileLine::Hash(*names, *end)))
            }
            Job::Duplicates { files, names, end } => {
                self.perform_all(files, Task::Duplicates(*names, *end))
            }
        }
    }
}
