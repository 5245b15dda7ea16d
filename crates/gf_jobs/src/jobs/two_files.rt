//! The job over two files.

ghost use Rattle.gf_run.specs.Faults.{answer_status};
ghost use Rattle.gf_run.specs.Run.{RunsTwo};
ghost use Rattle.gf_jobs.specs.Opening.{bytes_kept};
ghost use Rattle.gf_jobs.specs.Performs.{IsAnswerBy, IsSame, PerformsTwo, of_fault, world_of};
ghost use Rattle.gf_jobs.specs.Reports.{Ends, IsReported};

use crate::explain::{Cause, Failed, failed_run};
use crate::jobs::ending::{nothing_kept, report_explained};
use crate::jobs::session::Session;
use crate::opening::inputs::{Inputs, file_named};
use crate::opening::kept::Kept;
use gf_canon::Names;
use gf_run::{
    LastError, RunFault, Sink, Source, Which, answer_status, is_of_second, run_same, run_same_by,
    run_same_map,
};
use std::alloc::Global;

/// Writes whether the two files that it reads mean the same: with their renumbering if `map` is true,
/// otherwise by `names`.
fn run_two<R: Source, W: Sink>(
    alloc: Global,
    first: &mut R,
    second: &mut R,
    map: bool,
    names: Names,
    output: &mut W,
) -> Result<bool, RunFault>
    ensures { RunsTwo R.reader R.reader W.writer (IsAnswerBy map names) result
        first.old first.new second.old second.new output.old output.new }
{
    match names {
        _ if map => run_same_map(alloc, first, second, output),
        Names::Kept => run_same(alloc, first, second, output),
        Names::Aside => run_same_by(alloc, first, second, names, output),
    }
}

/// How the job ends by the result of its run.
fn end_of<S: LastError, W: LastError, E: Sink>(
    alloc: Global,
    run: &Result<bool, RunFault>,
    a: &str,
    b: &str,
    first: &Kept<S>,
    second: &Kept<S>,
    output: &W,
    errors: &mut E,
) -> u8
    ensures { Ends (IsReported E.writer (of_fault run.now a.now b.now)) answer_status run.now
        (of_fault run.now (bytes_kept first.now) (bytes_kept second.now)) result
        errors.old errors.new }
{
    match run {
        Ok(same) => answer_status(*same),
        Err(fault) => {
            let second_failed = is_of_second(fault);
            let name = if second_failed { b } else { a };
            let source = if second_failed { second } else { first };
            let failed = failed_run(*fault, source, output);
            report_explained(alloc, &failed, name, source.bytes(), errors)
        }
    }
}

impl<I: Inputs, P, W: Sink + LastError, E: Sink> Session<'_, '_, '_, '_, I, P, W, E> {
    /// Opens two files, and writes whether they mean the same: with their renumbering if `map` is
    /// true, otherwise by `names`.
    pub(crate) fn perform_same(&mut self, a: &str, b: &str, map: bool, names: Names) -> u8
        ensures same { IsSame self.old self.new }
        ensures performed { PerformsTwo I.opener I.Opened.reader W.writer E.writer self.old.explain
            map names a.now b.now result (world_of self.old) (world_of self.new) }
    {
        let (alloc, explain) = (self.alloc, self.explain);
        let (first, second) = match self.inputs.open_both(file_named(a), file_named(b)) {
            Ok(both) => both,
            Err((which, error)) => {
                let name = if which == Which::Second { b } else { a };
                let (fault, cause) = (RunFault::Read(which), Cause::Opening(error));
                let (failed, kept) = (Failed { fault, cause }, nothing_kept(explain));
                return report_explained(alloc, &failed, name, kept, self.errors);
            }
        };
        let mut first = Kept::new(alloc, first, explain);
        let mut second = Kept::new(alloc, second, explain);
        let run = run_two(alloc, &mut first, &mut second, map, names, self.output);
        end_of(alloc, &run, a, b, &first, &second, self.output, self.errors)
    }
}
