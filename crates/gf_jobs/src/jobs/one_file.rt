//! The jobs over one input.

ghost use Rattle.gf_jobs.specs.Performs.{IsSame, PerformsOne, world_of};
ghost use Rattle.gf_jobs.specs.Lines.{RunsOne};

use crate::collections::file::called;
use crate::explain::failed_run;
use crate::jobs::ending::{nothing_kept, report_explained};
use crate::jobs::session::Session;
use crate::opening::inputs::{Inputs, open_kept};
use gf_canon::Names;
use gf_form::Strategies;
use gf_run::{
    LastError, RunFault, Sink, Source, run_canon, run_canon_by, run_check, run_table,
    run_table_reduced,
};
use gf_words::Input;
use std::alloc::Global;

/// What is done with one file.
#[derive(Clone, Copy)]
pub(crate) enum OneTask {
    /// Its canonical text is written, with names or without.
    Canon(Names),
    /// It is written what it holds.
    Check,
    /// A tree is written as its form by these strategies; a table in canonical form.
    Table(Strategies),
}

/// Does this with the file that it reads.
fn run_one<R: Source, W: Sink>(
    alloc: Global,
    source: &mut R,
    task: OneTask,
    output: &mut W,
) -> Result<(), RunFault>
    ensures { RunsOne R.reader W.writer task result source.old source.new output.old output.new }
{
    match task {
        OneTask::Canon(names) => match names {
            Names::Kept => run_canon(alloc, source, output),
            Names::Aside => run_canon_by(alloc, source, names, output),
        },
        OneTask::Check => {
            run_check(alloc, source, output)?;
            Ok(())
        }
        OneTask::Table(strategies) => match strategies {
            Strategies::Pure => run_table(alloc, source, output),
            Strategies::Reduced => run_table_reduced(alloc, source, output),
        },
    }
}

impl<I: Inputs, P, W: Sink + LastError, E: Sink> Session<'_, '_, '_, '_, I, P, W, E> {
    /// Opens an input, does this with the file, and returns the exit status.
    pub(crate) fn perform_one(&mut self, input: &Input, task: OneTask) -> u8
        ensures same { IsSame self.old self.new }
        ensures performed { PerformsOne I.opener I.Opened.reader W.writer E.writer self.old.explain
            task input.now result (world_of self.old) (world_of self.new) }
    {
        let (alloc, name) = (self.alloc, called("<stdin>", input));
        let mut source = match open_kept(alloc, self.inputs, input, self.explain) {
            Ok(source) => source,
            Err(failed) => {
                let kept = nothing_kept(self.explain);
                return report_explained(alloc, &failed, name, kept, self.errors);
            }
        };
        match run_one(alloc, &mut source, task, self.output) {
            Ok(()) => 0,
            Err(fault) => {
                let failed = failed_run(fault, &source, self.output);
                report_explained(alloc, &failed, name, source.bytes(), self.errors)
            }
        }
    }
}
