//! The jobs over several files: which files these are, and which run is made for them.

ghost use Rattle.std.specs.Prelude.{◌≡◌, List, MatchResult, false, true};
ghost use Rattle.gf_jobs.specs.Duplicates.{HashedFile};
ghost use Rattle.gf_jobs.specs.Performs.{Closes, Does, DoesNext, IsListReport, IsSame, PerformsAll};
ghost use Rattle.gf_jobs.specs.Performs.{repeats_of, with_hashed, world_of};
ghost use Rattle.gf_jobs.specs.inner.KeptNames.{IsKeptOf};

use crate::collections::file::{CollectionFile, called, name_of, open_file};
use crate::collections::groups::Groups;
use crate::collections::kept_files::Repeats;
use crate::collections::line::{FileLine, read_hash, run_line};
use crate::collections::paths::files_at;
use crate::collections::progress::Progress;
use crate::collections::rewrite::rewrite;
use crate::explain::{Cause, Failed, failed_run};
use crate::jobs::ending::{nothing_kept, report, report_explained, report_named};
use crate::jobs::session::Session;
use crate::opening::inputs::Inputs;
use gf_canon::Names;
use gf_run::{LastError, RunFault, Sink, answer_status, push_all, write_answer};
use gf_words::{LineEnd, Paths};
use std::alloc::{AllocError, Global};

/// What is done with the files of a collection.
#[derive(Clone, Copy)]
pub enum Task {
    /// This line is written about each, as `run_line` says. If the output fails, the run ends.
    Lines(FileLine),
    /// It is said which of them are the same game, with names or without; lines end so. Two files that
    /// were read are in one group exactly when their hashes are equal. Groups of two files or more are
    /// written after all files are read, in the order of their first files: a line for each name, and
    /// an empty line between two groups. A name is written as `run_line` writes it with a hash. If
    /// memory for a group runs out, the run ends, and nothing is written.
    Duplicates(Names, LineEnd),
    /// The canonical text of each, with names or without, is put in its place. A file that is its own
    /// canonical text is not written. Another is replaced whole, or not at all. One that is refused, or
    /// cannot be opened, read or replaced, stays as it is.
    Rewrites(Names),
}

impl Task {
    /// Whether a file that a folder holds under two names is read for both.
    pub(crate) fn repeats(self) -> Repeats
        ensures { result ≡ repeats_of self }
    {
        match self {
            Task::Duplicates(..) => Repeats::PassedOver,
            Task::Lines(_) | Task::Rewrites(_) => Repeats::Kept,
        }
    }
}

/// Reports why the files of a collection are not known, and returns the exit status: E20 after the
/// name of the list, explained if `explain` is true, or E19.
fn report_unlisted<E: Sink>(
    alloc: Global,
    paths: &Paths,
    failed: &Failed,
    explain: bool,
    errors: &mut E,
) -> u8
    ensures { IsListReport E.writer explain failed.now.fault paths.now result
        errors.old errors.new }
{
    match (failed.fault, paths) {
        (RunFault::Read(_), Paths::List { list, .. }) => {
            let (name, kept) = (called("-", list), nothing_kept(explain));
            report_named(alloc, failed, name, kept, errors)
        }
        _ => report(&failed.fault, errors),
    }
}

impl<I: Inputs, P: Progress, W: Sink + LastError, E: Sink> Session<'_, '_, '_, '_, I, P, W, E> {
    /// Does the task for the next file, or reports its fault, and returns the status. After a fault of
    /// the output, or if memory for a group runs out, the run ends, and the status is the `Err`.
    fn do_next<'f>(
        &mut self,
        file: &'f CollectionFile,
        task: Task,
        groups: &mut Groups<'f>,
    ) -> Result<u8, u8>
        ensures same { IsSame self.old self.new }
        ensures next { (files : List HashedFile) → IsKeptOf files groups.old → MatchResult result
            (λ status. (after : List HashedFile) × IsKeptOf after groups.new
            × DoesNext I.opener I.Opened.reader W.writer E.writer self.old.explain task false file.now
            status (with_hashed files (world_of self.old)) (with_hashed after (world_of self.new)))
            (λ status. (after : List HashedFile)
            × DoesNext I.opener I.Opened.reader W.writer E.writer self.old.explain task true file.now
            status (with_hashed files (world_of self.old)) (with_hashed after (world_of self.new))) }
    {
        let (alloc, explain, name) = (self.alloc, self.explain, name_of(file));
        let mut source = match open_file(alloc, self.inputs, file, explain) {
            Ok(source) => source,
            Err(failed) => {
                let kept = nothing_kept(explain);
                return Ok(report_named(alloc, &failed, name, kept, self.errors));
            }
        };
        match task {
            Task::Lines(line) => match run_line(alloc, &mut source, name, line, self.output) {
                Ok(good) => Ok(answer_status(good)),
                Err(fault) => {
                    let failed = failed_run(fault, &source, self.output);
                    let kept = source.bytes();
                    if fault == RunFault::Write {
                        return Err(report_explained(alloc, &failed, name, kept, self.errors));
                    }
                    Ok(report_named(alloc, &failed, name, kept, self.errors))
                }
            },
            Task::Rewrites(names) => match rewrite(alloc, self.inputs, &mut source, file, names) {
                Ok(()) => Ok(0),
                Err(failed) => Ok(report_named(alloc, &failed, name, source.bytes(), self.errors)),
            },
            Task::Duplicates(names, _) => match read_hash(alloc, &mut source, names) {
                Ok(hash) => match groups.push(alloc, name, hash) {
                    Ok(()) => Ok(0),
                    Err(AllocError) => Err(report(&RunFault::Memory, self.errors)),
                },
                Err(fault) => {
                    let failed = failed_run(fault, &source, self.output);
                    Ok(report_named(alloc, &failed, name, source.bytes(), self.errors))
                }
            },
        }
    }

    /// Writes the groups of two files or more, if that is the task, and returns the exit status: 1 if
    /// there are any.
    fn close(&mut self, groups: &Groups<'_>, task: Task) -> u8
        ensures same { IsSame self.old self.new }
        ensures closed { (files : List HashedFile) → IsKeptOf files groups.now
            → Closes I.opener I.Opened.reader W.writer E.writer self.old.explain task result
            (with_hashed files (world_of self.old)) (with_hashed files (world_of self.new)) }
    {
        let Task::Duplicates(_, end) = task else {
            return 0;
        };
        match write_answer(groups.text(self.alloc, end), self.output) {
            Ok(apart) => answer_status(apart),
            Err(fault) => {
                let cause = Cause::Transfer(self.output.last_error());
                let (failed, kept) = (Failed { fault, cause }, nothing_kept(self.explain));
                report_explained(self.alloc, &failed, "", kept, self.errors)
            }
        }
    }

    /// Does this for files, in their order, and returns the exit status: the worst of all, where a file
    /// has 1 if something is against it, or the status of its fault, and the task has 1 if files are the
    /// same game.
    ///
    /// Each file is opened, read and freed before the next one. The fault of a file is written to
    /// standard error after its name, and explained if `explain` is true, and the run goes on. A fault
    /// of the output, or want of memory for a group, is reported too. `progress` is told of each file
    /// that is done.
    pub fn run_task(&mut self, files: &[CollectionFile], task: Task) -> u8
        ensures same { IsSame self.old self.new }
        ensures done { Does I.opener I.Opened.reader W.writer E.writer self.old.explain task
            files.now result (world_of self.old) (world_of self.new) }
    {
        let mut groups = Groups::new(self.alloc);
        let mut worst: u8 = 0;
        for file in files {
            match self.do_next(file, task, &mut groups) {
                Ok(status) => worst = worst.max(status),
                Err(status) => return worst.max(status),
            }
            self.progress.step(files.len());
        }
        self.progress.end();
        worst.max(self.close(&groups, task))
    }

    /// Does a task for the files of a collection, and returns the exit status.
    ///
    /// All paths are followed, and folders that have no game files are reported, before a file is
    /// opened. If memory runs out then, E19 is reported; if a list of names cannot be opened or read,
    /// E20 is reported after its name, and explained if `explain` is true.
    pub(crate) fn perform_all(&mut self, paths: &Paths, task: Task) -> u8
        ensures same { IsSame self.old self.new }
        ensures performed { PerformsAll I.opener I.Opened.reader W.writer E.writer self.old.explain
            task paths.now result (world_of self.old) (world_of self.new) }
    {
        match files_at(self.alloc, self.inputs, paths, task.repeats()) {
            Ok(found) => {
                let _ = push_all(self.errors, found.without_games.as_slice());
                self.run_task(found.files.as_slice(), task)
            }
            Err(failed) => report_unlisted(self.alloc, paths, &failed, self.explain, self.errors),
        }
    }
}
