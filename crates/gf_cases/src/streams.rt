//! The calls over readers and writers that answer in pieces, are interrupted, or fail.

use crate::calls::{Call, MORE_RUNS, RUNS, Run, make, second_of};
use crate::cases::Cases;
use crate::scripts::{AT_ONCE, Reader, Step, Writer};
use gf_run::{LIMIT, RunFault, Which};
use gf_token::{Fault, Why};
use std::alloc::{AllocError, Global};

static BYTE_BY_BYTE: [Step; 1] = [Step::Moves(1)];

static WITHOUT_END: [Step; 1] = [Step::Spaces];

/// A request that fails; after it, the stream would go on, here and below.
static FAILURE: [Step; 2] = [Step::Fails, Step::Moves(1)];

/// A write that takes nothing, which is a failure too.
static NOTHING_TAKEN: [Step; 2] = [Step::Nothing, Step::Moves(1)];

/// One interruption more than a request may have.
static SIXTEEN_INTERRUPTIONS: [Step; 17] = [
    Step::Interrupted,
    Step::Interrupted,
    Step::Interrupted,
    Step::Interrupted,
    Step::Interrupted,
    Step::Interrupted,
    Step::Interrupted,
    Step::Interrupted,
    Step::Interrupted,
    Step::Interrupted,
    Step::Interrupted,
    Step::Interrupted,
    Step::Interrupted,
    Step::Interrupted,
    Step::Interrupted,
    Step::Interrupted,
    Step::Moves(1),
];

/// A file that is refused.
const REFUSED: &[u8] = b"EFG 3";

/// So many requests that move a byte each, and then these.
fn script(alloc: Global, before: usize, then: &[Step]) -> Result<Vec<Step>, AllocError> {
    let mut steps = Vec::new(alloc);
    for _ in 0..before {
        steps.push(Step::Moves(1))?;
    }
    steps.extend_from_slice(then)?;
    Ok(steps)
}

/// Requests that move a byte each, each after fifteen interruptions.
fn interrupted(alloc: Global, requests: usize) -> Result<Vec<Step>, AllocError> {
    let mut steps = Vec::new(alloc);
    for _ in 0..requests {
        steps.extend_from_slice(&SIXTEEN_INTERRUPTIONS[1..])?;
    }
    Ok(steps)
}

/// Whether a run over these streams answers and writes what it has to.
fn ends_well(alloc: Global, run: &Run, reads: &[Step], writes: &[Step]) -> bool {
    let mut first = Reader::new(run.first, reads);
    let mut second = Reader::new(second_of(run), reads);
    let mut output = Writer::new(run.text, writes);
    let answer = make(alloc, run.call, &mut first, &mut second, &mut output);
    answer == Ok(run.answer) && output.is_done()
}

/// Whether a run ends with this fault because of its reads of an input, and writes nothing. If it
/// is the first of two, the second is not read.
fn stops_reading(alloc: Global, run: &Run, which: Which, reads: &[Step], fault: RunFault) -> bool {
    let is_second = which == Which::Second;
    let of_first = if is_second { AT_ONCE.as_slice() } else { reads };
    let of_second = if is_second { reads } else { AT_ONCE.as_slice() };
    let mut first = Reader::new(run.first, of_first);
    let mut second = Reader::new(second_of(run), of_second);
    let mut output = Writer::new(run.text, &AT_ONCE);
    let answer = make(alloc, run.call, &mut first, &mut second, &mut output);
    let is_as_far = is_second || second.asked() == 0;
    let is_past = fault == RunFault::Read(which) || first.is_past_limit() || second.is_past_limit();
    answer == Err(fault) && output.has_taken(0) && is_as_far && is_past
}

/// Whether a run ends because of its writes, when it has written this much.
fn stops_writing(alloc: Global, run: &Run, writes: &[Step], written: usize) -> bool {
    let mut first = Reader::new(run.first, &AT_ONCE);
    let mut second = Reader::new(second_of(run), &AT_ONCE);
    let mut output = Writer::new(run.text, writes);
    let answer = make(alloc, run.call, &mut first, &mut second, &mut output);
    answer == Err(RunFault::Write) && output.has_taken(written)
}

/// A run whose reads of an input end so, at each of its requests.
fn reads_end(
    alloc: Global,
    run: &Run,
    which: Which,
    len: usize,
    then: &[Step],
    cases: &mut Cases,
) -> Result<(), AllocError> {
    let steps = script(alloc, len, then)?;
    for skipped in 0..=len {
        let reads = steps.get(skipped..).unwrap_or(&[]);
        let is_right = stops_reading(alloc, run, which, reads, RunFault::Read(which));
        cases.add("a read that fails", is_right);
    }
    Ok(())
}

/// A run whose writes end so, at each of its requests.
fn writes_end(
    alloc: Global,
    run: &Run,
    then: &[Step],
    cases: &mut Cases,
) -> Result<(), AllocError> {
    let most = run.text.len().saturating_sub(1);
    let steps = script(alloc, most, then)?;
    for skipped in 0..=most {
        let writes = steps.get(skipped..).unwrap_or(&[]);
        let written = most.saturating_sub(skipped);
        cases.add(
            "a write that fails",
            stops_writing(alloc, run, writes, written),
        );
    }
    Ok(())
}

/// A run that succeeds over streams in pieces, with interruptions or without.
fn pieces(alloc: Global, run: &Run, cases: &mut Cases) -> Result<(), AllocError> {
    let longest = run
        .first
        .len()
        .max(second_of(run).len())
        .max(run.text.len());
    let often = interrupted(alloc, longest.saturating_add(1))?;
    cases.add("at once", ends_well(alloc, run, &AT_ONCE, &AT_ONCE));
    cases.add(
        "byte by byte",
        ends_well(alloc, run, &BYTE_BY_BYTE, &BYTE_BY_BYTE),
    );
    cases.add(
        "fifteen interruptions",
        ends_well(alloc, run, &often, &often),
    );
    Ok(())
}

/// A run whose streams fail.
fn failures(
    alloc: Global,
    run: &Run,
    which: Which,
    len: usize,
    cases: &mut Cases,
) -> Result<(), AllocError> {
    reads_end(alloc, run, which, len, &FAILURE, cases)?;
    reads_end(alloc, run, which, len, &SIXTEEN_INTERRUPTIONS, cases)
}

/// Whether a run ends at the limit of an input whose reader has no end.
fn ends_at_limit(alloc: Global, run: &Run, which: Which) -> bool {
    let fault = RunFault::Refused {
        which,
        fault: Fault::at_end(LIMIT, Why::TooLong),
    };
    stops_reading(alloc, run, which, &WITHOUT_END, fault)
}

fn try_without_end(alloc: Global, run: &Run, cases: &mut Cases) {
    if run.second.is_none() {
        cases.add("no end", ends_at_limit(alloc, run, Which::Only));
        return;
    }
    cases.add(
        "no end of the first",
        ends_at_limit(alloc, run, Which::First),
    );
    cases.add(
        "no end of the second",
        ends_at_limit(alloc, run, Which::Second),
    );
}

/// A run over two files, of which the first is refused and the reader of the second fails.
fn judges_last(alloc: Global, call: Call) -> bool {
    let mut first = Reader::new(REFUSED, &AT_ONCE);
    let mut second = Reader::new(b"", &FAILURE);
    let mut output = Writer::new(b"", &AT_ONCE);
    let answer = make(alloc, call, &mut first, &mut second, &mut output);
    answer == Err(RunFault::Read(Which::Second)) && output.has_taken(0)
}

fn try_inputs(alloc: Global, run: &Run, cases: &mut Cases) -> Result<(), AllocError> {
    match run.second {
        Some(second) => {
            failures(alloc, run, Which::First, run.first.len(), cases)?;
            failures(alloc, run, Which::Second, second.len(), cases)?;
            cases.add(
                "the first refused, the second fails",
                judges_last(alloc, run.call),
            );
            Ok(())
        }
        None => failures(alloc, run, Which::Only, run.first.len(), cases),
    }
}

fn try_run(alloc: Global, run: &Run, cases: &mut Cases) -> Result<(), AllocError> {
    pieces(alloc, run, cases)?;
    try_inputs(alloc, run, cases)?;
    writes_end(alloc, run, &FAILURE, cases)?;
    writes_end(alloc, run, &NOTHING_TAKEN, cases)?;
    writes_end(alloc, run, &SIXTEEN_INTERRUPTIONS, cases)
}

/// Readers without an end.
pub fn endless(alloc: Global) -> Cases {
    let mut cases = Cases::new();
    for run in &RUNS {
        try_without_end(alloc, run, &mut cases);
    }
    cases
}

pub fn streams(alloc: Global) -> Cases {
    let mut cases = Cases::new();
    for run in &RUNS {
        if try_run(alloc, run, &mut cases).is_err() {
            cases.add("memory", false);
        }
    }
    for run in &MORE_RUNS {
        if pieces(alloc, run, &mut cases).is_err() {
            cases.add("memory", false);
        }
    }
    cases
}
