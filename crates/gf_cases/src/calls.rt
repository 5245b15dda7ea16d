//! The calls over open inputs, each with its files, and what it answers and writes.

use crate::games::*;
use crate::scripts::{Reader, Writer};
use gf_canon::{FileKind, Names};
use gf_run::{
    Counted, RunFault, run_canon, run_check, run_same, run_same_by, run_same_map, run_table,
    run_table_reduced,
};
use std::alloc::Global;

/// A call over one input or two.
#[derive(Clone, Copy)]
pub enum Call {
    Canon,
    Check,
    Table,
    TableReduced,
    Same,
    SameMap,
    SameBy,
}

/// A call with its files, its answer, and the text that it writes. The answer of `run_check` is
/// whether the file is a tree; that of a call without an answer is true.
#[derive(Clone, Copy)]
pub struct Run {
    pub call: Call,
    pub first: &'static [u8],
    /// Only if the call compares two files.
    pub second: Option<&'static [u8]>,
    pub answer: bool,
    pub text: &'static [u8],
}

/// The second file of a run; empty if there is none.
pub fn second_of(run: &Run) -> &'static [u8] {
    run.second.unwrap_or(b"")
}

/// A run of each call.
pub static RUNS: [Run; 7] = [
    Run {
        call: Call::Canon,
        first: SELTEN,
        second: None,
        answer: true,
        text: SELTEN_TEXT,
    },
    Run {
        call: Call::Check,
        first: NOBODY,
        second: None,
        answer: true,
        text: b"tree\n",
    },
    Run {
        call: Call::Table,
        first: BONUS,
        second: None,
        answer: true,
        text: BONUS_TABLE,
    },
    Run {
        call: Call::TableReduced,
        first: RULED_OUT,
        second: None,
        answer: true,
        text: RULED_OUT_REDUCED,
    },
    Run {
        call: Call::Same,
        first: FIVE,
        second: Some(FIVE_BY_OTHER_NUMBERS),
        answer: true,
        text: b"same\n",
    },
    Run {
        call: Call::SameMap,
        first: FIVE,
        second: Some(FIVE_BY_OTHER_NUMBERS),
        answer: true,
        text: FIVE_MAP,
    },
    Run {
        call: Call::SameBy,
        first: ONE_OUTCOME,
        second: Some(ONE_OUTCOME_RENAMED),
        answer: true,
        text: b"same\n",
    },
];

/// Other runs.
pub static MORE_RUNS: [Run; 4] = [
    Run {
        call: Call::Canon,
        first: FIVE,
        second: None,
        answer: true,
        text: FIVE_TEXT,
    },
    Run {
        call: Call::Check,
        first: NOBODY_TABLE,
        second: None,
        answer: false,
        text: b"table\n",
    },
    Run {
        call: Call::Same,
        first: ONE_SET,
        second: Some(TWO_SETS),
        answer: false,
        text: b"different\n",
    },
    Run {
        call: Call::SameBy,
        first: ONE_OUTCOME,
        second: Some(OTHER_ACTION),
        answer: false,
        text: b"different\n",
    },
];

/// The answer of a call that only writes.
fn done(answer: Result<(), RunFault>) -> Result<bool, RunFault> {
    answer.map(|_| true)
}

fn is_tree(answer: Result<FileKind, RunFault>) -> Result<bool, RunFault> {
    answer.map(|kind| kind == FileKind::Tree)
}

/// Makes a call. The second input is not read by a call over one.
pub fn make(
    alloc: Global,
    call: Call,
    first: &mut Reader<'_>,
    second: &mut Reader<'_>,
    output: &mut Writer<'_>,
) -> Result<bool, RunFault> {
    let mut a = Counted::new(first);
    let mut b = Counted::new(second);
    let mut to = Counted::new(output);
    match call {
        Call::Canon => done(run_canon(alloc, &mut a, &mut to)),
        Call::Check => is_tree(run_check(alloc, &mut a, &mut to)),
        Call::Table => done(run_table(alloc, &mut a, &mut to)),
        Call::TableReduced => done(run_table_reduced(alloc, &mut a, &mut to)),
        Call::Same => run_same(alloc, &mut a, &mut b, &mut to),
        Call::SameMap => run_same_map(alloc, &mut a, &mut b, &mut to),
        Call::SameBy => run_same_by(alloc, &mut a, &mut b, Names::Aside, &mut to),
    }
}
