//! Calls that need memory, each with the answer that it has to give. tests/memory refuses one
//! growth of each run: the call has to say that it is out of memory, with what it writes to as it
//! was, and the same call after it has to succeed.

use crate::calls::RUNS;
use crate::cases::Cases;
use std::alloc::Global;

mod games;
mod parts;
mod runs;
mod texts;
mod words;

pub use games::by_other_numbers;
pub use parts::made_table;

/// What came of a call.
#[derive(Clone, Copy, PartialEq, Eq)]
pub enum Came {
    /// The right answer.
    Right,
    /// It was out of memory, as it has to say that, and its output is as it was.
    OutOfMemory,
    /// Something else.
    Wrong,
    /// There was no memory for what the call is given.
    NotMade,
}

/// A call.
#[derive(Clone, Copy)]
pub enum Subject {
    WriteFraction,
    WriteLabel,
    WriteAnyBytes,
    MakeTable,
    WriteTable,
    ReadTable,
    ReadTree,
    Renumber,
    NumberByFirstUse,
    WriteTree,
    FindRenumbering,
    CanoniseTable,
    CanoniseTree,
    Compare,
    CompareAside,
    Expect,
    Form,
    ReducedForm,
    ParseWords,
    /// The run of this place in `RUNS`.
    Run(usize),
}

/// The calls with their names.
pub static CALLS: [(&str, Subject); 26] = [
    ("Fraction::write", Subject::WriteFraction),
    ("write_label", Subject::WriteLabel),
    ("write_label of any bytes", Subject::WriteAnyBytes),
    ("Table::new", Subject::MakeTable),
    ("write_nfg", Subject::WriteTable),
    ("read_nfg", Subject::ReadTable),
    ("read_efg", Subject::ReadTree),
    ("with_numbers", Subject::Renumber),
    ("renumber", Subject::NumberByFirstUse),
    ("write_efg", Subject::WriteTree),
    ("renumbering", Subject::FindRenumbering),
    ("canonical of a table", Subject::CanoniseTable),
    ("canonical of a tree", Subject::CanoniseTree),
    ("same", Subject::Compare),
    ("same_by", Subject::CompareAside),
    ("expected", Subject::Expect),
    ("table", Subject::Form),
    ("table_reduced", Subject::ReducedForm),
    ("parse_words", Subject::ParseWords),
    ("run_canon", Subject::Run(0)),
    ("run_check", Subject::Run(1)),
    ("run_table", Subject::Run(2)),
    ("run_table_reduced", Subject::Run(3)),
    ("run_same", Subject::Run(4)),
    ("run_same_map", Subject::Run(5)),
    ("run_same_by", Subject::Run(6)),
];

fn make(alloc: Global, subject: Subject) -> Came {
    match subject {
        Subject::WriteFraction => parts::write_fraction(alloc),
        Subject::WriteLabel => parts::write_quoted(alloc),
        Subject::WriteAnyBytes => parts::write_any_bytes(alloc),
        Subject::MakeTable => parts::make_table(alloc),
        Subject::WriteTable => parts::write_table(alloc),
        Subject::ReadTable => texts::read_table(alloc),
        Subject::ReadTree => texts::read_tree(alloc),
        Subject::Renumber => games::give_numbers(alloc),
        Subject::NumberByFirstUse => games::number_by_first_use(alloc),
        Subject::WriteTree => games::write_tree(alloc),
        Subject::FindRenumbering => games::find_renumbering(alloc),
        Subject::CanoniseTable => texts::canonise_table(alloc),
        Subject::CanoniseTree => texts::canonise_tree(alloc),
        Subject::Compare => texts::compare(alloc),
        Subject::CompareAside => texts::compare_aside(alloc),
        Subject::Expect => games::expect_payoffs(alloc),
        Subject::Form => games::form(alloc),
        Subject::ReducedForm => games::reduced_form(alloc),
        Subject::ParseWords => words::parse(alloc),
        Subject::Run(place) => match RUNS.get(place) {
            Some(run) => runs::run(alloc, run),
            None => Came::Wrong,
        },
    }
}

/// Makes a call, and again if it was out of memory. The second has to succeed.
fn make_again(alloc: Global, subject: Subject) -> Came {
    match make(alloc, subject) {
        Came::OutOfMemory => match make(alloc, subject) {
            Came::Right => Came::OutOfMemory,
            _ => Came::Wrong,
        },
        came => came,
    }
}

/// What came of the call of this name, if there is one.
pub fn call(alloc: Global, given: &[u8]) -> Option<Came> {
    for (name, subject) in &CALLS {
        if name.as_bytes() == given {
            return Some(make_again(alloc, *subject));
        }
    }
    None
}

/// All calls, with ample memory.
pub fn memory(alloc: Global) -> Cases {
    let mut cases = Cases::new();
    for (name, subject) in &CALLS {
        cases.add(*name, make(alloc, *subject) == Came::Right);
    }
    cases
}
