//! Canonical texts, sameness, tables and the line of a fault, each on the call for it.

use crate::cases::Cases;
use crate::games::*;
use crate::given::with_tree;
use crate::memory::made_table;
use gf_canon::{Names, canonical, same, same_by};
use gf_form::{FormFault, table, table_reduced};
use gf_nfg::{Table, write_nfg};
use gf_run::{Counted, RunFault, Which, status, write_fault};
use gf_token::{Fault, Span, Why};
use gf_tree::Game;
use std::alloc::Global;

static CANONICAL: [(&[u8], &[u8]); 10] = [
    (SELTEN, SELTEN_TEXT),
    (SELTEN_BY_OUTCOMES, SELTEN_TEXT),
    (NULL_OUTCOME, NULL_OUTCOME_TEXT),
    (NULL_OUTCOME_BY_PAYOFFS, NULL_OUTCOME_TEXT),
    (NOBODY, NOBODY_TEXT),
    (NOBODY_TABLE, NOBODY_TABLE_TEXT),
    (FIVE, FIVE_TEXT),
    (FIVE_BY_OTHER_NUMBERS, FIVE_TEXT),
    (QUOTED, QUOTED_TEXT),
    (ANY_BYTES, ANY_BYTES_TEXT),
];

/// Two files, and whether they are the same with their names and without.
static PAIRS: [(&[u8], &[u8], bool, bool); 12] = [
    (SELTEN, SELTEN_BY_OUTCOMES, true, true),
    (NULL_OUTCOME, NULL_OUTCOME_BY_PAYOFFS, true, true),
    (NULL_OUTCOME, NULL_OUTCOME_RENAMED, false, true),
    (FIVE, FIVE_BY_OTHER_NUMBERS, true, true),
    (FIVE, FIVE_WITH_COMMENT, false, true),
    (ONE_SET, TWO_SETS, false, false),
    (ONE_OUTCOME, TWO_OUTCOMES, false, false),
    (NOTHING, ZERO, false, false),
    (SELTEN, NOBODY, false, false),
    (ONE_OUTCOME, ONE_OUTCOME_RENAMED, false, true),
    (ONE_OUTCOME, OTHER_ACTION, false, false),
    (ONE_OUTCOME_RENAMED, OTHER_ACTION, false, false),
];

/// Trees with the texts of their strategic and reduced forms.
static FORMS: [(&[u8], &[u8], &[u8]); 6] = [
    (ONE_OUTCOME, ONE_OUTCOME_TABLE, ONE_OUTCOME_TABLE),
    (TWO_OUTCOMES, ONE_OUTCOME_TABLE, ONE_OUTCOME_TABLE),
    (NOTHING, ZERO_TABLE, ZERO_TABLE),
    (ZERO, ZERO_TABLE, ZERO_TABLE),
    (BONUS, BONUS_TABLE, BONUS_TABLE),
    (RULED_OUT, RULED_OUT_TABLE, RULED_OUT_REDUCED),
];

fn has_text(alloc: Global, file: &[u8], text: &[u8]) -> bool {
    canonical(alloc, file).is_ok_and(|found| found.as_slice() == text)
}

fn stays(alloc: Global, file: &[u8]) -> bool {
    canonical(alloc, file).is_ok_and(|text| has_text(alloc, text.as_slice(), text.as_slice()))
}

fn are_same(alloc: Global, a: &[u8], b: &[u8]) -> Option<bool> {
    same(alloc, a, b).ok()
}

fn are_same_by(alloc: Global, a: &[u8], b: &[u8], names: Names) -> Option<bool> {
    same_by(alloc, a, b, names).ok()
}

fn is_compared(alloc: Global, a: &[u8], b: &[u8], kept: bool, aside: bool) -> bool {
    are_same(alloc, a, b) == Some(kept)
        && are_same_by(alloc, a, b, Names::Kept) == Some(kept)
        && are_same_by(alloc, a, b, Names::Aside) == Some(aside)
}

/// Whether a table was made and has this text.
fn is_written_as(alloc: Global, made: Result<Table, FormFault>, text: &[u8]) -> bool {
    let mut out = Vec::new(alloc);
    made.is_ok_and(|table| write_nfg(&table, &mut out).is_ok()) && out.as_slice() == text
}

/// Whether the table of Selten, made of its parts, has the text of its file.
fn is_made_as_read(alloc: Global) -> bool {
    let made = made_table(alloc).map_err(|_| FormFault::Memory);
    is_written_as(alloc, made, SELTEN_TEXT)
}

fn has_forms(alloc: Global, game: &Game<'_>, form: &[u8], reduced: &[u8]) -> bool {
    if game.players().len() > 2 {
        return false;
    }
    is_written_as(alloc, table(alloc, game), form)
        && is_written_as(alloc, table_reduced(alloc, game), reduced)
}

fn tree_has_forms(alloc: Global, file: &[u8], form: &[u8], reduced: &[u8]) -> bool {
    with_tree(alloc, file, |game| has_forms(alloc, game, form, reduced)) == Ok(true)
}

/// Whether the greatest place is written whole, and has its status.
fn tells_a_fault(alloc: Global) -> bool {
    let span = Span {
        start: usize::MAX,
        end: usize::MAX,
    };
    let fault = RunFault::Refused {
        which: Which::First,
        fault: Fault::at(span, Why::TooManyProfiles),
    };
    let mut line = Vec::new(alloc);
    let told = write_fault(&fault, &mut Counted::new(&mut line));
    told.is_ok()
        && line.as_slice() == b"A: E18 at 18446744073709551615..18446744073709551615\n".as_slice()
        && status(&fault) == 2
}

pub fn texts(alloc: Global) -> Cases {
    let mut cases = Cases::new();
    for (file, text) in &CANONICAL {
        cases.add("a canonical text", has_text(alloc, file, text));
    }
    for file in &FILES {
        cases.add("a text canonised again", stays(alloc, file));
    }
    for (a, b, kept, aside) in &PAIRS {
        cases.add("two files", is_compared(alloc, a, b, *kept, *aside));
        cases.add(
            "in the other order",
            is_compared(alloc, b, a, *kept, *aside),
        );
    }
    for (file, form, reduced) in &FORMS {
        cases.add("a table", tree_has_forms(alloc, file, form, reduced));
    }
    cases.add("a table that was made", is_made_as_read(alloc));
    cases.add("a fault", tells_a_fault(alloc));
    cases
}
