//! Files that are cut before each of their bytes: each is right there too, or refused where it
//! ends; or, if the cut goes through a token, at that token, which of a text is its opening quote.

use crate::cases::Cases;
use crate::games::*;
use crate::given::{with_table, with_tree};
use gf_canon::canonical;
use gf_token::{Cursor, Fault, Span, What, Why};
use std::alloc::Global;

/// The refusal of the tree of nobody that is cut at each place before its end.
static REFUSALS: [(usize, usize, Why); 21] = [
    (0, 0, Why::Expected(What::Format)),
    (0, 1, Why::Expected(What::Format)),
    (0, 2, Why::Expected(What::Format)),
    (3, 3, Why::Expected(What::Version)),
    (4, 4, Why::Expected(What::Version)),
    (5, 5, Why::Expected(What::Letter)),
    (6, 6, Why::Expected(What::Letter)),
    (7, 7, Why::Expected(What::Text)),
    (8, 8, Why::Expected(What::Text)),
    (8, 9, Why::Unterminated),
    (10, 10, Why::Expected(What::Opening)),
    (11, 11, Why::Expected(What::Opening)),
    (12, 12, Why::Expected(What::Text)),
    (13, 13, Why::Expected(What::Text)),
    (14, 14, Why::Expected(What::Node)),
    (15, 15, Why::Expected(What::Node)),
    (16, 16, Why::Expected(What::Text)),
    (17, 17, Why::Expected(What::Text)),
    (17, 18, Why::Unterminated),
    (19, 19, Why::Expected(What::Index)),
    (20, 20, Why::Expected(What::Index)),
];

/// The refusal of a file; `None` if it is accepted.
fn refusal(alloc: Global, file: &[u8]) -> Option<Fault> {
    canonical(alloc, file).err()
}

/// The refusal by the reader of the file's own format.
fn refusal_by_reader(alloc: Global, file: &[u8], is_tree: bool) -> Option<Fault> {
    if is_tree {
        with_tree(alloc, file, |_| ()).err()
    } else {
        with_table(alloc, file, |_| ()).err()
    }
}

/// Where the token lies that a cut goes through.
fn token_through(file: &[u8], at: usize) -> Option<Span> {
    let mut cursor = Cursor::new(file);
    for _ in 0..file.len() {
        let Ok(Some(token)) = cursor.next() else {
            return None;
        };
        if token.span.end > at {
            return if token.span.start < at {
                Some(token.span)
            } else {
                None
            };
        }
    }
    None
}

fn is_text_at(file: &[u8], at: usize) -> bool {
    file.get(at) == Some(&b'"')
}

/// Whether a file that is cut there may be answered so.
fn may_be(file: &[u8], at: usize, answer: Option<Fault>) -> bool {
    let through = token_through(file, at);
    match (through, answer) {
        (Some(token), answer) if is_text_at(file, token.start) => {
            let place = Span {
                start: token.start,
                end: token.start.saturating_add(1),
            };
            answer == Some(Fault::at(place, Why::Unterminated))
        }
        (_, None) => true,
        (Some(token), Some(fault)) => {
            fault.span.end == at && (fault.span.start == token.start || fault.span.start == at)
        }
        (None, Some(fault)) => fault.span.start == at && fault.span.end == at,
    }
}

fn is_cut_well(alloc: Global, file: &[u8], at: usize) -> bool {
    let cut = file.get(..at).unwrap_or(file);
    let answer = refusal(alloc, cut);
    let is_tree = file.first() == Some(&b'E');
    may_be(file, at, answer) && refusal_by_reader(alloc, cut, is_tree) == answer
}

fn all_cuts(alloc: Global, cases: &mut Cases) {
    for file in &FILES {
        for at in 0..file.len() {
            cases.add("a file that is cut", is_cut_well(alloc, file, at));
        }
        cases.add("a file that is whole", refusal(alloc, file).is_none());
    }
}

fn cuts_of_nobody(alloc: Global, cases: &mut Cases) {
    let mut at = 0;
    for (start, end, why) in &REFUSALS {
        let place = Span {
            start: *start,
            end: *end,
        };
        let cut = NOBODY.get(..at).unwrap_or(NOBODY);
        let is_right = refusal(alloc, cut) == Some(Fault::at(place, *why));
        cases.add("the tree of nobody that is cut", is_right);
        at = at.saturating_add(1);
    }
    cases.add(
        "its length",
        at == NOBODY.len() && refusal(alloc, NOBODY).is_none(),
    );
}

pub fn cuts(alloc: Global) -> Cases {
    let mut cases = Cases::new();
    cuts_of_nobody(alloc, &mut cases);
    all_cuts(alloc, &mut cases);
    cases
}
