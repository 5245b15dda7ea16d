//! What a game holds, games by other numbers, and the payoffs of tables.

use crate::cases::Cases;
use crate::games::{
    BONUS, FIVE, FIVE_BY_OTHER_NUMBERS, FIVE_TEXT, FIVE_TEXT_BY_OTHER_NUMBERS, NULL_OUTCOME,
    NULL_OUTCOME_BY_PAYOFFS, ONE_SET, SELTEN, TWO_SETS,
};
use crate::given::{with_table, with_tree};
use crate::memory::by_other_numbers;
use gf_canon::{Renumbering, renumber, renumbering, write_efg};
use gf_fraction::Fraction;
use gf_tree::{Branch, Game, Step};
use std::alloc::{AllocError, Global};

/// The outcome numbers of `BONUS` in prefix order.
static OUTCOMES: [u32; 7] = [0, 1, 2, 0, 0, 0, 3];

/// The ways to its nodes, and how many children each has.
static CHILDREN: [(&[usize], usize); 7] = [
    (&[], 2),
    (&[1], 2),
    (&[1, 1], 0),
    (&[1, 2], 0),
    (&[2], 2),
    (&[2, 1], 0),
    (&[2, 2], 0),
];

/// Whether the nodes of a game have these outcome numbers.
fn have_outcomes(game: &Game<'_>, outcomes: &[u32]) -> bool {
    let mut place = 0;
    for node in game.nodes() {
        if outcomes.get(place) != Some(&node.outcome) {
            return false;
        }
        place = place.saturating_add(1);
    }
    place == outcomes.len()
}

fn branch_at<'g, 'a>(game: &'g Game<'a>, way: &[usize]) -> Option<Branch<'g, 'a>> {
    let mut branch = game.root();
    for child in way {
        branch = branch.child(*child)?;
    }
    Some(branch)
}

fn has_children(game: &Game<'_>, way: &[usize], children: usize) -> bool {
    match branch_at(game, way) {
        Some(branch) => {
            let past = children.saturating_add(1);
            branch.children() == children
                && branch.child(0).is_none()
                && branch.child(past).is_none()
        }
        None => false,
    }
}

fn nodes(game: &Game<'_>, cases: &mut Cases) {
    cases.add("its outcomes", have_outcomes(game, &OUTCOMES));
    for (way, children) in &CHILDREN {
        cases.add("its children", has_children(game, way, *children));
    }
}

fn has_set(game: &Game<'_>) -> bool {
    match game.infoset(0, 9) {
        Some((name, actions)) => name.raw() == b"n".as_slice() && actions.len() == 2,
        None => false,
    }
}

fn has_outcome(game: &Game<'_>) -> bool {
    match (game.outcome(4), Fraction::new(1, 10)) {
        (Some((name, payoffs)), Ok(tenth)) => {
            name.raw() == b"w".as_slice() && payoffs == [tenth].as_slice()
        }
        _ => false,
    }
}

fn has_root_and_end(game: &Game<'_>) -> bool {
    let (Some(root), Some(last)) = (game.nodes().next(), game.nodes().last()) else {
        return false;
    };
    root.step == Step::Chance { set: 9 }
        && root.outcome == 0
        && last.step == Step::Terminal
        && last.outcome == 4
        && game.len() == 7
}

/// Whether a branch has so many children, and this mover and outcome.
fn is_branch(
    branch: Branch<'_, '_>,
    children: usize,
    mover: Option<(u32, u32)>,
    outcome: u32,
) -> bool {
    branch.children() == children
        && branch.actions().len() == children
        && branch.mover() == mover
        && branch.outcome_position() == outcome
}

fn has_branches(game: &Game<'_>) -> bool {
    let Some(second) = game.root().child(2) else {
        return false;
    };
    match second.child_branches().next() {
        Some(last) => is_branch(second, 1, Some((1, 2)), 1) && is_branch(last, 0, None, 1),
        None => false,
    }
}

fn holdings(game: &Game<'_>, cases: &mut Cases) {
    cases.add("its set", has_set(game));
    cases.add("its outcome", has_outcome(game));
    cases.add("its root and its last node", has_root_and_end(game));
    cases.add("its branches", has_branches(game));
}

/// Whether a game was made and has this text by its own numbers.
fn is_written_as(alloc: Global, made: Result<Game<'_>, AllocError>, text: &[u8]) -> bool {
    let mut out = Vec::new(alloc);
    made.is_ok_and(|game| write_efg(&game, &mut out).is_ok()) && out.as_slice() == text
}

/// Whether the tree of a file, numbered by first use, is written as `FIVE_TEXT`.
fn numbers_by_first_use(alloc: Global, file: &[u8]) -> bool {
    with_tree(alloc, file, |game| {
        is_written_as(alloc, renumber(alloc, game), FIVE_TEXT)
    }) == Ok(true)
}

/// Whether the tree is written by the numbers that it is given.
fn takes_numbers(alloc: Global) -> bool {
    with_tree(alloc, FIVE, |game| {
        let made = by_other_numbers(alloc, game).map_err(|_| AllocError);
        is_written_as(alloc, made, FIVE_TEXT_BY_OTHER_NUMBERS)
    }) == Ok(true)
}

/// Whether two trees are read, and this holds of the renumbering between them.
fn is_between<F: FnOnce(Option<&Renumbering>) -> bool>(
    alloc: Global,
    a: &[u8],
    b: &[u8],
    is_right: F,
) -> bool
    requires { F.IsAlwaysCallable is_right }
{
    with_tree(alloc, a, |first| {
        with_tree(alloc, b, |second| match renumbering(alloc, first, second) {
            Ok(found) => is_right(found.as_ref()),
            Err(AllocError) => false,
        }) == Ok(true)
    }) == Ok(true)
}

fn new_numbers(new: &Renumbering, cases: &mut Cases) {
    cases.add("set 0 9", new.set(0, 9) == Some(2));
    cases.add("set 1 7", new.set(1, 7) == Some(3));
    cases.add("set 1 3", new.set(1, 3) == Some(8));
    cases.add("set 1 9", new.set(1, 9).is_none());
    cases.add("set 2 7", new.set(2, 7).is_none());
    cases.add("outcome 0", new.outcome(0) == Some(0));
    cases.add("outcome 4", new.outcome(4) == Some(2));
    cases.add("outcome 1", new.outcome(1).is_none());
}

fn has_none(alloc: Global, a: &[u8], b: &[u8]) -> bool {
    is_between(alloc, a, b, |found| found.is_none())
}

/// Whether two tables are read, and agree or not, as they should.
fn agree(alloc: Global, a: &[u8], b: &[u8], expected: bool) -> bool {
    with_table(alloc, a, |first| {
        with_table(alloc, b, |second| first.play_agrees(second)) == Ok(expected)
    }) == Ok(true)
}

/// Tables, whether they agree.
static AGREEMENTS: [(&[u8], &[u8], bool); 2] = [
    (NULL_OUTCOME, NULL_OUTCOME_BY_PAYOFFS, true),
    (SELTEN, NULL_OUTCOME, false),
];

pub fn trees(alloc: Global) -> Cases {
    let mut cases = Cases::new();
    let read = with_tree(alloc, BONUS, |game| nodes(game, &mut cases));
    cases.add("a tree with bonuses", read == Ok(()));
    let read = with_tree(alloc, FIVE, |game| holdings(game, &mut cases));
    cases.add("a tree", read == Ok(()));
    for file in [FIVE, FIVE_BY_OTHER_NUMBERS] {
        cases.add("numbers by first use", numbers_by_first_use(alloc, file));
    }
    cases.add("numbers that are given", takes_numbers(alloc));
    let found = is_between(alloc, FIVE, FIVE_BY_OTHER_NUMBERS, |found| match found {
        Some(new) => {
            new_numbers(new, &mut cases);
            true
        }
        None => false,
    });
    cases.add("a renumbering", found);
    cases.add("no renumbering", has_none(alloc, ONE_SET, TWO_SETS));
    cases.add("in the other order", has_none(alloc, TWO_SETS, ONE_SET));
    for (a, b, expected) in &AGREEMENTS {
        cases.add("two tables", agree(alloc, a, b, *expected));
        cases.add("in the other order", agree(alloc, b, a, *expected));
    }
    cases
}
