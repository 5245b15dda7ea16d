//! Games by other numbers, their texts, payoffs and tables.

use crate::games::{BONUS, FIVE, FIVE_BY_OTHER_NUMBERS, FIVE_TEXT_BY_OTHER_NUMBERS, RULED_OUT};
use crate::given::with_tree;
use crate::memory::Came;
use crate::memory::parts::came_of;
use crate::memory::texts::right_if;
use gf_canon::{Renumbering, renumber, renumbering, write_efg};
use gf_form::{EvalFault, FormFault, are_strategies, expected, table, table_reduced};
use gf_fraction::Fraction;
use gf_nfg::Table;
use gf_tree::Game;
use std::alloc::{AllocError, Global};

/// What came of a call that gives the game by these numbers of its sets and its outcome.
fn came_of_copy(
    answer: Result<Game<'_>, AllocError>,
    chance: u32,
    own: [u32; 2],
    outcome: u32,
) -> Came {
    match answer {
        Ok(copy) => right_if(
            copy.set_number(0, 1) == Some(chance)
                && copy.set_number(1, 1) == Some(own[0])
                && copy.set_number(1, 2) == Some(own[1])
                && copy.outcome_number(1) == Some(outcome),
        ),
        Err(AllocError) => Came::OutOfMemory,
    }
}

/// The game of `FIVE` by the numbers of `FIVE_BY_OTHER_NUMBERS`.
pub fn by_other_numbers<'a>(alloc: Global, game: &Game<'a>) -> Result<Game<'a>, Came> {
    let (Ok(chance), Ok(own)) = (
        Vec::from_slice(alloc, &[2]),
        Vec::from_slice(alloc, &[3, 8]),
    ) else {
        return Err(Came::NotMade);
    };
    if game.players().len() != 1 || game.outcome_count() != 1 {
        return Err(Came::Wrong);
    }
    if game.set_count(0) != 1 || game.set_count(1) != 2 {
        return Err(Came::Wrong);
    }
    match game.with_numbers(alloc, &[chance, own], &[2]) {
        Ok(copy) => Ok(copy),
        Err(AllocError) => Err(Came::OutOfMemory),
    }
}

/// What came of a call on the tree of a file.
fn on_tree<F: FnOnce(&Game<'_>) -> Came>(alloc: Global, file: &[u8], call: F) -> Came
    requires { F.IsAlwaysCallable call }
{
    with_tree(alloc, file, call).unwrap_or(Came::NotMade)
}

pub fn give_numbers(alloc: Global) -> Came {
    on_tree(alloc, FIVE, |game| match by_other_numbers(alloc, game) {
        Ok(copy) => came_of_copy(Ok(copy), 2, [3, 8], 2),
        Err(came) => came,
    })
}

pub fn number_by_first_use(alloc: Global) -> Came {
    on_tree(alloc, FIVE, |game| {
        came_of_copy(renumber(alloc, game), 1, [1, 2], 1)
    })
}

pub fn write_tree(alloc: Global) -> Came {
    on_tree(alloc, FIVE_BY_OTHER_NUMBERS, |game| {
        came_of(
            alloc,
            FIVE_TEXT_BY_OTHER_NUMBERS,
            |out| write_efg(game, out),
        )
    })
}

/// What came of a renumbering that should be the one between `FIVE` and `FIVE_BY_OTHER_NUMBERS`.
fn came_of_renumbering(answer: Result<Option<Renumbering>, AllocError>) -> Came {
    match answer {
        Ok(Some(new)) => right_if(new.set(1, 7) == Some(3) && new.outcome(4) == Some(2)),
        Ok(None) => Came::Wrong,
        Err(AllocError) => Came::OutOfMemory,
    }
}

pub fn find_renumbering(alloc: Global) -> Came {
    on_tree(alloc, FIVE, |game| {
        on_tree(alloc, FIVE_BY_OTHER_NUMBERS, |copy| {
            came_of_renumbering(renumbering(alloc, game, copy))
        })
    })
}

fn came_of_payoffs(answer: Result<Vec<Fraction>, EvalFault>) -> Came {
    match answer {
        Ok(payoffs) => {
            let (Ok(two), Ok(half)) = (Fraction::new(2, 1), Fraction::new(1, 2)) else {
                return Came::Wrong;
            };
            right_if(payoffs.as_slice() == [two, half].as_slice())
        }
        Err(EvalFault::Memory) => Came::OutOfMemory,
        Err(EvalFault::Overflow) => Came::Wrong,
    }
}

/// The payoffs of `BONUS` at the second action of its first player.
fn expect_of(alloc: Global, game: &Game<'_>) -> Came {
    let Ok(first) = Vec::from_slice(alloc, &[2]) else {
        return Came::NotMade;
    };
    let choices = [first, Vec::new(alloc)];
    if !are_strategies(game, &choices) {
        return Came::Wrong;
    }
    came_of_payoffs(expected(alloc, game, &choices))
}

pub fn expect_payoffs(alloc: Global) -> Came {
    on_tree(alloc, BONUS, |game| expect_of(alloc, game))
}

/// What came of a call that gives a table, of which this is paid to the first player at a profile.
fn came_of_form(answer: Result<Table, FormFault>, profile: &[u32], payoff: Fraction) -> Came {
    match answer {
        Ok(table) => match table.payoffs(profile) {
            Some(payoffs) => right_if(payoffs.first() == Some(&payoff)),
            None => Came::Wrong,
        },
        Err(FormFault::Memory) => Came::OutOfMemory,
        Err(_) => Came::Wrong,
    }
}

pub fn form(alloc: Global) -> Came {
    on_tree(alloc, BONUS, |game| {
        if game.players().len() != 2 {
            return Came::Wrong;
        }
        came_of_form(table(alloc, game), &[2, 1], Fraction::whole(false, 2))
    })
}

pub fn reduced_form(alloc: Global) -> Came {
    on_tree(alloc, RULED_OUT, |game| {
        if game.players().len() != 1 {
            return Came::Wrong;
        }
        came_of_form(table_reduced(alloc, game), &[3], Fraction::whole(false, 3))
    })
}
