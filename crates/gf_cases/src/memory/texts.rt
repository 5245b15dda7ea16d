//! Files that are read, canonised and compared.

use crate::games::{
    FIVE, FIVE_BY_OTHER_NUMBERS, FIVE_TEXT, ONE_OUTCOME, ONE_OUTCOME_RENAMED, SELTEN_BY_OUTCOMES,
    SELTEN_TEXT,
};
use crate::given::{with_table, with_tree};
use crate::memory::Came;
use gf_canon::{Names, SameFault, canonical, same, same_by};
use gf_fraction::Fraction;
use gf_token::{Fault, Why};
use gf_tree::Game;
use std::alloc::Global;

/// What came of a call that refused a file which is right.
pub fn came_of_fault(fault: Fault) -> Came {
    match fault.why {
        Why::Memory => Came::OutOfMemory,
        _ => Came::Wrong,
    }
}

pub fn right_if(is_right: bool) -> Came {
    if is_right { Came::Right } else { Came::Wrong }
}

/// What came of a call that reads a file, if this holds of what it read.
fn came_of_reading(is_right: Result<bool, Fault>) -> Came {
    match is_right {
        Ok(is_right) => right_if(is_right),
        Err(fault) => came_of_fault(fault),
    }
}

pub fn read_table(alloc: Global) -> Came {
    let payoffs = [Fraction::zero(), Fraction::whole(false, 3)];
    came_of_reading(with_table(alloc, SELTEN_BY_OUTCOMES, |table| {
        table.payoffs(&[2, 2]) == Some(payoffs.as_slice())
    }))
}

fn has_numbers(game: &Game<'_>) -> bool {
    game.len() == 7
        && game.set_number(0, 1) == Some(9)
        && game.set_number(1, 2) == Some(3)
        && game.outcome_number(1) == Some(4)
}

pub fn read_tree(alloc: Global) -> Came {
    came_of_reading(with_tree(alloc, FIVE, has_numbers))
}

fn canonise(alloc: Global, file: &[u8], text: &[u8]) -> Came {
    match canonical(alloc, file) {
        Ok(found) => right_if(found.as_slice() == text),
        Err(fault) => came_of_fault(fault),
    }
}

pub fn canonise_table(alloc: Global) -> Came {
    canonise(alloc, SELTEN_BY_OUTCOMES, SELTEN_TEXT)
}

pub fn canonise_tree(alloc: Global) -> Came {
    canonise(alloc, FIVE, FIVE_TEXT)
}

fn came_of_sameness(answer: Result<bool, SameFault>) -> Came {
    match answer {
        Ok(is_same) => right_if(is_same),
        Err(SameFault::First(fault) | SameFault::Second(fault)) => came_of_fault(fault),
        Err(SameFault::Memory) => Came::OutOfMemory,
    }
}

pub fn compare(alloc: Global) -> Came {
    came_of_sameness(same(alloc, FIVE, FIVE_BY_OTHER_NUMBERS))
}

pub fn compare_aside(alloc: Global) -> Came {
    came_of_sameness(same_by(alloc, ONE_OUTCOME, ONE_OUTCOME_RENAMED, Names::Aside))
}
