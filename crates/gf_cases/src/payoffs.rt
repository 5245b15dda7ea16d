//! What the players are paid at strategies of worked games, and which strategies have no payoffs.

use crate::cases::Cases;
use crate::games::{BONUS, NOBODY, OVERFLOWING, UNLIKELY, UNLIKELY_AND_GREAT};
use crate::given::with_tree;
use gf_form::{EvalFault, are_strategies, expected};
use gf_fraction::Fraction;
use gf_tree::Game;
use std::alloc::{AllocError, Global};

/// An action at each set of each player.
type Choices = &'static [&'static [u32]];

/// A tree, choices, and what is paid there, as numerators and denominators; none if a value on the
/// way overflows.
#[derive(Clone, Copy)]
struct Paid {
    file: &'static [u8],
    choices: Choices,
    payoffs: Option<&'static [(i128, u128)]>,
}

static PAID: [Paid; 6] = [
    Paid {
        file: BONUS,
        choices: &[&[2], &[]],
        payoffs: Some(&[(2, 1), (1, 2)]),
    },
    Paid {
        file: OVERFLOWING,
        choices: &[&[1, 1]],
        payoffs: Some(&[(-1, 1)]),
    },
    Paid {
        file: OVERFLOWING,
        choices: &[&[2, 1]],
        payoffs: None,
    },
    Paid {
        file: UNLIKELY,
        choices: &[&[]],
        payoffs: Some(&[(1, 1)]),
    },
    Paid {
        file: UNLIKELY_AND_GREAT,
        choices: &[&[]],
        payoffs: None,
    },
    Paid {
        file: NOBODY,
        choices: &[],
        payoffs: Some(&[]),
    },
];

/// How many moves a deep tree has.
const MOVES: u64 = 100_000;

/// What is paid at these choices; no answer if there is no memory for them, or they are no choices.
fn paid_at(
    alloc: Global,
    game: &Game<'_>,
    choices: &[&[u32]],
) -> Result<Option<Result<Vec<Fraction>, EvalFault>>, AllocError> {
    let mut own = Vec::new(alloc);
    for actions in choices {
        own.push(Vec::from_slice(alloc, actions)?)?;
    }
    if !are_strategies(game, &own) {
        return Ok(None);
    }
    Ok(Some(expected(alloc, game, &own)))
}

/// Whether payoffs have these numerators and denominators.
fn are_payoffs(payoffs: &[Fraction], parts: &[(i128, u128)]) -> bool {
    payoffs
        .iter()
        .map(|it| (it.num(), it.den()))
        .eq(parts.iter().copied())
}

/// Whether this is paid, or nothing if a value on the way overflows.
fn is_paid(answer: Result<Vec<Fraction>, EvalFault>, expected: Option<&[(i128, u128)]>) -> bool {
    match answer {
        Ok(payoffs) => expected.is_some_and(|parts| are_payoffs(payoffs.as_slice(), parts)),
        Err(EvalFault::Overflow) => expected.is_none(),
        Err(EvalFault::Memory) => false,
    }
}

fn pays(alloc: Global, file: &[u8], choices: &[&[u32]], parts: Option<&[(i128, u128)]>) -> bool {
    with_tree(alloc, file, |game| match paid_at(alloc, game, choices) {
        Ok(Some(answer)) => is_paid(answer, parts),
        Ok(None) | Err(AllocError) => false,
    }) == Ok(true)
}

/// A tree with a single path, on which each of many moves pays one half.
fn deep_tree(alloc: Global) -> Result<Vec<u8>, AllocError> {
    let first = b"EFG 2 R \"d\" { \"A\" }\np \"\" 1 1 \"i\" { \"L\" } 1 \"x\" { 1/2 }\n";
    let mut file = Vec::from_slice(alloc, first)?;
    for _ in 1..MOVES {
        file.extend_from_slice(b"p \"\" 1 1 1\n")?;
    }
    file.extend_from_slice(b"t \"\" 0\n")?;
    Ok(file)
}

fn pays_in_depth(alloc: Global) -> bool {
    match deep_tree(alloc) {
        Ok(file) => pays(alloc, file.as_slice(), &[&[1]], Some(&[(50_000, 1)])),
        Err(AllocError) => false,
    }
}

pub fn payoffs(alloc: Global) -> Cases {
    let mut cases = Cases::new();
    for paid in &PAID {
        cases.add(
            "payoffs at choices",
            pays(alloc, paid.file, paid.choices, paid.payoffs),
        );
    }
    cases.add("payoffs of a deep tree", pays_in_depth(alloc));
    cases
}
