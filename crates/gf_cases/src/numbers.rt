//! Arithmetic, numbers and indices.

use crate::cases::Cases;
use gf_fraction::{Fraction, NumberFault, Overflow};
use gf_token::{IndexFault, read_index};
use std::alloc::Global;

/// The greatest size of a numerator, and the greatest denominator.
const M: i128 = 170141183460469231731687303715884105727;

const M_DEN: u128 = 170141183460469231731687303715884105727;

/// A numerator and a denominator.
type Pair = (i128, u128);

static SUMS: [(Pair, Pair, Option<Pair>); 6] = [
    ((1, 2), (1, 3), Some((5, 6))),
    ((1, M_DEN), (M - 1, M_DEN), Some((1, 1))),
    ((M, 1), (1, 1), None),
    ((M, 2), (M, 2), None),
    ((1, M_DEN), (1, 2), None),
    ((M, 1), (-M, 1), Some((0, 1))),
];

static PRODUCTS: [(Pair, Pair, Option<Pair>); 3] = [
    ((M, 1), (1, M_DEN), Some((1, 1))),
    ((2, 3), (3, 2), Some((1, 1))),
    ((M, 1), (2, 1), None),
];

static FRACTIONS: [(Pair, Result<Pair, NumberFault>); 4] = [
    ((-4, 6), Ok((-2, 3))),
    ((1, 0), Err(NumberFault::ZeroDenominator)),
    ((-M - 1, 1), Err(NumberFault::TooLarge)),
    ((1, M_DEN + 1), Err(NumberFault::TooLarge)),
];

static READ: [(&[u8], &[u8]); 22] = [
    (b".1", b"1/10"),
    (b"1e-1", b"1/10"),
    (b"2/20", b"1/10"),
    (b"0.500000", b"1/2"),
    (b"+1/2", b"1/2"),
    (b"5E-1", b"1/2"),
    (b"1.50e1", b"15"),
    (b"5.", b"5"),
    (b"007", b"7"),
    (b"-6/4", b"-3/2"),
    (b"-0", b"0"),
    (b"0/7", b"0"),
    (b"0.0", b"0"),
    (b"0e38", b"0"),
    (b"1e38", b"100000000000000000000000000000000000000"),
    (b"1.7e38", b"170000000000000000000000000000000000000"),
    (b"1e-38", b"1/100000000000000000000000000000000000000"),
    (
        b"0.00000000000000000000000000000000000001",
        b"1/100000000000000000000000000000000000000",
    ),
    (b"10e-38", b"1/10000000000000000000000000000000000000"),
    (
        b"170141183460469231731687303715884105727",
        b"170141183460469231731687303715884105727",
    ),
    (
        b"-170141183460469231731687303715884105727",
        b"-170141183460469231731687303715884105727",
    ),
    (
        b"1/170141183460469231731687303715884105727",
        b"1/170141183460469231731687303715884105727",
    ),
];

static REFUSED: [(&[u8], NumberFault); 22] = [
    (b"", NumberFault::NotANumber),
    (b".", NumberFault::NotANumber),
    (b"-", NumberFault::NotANumber),
    (b"1/", NumberFault::NotANumber),
    (b"/2", NumberFault::NotANumber),
    (b"1/-2", NumberFault::NotANumber),
    (b"1.5/2", NumberFault::NotANumber),
    (b"1e", NumberFault::NotANumber),
    (b"e5", NumberFault::NotANumber),
    (b"1/2e3", NumberFault::NotANumber),
    (b"0x1", NumberFault::NotANumber),
    (b"--1", NumberFault::NotANumber),
    (b"1/0", NumberFault::ZeroDenominator),
    (b"0/000", NumberFault::ZeroDenominator),
    (
        b"170141183460469231731687303715884105728/0",
        NumberFault::ZeroDenominator,
    ),
    (
        b"170141183460469231731687303715884105728",
        NumberFault::TooLarge,
    ),
    (
        b"1/170141183460469231731687303715884105728",
        NumberFault::TooLarge,
    ),
    (b"2e38", NumberFault::TooLarge),
    (b"1e39", NumberFault::TooLarge),
    (b"0e39", NumberFault::TooLarge),
    (b"0.1e-38", NumberFault::TooLarge),
    (
        b"0.000000000000000000000000000000000000000",
        NumberFault::TooLarge,
    ),
];

static INDICES: [(&[u8], Result<u32, IndexFault>); 8] = [
    (b"0", Ok(0)),
    (b"007", Ok(7)),
    (b"4294967295", Ok(4_294_967_295)),
    (b"4294967296", Err(IndexFault::TooLarge)),
    (b"18446744073709551616", Err(IndexFault::TooLarge)),
    (b"", Err(IndexFault::NotDigits)),
    (b"+1", Err(IndexFault::NotDigits)),
    (b"1.0", Err(IndexFault::NotDigits)),
];

/// The fraction of these parts; zero if there is none.
fn fraction(parts: Pair) -> Fraction {
    match Fraction::new(parts.0, parts.1) {
        Ok(fraction) => fraction,
        Err(_) => Fraction::zero(),
    }
}

/// Whether a sum or a product has these parts.
fn is_result(found: Result<Fraction, Overflow>, expected: Option<Pair>) -> bool {
    match (found, expected) {
        (Ok(fraction), Some(parts)) => (fraction.num(), fraction.den()) == parts,
        (Err(Overflow), None) => true,
        _ => false,
    }
}

fn is_made(parts: Pair, expected: Result<Pair, NumberFault>) -> bool {
    match (Fraction::new(parts.0, parts.1), expected) {
        (Ok(fraction), Ok(lowest)) => (fraction.num(), fraction.den()) == lowest,
        (Err(fault), Err(other)) => fault == other,
        _ => false,
    }
}

fn is_read_as(alloc: Global, text: &[u8], written: &[u8]) -> bool {
    let Ok(fraction) = Fraction::read(text) else {
        return false;
    };
    let mut out = Vec::new(alloc);
    fraction.write(&mut out).is_ok() && out.as_slice() == written
}

fn is_refused(text: &[u8], fault: NumberFault) -> bool {
    match Fraction::read(text) {
        Ok(_) => false,
        Err(other) => other == fault,
    }
}

fn is_index(text: &[u8], expected: Result<u32, IndexFault>) -> bool {
    match (read_index(text), expected) {
        (Ok(number), Ok(other)) => number == other,
        (Err(fault), Err(other)) => fault == other,
        _ => false,
    }
}

/// Fractions that are made of a whole number, and what is asked of fractions.
fn wholes(cases: &mut Cases) {
    let (reduced, one) = (fraction((-4, 6)), fraction((5, 5)));
    cases.add("a negative fraction", reduced.is_negative());
    cases.add("one that is not", !one.is_negative());
    cases.add("a fraction above one", fraction((7, 6)).exceeds_one());
    cases.add("one that is not", !one.exceeds_one());
    let twelve = Fraction::whole(true, 12);
    cases.add("a whole number", twelve == fraction((-12, 1)));
    cases.add("one", Fraction::one() == one);
}

fn arithmetic(cases: &mut Cases) {
    for (a, b, expected) in &SUMS {
        cases.add(
            "a sum",
            is_result(fraction(*a).add(fraction(*b)), *expected),
        );
    }
    for (a, b, expected) in &PRODUCTS {
        cases.add(
            "a product",
            is_result(fraction(*a).mul(fraction(*b)), *expected),
        );
    }
    for (parts, expected) in &FRACTIONS {
        cases.add("a fraction of parts", is_made(*parts, *expected));
    }
}

fn texts(alloc: Global, cases: &mut Cases) {
    for (text, written) in &READ {
        cases.add("a number", is_read_as(alloc, text, written));
    }
    for (text, fault) in &REFUSED {
        cases.add("no number", is_refused(text, *fault));
    }
    for (text, expected) in &INDICES {
        cases.add("an index", is_index(text, *expected));
    }
}

pub fn numbers(alloc: Global) -> Cases {
    let mut cases = Cases::new();
    arithmetic(&mut cases);
    wholes(&mut cases);
    texts(alloc, &mut cases);
    cases
}
