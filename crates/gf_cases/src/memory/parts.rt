//! Fractions, labels and tables that are written or made.

use crate::games::{SELTEN, SELTEN_TEXT};
use crate::given::with_table;
use crate::memory::Came;
use crate::memory::texts::right_if;
use gf_fraction::Fraction;
use gf_nfg::{Table, write_nfg};
use gf_token::{Label, write_label};
use std::alloc::{AllocError, Global};

/// What an output holds before it is written to.
const BEFORE: &[u8] = b"; ";

/// What came of a call that writes this after what its output holds.
pub fn came_of<F: FnOnce(&mut Vec<u8>) -> Result<(), AllocError>>(
    alloc: Global,
    text: &[u8],
    call: F,
) -> Came
    requires { F.IsAlwaysCallable call }
{
    let Ok(mut out) = Vec::from_slice(alloc, BEFORE) else {
        return Came::NotMade;
    };
    match call(&mut out) {
        Ok(()) if out.as_slice().strip_prefix(BEFORE) == Some(text) => Came::Right,
        Err(AllocError) if out.as_slice() == BEFORE => Came::OutOfMemory,
        _ => Came::Wrong,
    }
}

pub fn write_fraction(alloc: Global) -> Came {
    let text: &[u8] = b"-1/170141183460469231731687303715884105727";
    match Fraction::read(text) {
        Ok(fraction) => came_of(alloc, text, |out| fraction.write(out)),
        Err(_) => Came::NotMade,
    }
}

fn write_title(alloc: Global, title: &[u8], text: &[u8]) -> Came {
    match Label::new(title) {
        Some(label) => came_of(alloc, text, |out| write_label(label, out)),
        None => Came::NotMade,
    }
}

/// A title with quotation marks and a backslash.
pub fn write_quoted(alloc: Global) -> Came {
    write_title(alloc, b"say \\\"hi\\\" \\a", b"\"say \\\"hi\\\" \\a\"")
}

/// A title with a line feed, and with a byte that no text in UTF-8 has.
pub fn write_any_bytes(alloc: Global) -> Came {
    write_title(alloc, b"a\n\xffb", b"\"a\n\xffb\"")
}

pub fn write_table(alloc: Global) -> Came {
    with_table(alloc, SELTEN, |table| {
        came_of(alloc, SELTEN_TEXT, |out| write_nfg(table, out))
    })
    .unwrap_or(Came::NotMade)
}

/// The table with these strategies of its first player, of which the second has two, made of its
/// parts.
fn made<'a>(
    alloc: Global,
    title: Label<'a>,
    comment: Label<'a>,
    players: [Label<'a>; 2],
    strategies: [Label<'a>; 3],
) -> Result<Table, Came> {
    let (row, column) = (players[0], players[1]);
    let (one, two, three) = (strategies[0], strategies[1], strategies[2]);
    let (Ok(first), Ok(second)) = (vec![in alloc; one, two, three], vec![in alloc; one, two]) else {
        return Err(Came::NotMade);
    };
    let payoffs = [1, 1, 0, 2, 0, 2, 1, 1, 0, 3, 2, 0].map(|n| Fraction::whole(false, n));
    Table::new(
        alloc,
        title,
        comment,
        &[row, column],
        &[first, second],
        &payoffs,
    )
    .map_err(|_| Came::OutOfMemory)
}

/// The table of Selten.
pub fn made_table(alloc: Global) -> Result<Table, Came> {
    let (Some(title), Some(comment), Some(row), Some(column)) = (
        Label::new(b"Selten"),
        Label::new(b""),
        Label::new(b"Player 1"),
        Label::new(b"Player 2"),
    ) else {
        return Err(Came::Wrong);
    };
    let (Some(one), Some(two), Some(three)) = (Label::new(b"1"), Label::new(b"2"), Label::new(b"3"))
    else {
        return Err(Came::Wrong);
    };
    made(alloc, title, comment, [row, column], [one, two, three])
}

fn has_names(t: &Table) -> bool {
    let (Some(column), Some(three)) = (t.player(2), t.strategy(1, 3)) else {
        return false;
    };
    t.title().raw() == b"Selten".as_slice()
        && t.comment().raw().is_empty()
        && column.raw() == b"Player 2".as_slice()
        && three.raw() == b"3".as_slice()
}

fn has_payoffs(t: &Table) -> bool {
    let payoffs = [Fraction::zero(), Fraction::whole(false, 3)];
    t.payoffs(&[2, 2]) == Some(payoffs.as_slice())
        && (t.players(), t.profiles(), t.strategies(1)) == (2, 6, Some(3))
}

pub fn make_table(alloc: Global) -> Came {
    match made_table(alloc) {
        Ok(table) => right_if(has_names(&table) && has_payoffs(&table)),
        Err(came) => came,
    }
}
