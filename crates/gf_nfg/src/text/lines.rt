//! The lines of payoffs of a canonical text, one for each profile.

ghost use Rattle.std.specs.Prelude.{◌≡◌, ◌+◌, ◌*◌, ◌<◌, ◌≤◌, ◌^◌, ◌++◌, ◌∷◌, IfOk, get_or};
ghost use Rattle.std.specs.Prelude.{MatchOption, OnErr, OnOk, Some, [], drop, length, map};
ghost use Rattle.std.specs.Prelude.{slice_get, vec_capacity, vec_len};
ghost use Rattle.std.specs.List.{AllByRecursion};
ghost use Rattle.gf_fraction.specs.NumberText.{number_text};
ghost use Rattle.gf_nfg.specs.TableText.{lines_text};
ghost use Rattle.gf_nfg.specs.inner.TextParts.{EndsWithLine, line_text, lines_rest, lines_with};
ghost use Rattle.gf_nfg.specs.inner.TextParts.{row_text};
ghost use Rattle.gf_token.specs.TextLayout.{Keeps, others_text};

use crate::table::agree::same_row;
use crate::table::pieces::piece;
use crate::table::rows::{NumberedRows, Rows};
use gf_fraction::Fraction;
use std::alloc::{AllocError, Global};
use std::marker::Model;

/// Appends payoffs, each after a space.
#[inline(always)]
fn write_others(payoffs: &[Fraction], out: &mut Vec<u8>) -> Result<(), AllocError>
    ensures text { OnOk result
        (out.new.items ≡ out.old.items ++ others_text (map number_text payoffs.now)) }
    ensures kept { OnErr result (Keeps out.old.items out.new.items) }
    ensures full { OnErr result (vec_capacity out.old < vec_len out.old + 81 * length payoffs.now) }
    ensures grown { vec_len out.new ≤ vec_len out.old + 81 * length payoffs.now }
    ensures capacity { vec_capacity out.old ≤ vec_capacity out.new }
{
    for payoff in payoffs {
        out.push(b' ')?;
        payoff.write(out)?;
    }
    Ok(())
}

/// Appends the line of the payoffs at one profile, with a space between any two.
#[inline(always)]
#[tactic(auto, using(crate::proofs::lemmas::texts::Pieces::rows_spaced))]
fn write_line(payoffs: &[Fraction], out: &mut Vec<u8>) -> Result<(), AllocError>
    ensures text { OnOk result (out.new.items ≡ out.old.items ++ line_text payoffs.now) }
    ensures kept { OnErr result (Keeps out.old.items out.new.items) }
    ensures full { OnErr result
        (vec_capacity out.old < vec_len out.old + (81 * length payoffs.now + 1)) }
    ensures grown { vec_len out.new ≤ vec_len out.old + (81 * length payoffs.now + 1) }
    ensures capacity { vec_capacity out.old ≤ vec_capacity out.new }
{
    let Some((first, others)) = payoffs.split_first() else {
        out.push(b'\n')?;
        return Ok(());
    };
    first.write(out)?;
    write_others(others, out)?;
    out.push(b'\n')?;
    Ok(())
}

/// Appends the line of the payoffs at one profile. It is copied from the line before, which begins
/// at `start`, if that is of the same payoffs: where a set is not reached, its actions pay the same.
#[inline(always)]
#[tactic(auto, using(crate::proofs::lemmas::texts::Pieces::copied))]
fn write_next(
    before: &[Fraction],
    start: usize,
    payoffs: &[Fraction],
    out: &mut Vec<u8>,
) -> Result<(), AllocError>
    requires { EndsWithLine before.now start out.old.items }
    ensures text { OnOk result (out.new.items ≡ out.old.items ++ line_text payoffs.now) }
    ensures kept { OnErr result (Keeps out.old.items out.new.items) }
    ensures full { OnErr result
        (vec_capacity out.old < vec_len out.old + (81 * length payoffs.now + 1)) }
    ensures grown { vec_len out.new ≤ vec_len out.old + (81 * length payoffs.now + 1) }
    ensures capacity { vec_capacity out.old ≤ vec_capacity out.new }
{
    let end = out.len();
    if start < end && same_row(payoffs, before) {
        out.extend_from_within(start..end)
    } else {
        write_line(payoffs, out)
    }
}

/// Lines, one after another, with the place where each ends.
#[derive(Drop)]
pub(crate) struct Lines {
    text: Vec<u8>,
    ends: Vec<usize>,
}

impl Model for Lines {
    ghost use Rattle.std.specs.Prelude.{List, ℕ, length};
    ghost use Rattle.gf_nfg.specs.inner.TableParts.{RisesTo, pieces};

    ghost Value = { List (List ℕ) };

    ghost view = { λ l. pieces 0 l.ends.items l.text.items };

    ghost invariant = { λ l. RisesTo (length l.text.items) 0 l.ends.items };
}

impl Lines {
    /// No lines.
    pub(crate) fn none(alloc: Global) -> Lines
        ensures { result ≡ [] }
    {
        Lines {
            text: Vec::new(alloc),
            ends: Vec::new(alloc),
        }
    }

    /// Adds the line of one more row. If memory is refused, a part of it may have been added.
    #[tactic(auto, using(crate::proofs::lemmas::tables::Pieces::one_piece_more))]
    fn push(&mut self, row: &[Fraction]) -> Result<(), AllocError>
        ensures { OnOk result (self.new ≡ self.old ++ line_text row.now ∷ []) }
    {
        self.ends.reserve(1)?;
        let written = write_line(row, &mut self.text);
        self.ends.push_reserved(self.text.len());
        written
    }

    /// The line of each row, made in the order of the rows in memory.
    #[tactic(auto, using(crate::proofs::lemmas::texts::SharedLines::lines_more))]
    pub(crate) fn of_rows(alloc: Global, rows: &NumberedRows) -> Result<Lines, AllocError>
        ensures { IfOk result (λ lines. lines ≡ map line_text rows.now) }
    {
        let mut lines = Lines::none(alloc);
        for number in 0..rows.len() {
            lines.push(rows.row(number))?;
        }
        Ok(lines)
    }

    /// The line with this number, from 0.
    #[tactic(auto, using(crate::proofs::lemmas::tables::Pieces::one_piece))]
    fn line(&self, number: usize) -> &[u8]
        requires { number < length self.now }
        ensures { slice_get self.now number ≡ Some result.now }
    {
        piece(&self.text, &self.ends, number)
    }

    /// How long the lines with these numbers are together, or `None` if that does not fit `usize`.
    #[tactic(auto, using(crate::proofs::lemmas::texts::SharedLines::next_chosen))]
    fn len_of(&self, numbers: &[u32]) -> Option<usize>
        requires { AllByRecursion (λ number. number < length self.now) numbers.now }
        ensures { MatchOption result (2 ^ 64 ≤ length (lines_with self.now numbers.now))
            (λ len. len ≡ length (lines_with self.now numbers.now)) }
    {
        let mut len: usize = 0;
        for number in numbers {
            len = len.checked_add(self.line(*number as usize).len())?;
        }
        Some(len)
    }

    /// Makes room for the lines with these numbers.
    pub(crate) fn reserve(&self, numbers: &[u32], out: &mut Vec<u8>) -> Result<(), AllocError>
        requires { AllByRecursion (λ number. number < length self.now) numbers.now }
        ensures items { out.new.items ≡ out.old.items }
        ensures room { OnOk result (vec_len out.new + length (lines_with self.now numbers.now)
            ≤ vec_capacity out.new) }
    {
        let len = self.len_of(numbers).ok_or(AllocError)?;
        out.reserve_exact(len)
    }

    /// Appends the lines with these numbers, for which there is room, until there are this many
    /// bytes. Returns how many lines these are.
    pub(crate) fn append_until(&self, bytes: usize, numbers: &[u32], out: &mut Vec<u8>) -> usize
        requires below { AllByRecursion (λ number. number < length self.now) numbers.now }
        requires room { vec_len out.old + length (lines_with self.now numbers.now)
            ≤ vec_capacity out.old }
        ensures within { result ≤ length numbers.now }
        ensures text { out.new.items ++ lines_with self.now (drop result numbers.now)
            ≡ out.old.items ++ lines_with self.now numbers.now }
        ensures whole { length out.new.items < bytes → result ≡ length numbers.now }
        ensures room { vec_len out.new + length (lines_with self.now (drop result numbers.now))
            ≤ vec_capacity out.new }
    {
        for (place, number) in numbers.iter().enumerate() {
            if out.len() >= bytes {
                return place;
            }
            out.extend_from_slice(self.line(*number as usize)).unwrap();
        }
        numbers.len()
    }

    /// Appends the lines with these numbers, for which there is room.
    pub(crate) fn append(&self, numbers: &[u32], out: &mut Vec<u8>)
        requires below { AllByRecursion (λ number. number < length self.now) numbers.now }
        requires room { vec_len out.old + length (lines_with self.now numbers.now)
            ≤ vec_capacity out.old }
        ensures { out.new.items ≡ out.old.items ++ lines_with self.now numbers.now }
    {
        self.append_until(usize::MAX, numbers, out);
    }
}

/// Appends the lines of the rows with these numbers. The line of a row is made once, and so is room
/// for all lines, so a text that is too large is refused before it is begun.
#[tactic(auto, using(crate::proofs::lemmas::texts::SharedLines::shared_lines))]
fn write_shared(rows: &NumberedRows, numbers: &[u32], out: &mut Vec<u8>) -> Result<(), AllocError>
    requires { AllByRecursion (λ number. number < length rows.now) numbers.now }
    ensures text { OnOk result (out.new.items ≡ out.old.items
        ++ lines_text (map row_text (map (λ n. get_or rows.now n []) numbers.now))) }
    ensures kept { OnErr result (Keeps out.old.items out.new.items) }
{
    let lines = Lines::of_rows(*out.allocator(), rows)?;
    lines.reserve(numbers, out)?;
    lines.append(numbers, out);
    Ok(())
}

/// Appends a line of payoffs for each profile from this place on, until there are this many bytes.
/// Returns the place of the next one.
pub(crate) fn write_lines(
    rows: &Rows,
    from: u32,
    bytes: usize,
    out: &mut Vec<u8>,
) -> Result<u32, AllocError>
    requires { from ≤ length rows.now }
    ensures within { IfOk result (λ next. next ≤ length rows.now) }
    ensures text { IfOk result (λ next. out.new.items ++ lines_rest rows.now next
        ≡ out.old.items ++ lines_rest rows.now from) }
    ensures whole { IfOk result (λ next. length out.new.items < bytes → next ≡ length rows.now) }
    ensures kept { OnErr result (Keeps out.old.items out.new.items) }
    ensures full { OnErr result (¬ (AllByRecursion
        (λ row. bytes + (81 * length row + 1) ≤ vec_capacity out.old) rows.now)) }
    ensures capacity { vec_capacity out.old ≤ vec_capacity out.new }
{
    let mut start = out.len();
    let mut before: &[Fraction] = &[];
    for place in from..rows.len() {
        let end = out.len();
        if end >= bytes {
            return Ok(place);
        }
        let row = rows.row(place);
        write_next(before, start, row, out)?;
        before = row;
        start = end;
    }
    Ok(rows.len())
}

/// Appends a line of payoffs for each profile.
pub(crate) fn write_rows(rows: &Rows, out: &mut Vec<u8>) -> Result<(), AllocError>
    ensures text { OnOk result
        (out.new.items ≡ out.old.items ++ lines_text (map row_text rows.now)) }
    ensures kept { OnErr result (Keeps out.old.items out.new.items) }
{
    match rows.shared() {
        // With more outcomes than profiles, lines would be made that no profile has.
        Some((numbered, numbers)) if numbered.len() <= numbers.len() => {
            return write_shared(numbered, numbers, out);
        }
        _ => {}
    }
    write_lines(rows, 0, usize::MAX, out)?;
    Ok(())
}
