//! A text that is given piece by piece, so that one that is much longer than its file need not be
//! held in memory.

ghost use Rattle.std.specs.Prelude.{◌≡◌, ◌+◌, ◌*◌, ◌<◌, ◌≤◌, ◌++◌, [], false, true, IfOk};
ghost use Rattle.std.specs.Prelude.{MatchOption, OnOk, get_or, length, map, vec_capacity};
ghost use Rattle.std.specs.List.{AllByRecursion};
ghost use Rattle.gf_nfg.specs.TableText.{lines_text, table_text};
ghost use Rattle.gf_nfg.specs.TextPieces.{IsUngiven};
ghost use Rattle.gf_nfg.specs.inner.ListsLeft.{size_of};
ghost use Rattle.gf_nfg.specs.inner.TextParts.{ending_text, front_text, row_text};

use crate::table::Table;
use crate::table::frame::Frame;
use crate::table::rows::{NumberedRows, Rows};
use crate::text::lines::{Lines, write_lines};
use crate::text::lists::ListsWritten;
use crate::text::rest::{PAYOFF_ROOM, PIECE, Rest};
use crate::text::write::{write_ending, write_front};
use gf_token::Names;
use std::alloc::{AllocError, Global};
use std::marker::Model;

/// A text that is given piece by piece. Room for its pieces is made with it, so that no memory can
/// be refused when a part of it is already written.
#[derive(Drop)]
pub struct TextPieces {
    /// The piece that was given last; before the first one, what it begins with.
    piece: Vec<u8>,
    /// Whether the first piece was given.
    begun: bool,
    rest: Rest,
}

impl Model for TextPieces {
    ghost use Rattle.std.specs.Prelude.{◌++◌, [], if◌then◌else◌, vec_capacity, vec_len};
    ghost use Rattle.gf_nfg.specs.TextPieces.{TextLeft};
    ghost use Rattle.gf_nfg.specs.inner.TextRest.{HasRoom, are_copies, rest_text};

    ghost Value = { TextLeft };

    ghost view = { λ t. record {
      piece = if t.begun then t.piece.items else [];
      rest = (if t.begun then [] else t.piece.items) ++ rest_text t.rest;
      has_room = are_copies t.rest;
    } };

    ghost invariant = { λ t.
        HasRoom t.rest (if t.begun then 0 else vec_len t.piece) (vec_capacity t.piece) };
}

/// Appends what stands before the strategies to a piece, and what stands behind them to another
/// vector. A piece gets room for what may come last in it: a label, the ending, or a line.
fn write_around(frame: &Frame, piece: &mut Vec<u8>, ending: &mut Vec<u8>) -> Result<(), AllocError>
    ensures front { OnOk result (piece.new.items ≡ piece.old.items ++ front_text frame.now) }
    ensures ending { OnOk result (ending.new.items ≡ ending.old.items ++ ending_text frame.now) }
    ensures label { OnOk result
        (65536 + (size_of frame.now.strategies + 3) ≤ vec_capacity piece.new) }
    ensures last { OnOk result (65536 + length ending.new.items ≤ vec_capacity piece.new) }
    ensures line { OnOk result
        (65536 + (81 * length frame.now.players + 1) ≤ vec_capacity piece.new) }
{
    write_front(frame, Names::Kept, piece)?;
    write_ending(frame, Names::Kept, ending)?;
    let line = frame.players().saturating_mul(PAYOFF_ROOM);
    let longest = frame.lists().size().max(ending.len()).max(line);
    piece.reserve_exact(longest.saturating_add(PIECE + 3))
}

impl TextPieces {
    /// A text in one piece, which is not given yet.
    // No edit: it puts parts together.
    pub fn of(text: Vec<u8>) -> TextPieces
        ensures rest { result.rest ≡ text.items }
        ensures ungiven { IsUngiven result }
    {
        let alloc = *text.allocator();
        TextPieces {
            piece: text,
            begun: false,
            rest: Rest::Copies {
                lines: Lines::none(alloc),
                numbers: Vec::new(alloc),
                next: 0,
            },
        }
    }

    /// A text and, after it, a line for each of these rows. A row that profiles share has its line
    /// made once. Room for all of the text is made, so one that memory could not hold is refused;
    /// most of the room is never touched.
    #[tactic(auto, using(crate::proofs::lemmas::texts::SharedLines::shared_lines))]
    pub(crate) fn with_rows(
        alloc: Global,
        text: Vec<u8>,
        rows: Rows,
    ) -> Result<TextPieces, AllocError>
        ensures rest { IfOk result (λ t. t.rest ≡ text.items ++ lines_text (map row_text rows)) }
        ensures ungiven { IfOk result IsUngiven }
    {
        match rows.into_shared() {
            Ok((numbered, numbers)) => TextPieces::with_shared(alloc, text, &numbered, numbers),
            Err(rows) => TextPieces::with_lines(text, &rows),
        }
    }

    /// A text and, after it, a line for each of these numbers of rows, each made once.
    #[tactic(auto, using(crate::proofs::lemmas::texts::SharedLines::shared_lines))]
    fn with_shared(
        alloc: Global,
        text: Vec<u8>,
        numbered: &NumberedRows,
        numbers: Vec<u32>,
    ) -> Result<TextPieces, AllocError>
        requires { AllByRecursion (λ number. number < length numbered.now) numbers.items }
        ensures rest { IfOk result (λ t. t.rest ≡ text.items
            ++ lines_text (map row_text (map (λ n. get_or numbered.now n []) numbers.items))) }
        ensures ungiven { IfOk result IsUngiven }
    {
        let lines = Lines::of_rows(alloc, numbered)?;
        let mut piece = text;
        lines.reserve(&numbers, &mut piece)?;
        Ok(TextPieces {
            piece,
            begun: false,
            rest: Rest::Copies {
                lines,
                numbers,
                next: 0,
            },
        })
    }

    /// A text and, after it, a line for each of these rows, written at once.
    fn with_lines(text: Vec<u8>, rows: &Rows) -> Result<TextPieces, AllocError>
        ensures rest { IfOk result
            (λ t. t.rest ≡ text.items ++ lines_text (map row_text rows.now)) }
        ensures ungiven { IfOk result IsUngiven }
    {
        let mut piece = text;
        write_lines(rows, 0, usize::MAX, &mut piece)?;
        Ok(TextPieces::of(piece))
    }

    /// The text of a table. The strategies are made as it is given, and so is the line of each
    /// profile.
    pub(crate) fn of_table(alloc: Global, t: Table) -> Result<TextPieces, AllocError>
        ensures rest { IfOk result (λ text. text.rest ≡ table_text t) }
        ensures none { IfOk result (λ text. text.piece ≡ []) }
    {
        let mut piece = Vec::new(alloc);
        let mut ending = Vec::new(alloc);
        write_around(t.frame(), &mut piece, &mut ending)?;
        let (frame, rows) = t.into_parts();
        Ok(TextPieces {
            piece,
            begun: false,
            rest: Rest::Table {
                strategies: frame.into_lists(),
                written: ListsWritten::nothing(),
                ending,
                rows,
                next: 0,
            },
        })
    }

    /// Goes on to the next piece, and returns whether there is one.
    pub fn advance(&mut self) -> bool
        ensures given { self.old.rest ≡ self.new.piece ++ self.new.rest }
        ensures some { result ≡ true → 0 < length self.new.piece }
        ensures end { result ≡ false → self.old.rest ≡ [] }
        ensures room { self.new.has_room ≡ self.old.has_room }
    {
        if self.begun {
            self.piece.clear();
        }
        self.begun = true;
        self.rest.append_piece(&mut self.piece);
        !self.piece.is_empty()
    }

    /// The piece that `advance` came to last; none before.
    // No edit: it returns a part.
    pub fn piece(&self) -> &[u8]
        ensures { result.now ≡ self.now.piece }
    {
        if self.begun { &self.piece } else { &[] }
    }

    /// All that is still to come, as one vector. `None` for a text from `text_of` whose table has
    /// no shared rows.
    // No edit: it passes on `Lines::append`.
    pub fn into_vec(self) -> Option<Vec<u8>>
        ensures { MatchOption result (self.has_room ≡ false) (λ all. all.items ≡ self.rest) }
    {
        let TextPieces { piece, begun, rest } = self;
        let Rest::Copies {
            lines,
            numbers,
            next,
        } = rest
        else {
            return None;
        };
        let mut text = piece;
        if begun {
            text.clear();
        }
        lines.append(&numbers[next..], &mut text);
        Some(text)
    }
}
