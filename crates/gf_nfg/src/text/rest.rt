//! What is still to come of a text that is given piece by piece.

ghost use Rattle.std.specs.Prelude.{◌≡◌, ◌<◌, ◌++◌, [], length, vec_capacity, vec_len};
ghost use Rattle.gf_nfg.specs.inner.TextRest.{HasRoom, are_copies, rest_text};

use crate::table::rows::Rows;
use crate::table::strategies::StrategyLists;
use crate::text::lines::{Lines, write_lines};
use crate::text::lists::{ListsWritten, write_lists};

/// A piece ends as soon as it has this many bytes: with the label, the ending or the line that
/// makes them up. A piece that begins with a text may be longer; the last one may be shorter.
pub(crate) const PIECE: usize = 65_536;

/// 80 bytes for `Fraction::write`, and the space or line feed after it.
pub(crate) const PAYOFF_ROOM: usize = 81;

/// What is still to come of a text.
#[derive(Drop)]
pub(crate) enum Rest {
    /// Lines that are copied: the numbers say which, one after another, and `next` how many of them
    /// were given.
    Copies {
        lines: Lines,
        numbers: Vec<u32>,
        next: usize,
    },
    /// Strategies, and how much of them was given; what stands behind them, until it is given; and
    /// the payoffs at each profile, and for how many profiles they were given.
    Table {
        strategies: StrategyLists,
        written: ListsWritten,
        ending: Vec<u8>,
        rows: Rows,
        next: u32,
    },
}

impl Rest {
    /// Appends what comes next, until there is a piece.
    pub(crate) fn append_piece(&mut self, out: &mut Vec<u8>)
        requires { HasRoom self.old (vec_len out.old) (vec_capacity out.old) }
        ensures text { out.new.items ++ rest_text self.new ≡ out.old.items ++ rest_text self.old }
        ensures whole { length out.new.items < 65536 → rest_text self.new ≡ [] }
        ensures room { HasRoom self.new 0 (vec_capacity out.new) }
        ensures kind { are_copies self.new ≡ are_copies self.old }
    {
        match self {
            Rest::Copies {
                lines,
                numbers,
                next,
            } => {
                *next += lines.append_until(PIECE, &numbers[*next..], out);
            }
            Rest::Table {
                strategies,
                written,
                ending,
                rows,
                next,
            } => {
                *written = write_lists(strategies, *written, PIECE, out).unwrap();
                if out.len() < PIECE {
                    out.extend_from_slice(ending).unwrap();
                    ending.clear();
                    *next = write_lines(rows, *next, PIECE, out).unwrap();
                }
            }
        }
    }
}
