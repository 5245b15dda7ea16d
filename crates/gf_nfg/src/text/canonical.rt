//! The canonical text of a strategic file, and of a table.

ghost use Rattle.std.specs.Prelude.{◌≡◌, ◌++◌, [], IfErr, IfOk, map};
ghost use Rattle.gf_nfg.specs.Judgement.{IsJudged};
ghost use Rattle.gf_nfg.specs.Limit.{IsWithinLimit};
ghost use Rattle.gf_nfg.specs.NamedBy.{named_by};
ghost use Rattle.gf_nfg.specs.inner.Meaning.{IsComplete, rows_by};
ghost use Rattle.gf_nfg.specs.inner.ReaderState.{content_of};
ghost use Rattle.gf_nfg.specs.TableText.{SpellsTable, lines_text, table_text};
ghost use Rattle.gf_nfg.specs.TextPieces.{IsUngiven};
ghost use Rattle.gf_nfg.specs.inner.TextParts.{row_text};

use crate::heading::Heading;
use crate::read::tell_nfg;
use crate::receive::{Kept, Version};
use crate::table::Table;
use crate::text::ToldText;
use crate::text::pieces::TextPieces;
use crate::text::write::write_heading;
use gf_token::{Fault, Names, Why};
use std::alloc::{AllocError, Global};

/// A text that ends with a line for each profile.
fn with_lines(
    alloc: Global,
    text: Vec<u8>,
    heading: &Heading<'_>,
    kept: Kept,
) -> Result<TextPieces, AllocError>
    requires { IsComplete (content_of heading.now kept) }
    ensures rest { IfOk result (λ whole. whole.rest ≡ text.items
        ++ lines_text (map row_text (rows_by (content_of heading.now kept) kept.numbers.items))) }
    ensures ungiven { IfOk result IsUngiven }
{
    let rows = heading.rows(alloc, kept)?;
    TextPieces::with_rows(alloc, text, rows)
}

/// The canonical text of a strategic file, written while the file is read; title and comment are
/// written empty unless `names` are kept. In outcome version the line of each outcome is made at
/// the end, and the lines of the profiles are copies of these, made piece by piece.
///
/// # Errors
///
/// Those of `read_nfg`; E19 if memory for the text is refused.
pub fn canonical_nfg(alloc: Global, input: &[u8], names: Names) -> Result<TextPieces, Fault>
    ensures text { IfOk result (λ text. (t : Table) × SpellsTable input.now t × IsWithinLimit t
        × (text.rest ≡ table_text (named_by names t))) }
    ensures ungiven { IfOk result IsUngiven }
    ensures only { IfErr result (λ fault. (t : Table) → SpellsTable input.now t → IsWithinLimit t
        → fault.why ≡ Why.Memory) }
    ensures judged { IfErr result (λ fault. IsJudged fault.why input.now fault.span) }
{
    let mut text = ToldText::new(alloc, input.len(), names);
    let heading = tell_nfg(alloc, input, &mut text)?;
    let ToldText {
        text,
        version,
        kept,
        ..
    } = text;
    match version {
        Version::Payoffs => Ok(TextPieces::of(text)),
        Version::Outcomes => match with_lines(alloc, text, &heading, kept) {
            Ok(text) => Ok(text),
            Err(_) => Err(Fault::at_end(input.len(), Why::Memory)),
        },
    }
}

/// The heading of a table, and the lines of its rows.
fn with_rows(alloc: Global, t: Table) -> Result<TextPieces, AllocError>
    ensures rest { IfOk result (λ text. text.rest ≡ table_text t) }
    ensures ungiven { IfOk result IsUngiven }
{
    let mut text = Vec::new(alloc);
    write_heading(t.frame(), Names::Kept, &mut text)?;
    let (_, rows) = t.into_parts();
    TextPieces::with_rows(alloc, text, rows)
}

/// The canonical text of a table. Its strategies and payoffs are written as it is given, unless
/// profiles share payoffs, so little memory is taken beside them.
///
/// # Errors
///
/// `AllocError` if memory is refused.
pub fn text_of(alloc: Global, t: Table) -> Result<TextPieces, AllocError>
    ensures rest { IfOk result (λ text. text.rest ≡ table_text t) }
    ensures none { IfOk result (λ text. text.piece ≡ []) }
{
    if t.rows().shared().is_none() {
        return TextPieces::of_table(alloc, t);
    }
    with_rows(alloc, t)
}
