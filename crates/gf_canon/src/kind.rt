//! The kinds of game files, told apart by the first token.

ghost use Rattle.std.specs.Prelude.{IfErr, IfOk};
ghost use Rattle.gf_canon.specs.inner.KindWord.{word_of};
ghost use Rattle.gf_canon.specs.Judgement.{BeginsWithWord, IsRefusedWith};

use gf_token::{Cursor, Fault, What, Why};

/// What a game file holds.
#[derive(Clone, Copy, PartialEq, Eq)]
pub enum FileKind {
    /// A tree: the file is extensive, and its first token is `EFG`.
    Tree,
    /// A table: the file is strategic, and its first token is `NFG`.
    Strategic,
}

/// The kind of file that the first token names (Gambit documentation, "Game representation formats").
///
/// Any other first token, or none, is refused there with E3; an unterminated text is refused with
/// E2, at its opening quote.
pub(crate) fn kind_of(input: &[u8]) -> Result<FileKind, Fault>
    ensures named { IfOk result (λ kind. BeginsWithWord (word_of kind) input.now) }
    ensures refused { IfErr result (IsRefusedWith input.now) }
{
    let due = Why::Expected(What::Format);
    let mut tokens = Cursor::new(input);
    let Some(first) = tokens.bare() else {
        return Err(tokens.refusal(due));
    };
    if first.bytes == b"EFG".as_slice() {
        return Ok(FileKind::Tree);
    }
    if first.bytes == b"NFG".as_slice() {
        return Ok(FileKind::Strategic);
    }
    Err(Fault::at(first.span, due))
}
