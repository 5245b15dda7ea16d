//! The answers about the game in a file: its canonical text, whether it is that already, and its
//! kind.

ghost use Rattle.std.specs.Prelude.{◌≡◌, ◌↔◌, MatchResult, IsTrue};
ghost use Rattle.gf_canon.specs.KindOfFile.{MeansFileOf};
ghost use Rattle.gf_canon.specs.NamesAside.{IsTextBy};
ghost use Rattle.gf_run.specs.Texts.{AreCanonical, kind_line, IsRefusal};

use crate::fault::{RunFault, refused};
use crate::texts::answer::Answer;
use gf_canon::{FileKind, Names, canonical_text, check};
use gf_nfg::TextPieces;
use std::alloc::Global;

/// The canonical text of a file, with names or without.
///
/// # Errors
///
/// `Refused`, as `canonical_by` refuses the file.
// No edit: it passes on `canonical_text`.
pub fn canon(alloc: Global, bytes: &[u8], names: Names) -> Result<Answer<()>, RunFault>
    ensures { MatchResult result
        (λ answer. IsTextBy names bytes.now answer.text.rest) (IsRefusal bytes.now) }
{
    match canonical_text(alloc, bytes, names) {
        Ok(text) => Ok(Answer { value: (), text }),
        Err(fault) => Err(refused(fault)),
    }
}

/// Whether these bytes are a text, which is made piece by piece up to the first that differs.
fn are_text(bytes: &[u8], mut text: TextPieces) -> bool
    ensures { IsTrue result ↔ (bytes.now ≡ text.rest) }
{
    let mut rest = bytes;
    while text.advance() {
        match rest.strip_prefix(text.piece()) {
            Some(after) => rest = after,
            None => return false,
        }
    }
    rest.is_empty()
}

/// Whether the bytes of a file are its canonical text, with names or without.
///
/// # Errors
///
/// Those of `canon`.
pub fn are_canonical(alloc: Global, bytes: &[u8], names: Names) -> Result<bool, RunFault>
    ensures { MatchResult result (AreCanonical names bytes.now) (IsRefusal bytes.now) }
{
    let answer = canon(alloc, bytes, names)?;
    Ok(are_text(bytes, answer.text))
}

/// The kind of a file. No node of a tree is kept, and no text of a game is made.
///
/// # Errors
///
/// Those of `canon`.
// No edit: it passes on `check`.
pub fn kind_of(alloc: Global, bytes: &[u8]) -> Result<FileKind, RunFault>
    ensures { MatchResult result (MeansFileOf bytes.now) (IsRefusal bytes.now) }
{
    check(alloc, bytes).map_err(refused)
}

/// The line that says what a file of this kind holds.
pub fn kind_line(kind: FileKind) -> &'static [u8]
    ensures { result.now ≡ kind_line kind }
{
    match kind {
        FileKind::Tree => b"tree\n",
        FileKind::Strategic => b"table\n",
    }
}
