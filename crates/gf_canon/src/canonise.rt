//! The canonical text of a game file.

ghost use Rattle.std.specs.Prelude.{◌≡◌, IfErr, IfOk, MatchResult};
ghost use Rattle.gf_token.specs.declared.fault.Why.TheVariants.{Memory};
ghost use Rattle.gf_nfg.specs.TextPieces.{IsUngiven};
ghost use Rattle.gf_tree.specs.Judgement.{IsJudged as IsExtensiveJudged};
ghost use Rattle.gf_canon.specs.GameFile.{GameFile, canonical_text};
ghost use Rattle.gf_canon.specs.CanonicalText.{IsCanonicalText, SpellsWithin};
ghost use Rattle.gf_canon.specs.Judgement.{IsJudged, IsPlaced, IsRefusedWith};
ghost use Rattle.gf_canon.specs.NamesAside.{IsTextBy, file_by};

use crate::kind::{FileKind, kind_of};
use crate::text::lines::ToldText;
use gf_nfg::{TextPieces, canonical_nfg};
use gf_token::{Fault, Names};
use gf_tree::tell_efg;
use std::alloc::Global;

/// The canonical text of an extensive file, written while it is read.
fn canonical_efg(alloc: Global, input: &[u8], names: Names) -> Result<TextPieces, Fault>
    ensures text { IfOk result (λ text. IsTextBy names input.now text.rest) }
    ensures ungiven { IfOk result IsUngiven }
    ensures judged { IfErr result (λ fault. IsExtensiveJudged fault.why input.now fault.span) }
{
    // A canonical text is seldom longer than the file.
    let mut lines = ToldText::new(alloc, input.len(), names);
    tell_efg(alloc, input, &mut lines)?;
    Ok(TextPieces::of(lines.text))
}

/// The canonical text of a game file, or why it is refused.
#[tactic(auto, using(crate::proofs::lemmas::files::Refused::refusals))]
fn text_of(alloc: Global, input: &[u8], names: Names) -> Result<TextPieces, Fault>
    ensures text { IfOk result (λ text. IsTextBy names input.now text.rest) }
    ensures ungiven { IfOk result IsUngiven }
    ensures refused { IfErr result (IsRefusedWith input.now) }
{
    match kind_of(input)? {
        FileKind::Tree => canonical_efg(alloc, input, names),
        FileKind::Strategic => canonical_nfg(alloc, input, names),
    }
}

/// The canonical text of a game file, laid out by this project's profile: for a tree by its
/// canonical numbers, and for a table as it is. The first token tells the format, `EFG` or `NFG`
/// (Gambit documentation, "Game representation formats"). With `Names::Aside`, the title, the
/// comment, and the names of nodes, information sets and outcomes are written empty: two such texts
/// are equal exactly when `same_by` returns true for the files.
///
/// The text comes in pieces, so that whoever writes it, or works out its hash, need not hold it
/// whole: that of a table in outcome version can be a thousand times as long as its file.
///
/// # Errors
///
/// A file is refused as `read_efg` or `read_nfg` refuses a file of its format: at the first token
/// that cannot continue any file, at the end if more is due, or where the profiles of a table pass
/// their limit. Spans are in bytes of the input, from 0. There are also these refusals:
/// - E2: the first token is an unterminated text; at its opening quote.
/// - E3: the first token is anything other than these words, or there is none; at that place.
/// - E19: memory for the text is refused; at the token that needed it, or, for lines that are made
///   after a table was read, at the end. Up to there, there was nothing else to refuse. Room for the
///   whole text is made, although most of it is not touched unless the text is made whole.
pub fn canonical_text(alloc: Global, input: &[u8], names: Names) -> Result<TextPieces, Fault>
    ensures text { IfOk result (λ text. IsTextBy names input.now text.rest) }
    ensures ungiven { IfOk result IsUngiven }
    ensures only { (x : GameFile) → SpellsWithin input.now x → MatchResult result
        (λ text. text.rest ≡ canonical_text (file_by names x)) (λ fault. fault.why ≡ Memory) }
    ensures judged { IfErr result (λ fault. IsJudged fault.why input.now fault.span) }
    ensures placed { IfErr result (λ fault. IsPlaced fault.why input.now fault.span) }
{
    text_of(alloc, input, names)
}

/// The canonical text of a game file as one vector.
///
/// # Errors
///
/// Those of `canonical_text`.
// No edit: it passes on `canonical_text`.
pub fn canonical_by(alloc: Global, input: &[u8], names: Names) -> Result<Vec<u8>, Fault>
    ensures text { IfOk result (λ text. IsTextBy names input.now text.items) }
    ensures only { (x : GameFile) → SpellsWithin input.now x → MatchResult result
        (λ text. text.items ≡ canonical_text (file_by names x)) (λ fault. fault.why ≡ Memory) }
    ensures judged { IfErr result (λ fault. IsJudged fault.why input.now fault.span) }
    ensures placed { IfErr result (λ fault. IsPlaced fault.why input.now fault.span) }
{
    Ok(canonical_text(alloc, input, names)?.into_vec().unwrap())
}

/// The canonical text of a game file with all its names.
///
/// # Errors
///
/// Those of `canonical_by`.
// No edit: it passes on `canonical_by`.
pub fn canonical(alloc: Global, input: &[u8]) -> Result<Vec<u8>, Fault>
    ensures text { IfOk result (λ text. IsCanonicalText input.now text.items) }
    ensures only { (x : GameFile) → SpellsWithin input.now x → MatchResult result
        (λ text. text.items ≡ canonical_text x) (λ fault. fault.why ≡ Memory) }
    ensures judged { IfErr result (λ fault. IsJudged fault.why input.now fault.span) }
    ensures placed { IfErr result (λ fault. IsPlaced fault.why input.now fault.span) }
{
    canonical_by(alloc, input, Names::Kept)
}
