//! Whether two files mean the same.

ghost use Rattle.std.specs.Prelude.{◌≡◌, ◌↔◌, ℕ, List, IsTrue, IfErr, IfOk, MatchResult, OnOk};
ghost use Rattle.gf_tree.specs.IsGame.{IsGame};
ghost use Rattle.gf_tree.specs.Spellable.{IsSpellable};
ghost use Rattle.gf_canon.specs.GameFile.{GameFile, SameFile};
ghost use Rattle.gf_canon.specs.GameFile.GameFile.{extensive, strategic};
ghost use Rattle.gf_canon.specs.CanonicalText.{IsCanonicalText, SpellsWithin};
ghost use Rattle.gf_canon.specs.Judgement.{IsRefusedWith, MeansFile};
ghost use Rattle.gf_canon.specs.MeaningOf.{file_of, file_of_listed};
ghost use Rattle.gf_canon.specs.SameBy.{SameBy};
ghost use Rattle.gf_canon.specs.Sameness.{AreRefusedWith, LacksMemory};

use crate::checking::{Unkept, check, tell_file};
use crate::kind::{FileKind, kind_of};
use crate::meaning::{Listed, Meaning, list_file};
use crate::sameness::comparison::TreeComparison;
use crate::sameness::walk::same_games;
use gf_nfg::{CompareFault, ListedTable, Table, compare_nfg};
use gf_token::{Fault, Names};
use gf_tree::{ListedGame, tell_efg};
use std::alloc::{AllocError, Global};

pub(crate) mod comparison;
pub(crate) mod counted;
pub(crate) mod walk;

/// Why two files are not compared.
#[derive(Clone, Copy, PartialEq, Eq)]
pub enum SameFault {
    /// The first file is refused with this fault.
    First(Fault),
    /// The first file is accepted, and the second is refused with this fault.
    Second(Fault),
    /// Both are accepted, and memory to compare them is refused.
    Memory,
}

/// Whether two tables are the same.
fn same_tables(alloc: Global, t: &Table, u: &Table, names: Names) -> Result<bool, AllocError>
    ensures { IfOk result (λ answer.
        IsTrue answer ↔ SameBy names (strategic t.now) (strategic u.now)) }
{
    Ok(
        (names == Names::Aside || t.title() == u.title() && t.comment() == u.comment())
            && t.plays_alike(alloc, u)?,
    )
}

/// Whether two files that were read mean the same, as `same_by` says about their bytes.
///
/// # Errors
///
/// `AllocError` if memory to compare tables is refused. Comparing trees takes no memory.
pub fn same_meaning(
    alloc: Global,
    a: &Meaning<'_>,
    b: &Meaning<'_>,
    names: Names,
) -> Result<bool, AllocError>
    ensures { IfOk result (λ answer.
        IsTrue answer ↔ SameBy names (file_of a.now) (file_of b.now)) }
{
    match (a, b) {
        (Meaning::Tree(g), Meaning::Tree(h)) => Ok(same_games(g, h, names)),
        (Meaning::Table(t), Meaning::Table(u)) => same_tables(alloc, t, u, names),
        _ => Ok(false),
    }
}

/// Whether a file means the same as a game, with which a tree is compared while it is read.
fn same_as_tree(alloc: Global, g: &ListedGame<'_>, b: &[u8], names: Names) -> Result<bool, Fault>
    requires game { IsGame g.now }
    requires spellable { IsSpellable g.now }
    ensures same { IfOk result (λ answer. (y : GameFile) × SpellsWithin b.now y
        × (IsTrue answer ↔ SameBy names (extensive g.now) y)) }
    ensures refused { IfErr result (IsRefusedWith b.now) }
{
    let mut comparison = TreeComparison::new(g, names);
    match tell_file(alloc, b, &mut comparison)? {
        FileKind::Tree => Ok(comparison.is_same()),
        FileKind::Strategic => Ok(false),
    }
}

/// Whether a file means the same as a table, with which another table is compared while it is read.
#[tactic(auto, using(crate::proofs::lemmas::files::Refused::refusals))]
fn same_as_table(alloc: Global, t: &ListedTable, b: &[u8], names: Names) -> Result<bool, SameFault>
    ensures same { IfOk result (λ answer. (y : GameFile) × SpellsWithin b.now y
        × (IsTrue answer ↔ SameBy names (strategic t.now) y)) }
    ensures refused { IfErr result (λ fault.
        (a : List ℕ) → MeansFile a → AreRefusedWith a b.now fault) }
{
    match kind_of(b) {
        Ok(FileKind::Strategic) => match compare_nfg(alloc, t, b, names) {
            Ok(answer) => Ok(answer),
            Err(CompareFault::Refused(fault)) => Err(SameFault::Second(fault)),
            Err(CompareFault::Memory) => Err(SameFault::Memory),
        },
        Ok(FileKind::Tree) => match tell_efg(alloc, b, &mut Unkept) {
            Ok(_) => Ok(false),
            Err(fault) => Err(SameFault::Second(fault)),
        },
        Err(fault) => Err(SameFault::Second(fault)),
    }
}

/// Whether a file means the same as one that was read.
///
/// - `Second`: the file is refused.
/// - `Memory`: it is accepted, and memory to compare two tables is refused.
fn same_as(alloc: Global, first: &Listed<'_>, b: &[u8], names: Names) -> Result<bool, SameFault>
    requires spelled { (a : List ℕ) × SpellsWithin a (file_of_listed first.now) }
    ensures same { IfOk result (λ answer. (y : GameFile) × SpellsWithin b.now y
        × (IsTrue answer ↔ SameBy names (file_of_listed first.now) y)) }
    ensures refused { IfErr result (λ fault.
        (a : List ℕ) → MeansFile a → AreRefusedWith a b.now fault) }
{
    match first {
        Listed::Tree(game) => match same_as_tree(alloc, game, b, names) {
            Ok(answer) => Ok(answer),
            Err(fault) => Err(SameFault::Second(fault)),
        },
        Listed::Table(table) => same_as_table(alloc, table, b, names),
    }
}

/// Whether two files mean the same, with names or without (this project's profile). Two trees do if
/// some renumbering of information sets, player by player, and of outcomes carries one to the
/// other; two tables do if the labels that count and the payoffs at each profile agree; a tree and
/// a table never do.
///
/// # Errors
///
/// The whole first file is judged, and then the second, as `canonical` judges a file. Names that
/// are set aside still have to match in repeated descriptions. Files of equal bytes are judged
/// once. Spans are in bytes of the file that is refused.
/// - `First`: the first file is refused.
/// - `Second`: the first file is accepted, and the second is refused.
/// - `Memory`: both are accepted, and memory to compare them is refused.
pub fn same_by(alloc: Global, a: &[u8], b: &[u8], names: Names) -> Result<bool, SameFault>
    ensures same { (x y : GameFile) → SpellsWithin a.now x → SpellsWithin b.now y
        → MatchResult result (λ answer. IsTrue answer ↔ SameBy names x y) LacksMemory }
    ensures accepted { OnOk result (MeansFile a.now × MeansFile b.now) }
    ensures refused { IfErr result (AreRefusedWith a.now b.now) }
{
    if a == b {
        return match check(alloc, a) {
            Ok(_) => Ok(true),
            Err(fault) => Err(SameFault::First(fault)),
        };
    }
    match list_file(alloc, a) {
        Ok(first) => {
            let answer = same_as(alloc, &first, b, names);
            // A call is cheaper to check than the drop where the scope ends.
            drop(first);
            answer
        }
        Err(fault) => Err(SameFault::First(fault)),
    }
}

/// Whether two files mean the same (this project's profile), which they do exactly when their
/// canonical texts are equal. Two trees do if some renumbering of information sets, player by
/// player, and of outcomes carries one to the other; two tables do if title, comment, players,
/// strategy labels and the payoffs at each profile agree; a tree and a table never do.
///
/// # Errors
///
/// Those of `same_by`.
pub fn same(alloc: Global, a: &[u8], b: &[u8]) -> Result<bool, SameFault>
    ensures same { (x y : GameFile) → SpellsWithin a.now x → SpellsWithin b.now y
        → MatchResult result (λ answer. IsTrue answer ↔ SameFile x y) LacksMemory }
    ensures texts { (s t : List ℕ) → IsCanonicalText a.now s → IsCanonicalText b.now t
        → IfOk result (λ answer. IsTrue answer ↔ (s ≡ t)) }
    ensures accepted { OnOk result (MeansFile a.now × MeansFile b.now) }
    ensures refused { IfErr result (AreRefusedWith a.now b.now) }
{
    same_by(alloc, a, b, Names::Kept)
}
