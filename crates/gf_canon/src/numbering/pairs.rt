//! Which numbers of two games correspond.

ghost use Rattle.std.specs.Prelude.{◌≡◌, ◌↔◌, ◌⊎◌, ◌++◌, ℕ, IfErr, IfOk, IsTrue, List, []};
ghost use Rattle.std.specs.Prelude.{OnErr, OnOk, false};
ghost use Rattle.gf_tree.specs.IsGame.{IsGame};
ghost use Rattle.gf_tree.specs.Renumbering.{Renumbering};
ghost use Rattle.gf_tree.specs.SameGame.{Carries};
ghost use Rattle.gf_tree.specs.Spellable.{IsSpellable};
ghost use Rattle.gf_canon.specs.CanonicalText.{SpellsWithin};
ghost use Rattle.gf_canon.specs.GameFile.{GameFile, SameFile};
ghost use Rattle.gf_canon.specs.Judgement.{MeansFile};
ghost use Rattle.gf_canon.specs.MeaningOf.{file_of};
ghost use Rattle.gf_canon.specs.Pairs.{ArePairs, HavePairs, outcome_pairs, renumbering_pairs};
ghost use Rattle.gf_canon.specs.Pairs.{set_pairs};
ghost use Rattle.gf_canon.specs.Sameness.{AreRefusedWith};

use crate::meaning::{Meaning, read_file};
use crate::sameness::{SameFault, same_meaning};
use gf_token::Names;
use gf_tree::Game;
use std::alloc::{AllocError, Global};

/// Numbers of two games that correspond.
#[derive(Clone, Copy)]
pub enum NumberPair {
    /// Those of an information set of this player, 0 for chance.
    Set {
        player: u32,
        number: u32,
        new_number: u32,
    },
    /// Those of an outcome.
    Outcome {
        number: u32,
        new_number: u32,
    },
}

/// What is told the pairs of two games, one after another.
pub trait ReceivePairs {
    ghost use Rattle.std.specs.Prelude.{List, [], ◌∷◌, ◌++◌, OnOk};
    ghost use Rattle.gf_canon.specs.declared.numbering.pairs.NumberPair.{NumberPair};

    /// What it holds of the pairs that it was told.
    ghost holds: { Self → List NumberPair → Type 0 };

    /// Takes the next pair. An `Err` ends the telling.
    fn pair(&mut self, pair: NumberPair) -> Result<(), AllocError>
        ensures { OnOk result ((told : List NumberPair) → holds self.old told
            → holds self.new (told ++ pair ∷ [])) };
}

/// Tells a pair for each set of a player, in order of first use. What is carried has the same
/// position in both games.
fn tell_sets<P: ReceivePairs>(
    g: &Game<'_>,
    h: &Game<'_>,
    player: u32,
    to: &mut P,
) -> Result<(), AllocError>
    requires { IsGame g.now × IsGame h.now }
    ensures { OnOk result ((r : Renumbering) (told : List NumberPair) → Carries r g.now h.now
        → P.holds to.old told → P.holds to.new (told ++ set_pairs r g.now player)) }
{
    for before in 0..g.set_count(player) {
        let i = before + 1;
        let (Some(number), Some(new_number)) = (g.set_number(player, i), h.set_number(player, i))
        else {
            continue;
        };
        to.pair(NumberPair::Set {
            player,
            number,
            new_number,
        })?;
    }
    Ok(())
}

/// Tells a pair for each set of a player. A player whose number does not fit in 32 bits has none.
#[tactic(auto, using(crate::proofs::lemmas::numbers::PairsInTurn::no_pairs))]
fn tell_player<P: ReceivePairs>(
    g: &Game<'_>,
    h: &Game<'_>,
    player: usize,
    to: &mut P,
) -> Result<(), AllocError>
    requires games { IsGame g.now × IsGame h.now }
    requires spellable { IsSpellable g.now }
    ensures { OnOk result ((r : Renumbering) (told : List NumberPair) → Carries r g.now h.now
        → P.holds to.old told → P.holds to.new (told ++ set_pairs r g.now player)) }
{
    match u32::try_from(player) {
        Ok(player) => tell_sets(g, h, player, to),
        Err(_) => Ok(()),
    }
}

/// Tells a pair for each outcome, in order of first use.
fn tell_outcomes<P: ReceivePairs>(g: &Game<'_>, h: &Game<'_>, to: &mut P) -> Result<(), AllocError>
    requires { IsGame g.now × IsGame h.now }
    ensures { OnOk result ((r : Renumbering) (told : List NumberPair) → Carries r g.now h.now
        → P.holds to.old told → P.holds to.new (told ++ outcome_pairs r g.now)) }
{
    for before in 0..g.outcome_count() {
        let i = before + 1;
        let (Some(number), Some(new_number)) = (g.outcome_number(i), h.outcome_number(i)) else {
            continue;
        };
        to.pair(NumberPair::Outcome { number, new_number })?;
    }
    Ok(())
}

/// Tells the pairs of the only renumbering that carries a game to another, if there is one.
#[tactic(auto, using(crate::proofs::lemmas::numbers::PairsInTurn::player_more))]
fn tell_pairs<P: ReceivePairs>(g: &Game<'_>, h: &Game<'_>, to: &mut P) -> Result<(), AllocError>
    ensures { OnOk result ((r : Renumbering) → Carries r g.now h.now → P.holds to.old []
        → (pairs : List NumberPair) × ((s : Renumbering) → Carries s g.now h.now
        → pairs ≡ renumbering_pairs s g.now) × P.holds to.new pairs) }
{
    let players = g.players().len();
    // Its clause says that it is a game.
    let _others = h.players();
    tell_player(g, h, 0, to)?;
    for before in 0..players {
        tell_player(g, h, before + 1, to)?;
    }
    tell_outcomes(g, h, to)
}

/// Tells which numbers of two files correspond, if these mean the same; says whether they do.
///
/// Of two games these are the numbers of the only renumbering that carries the first to the second:
/// a pair for each information set of the first, and then one for each outcome. The sets of chance
/// come first, and then those of player after player, each player's in order of first use, and so
/// do the outcomes (this project's profile). Tables have no numbers. If the files do not mean the
/// same, nothing is told.
///
/// # Errors
///
/// `AllocError` if memory is refused. Then the receiver is as it was, unless both are games that
/// are the same: of these it may have been told some of the pairs.
pub fn pairs_between<P: ReceivePairs>(
    alloc: Global,
    a: &Meaning<'_>,
    b: &Meaning<'_>,
    to: &mut P,
) -> Result<bool, AllocError>
    ensures same { IfOk result (λ same. IsTrue same ↔ SameFile (file_of a.now) (file_of b.now)) }
    ensures told { IfOk result (λ same. IsTrue same → P.holds to.old [] → (pairs : List NumberPair)
        × ArePairs (file_of a.now) (file_of b.now) pairs × P.holds to.new pairs) }
    ensures untold { IfOk result (λ same. same ≡ false → to.new ≡ to.old) }
    ensures untouched { OnErr result ((to.new ≡ to.old)
        ⊎ HavePairs (file_of a.now) (file_of b.now)) }
{
    let same = same_meaning(alloc, a, b, Names::Kept)?;
    if let (true, Meaning::Tree(g), Meaning::Tree(h)) = (same, a, b) {
        tell_pairs(g, h, to)?;
    }
    Ok(same)
}

/// Tells which numbers of a file that was read and of another correspond, as `pairs_of_files` does.
fn pairs_beside<P: ReceivePairs>(
    alloc: Global,
    first: &Meaning<'_>,
    b: &[u8],
    to: &mut P,
) -> Result<bool, SameFault>
    ensures told { IfOk result (λ same. (y : GameFile) × SpellsWithin b.now y
        × (IsTrue same ↔ SameFile (file_of first.now) y) × (IsTrue same → P.holds to.old []
        → (pairs : List NumberPair) × ArePairs (file_of first.now) y pairs
        × P.holds to.new pairs)) }
    ensures untold { IfOk result (λ same. same ≡ false → to.new ≡ to.old) }
    ensures refused { IfErr result (λ fault.
        (a : List ℕ) → MeansFile a → AreRefusedWith a b.now fault) }
    ensures untouched { IfErr result (λ fault. (to.new ≡ to.old) ⊎ ((fault ≡ SameFault.Memory)
        × (y : GameFile) × SpellsWithin b.now y × HavePairs (file_of first.now) y)) }
{
    match read_file(alloc, b) {
        Ok(second) => {
            let told = pairs_between(alloc, first, &second, to);
            // A call is cheaper to check than the drop where the scope ends.
            drop(second);
            match told {
                Ok(same) => Ok(same),
                Err(AllocError) => Err(SameFault::Memory),
            }
        }
        Err(fault) => Err(SameFault::Second(fault)),
    }
}

/// Tells which numbers of two files correspond as `pairs_between` does, from their bytes; says
/// whether they mean the same.
///
/// # Errors
///
/// Those of `same`. If a file is refused, the receiver is as it was. If memory is refused after
/// both were accepted (`Memory`), so it is, unless both mean games that are the same: of these it
/// may have been told some of the pairs.
pub fn pairs_of_files<P: ReceivePairs>(
    alloc: Global,
    a: &[u8],
    b: &[u8],
    to: &mut P,
) -> Result<bool, SameFault>
    ensures told { IfOk result (λ same. (x y : GameFile) × SpellsWithin a.now x
        × SpellsWithin b.now y × (IsTrue same ↔ SameFile x y) × (IsTrue same → P.holds to.old []
        → (pairs : List NumberPair) × ArePairs x y pairs × P.holds to.new pairs)) }
    ensures untold { IfOk result (λ same. same ≡ false → to.new ≡ to.old) }
    ensures refused { IfErr result (AreRefusedWith a.now b.now) }
    ensures untouched { IfErr result (λ fault. (to.new ≡ to.old) ⊎ ((fault ≡ SameFault.Memory)
        × (x y : GameFile) × SpellsWithin a.now x × SpellsWithin b.now y × HavePairs x y)) }
{
    match read_file(alloc, a) {
        Ok(first) => {
            let told = pairs_beside(alloc, &first, b, to);
            // As above.
            drop(first);
            told
        }
        Err(fault) => Err(SameFault::First(fault)),
    }
}
