//! Laws of the definitions, each as the contract of a function that does nothing.

ghost use Rattle.std.specs.Prelude.{◌≡◌, ◌↔◌, ◌⊎◌, ◌∷◌, ℕ, List, [], None, Some, codes, false, true};
ghost use Rattle.std.specs.List.{Contains};
ghost use Rattle.gf_words.specs.GameNames.{is_game_name};
ghost use Rattle.gf_words.specs.declared.job.LineEnd.{LineEnd};
ghost use Rattle.gf_jobs.specs.Duplicates.{AreInOneGroup, HashedFile};
ghost use Rattle.gf_jobs.specs.LedTo.{folder_at};
ghost use Rattle.gf_jobs.specs.Lines.{names_in};
ghost use Rattle.gf_run.specs.Streams.{IsReadWhole};
ghost use Rattle.gf_jobs.specs.Opening.{bytes_kept, kept_reader};
ghost use Rattle.gf_jobs.specs.declared.opening.kept.Kept.{Kept};

use gf_run::Source;

/// Two of the files that were read are in one group exactly when their hashes are equal.
pub fn one_group_for_each_hash()
    ensures { (files : List HashedFile) (a b : HashedFile) → Contains files a → Contains files b
        → AreInOneGroup files a b ↔ (a.hash ≡ b.hash) }
{}

/// If a reader that keeps what passes is read whole, it has kept the bytes that were read, unless
/// memory for them ran out.
pub fn kept_is_read<S: Source>()
    ensures { (old new : Kept S) (bytes : List ℕ) → bytes_kept old ≡ Some []
        → IsReadWhole (kept_reader S.reader) old new bytes
        → (bytes_kept new ≡ Some bytes) ⊎ (bytes_kept new ≡ None) }
{}

/// The names in three lists, the paths of two folders, and names of games and of another file.
pub fn worked_lists()
    ensures lines { names_in LineEnd.LineFeed (codes "a.efg\r\n\nb c.nfg\n")
        ≡ codes "a.efg" ∷ codes "b c.nfg" ∷ [] }
    ensures unended { names_in LineEnd.LineFeed (codes "\na") ≡ codes "a" ∷ [] }
    ensures null { names_in LineEnd.Null (97 ∷ 13 ∷ 0 ∷ 0 ∷ 98 ∷ [])
        ≡ (97 ∷ 13 ∷ []) ∷ [] ∷ (98 ∷ []) ∷ [] }
    ensures folders { (folder_at (codes "a") ≡ codes "a/") × (folder_at (codes "/") ≡ codes "/") }
    ensures games { (is_game_name (codes "a/b.NFG") ≡ true) × (is_game_name (codes ".efg") ≡ true)
        × (is_game_name (codes "b.nfgs") ≡ false) }
{}
