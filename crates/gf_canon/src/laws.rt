//! Laws of the definitions, each as the contract of a function that does nothing.

ghost use Rattle.std.specs.Prelude.{◌≡◌, ◌↔◌, ◌⊎◌, Bool, Decides, List, ℕ, length, map};
ghost use Rattle.std.specs.List.{AllByRecursion};
ghost use Rattle.gf_token.specs.BeginsInBytes.{BeginsInBytes};
ghost use Rattle.gf_token.specs.Place.{Begins};
ghost use Rattle.gf_token.specs.Token.{Token};
ghost use Rattle.gf_token.specs.TokenSpelling.{IsSpelled};
ghost use Rattle.gf_token.specs.declared.fault.Span.{Span};
ghost use Rattle.gf_token.specs.declared.fault.Why.{Why};
ghost use Rattle.gf_nfg.specs.Profiles.{positions};
ghost use Rattle.gf_nfg.specs.SameTable.{SamePlay};
ghost use Rattle.gf_nfg.specs.Table.{Table};
ghost use Rattle.gf_tree.specs.FileNodes.{file_nodes};
ghost use Rattle.gf_tree.specs.FiniteMap.{first_uses};
ghost use Rattle.gf_tree.specs.Game.{Game};
ghost use Rattle.gf_tree.specs.IsGame.{IsGame};
ghost use Rattle.gf_tree.specs.GameOf.{IsGameOf, SpellsGame};
ghost use Rattle.gf_tree.specs.Consistent.{IsConsistent};
ghost use Rattle.gf_tree.specs.PrefixOrder.{flatten};
ghost use Rattle.gf_tree.specs.Spellable.{IsSpellable};
ghost use Rattle.gf_tree.specs.WorkedTrees.{bonus, five};
ghost use Rattle.gf_tree.specs.CarriedParts.{CarriesParts};
ghost use Rattle.gf_tree.specs.Renumbering.{HasOutcome, HasSet, Renumbering};
ghost use Rattle.gf_tree.specs.FileTree.{FileTree};
ghost use Rattle.gf_tree.specs.FirstUse.{first_use_number, first_use_numbers};
ghost use Rattle.gf_tree.specs.KeysInOrder.{outcome_numbers, player_keys};
ghost use Rattle.gf_tree.specs.SameGame.{Carries, SameGame};
ghost use Rattle.gf_tree.specs.CanonicalGame.{canonical_game};
ghost use Rattle.gf_canon.specs.FirstDescribed.{IsFileOf};
ghost use Rattle.gf_canon.specs.GameFile.{GameFile, SameFile, SpellsFile, canonical_text};
ghost use Rattle.gf_canon.specs.GameFile.GameFile.{extensive, strategic};
ghost use Rattle.gf_canon.specs.GameText.{game_text};
ghost use Rattle.gf_canon.specs.IsGameFile.{IsGameFile};
ghost use Rattle.gf_canon.specs.CanonicalFile.{canonical_file};
ghost use Rattle.gf_canon.specs.CanonicalText.{IsCanonicalText, SpellsWithin, MeanSame};
ghost use Rattle.gf_canon.specs.Judgement.{IsInEitherFormat, IsRefused, IsRefusedWith};
ghost use Rattle.gf_canon.specs.NamesAside.{IsTextBy, SameAsideNames, unnamed};
ghost use Rattle.gf_canon.specs.SameBy.{SameBy};
ghost use Rattle.gf_token.specs.declared.names.Names.{Names};
ghost use Rattle.gf_canon.specs.WorkedGames.{bonus_text, five_text, lower_case_prize, no_outcome};
ghost use Rattle.gf_canon.specs.WorkedGames.{nobody, nobody_text, numbered_five, plain_prize};
ghost use Rattle.gf_canon.specs.WorkedGames.{renamed_prize, seen, two_prizes, unseen, zero_outcome};

/// Each list of bytes has a canonical text, or it is refused, but never both. It never has two
/// texts, and is never refused at two places or for two reasons.
///
/// If two lists of bytes have canonical texts, these are equal exactly when the bytes mean the
/// same. Two trees do exactly when some renumbering of information sets, player by player, and of
/// outcomes carries one to the other; two tables exactly when title, comment, players, strategies
/// and the payoffs at each profile agree; a tree and a table never. A canonical text is its own
/// canonical text, and means the canonical game, or the table.
///
/// A refusal stands at the offending place in the language of both formats, or where the profiles
/// of a table pass their limit, with the reason of the format that the first token names, or of a
/// place where a format is due.
pub fn headline()
    ensures text_or_refusal { (bytes : List ℕ) → ((text : List ℕ) × IsCanonicalText bytes text)
        ⊎ ((why : Why) × (span : Span) × IsRefused why bytes span) }
    ensures never_both { (bytes text : List ℕ) (why : Why) (span : Span)
        → IsCanonicalText bytes text → ¬ (IsRefused why bytes span) }
    ensures one_text { (bytes text other : List ℕ) → IsCanonicalText bytes text
        → IsCanonicalText bytes other → text ≡ other }
    ensures one_refusal { (bytes : List ℕ) (why other : Why) (span place : Span)
        → IsRefused why bytes span → IsRefused other bytes place
        → (span ≡ place) × (why ≡ other) }
    ensures equal_exactly { (a b s t : List ℕ) → IsCanonicalText a s → IsCanonicalText b t
        → (s ≡ t) ↔ MeanSame a b }
    ensures same_exactly { (a b : List ℕ) (x y : GameFile) → SpellsWithin a x → SpellsWithin b y
        → MeanSame a b ↔ SameFile x y }
    ensures own_text { (bytes text : List ℕ) → IsCanonicalText bytes text
        → IsCanonicalText text text }
    ensures reads_back { (bytes : List ℕ) (x : GameFile) → SpellsWithin bytes x
        → SpellsWithin (canonical_text x) (canonical_file x) }
    ensures placed { (bytes : List ℕ) (why : Why) (span : Span) → IsRefused why bytes span
        → IsRefusedWith bytes (record { span = span; why = why }) }
{}

/// Tokens that can be spelled begin some file of either format exactly
/// if they begin one that some bytes spell.
pub fn begins_in_bytes()
    ensures { (tokens : List Token) → AllByRecursion IsSpelled tokens
        → Begins IsInEitherFormat tokens ↔ BeginsInBytes IsInEitherFormat tokens }
{
    gf_tree::laws::begins_in_bytes();
    gf_nfg::laws::begins_in_bytes();
}

/// With names or without, sameness is transitive, and reflexive and symmetric for games and tables.
pub fn same_is_equivalence()
    ensures reflexive { (names : Names) (x : GameFile) → IsGameFile x → SameBy names x x }
    ensures symmetric { (names : Names) (x y : GameFile) → IsGameFile x → SameBy names x y
        → SameBy names y x }
    ensures transitive { (names : Names) (x y z : GameFile) → SameBy names x y → SameBy names y z
        → SameBy names x z }
{}

/// A renumbering carries one game to another exactly when title, comment and players are equal, the
/// trees are equal node by node but for the numbers, and each set and each outcome has the
/// description of the one with its new number.
#[tactic(auto, using(gf_tree::proofs::Offered::carried_by_parts))]
pub fn carried_by_parts()
    ensures { (r : Renumbering) (g h : Game) → IsGame g → IsGame h
        → Carries r g h ↔ CarriesParts r g h }
{}

/// Renumberings that carry one game to another agree at the game's own sets and outcomes.
pub fn one_renumbering()
    ensures sets { (r s : Renumbering) (g h : Game) → Carries r g h → Carries s g h
        → (player number : ℕ) → HasSet g player number → r.set player number ≡ s.set player number }
    ensures outcomes { (r s : Renumbering) (g h : Game) → Carries r g h → Carries s g h
        → (number : ℕ) → HasOutcome g number → r.outcome number ≡ s.outcome number }
{}

/// Sets and outcomes that a renumbering carries to each other have the same place in order of first
/// use.
#[tactic(auto, using(gf_tree::proofs::Offered::set_numbers_carried, gf_tree::proofs::Offered::outcome_numbers_carried))]
pub fn carried_in_order()
    ensures sets { (r : Renumbering) (g h : Game) → IsGame g → IsGame h → Carries r g h
        → (player : ℕ) → map (λ key. key.number) (player_keys h player)
        ≡ map (λ key. r.set player key.number) (player_keys g player) }
    ensures outcomes { (r : Renumbering) (g h : Game) → IsGame g → IsGame h → Carries r g h
        → outcome_numbers h ≡ map r.outcome (outcome_numbers g) }
{}

/// Sets and outcomes that a renumbering carries to each other have the same first-use number.
#[tactic(auto, using(gf_tree::proofs::Offered::set_number_kept, gf_tree::proofs::Offered::outcome_number_kept))]
pub fn first_use_numbers_stay()
    ensures sets { (r : Renumbering) (g h : Game) → Carries r g h → (player number : ℕ)
        → HasSet g player number → (first_use_numbers h).set player (r.set player number)
        ≡ (first_use_numbers g).set player number }
    ensures outcomes { (r : Renumbering) (g h : Game)
        → Carries r g h → (number : ℕ) → HasOutcome g number
        → (first_use_numbers h).outcome (r.outcome number) ≡ (first_use_numbers g).outcome number }
{}

/// Keys in order of first use have the first-use numbers 1, 2 and so on, and so do the sets of a
/// player in a game, and its outcomes.
#[tactic(auto, using(crate::proofs::lemmas::numbers::InOrder::in_order))]
pub fn numbered_in_order<K>()
    ensures keys { (same : K → K → Bool) → ((a b : K) → Decides (same a b) (a ≡ b))
        → (uses : List K)
        → map (first_use_number same uses) (first_uses same uses)
        ≡ positions (length (first_uses same uses)) }
    ensures sets { (g : Game) (player : ℕ) → IsGame g
        → map (λ key. (first_use_numbers g).set player key.number) (player_keys g player)
        ≡ positions (length (player_keys g player)) }
    ensures outcomes { (g : Game) → IsGame g
        → map (first_use_numbers g).outcome (outcome_numbers g)
        ≡ positions (length (outcome_numbers g)) }
{}

/// The canonical game is a game, the first-use numbers carry the game to it, and it is its own
/// canonical game.
pub fn canonical_game_is_same()
    ensures is_game { (g : Game) → IsGame g → IsGame (canonical_game g) }
    ensures carried { (g : Game) → IsGame g → Carries (first_use_numbers g) g (canonical_game g) }
    ensures again { (g : Game) → IsGame g → canonical_game (canonical_game g) ≡ canonical_game g }
{}

/// Two games are the same exactly when their canonical games are equal, and two tables exactly when
/// they are equal; a game and a table never are.
#[tactic(auto, using(crate::proofs::lemmas::files::Texts::by_canonical))]
pub fn same_by_canonical_game()
    ensures games { (g h : Game) → IsGame g → IsGame h
        → SameGame g h ↔ (canonical_game g ≡ canonical_game h) }
    ensures files { (a b : GameFile) → IsGameFile a → IsGameFile b
        → SameFile a b ↔ (canonical_file a ≡ canonical_file b) }
{}

/// Every game has exactly one file tree in which the first uses are described and no others; its
/// nodes are those of the game's text. So the games are those that some consistent file tree means.
#[tactic(auto, using(crate::proofs::lemmas::texts::OneFile::files_of_games))]
pub fn file_of_each_game()
    ensures some { (g : Game) → IsGame g
        → (f : FileTree) × IsFileOf g f × (map (λ e. e.node) (flatten f.tree) ≡ file_nodes g) }
    ensures one { (g : Game) (f h : FileTree) → IsFileOf g f → IsFileOf g h → f ≡ h }
    ensures are_games { (g : Game) → IsGame g ↔ ((f : FileTree) × IsConsistent f × IsGameOf f g) }
{}

/// The text of a game that a file can hold is an extensive file that means this game, so different
/// ones have different texts. A file can hold the canonical game too.
#[tactic(auto, using(crate::proofs::lemmas::files::Texts::game_texts))]
pub fn text_reads_back()
    ensures reads_back { (g : Game) → IsGame g → IsSpellable g → SpellsGame (game_text g) g }
    ensures two_texts { (g h : Game) → IsGame g → IsSpellable g → IsGame h → IsSpellable h
        → (game_text g ≡ game_text h) ↔ (g ≡ h) }
    ensures canonical { (g : Game) → IsGame g → IsSpellable g → IsSpellable (canonical_game g) }
{}

/// Files mean exactly the games whose labels can be spelled, whose probabilities and payoffs are
/// fractions, and whose numbers are indices.
#[tactic(auto, using(crate::proofs::lemmas::texts::ReadsBack::games_of_files))]
pub fn games_of_files()
    ensures { (g : Game) → ((bytes : List ℕ) × SpellsGame bytes g) ↔ (IsGame g × IsSpellable g) }
{}

/// Bytes mean at most one game or one table, and never both.
#[tactic(auto, using(crate::proofs::lemmas::files::Texts::spells_one_file))]
pub fn means_one_file()
    ensures { (bytes : List ℕ) (x y : GameFile) → SpellsFile bytes x → SpellsFile bytes y → x ≡ y }
{}

/// Two files mean the same exactly when their canonical texts are equal. The canonical text of a
/// file is a file that means the canonical game, or the table, and it is its own canonical text.
#[tactic(auto, using(crate::proofs::lemmas::files::Texts::equal_texts))]
pub fn equal_canonical_texts()
    ensures equal { (a b : List ℕ) (x y : GameFile) → SpellsFile a x → SpellsFile b y
        → (canonical_text x ≡ canonical_text y) ↔ SameFile x y }
    ensures reads_back { (bytes : List ℕ) (x : GameFile) → SpellsFile bytes x
        → SpellsFile (canonical_text x) (canonical_file x) }
    ensures again { (bytes : List ℕ) (x y : GameFile) → SpellsFile bytes x
        → SpellsFile (canonical_text x) y → canonical_text y ≡ canonical_text x }
{}

/// Files that mean the same also mean the same aside from names. Two files mean the same aside from
/// names exactly when the canonical texts of what they mean, without names, are equal. Two tables
/// do so exactly when they play alike.
#[tactic(auto, using(crate::proofs::lemmas::sameness::Unnamed::aside_names))]
pub fn same_aside_names()
    ensures aside { (x y : GameFile) → SameFile x y → SameAsideNames x y }
    ensures equal { (a b : List ℕ) (x y : GameFile) → SpellsFile a x → SpellsFile b y
        → (canonical_text (unnamed x) ≡ canonical_text (unnamed y)) ↔ SameAsideNames x y }
    ensures tables { (t u : Table) → SameAsideNames (strategic t) (strategic u) ↔ SamePlay t u }
{}

/// The texts of two files, with names or without, are equal exactly when the files are the same in
/// this sense.
pub fn equal_texts_by_names()
    ensures { (names : Names) (a b s t : List ℕ) → IsTextBy names a s → IsTextBy names b t
        → (x y : GameFile) → SpellsWithin a x → SpellsWithin b y → (s ≡ t) ↔ SameBy names x y }
{}

/// Worked games and their canonical texts: a set of chance met twice on a path, an outcome at an
/// inner node, and no players.
pub fn worked_texts()
    ensures five { game_text (canonical_game five) ≡ five_text }
    ensures bonus { game_text (canonical_game bonus) ≡ bonus_text }
    ensures nobody { game_text (canonical_game nobody) ≡ nobody_text }
{}

/// The game "five" by its first-use numbers; a copy by other numbers, and the only renumbering that
/// carries one to the other.
#[tactic(auto, using(crate::proofs::lemmas::sameness::Worked::five_same))]
pub fn worked_numbers()
    ensures numbers { five ≡ numbered_five 9 7 3 4 }
    ensures first_uses { ((first_use_numbers five).set 0 9 ≡ 1)
        × ((first_use_numbers five).set 1 7 ≡ 1) × ((first_use_numbers five).set 1 3 ≡ 2)
        × ((first_use_numbers five).outcome 4 ≡ 1) }
    ensures canonical { canonical_game five ≡ numbered_five 1 1 2 1 }
    ensures copy { SameGame five (numbered_five 2 3 8 2) }
    ensures new_numbers { (r : Renumbering) → Carries r five (numbered_five 2 3 8 2)
        → (r.set 0 9 ≡ 2) × (r.set 1 7 ≡ 3) × (r.set 1 3 ≡ 8) × (r.outcome 4 ≡ 2) }
{}

/// Worked games that are not the same: one set is not the same as two with equal descriptions, nor
/// one outcome as two, nor no outcome as one that pays zero.
#[tactic(auto, using(gf_tree::proofs::Offered::carried_sets, gf_tree::proofs::Offered::carried_outcomes))]
pub fn worked_differences()
    ensures sets { ¬ (SameGame unseen seen) × ¬ (SameGame seen unseen) }
    ensures outcomes { ¬ (SameGame plain_prize two_prizes) × ¬ (SameGame two_prizes plain_prize) }
    ensures null_outcome { ¬ (SameGame no_outcome zero_outcome)
        × ¬ (SameGame zero_outcome no_outcome) }
{}

/// Other names of a worked game, its first node, its set and its outcome make another game, which
/// is the same aside from names. Another label of an action makes another game in both senses.
#[tactic(auto, using(gf_tree::proofs::Offered::same_itself))]
pub fn worked_names()
    ensures other { ¬ (SameGame plain_prize renamed_prize) }
    ensures aside { SameAsideNames (extensive plain_prize) (extensive renamed_prize) }
    ensures label { ¬ (SameGame plain_prize lower_case_prize)
        × ¬ (SameAsideNames (extensive plain_prize) (extensive lower_case_prize)) }
{}
