//! Laws of the definitions, each as the contract of a function that does nothing.

ghost use Rattle.std.specs.Prelude.{◌≡◌, ◌↔◌, ◌⊎◌, ◌≤◌, ◌<◌, ◌^◌, ◌-◌, ℕ, List, [], ◌∷◌};
ghost use Rattle.std.specs.Prelude.{codes, filter, get_or, length, map, pos, Option, Some, true};
ghost use Rattle.std.specs.List.{AllByRecursion, AllZip, Contains};
ghost use Rattle.gf_fraction.specs.Ratio.{Ratio, whole};
ghost use Rattle.gf_fraction.specs.Rational.{IsEqual, one_ratio, total, zero_ratio};
ghost use Rattle.gf_nfg.specs.Profiles.{product};
ghost use Rattle.gf_nfg.specs.Table.{IsTable, Table};
ghost use Rattle.gf_tree.specs.Description.{SetKey, set_of};
ghost use Rattle.gf_tree.specs.Game.{Game, Node};
ghost use Rattle.gf_tree.specs.IsGame.{IsGame};
ghost use Rattle.gf_tree.specs.KeysInOrder.{player_keys};
ghost use Rattle.gf_tree.specs.Spellable.{IsSpellable};
ghost use Rattle.gf_tree.specs.WorkedTrees.{bonus, forgetful};
ghost use Rattle.gf_tree.specs.SameGame.{SameGame};
ghost use Rattle.gf_form.specs.Strategies.{action_counts, choice_at, choices_by, full_profiles};
ghost use Rattle.gf_form.specs.Strategies.{players_of, strategies, strategies_at, strategy_label};
ghost use Rattle.gf_form.specs.Strategies.{IsStrategy};
ghost use Rattle.gf_form.specs.Plays.{follows, plays, HasActions, PartAtChance, Play};
ghost use Rattle.gf_form.specs.Payoff.{payoff, payoff_at, play_probability};
ghost use Rattle.gf_form.specs.BottomUp.{IsValue};
ghost use Rattle.gf_form.specs.Refusal.{HasTooManyProfiles, OverflowsAt, ReducedOverflowsAt};
ghost use Rattle.gf_form.specs.StrategicForm.{IsStrategicForm, PaysFractions};
ghost use Rattle.gf_form.specs.Reduced.{agrees, reduced, reduced_at, reduced_by, reduced_label};
ghost use Rattle.gf_form.specs.Reduced.{reduced_profiles, reduced_strategies, IsReducedForm};
ghost use Rattle.gf_form.specs.WorkedForms.{balancing, bonus_form, contradicted, ending};
ghost use Rattle.gf_form.specs.WorkedForms.{ending_form, ending_reduced, greatest, only};
ghost use Rattle.gf_form.specs.WorkedForms.{overflowing, second, unlikely};

/// Worked games: plays, strategic and reduced forms, and payoffs that fit although the bottom-up
/// value does not, once because of a child with probability zero, and once because of the sum of
/// the children, to which the node's own payoff is added last.
pub fn worked_forms()
    ensures games { AllByRecursion (λ g. IsGame g × IsSpellable g)
        (overflowing ∷ unlikely ∷ balancing ∷ ending ∷ contradicted ∷ []) }
    ensures plays { map (λ play. map (λ s. s.taken) play.steps) (plays bonus.tree)
        ≡ (1 ∷ 1 ∷ []) ∷ (1 ∷ 2 ∷ []) ∷ (2 ∷ 1 ∷ []) ∷ (2 ∷ 2 ∷ []) ∷ [] }
    ensures form { IsStrategicForm bonus bonus_form }
    ensures fits { IsEqual greatest (payoff overflowing (choices_by overflowing second) 1) }
    ensures overflows { ¬ ((value : Ratio)
        × IsValue overflowing (choices_by overflowing second) 1 overflowing.tree value) }
    ensures fits_at_zero { IsEqual (whole (pos 1)) (payoff unlikely (choices_by unlikely only) 1) }
    ensures overflows_at_zero { ¬ ((value : Ratio)
        × IsValue unlikely (choices_by unlikely only) 1 unlikely.tree value) }
    ensures fits_at_last { IsEqual (whole (pos (2 ^ 126 - 1)))
        (payoff balancing (choices_by balancing only) 1) }
    ensures overflows_before { ¬ ((value : Ratio)
        × IsValue balancing (choices_by balancing only) 1 balancing.tree value) }
    ensures full { IsStrategicForm ending ending_form }
    ensures reduced { IsReducedForm ending ending_reduced }
    ensures forgetful { map reduced_label (reduced_strategies forgetful 1)
        ≡ codes "1-1" ∷ codes "1-2" ∷ codes "2-1" ∷ codes "2-2" ∷ [] }
    ensures contradicted { map reduced_label (reduced_strategies contradicted 1)
        ≡ codes "1-*" ∷ codes "2-*" ∷ [] }
{}

/// If the bottom-up value is defined, it is one fraction, the payoff by plays, whatever is chosen.
#[tactic(auto, using(crate::proofs::lemmas::values::BottomUp::payoffs_by_plays))]
pub fn value_is_payoff()
    ensures one_value { (g : Game) (choices : SetKey → ℕ) (player : ℕ) (x y : Ratio) → IsGame g
        → IsSpellable g
        → IsValue g choices player g.tree x → IsValue g choices player g.tree y → x ≡ y }
    ensures payoff { (g : Game) (choices : SetKey → ℕ) (player : ℕ) (value : Ratio) → IsGame g
        → IsSpellable g
        → IsValue g choices player g.tree value → IsEqual value (payoff g choices player) }
{}

/// The pure strategies of a player are all choices of an action at each of their sets, each once;
/// there are as many as the product of the numbers of actions. Their labels differ, as long as no
/// set has 2^64 actions.
#[tactic(auto, using(crate::proofs::lemmas::strategies::StrategiesByNumber::each_strategy))]
pub fn every_strategy()
    ensures each_choice { (g : Game) (player : ℕ) (strategy : List ℕ)
        → Contains (strategies g player) strategy
        ↔ IsStrategy g player strategy }
    ensures count { (g : Game) (player : ℕ)
        → length (strategies g player) ≡ product (action_counts g player) }
    ensures each_once { (g : Game) (player i j : ℕ) → i < length (strategies g player)
        → j < length (strategies g player)
        → get_or (strategies g player) i [] ≡ get_or (strategies g player) j [] → i ≡ j }
    ensures labels_differ { (g : Game) (player i j : ℕ)
        → AllByRecursion (λ count. count < 2 ^ 64) (action_counts g player)
        → i < length (strategies g player) → j < length (strategies g player)
        → strategy_label (get_or (strategies g player) i [])
        ≡ strategy_label (get_or (strategies g player) j [])
        → i ≡ j }
{}

/// Games that are the same have the same strategies, the same payoffs at every profile, the same
/// bottom-up values, and the same strategic form, or no table for the same reason: none of these
/// depends on the numbers of sets and outcomes.
#[tactic(auto, using(crate::proofs::lemmas::form::SameForms::same_by_pure))]
pub fn same_games_same_form()
    ensures strategies { (g h : Game) → IsGame g → IsGame h → SameGame g h
        → (player : ℕ) → strategies g player ≡ strategies h player }
    ensures strategies_at { (g h : Game) → IsGame g → IsGame h → SameGame g h
        → (profile : List ℕ) → strategies_at g profile ≡ strategies_at h profile }
    ensures payoffs { (g h : Game) → IsGame g → IsGame h → SameGame g h
        → (all : List (List ℕ)) (player : ℕ)
        → payoff g (choices_by g all) player ≡ payoff h (choices_by h all) player }
    ensures values { (g h : Game) → IsGame g → IsGame h → SameGame g h
        → (all : List (List ℕ)) (player : ℕ) (value : Ratio)
        → IsValue g (choices_by g all) player g.tree value
        ↔ IsValue h (choices_by h all) player h.tree value }
    ensures forms { (g h : Game) → IsGame g → IsGame h → SameGame g h → (t : Table)
        → IsStrategicForm g t ↔ IsStrategicForm h t }
    ensures too_many { (g h : Game) → IsGame g → IsGame h → SameGame g h
        → HasTooManyProfiles g ↔ HasTooManyProfiles h }
    ensures overflow { (g h : Game) → IsGame g → IsGame h → SameGame g h
        → (position : ℕ) → OverflowsAt g position ↔ OverflowsAt h position }
{}

/// Games that are the same have the same reduced strategies: a strategy reduces to the same in
/// both, and so does a profile. They have the same reduced form, or lack a bottom-up value first at
/// the same profile of it. Both have too many profiles or neither does, by the law
/// [`same_games_same_form`](crate::laws::same_games_same_form).
#[tactic(auto, using(crate::proofs::lemmas::form::SameForms::same_by_reduced))]
pub fn same_games_same_reduced_form()
    ensures reduced { (g h : Game) → IsGame g → IsGame h → SameGame g h
        → (player : ℕ) (strategy : List ℕ)
        → reduced g player strategy ≡ reduced h player strategy }
    ensures strategies { (g h : Game) → IsGame g → IsGame h → SameGame g h
        → (player : ℕ) → reduced_strategies g player ≡ reduced_strategies h player }
    ensures profiles { (g h : Game) → IsGame g → IsGame h → SameGame g h
        → (profile : List ℕ) → reduced_by g profile ≡ reduced_by h profile }
    ensures forms { (g h : Game) → IsGame g → IsGame h → SameGame g h → (t : Table)
        → IsReducedForm g t ↔ IsReducedForm h t }
    ensures overflow { (g h : Game) → IsGame g → IsGame h → SameGame g h
        → (position : ℕ) → ReducedOverflowsAt g position ↔ ReducedOverflowsAt h position }
{}

/// A play follows the choices exactly when its players' moves are those. If the choices are
/// actions, some play follows them, and all plays that do have probability one together: at a
/// player's move they take the same child, and they part only where chance moves.
#[tactic(auto, using(crate::proofs::lemmas::values::Plays::followed_plays))]
pub fn plays_follow_choices()
    ensures by_moves { (choices : SetKey → ℕ) (play : Play) → (follows choices play ≡ true)
        ↔ AllByRecursion
        (λ s. (key : SetKey) → s.node.set ≡ Some key → 0 < key.player → choices key ≡ s.taken)
        play.steps }
    ensures some_play { (g : Game) (choices : SetKey → ℕ) → IsGame g → IsSpellable g
        → HasActions g choices
        → (play : Play) × Contains (plays g.tree) play × (follows choices play ≡ true) }
    ensures probability_one { (g : Game) (choices : SetKey → ℕ) → IsGame g → IsSpellable g
        → HasActions g choices
        → IsEqual (total (map (play_probability g) (filter (follows choices) (plays g.tree))))
        one_ratio }
    ensures part_at_chance { (g : Game) (choices : SetKey → ℕ) (p q : Play)
        → IsGame g → Contains (plays g.tree) p → Contains (plays g.tree) q
        → follows choices p ≡ true → follows choices q ≡ true → (p ≡ q) ⊎ PartAtChance p q }
{}

/// Chance is not a player: no strategy chooses at its sets, and nothing is paid to it.
#[tactic(auto, using(crate::proofs::lemmas::strategies::Chosen::chance_steps))]
pub fn chance_is_no_player()
    ensures choices { (g : Game) (all : List (List ℕ)) (number : ℕ)
        → choices_by g all (set_of 0 number) ≡ 0 }
    ensures payoff { (g : Game) (n : Node) → payoff_at g 0 n ≡ zero_ratio }
{}

/// The strategies of a profile are those of its players, one for each, and they choose an action at
/// each set.
#[tactic(auto, using(crate::proofs::lemmas::strategies::Chosen::profile_strategies))]
pub fn strategies_have_actions()
    ensures one_each { (g : Game) (profile : List ℕ) → Contains (full_profiles g) profile
        → AllZip (λ strategy player. Contains (strategies g player) strategy)
        (strategies_at g profile) (players_of g) }
    ensures actions { (g : Game) (all : List (List ℕ)) → IsGame g
        → AllZip (λ strategy player. Contains (strategies g player) strategy) all (players_of g)
        → HasActions g (choices_by g all) }
{}

/// Two strategies of a player reduce to the same one exactly when the same plays agree with them.
pub fn reduced_strategies_agree()
    ensures { (g : Game) (player : ℕ) (s t : List ℕ) → IsGame g → IsSpellable g → 0 < player
        → Contains (strategies g player) s → Contains (strategies g player) t
        → (reduced g player s ≡ reduced g player t)
        ↔ ((play : Play) → Contains (plays g.tree) play
        → agrees (choice_at (player_keys g player) s) player play
        ≡ agrees (choice_at (player_keys g player) t) player play) }
{}

/// The reduced strategies of a player are what their strategies reduce to, each once. Their labels
/// differ, as long as no set has 2^64 actions.
pub fn every_reduced_strategy()
    ensures each_comes { (g : Game) (player : ℕ) (strategy : List (Option ℕ))
        → Contains (reduced_strategies g player) strategy
        ↔ ((full : List ℕ) × Contains (strategies g player) full
        × (reduced g player full ≡ strategy)) }
    ensures each_once { (g : Game) (player i j : ℕ) → i < length (reduced_strategies g player)
        → j < length (reduced_strategies g player)
        → get_or (reduced_strategies g player) i [] ≡ get_or (reduced_strategies g player) j []
        → i ≡ j }
    ensures labels_differ { (g : Game) (player i j : ℕ)
        → AllByRecursion (λ count. count < 2 ^ 64) (action_counts g player)
        → i < length (reduced_strategies g player) → j < length (reduced_strategies g player)
        → reduced_label (get_or (reduced_strategies g player) i [])
        ≡ reduced_label (get_or (reduced_strategies g player) j [])
        → i ≡ j }
{}

/// Some full profile reduces to each profile of the reduced form, and each full profile reduces to
/// exactly one profile of the reduced form.
#[tactic(auto, using(crate::proofs::lemmas::reduced::ReducedForms::each_profile))]
pub fn every_reduced_profile()
    ensures each_comes { (g : Game) (profile : List ℕ) → Contains (reduced_profiles g) profile
        → (full : List ℕ) × Contains (full_profiles g) full
        × (reduced_by g full ≡ reduced_at g profile) }
    ensures all_come { (g : Game) (full : List ℕ) → Contains (full_profiles g) full
        → (profile : List ℕ) × Contains (reduced_profiles g) profile
        × (reduced_by g full ≡ reduced_at g profile) }
    ensures one_profile { (g : Game) (p q : List ℕ) → Contains (reduced_profiles g) p
        → Contains (reduced_profiles g) q → reduced_at g p ≡ reduced_at g q → p ≡ q }
{}

/// Full profiles that reduce to the same one have the same payoffs and the same bottom-up values,
/// defined for both or for neither.
#[tactic(auto, using(crate::proofs::lemmas::reduced::Reducing::reduced_value))]
pub fn reduced_profiles_pay_alike()
    ensures payoffs { (g : Game) (player : ℕ) (p q : List ℕ) → Contains (full_profiles g) p
        → Contains (full_profiles g) q → reduced_by g p ≡ reduced_by g q
        → payoff g (choices_by g (strategies_at g p)) player
        ≡ payoff g (choices_by g (strategies_at g q)) player }
    ensures values { (g : Game) (player : ℕ) (p q : List ℕ) (value : Ratio)
        → Contains (full_profiles g) p → Contains (full_profiles g) q
        → reduced_by g p ≡ reduced_by g q
        → IsValue g (choices_by g (strategies_at g p)) player g.tree value
        ↔ IsValue g (choices_by g (strategies_at g q)) player g.tree value }
{}

/// A game has at most one strategic form and at most one reduced form, and it has them exactly when
/// every payoff is a fraction.
#[tactic(auto, using(crate::proofs::lemmas::reduced::ReducedForms::at_most_one_form))]
pub fn one_form()
    ensures strategic { (g : Game) (t u : Table) → IsStrategicForm g t → IsStrategicForm g u
        → t ≡ u }
    ensures reduced { (g : Game) (t u : Table) → IsReducedForm g t → IsReducedForm g u → t ≡ u }
    ensures strategic_exists { (g : Game) → ((t : Table) × IsStrategicForm g t) ↔ PaysFractions g }
    ensures reduced_exists { (g : Game) → ((t : Table) × IsReducedForm g t) ↔ PaysFractions g }
{}

/// The strategic form of a game is a table, with a strategy for each player and an entry for each
/// profile, and so is the reduced form.
pub fn form_is_table()
    ensures strategic { (g : Game) (t : Table) → IsGame g → IsStrategicForm g t → IsTable t }
    ensures reduced { (g : Game) (t : Table) → IsGame g → IsReducedForm g t → IsTable t }
{}
