//! The information sets that are known.

ghost use Rattle.std.specs.Prelude.{◌≡◌, ◌≢◌, ◌+◌, ◌*◌, ◌<◌, ◌^◌, ◌++◌, ℕ, [], ◌∷◌, None, Some, nat_eq};
ghost use Rattle.std.specs.Prelude.{map, length, get_or, slice_get, option_map, position};
ghost use Rattle.std.specs.Prelude.{MatchOption, OnOk, OnErr, IfOk};
ghost use Rattle.std.specs.Map.{lookup};
ghost use Rattle.gf_token.specs.Label.{label_of};
ghost use Rattle.gf_token.specs.Positions.{at_position};
ghost use Rattle.gf_tree.specs.Actions.{actions_of};
ghost use Rattle.gf_tree.specs.Description.{same_set, set_of};
ghost use Rattle.gf_tree.specs.inner.Stretches.{AreStretches};
ghost use Rattle.gf_tree.specs.inner.StoredSets.{HoldActions, end_of};
ghost use Rattle.gf_tree.specs.KnownSets.{known_of, number_among, with_pending_action};
ghost use Rattle.gf_tree.specs.KnownSets.{with_pending_set};

use crate::game::action::{Action, same_actions};
use crate::hashers::{Hashers, Seed, find, make_room, next_place, push};
use gf_fraction::Fraction;
use gf_token::Label;
use indexmap::IndexMap;
use std::alloc::{AllocError, Global};
use std::hash::{Hash, Hasher};
use std::marker::Model;

/// A set, by its player and its number.
#[derive(Clone, Copy, PartialEq, Eq, Drop)]
struct SetKey {
    player: u32,
    number: u32,
}

impl Hash for SetKey {
    ghost use Rattle.std.specs.Cmp.Rules.{hashing};
    ghost use Rattle.std.specs.Hash as fed;
    ghost use borrow.Author.Rules.{rules};

    ghost hash_input = { λ k. fed.u64 (k.player * 2 ^ 32 + k.number) };

    ghost respects_eq = { Prim.search (hashing, rules) };

    fn hash<H: Hasher>(&self, state: &mut H) {
        state.write_u64(((self.player as u64) << 32) + self.number as u64);
    }
}

/// What is stored of a set, in 32 bytes: its number among the sets of its player, how many actions
/// it has, its name, and where its actions begin among those of all sets.
#[derive(Clone, Copy, Drop)]
struct StoredSet<'a> {
    among: u32,
    count: u32,
    name: Label<'a>,
    start: usize,
}

impl<'a> StoredSet<'a> {
    /// Where its actions end.
    #[inline(always)]
    fn end(&self) -> usize
        requires { end_of self.now < 2 ^ 64 }
        ensures { result ≡ end_of self.now }
    {
        self.start + self.count as usize
    }
}

type Entries<'a> = IndexMap<SetKey, StoredSet<'a>, Hashers>;

/// A player's sets in order of first use.
#[derive(Drop)]
struct OwnSets {
    numbers: Vec<u32>,
    /// The place of the last one. Nothing is proved of it.
    last: u32,
}

impl Model for OwnSets {
    ghost use Rattle.std.specs.Prelude.{ℕ, List};

    ghost Value = { List ℕ };

    ghost view = { λ o. o.numbers.items };
}

impl OwnSets {
    /// No sets.
    fn new(alloc: Global) -> OwnSets
        ensures { result ≡ [] }
    {
        OwnSets {
            numbers: Vec::new(alloc),
            last: 0,
        }
    }

    /// Adds the number of the set at a place, and returns how many sets there are then.
    fn add(&mut self, number: u32, place: u32) -> Result<u32, AllocError>
        ensures own { OnOk result (self.new ≡ self.old ++ number ∷ []) }
        ensures count { IfOk result (λ count. count ≡ length self.old + 1) }
        ensures err { OnErr result (self.new ≡ self.old) }
    {
        let before = next_place(self.numbers.len())?;
        self.numbers.push(number)?;
        self.last = place;
        Ok(before + 1)
    }
}

/// A player's sets, if they have had any.
#[inline(always)]
fn sets_of(players: &[OwnSets], player: u32) -> Option<&OwnSets>
    ensures { MatchOption result (get_or players.now player [] ≡ [])
        (λ own. own.now ≡ get_or players.now player []) }
{
    players.get(player as usize)
}

/// Makes places for the sets of all players up to this one.
fn reach(players: &mut Vec<OwnSets>, alloc: Global, player: u32) -> Result<(), AllocError>
    ensures same { (any : ℕ) → get_or players.new.items any [] ≡ get_or players.old.items any [] }
    ensures ok { OnOk result (player < length players.new.items) }
{
    while players.len() <= player as usize {
        if players.push(OwnSets::new(alloc)).is_err() {
            return Err(AllocError);
        }
    }
    Ok(())
}

/// Adds a set to those of a player, and returns how many they then have.
fn add_own(
    players: &mut Vec<OwnSets>,
    alloc: Global,
    player: u32,
    number: u32,
    place: u32,
) -> Result<u32, AllocError>
    ensures others { (other : ℕ) → other ≢ player
        → get_or players.new.items other [] ≡ get_or players.old.items other [] }
    ensures own { OnOk result (get_or players.new.items player []
        ≡ get_or players.old.items player [] ++ number ∷ []) }
    ensures count { IfOk result (λ count. count ≡ length (get_or players.old.items player []) + 1) }
    ensures err { OnErr result (get_or players.new.items player []
        ≡ get_or players.old.items player []) }
{
    reach(players, alloc, player)?;
    players[player as usize].add(number, place)
}

/// The place of a player's last set, if they have any.
fn last_place(players: &[OwnSets], player: u32) -> Option<u32> {
    Some(sets_of(players, player)?.last)
}

/// A guess at a set's place: that of its player's last set if it is the only one, otherwise the
/// place before its number, as if all sets were numbered in order of first use.
#[inline(always)]
fn likely_place(players: &[OwnSets], key: SetKey) -> usize {
    match sets_of(players, key.player) {
        Some(own) if own.numbers.len() == 1 => own.last as usize,
        _ => key.number.wrapping_sub(1) as usize,
    }
}

/// Where the actions from `from` on are kept, and how many there are: with those of the set at
/// `place` if they are the same, otherwise where they stand.
#[tactic(auto, using(crate::proofs::lemmas::stores::SetsStored::within))]
fn stretch_like(
    entries: &Entries<'_>,
    actions: &[Action<'_>],
    from: usize,
    place: Option<u32>,
) -> Result<(usize, u32), AllocError>
    requires { AreStretches (λ e. e.1.start) (λ e. end_of e.1) entries.now.entries actions.now from }
    ensures { IfOk result (λ s. HoldActions actions.now from s.0 (s.0 + s.1)) }
{
    if let Some(place) = place {
        if let Some((_, set)) = entries.get_index(place as usize) {
            if same_actions(&actions[set.start..set.end()], &actions[from..]) {
                return Ok((set.start, set.count));
            }
        }
    }
    match u32::try_from(actions.len() - from) {
        Ok(count) => Ok((from, count)),
        Err(_) => Err(AllocError),
    }
}

/// The information sets that are known, each with its description, in order of first use; and the
/// actions so far of a set whose description is being read.
///
/// A set has the place at which it became known, from 0. There are fewer than 2^32 sets, and none
/// has as many actions: room for more is refused. Consecutive sets of a player often have the same
/// actions: these are kept once.
#[derive(Drop)]
pub(crate) struct Sets<'a> {
    alloc: Global,
    entries: Entries<'a>,
    /// No set has a greater number, so one that has is new.
    greatest: u32,
    players: Vec<OwnSets>,
    actions: Vec<Action<'a>>,
    /// Where the actions of the description being read begin.
    from: usize,
}

impl<'a> Model for Sets<'a> {
    ghost use Rattle.gf_tree.specs.KnownSets.{KnownSets};
    ghost use Rattle.std.specs.Prelude.{◌≤◌};
    ghost use Rattle.std.specs.List.{AllByRecursion};
    ghost use Rattle.gf_tree.specs.inner.StoredSets.{stored_sets, AreSets};

    ghost Value = { KnownSets };

    ghost view = { λ s. stored_sets s.entries.entries s.actions.items s.from };

    ghost invariant = { λ s. AreSets s.players.items s.entries.entries s.actions.items s.from
        × AllByRecursion (λ e. e.0.number ≤ s.greatest) s.entries.entries };
}

impl<'a> Sets<'a> {
    /// No sets.
    pub(crate) fn new(alloc: Global) -> Sets<'a>
        ensures { result ≡ record { known = []; pending = [] } }
    {
        Sets {
            alloc,
            entries: IndexMap::with_hasher(alloc, Hashers::of_few()),
            greatest: 0,
            players: Vec::new(alloc),
            actions: Vec::new(alloc),
            from: 0,
        }
    }

    /// The place of a set.
    #[inline(always)]
    pub(crate) fn find(&self, player: u32, number: u32) -> Option<u32>
        ensures { result
            ≡ position (same_set (set_of player number)) (map (λ s. s.key) self.now.known) }
    {
        if number > self.greatest {
            return None;
        }
        let key = SetKey { player, number };
        match find(&self.entries, &key, likely_place(&self.players, key)) {
            Some(place) => Some(place as u32),
            None => None,
        }
    }

    /// How many sets there are.
    pub(crate) fn len(&self) -> usize
        ensures len { result ≡ length self.now.known }
        ensures few { result < 2 ^ 32 }
    {
        self.entries.len()
    }

    /// The player and the number of the set at a place.
    #[inline(always)]
    pub(crate) fn key(&self, place: u32) -> (u32, u32)
        requires { place < length self.now.known }
        ensures { option_map (λ s. s.key) (slice_get self.now.known place)
            ≡ Some (set_of result.0 result.1) }
    {
        let (key, _) = self.entries.get_index(place as usize).unwrap();
        (key.player, key.number)
    }

    /// The name of the set at a place.
    #[inline(always)]
    pub(crate) fn name(&self, place: u32) -> Label<'a>
        requires { place < length self.now.known }
        ensures { option_map (λ s. s.description.name) (slice_get self.now.known place)
            ≡ Some (label_of result) }
    {
        let (_, set) = self.entries.get_index(place as usize).unwrap();
        set.name
    }

    /// The actions of the set at a place.
    #[inline(always)]
    pub(crate) fn actions(&self, place: u32) -> &[Action<'a>]
        requires { place < length self.now.known }
        ensures { option_map (λ s. s.description.actions) (slice_get self.now.known place)
            ≡ Some (actions_of result.now) }
    {
        let (_, set) = self.entries.get_index(place as usize).unwrap();
        &self.actions[set.start..set.end()]
    }

    /// How many actions the set at a place has.
    #[inline(always)]
    pub(crate) fn action_count(&self, place: u32) -> u32
        requires { place < length self.now.known }
        ensures { option_map (λ s. length s.description.actions) (slice_get self.now.known place)
            ≡ Some result }
    {
        let (_, set) = self.entries.get_index(place as usize).unwrap();
        set.count
    }

    /// The number of the set at a place, from 1, among the sets of its player.
    #[inline(always)]
    pub(crate) fn first_use_number(&self, place: u32) -> u32
        requires { place < length self.now.known }
        ensures { number_among self.now.known place ≡ Some result }
    {
        let (_, set) = self.entries.get_index(place as usize).unwrap();
        set.among
    }

    /// How many sets a player has.
    pub(crate) fn count(&self, player: u32) -> usize
        ensures { result ≡ length (known_of player self.now.known) }
    {
        match sets_of(&self.players, player) {
            Some(own) => own.numbers.len(),
            None => 0,
        }
    }

    /// The number of a player's set at a position, from 1.
    pub(crate) fn number(&self, player: u32, i: usize) -> Option<u32>
        ensures { result
            ≡ at_position (map (λ s. s.key.number) (known_of player self.now.known)) i }
    {
        let own = sets_of(&self.players, player)?;
        own.numbers.get(i.checked_sub(1)?).copied()
    }

    /// Begins the description of a set.
    pub(crate) fn begin(&mut self)
        ensures { self.new ≡ record self.old { pending = [] } }
    {
        self.from = self.actions.len();
    }

    /// Adds an action to the description. After an `Err` nothing has changed.
    pub(crate) fn push(
        &mut self,
        label: Label<'a>,
        probability: Option<Fraction>,
    ) -> Result<(), AllocError>
        ensures ok { OnOk result (self.new
            ≡ with_pending_action self.old (label_of label.entry) probability) }
        ensures err { OnErr result (self.new ≡ self.old) }
    {
        if self.actions.push(Action { label, probability }).is_err() {
            return Err(AllocError);
        }
        Ok(())
    }

    /// The actions of the description so far.
    pub(crate) fn pending(&self) -> &[Action<'a>]
        ensures { actions_of result.now ≡ self.now.pending }
    {
        &self.actions[self.from..]
    }

    /// Ends the description: it is that of this set, which was not known. Returns the set's place.
    /// After an `Err` nothing has changed.
    pub(crate) fn end(
        &mut self,
        seed: &mut Seed<'_>,
        player: u32,
        number: u32,
        name: Label<'a>,
    ) -> Result<u32, AllocError>
        requires { position (same_set (set_of player number)) (map (λ s. s.key) self.old.known)
            ≡ None }
        ensures ok { OnOk result (self.new
            ≡ with_pending_set self.old (set_of player number) (label_of name.entry)) }
        ensures place { IfOk result (λ place. place ≡ length self.old.known) }
        ensures err { OnErr result (self.new ≡ self.old) }
    {
        let place = next_place(self.entries.len())?;
        make_room(&mut self.entries, self.alloc, seed)?;
        let like = last_place(&self.players, player);
        let (start, count) = stretch_like(&self.entries, &self.actions, self.from, like)?;
        let among = add_own(&mut self.players, self.alloc, player, number, place)?;
        let set = StoredSet {
            among,
            count,
            name,
            start,
        };
        push(&mut self.entries, SetKey { player, number }, set);
        self.greatest = self.greatest.max(number);
        // If an earlier set has the same actions, the new copies are dropped.
        self.from = self.from.max(set.end());
        self.actions.truncate(self.from);
        Ok(place)
    }
}
