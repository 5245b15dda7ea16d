//! The reader of extensive files, which asks for the token that is due (Gambit documentation, "Game
//! representation formats").
//!
//! A node without descriptions takes one straight path, whose functions are `inline(always)`: wide
//! values would otherwise pass through memory. Descriptions are read by separate functions that are
//! `inline(never)`. Their results are taken apart: `return self.described_set(..)` would copy the
//! bytes of a `Fault` even when there is none.

ghost use Rattle.std.specs.Prelude.{◌≡◌, ◌<◌, ◌^◌, ℕ, List, Ok, length, IfOk, OnOk};
ghost use Rattle.std.specs.Prelude.{MatchResult};
ghost use Rattle.gf_token.specs.Remaining.{StandsBefore};
ghost use Rattle.gf_token.specs.TokenSpelling.{Spells};
ghost use Rattle.gf_tree.specs.inner.Machine.{nothing};
ghost use Rattle.gf_tree.specs.inner.Machine.Position.{Format, NodeDue};
ghost use Rattle.gf_tree.specs.GameOf.{SpellsGame};
ghost use Rattle.gf_tree.specs.inner.ReaderState.{answer, content_of, Fails, Goes, IsRead};
ghost use Rattle.gf_tree.specs.inner.ReaderState.{KeepsNodes, ReadsHeading};

pub(crate) mod again;
mod heading;
mod nodes;
mod outcome;
pub(crate) mod readings;
pub(crate) mod receive;
mod set;
mod telling;

use crate::game::kept::NodeList;
use crate::game::listed_game::ListedGame;
use crate::game::outcomes::Outcomes;
use crate::game::parts::Parts;
use crate::game::sets::Sets;
use crate::hashers::Seed;
use crate::reader::receive::Receive;
use gf_token::{Cursor, Fault, Label, Span};
use std::alloc::Global;

/// Reads an extensive file.
#[derive(Drop)]
pub(crate) struct Reader<'a> {
    tokens: Cursor<'a>,
    title: Label<'a>,
    comment: Label<'a>,
    players: Vec<Label<'a>>,
    /// What the hashers of the maps begin with.
    seed: Seed<'a>,
    sets: Sets<'a>,
    outcomes: Outcomes<'a>,
    /// How many nodes are still to come.
    due: u128,
    /// How many sets and outcomes are used by the nodes that were told.
    told_sets: u32,
    told_outcomes: u32,
}

impl<'a> Reader<'a> {
    /// A reader before the first token of the input.
    fn new(alloc: Global, input: &'a [u8]) -> Reader<'a>
        ensures content { content_of result ≡ nothing }
        ensures input { result.tokens.input ≡ input.entry.now }
        ensures spelled { Spells 0 input.entry.now result.tokens.ahead }
        ensures due { result.due ≡ 1 }
        ensures few { length result.tokens.ahead < 2 ^ 64 }
        ensures untold { (result.told_sets ≡ 0) × (result.told_outcomes ≡ 0) }
    {
        let empty = Label::of_spelling(b"");
        Reader {
            tokens: Cursor::new(input),
            title: empty,
            comment: empty,
            players: Vec::new(alloc),
            seed: Seed::of(input),
            sets: Sets::new(alloc),
            outcomes: Outcomes::new(alloc),
            due: 1,
            told_sets: 0,
            told_outcomes: 0,
        }
    }

    /// Reads the heading: everything before the first node. Returns the place of its last token.
    fn begin(&mut self) -> Result<Span, Fault>
        requires { self.old.due ≡ 1 }
        ensures machine { Goes (answer Format self.old) result (answer NodeDue self.new) }
        ensures read { OnOk result (ReadsHeading self.old self.new) }
        ensures place { IfOk result (λ last. StandsBefore self.new.tokens last) }
    {
        self.heading()?;
        let brace = self.players()?;
        Ok(self.comment(brace))
    }

    /// Reads a file from its first token to its end, and tells it to a receiver.
    fn follow<R: Receive<'a>>(&mut self, to: &mut R) -> Result<(), Fault>
        requires content { content_of self.old ≡ nothing }
        requires spelled { Spells 0 self.old.tokens.input self.old.tokens.ahead }
        requires due { self.old.due ≡ 1 }
        requires few { length self.old.tokens.ahead < 2 ^ 64 }
        requires untold { (self.old.told_sets ≡ 0) × (self.old.told_outcomes ≡ 0) }
        requires to_untold { R.untold to.old }
        ensures { MatchResult result
            (λ _. IsRead (R.holds to.old) self.old.tokens.input (Ok self.new) to.new)
            (λ f. Fails f (answer Format self.old)) }
    {
        let last = self.begin()?;
        self.tell_heading(last, to)?;
        self.nodes(to)?;
        Ok(())
    }

    /// Reads a file to its end, and tells it to a receiver.
    pub(crate) fn read<R: Receive<'a>>(
        alloc: Global,
        input: &'a [u8],
        to: &mut R,
    ) -> Result<Reader<'a>, Fault>
        requires { R.untold to.old }
        ensures { IsRead (R.holds to.old) input.entry.now result to.new }
    {
        let mut reader = Reader::new(alloc, input);
        match reader.follow(to) {
            Ok(()) => Ok(reader),
            Err(fault) => Err(fault),
        }
    }

    /// The game of the file, which was read to its end and has these nodes.
    pub(crate) fn into_listed_game(self, nodes: NodeList<'a>) -> ListedGame<'a>
        requires { (bytes : List ℕ) × IsRead KeepsNodes bytes (Ok self) nodes }
        ensures { (bytes : List ℕ) → IsRead KeepsNodes bytes (Ok self.entry) nodes.entry
            → SpellsGame bytes result }
    {
        let parts = Parts {
            title: self.title,
            comment: self.comment,
            players: self.players,
            seed: self.seed,
            sets: self.sets,
            outcomes: self.outcomes,
        };
        ListedGame::new(parts, nodes)
    }
}
