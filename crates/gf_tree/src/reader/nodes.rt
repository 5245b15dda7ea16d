//! The nodes of an extensive file, in prefix order.

ghost use Rattle.std.specs.Prelude.{◌≡◌, ◌<◌, ◌^◌, ℕ, List, [], Ok, length, OnOk, MatchResult};
ghost use Rattle.gf_tree.specs.inner.Machine.Position.{ChanceName, NodeDue, PersonalName};
ghost use Rattle.gf_tree.specs.inner.Machine.Position.{PlayerNumber, SetNumber, TerminalName};
ghost use Rattle.gf_tree.specs.inner.ReaderState.{answer, content_of, Fails, GoesTelling};
ghost use Rattle.gf_tree.specs.inner.ReaderState.{HasReadAll, ReadsTokens, heading_read};

use super::Reader;
use crate::game::kept::child_count;
use crate::reader::readings;
use crate::reader::receive::Receive;
use gf_token::{Fault, What, Why};

impl<'a> Reader<'a> {
    /// Reads a node of chance, after its letter. Returns the position of its set.
    #[inline(always)]
    fn chance_node<R: Receive<'a>>(&mut self, to: &mut R) -> Result<u32, Fault>
        ensures { GoesTelling R.holds result (λ set. set) (answer ChanceName self.old)
            self.old self.new to.old to.new }
    {
        let Some(name) = self.tokens.text() else {
            return Err(self.tokens.refusal(Why::Expected(What::Text)));
        };
        let place = self.set(0)?;
        prove!((place as usize) < self.sets.len());
        self.outcome(name.label, place + 1, to)?;
        Ok(place + 1)
    }

    /// Reads the number of a player.
    #[tactic(auto, using(gf_token::proofs::Offered::index_answers))]
    #[inline(always)]
    fn player(&mut self) -> Result<u32, Fault>
        ensures machine { (node : List ℕ) → MatchResult result
            (λ player.
            answer (PlayerNumber node) self.old ≡ answer (SetNumber node player) self.new)
            (λ f. Fails f (answer (PlayerNumber node) self.old)) }
        ensures read { OnOk result (ReadsTokens self.old self.new) }
    {
        let Some((word, index)) = self.tokens.index() else {
            return Err(self.tokens.refusal(Why::Expected(What::Index)));
        };
        let Some(number) = readings::positive(index) else {
            return Err(Fault::at(word.span, Why::BadIndex));
        };
        if number as usize > self.players.len() {
            return Err(Fault::at(word.span, Why::UnknownPlayer));
        }
        Ok(number)
    }

    /// Reads a node of a player, after its letter. Returns the position of its set.
    #[inline(always)]
    fn personal_node<R: Receive<'a>>(&mut self, to: &mut R) -> Result<u32, Fault>
        ensures { GoesTelling R.holds result (λ set. set) (answer PersonalName self.old)
            self.old self.new to.old to.new }
    {
        let Some(name) = self.tokens.text() else {
            return Err(self.tokens.refusal(Why::Expected(What::Text)));
        };
        let player = self.player()?;
        let place = self.set(player)?;
        prove!((place as usize) < self.sets.len());
        self.outcome(name.label, place + 1, to)?;
        Ok(place + 1)
    }

    /// Reads a terminal node, after its letter. Returns 0, since it has no set.
    #[inline(always)]
    fn terminal_node<R: Receive<'a>>(&mut self, to: &mut R) -> Result<u32, Fault>
        ensures { GoesTelling R.holds result (λ set. set) (answer TerminalName self.old)
            self.old self.new to.old to.new }
    {
        let Some(name) = self.tokens.text() else {
            return Err(self.tokens.refusal(Why::Expected(What::Text)));
        };
        self.outcome(name.label, 0, to)?;
        Ok(0)
    }

    /// Reads a node, which is due. Returns the position of its set, or 0 if it has none.
    #[inline(always)]
    fn node<R: Receive<'a>>(&mut self, to: &mut R) -> Result<u32, Fault>
        requires { 0 < self.old.due }
        ensures machine { GoesTelling R.holds result (λ set. set) (answer NodeDue self.old)
            self.old self.new to.old to.new }
        ensures shorter { OnOk result
            (length self.new.tokens.ahead < length self.old.tokens.ahead) }
    {
        let Some(letter) = self.tokens.bare() else {
            return Err(self.tokens.refusal(Why::Expected(What::Node)));
        };
        if letter.bytes == b"c".as_slice() {
            return self.chance_node(to);
        }
        if letter.bytes == b"p".as_slice() {
            if self.players.is_empty() {
                return Err(Fault::at(letter.span, Why::UnknownPlayer));
            }
            return self.personal_node(to);
        }
        if letter.bytes == b"t".as_slice() {
            return self.terminal_node(to);
        }
        Err(Fault::at(letter.span, Why::Expected(What::Node)))
    }

    /// Reads the end, after the last node.
    fn finish(&mut self) -> Result<(), Fault>
        requires { self.old.due ≡ 0 }
        ensures machine { MatchResult result
            (λ _. (answer NodeDue self.old).machine ≡ Ok (content_of self.old))
            (λ f. Fails f (answer NodeDue self.old)) }
        ensures kept { self.new ≡ record self.old { tokens = self.new.tokens } }
    {
        match self.tokens.next() {
            Ok(Some(token)) => Err(Fault::at(token.span, Why::Expected(What::End))),
            Ok(None) => Ok(()),
            Err(broken) => Err(broken),
        }
    }

    /// Reads the nodes, to the end, and tells each.
    pub(super) fn nodes<R: Receive<'a>>(&mut self, to: &mut R) -> Result<(), Fault>
        requires due { self.old.due ≡ 1 }
        requires few { length self.old.tokens.ahead < 2 ^ 64 }
        requires untold { (self.old.told_sets ≡ 0) × (self.old.told_outcomes ≡ 0) }
        ensures machine { (untold : R) → R.holds untold to.old (heading_read self.old) []
            → MatchResult result
            (λ _. HasReadAll (λ r told. R.holds untold r (heading_read self.old) told)
            (answer NodeDue self.old) self.new to.new)
            (λ f. Fails f (answer NodeDue self.old)) }
    {
        while self.due > 0 {
            let set = self.node(to)?;
            let children = child_count(&self.sets, set);
            self.due = self.due - 1 + children as u128;
        }
        self.finish()
    }
}
