//! The reader of strategic files, which asks for the token that is due (Gambit documentation, "Game
//! representation formats").

ghost use Rattle.std.specs.Prelude.{◌≡◌, ◌≤◌, ◌∷◌, ◌++◌, [], ◌*◌, length, min};
ghost use Rattle.std.specs.Prelude.{IfOk, MatchResult, OnOk, vec_capacity, vec_len};
ghost use Rattle.gf_token.specs.Label.{label_of};
ghost use Rattle.gf_token.specs.Remaining.{StandsBefore};
ghost use Rattle.gf_token.specs.TokenSpelling.{Spells};
ghost use Rattle.gf_nfg.specs.inner.Heard.{Fails};
ghost use Rattle.gf_nfg.specs.inner.Machine.{nothing};
ghost use Rattle.gf_nfg.specs.Position.Position.{FlatPayoffs, Format, InOutcomes};
ghost use Rattle.gf_nfg.specs.inner.ReaderState.{HasCounts, HasToldAll, StandsAt, Telling, answer};
ghost use Rattle.gf_nfg.specs.inner.ReaderState.{body_answer, content_in, labels_of};
ghost use Rattle.gf_nfg.specs.inner.Told.{told_heading};

mod body;
mod heading;
mod strategies;

use crate::heading::Heading;
use crate::receive::{Receive, Version};
use gf_token::{Cursor, Fault, Label, Span, TextToken, Why};
use std::alloc::Global;

/// Reads a strategic file.
#[derive(Drop)]
pub struct Reader<'a> {
    tokens: Cursor<'a>,
    /// What was read of it so far.
    pub(crate) heading: Heading<'a>,
    /// The input cannot hold more numbers than this.
    room: usize,
}

/// Keeps the label of a text.
#[inline(always)]
fn keep<'a>(labels: &mut Vec<Label<'a>>, text: TextToken<'a>) -> Result<(), Fault>
    // Memory is refused only if there was no room.
    ensures { MatchResult result
        (λ _. labels_of labels.new.items
        ≡ labels_of labels.old.items ++ label_of text.entry.label ∷ [])
        (λ f. (f ≡ record { span = text.entry.span; why = Why.Memory })
        × (vec_capacity labels.old ≤ vec_len labels.old)) }
{
    let Ok(()) = labels.push(text.label) else {
        return Err(Fault::at(text.span, Why::Memory));
    };
    Ok(())
}

impl<'a> Reader<'a> {
    /// A reader before the first token of the input.
    pub fn new(alloc: Global, input: &'a [u8]) -> Reader<'a>
        ensures content { content_in result.heading ≡ nothing }
        ensures input { result.tokens.input ≡ input.entry.now }
        ensures spelled { Spells 0 input.entry.now result.tokens.ahead }
    {
        Reader {
            tokens: Cursor::new(input),
            heading: Heading::new(alloc),
            room: input.len() / 2 + 1,
        }
    }

    /// How many of this many numbers the input can hold.
    fn expected(&self, due: u128) -> usize
        ensures { result ≡ min due self.now.room }
    {
        due.min(self.room as u128) as usize
    }

    /// How many payoffs the players have at all profiles together.
    fn all_payoffs(&self) -> u128
        ensures { result
            ≡ length self.now.heading.players.items * self.now.heading.profiles.count }
    {
        self.heading.players.len() as u128 * u128::from(self.heading.profiles.count)
    }

    /// Reads everything before the payoffs or the outcomes. Returns which of them follow, and the
    /// place of the last token.
    fn begin(&mut self) -> Result<(Version, Span), Fault>
        requires { self.old.heading.counts.items ≡ [] }
        ensures machine { MatchResult result
            (λ begun. answer Format self.old ≡ body_answer begun.0 self.new)
            (λ f. Fails f (answer Format self.old)) }
        ensures counted { OnOk result (HasCounts self.new.heading) }
        ensures place { IfOk result (λ begun. StandsBefore self.new.tokens begun.1) }
    {
        self.heading()?;
        self.players()?;
        let brace = self.strategies()?;
        let last = self.comment(brace);
        Ok(self.version(last))
    }

    /// Tells the heading, whose last token is at this place.
    #[tactic(auto, using(crate::proofs::lemmas::runs::ReaderSteps::memory_after))]
    fn tell_heading<R: Receive<'a>>(
        &self,
        version: Version,
        last: Span,
        to: &mut R,
    ) -> Result<(), Fault>
        requires untold { R.untold to.old }
        requires counted { HasCounts self.now.heading }
        requires place { StandsBefore self.now.tokens last }
        ensures { MatchResult result
            (λ _. R.holds to.old to.new (told_heading version self.now.heading))
            (λ f. Fails f (body_answer version self.now)) }
    {
        let due = match version {
            Version::Payoffs => self.all_payoffs(),
            Version::Outcomes => u128::from(self.heading.profiles.count),
        };
        let Ok(()) = to.heading(&self.heading, version, self.expected(due)) else {
            return Err(Fault::at(last, Why::Memory));
        };
        Ok(())
    }

    /// Reads and tells the payoffs of the players at each profile, to the end.
    fn tell_payoffs<R: Receive<'a>>(&mut self, to: &mut R) -> Result<(), Fault>
        ensures { (b : Telling R) → StandsAt R.holds b (FlatPayoffs
            (length self.old.heading.players.items * self.old.heading.profiles.count))
            self.old.tokens to.old
            → b.heading ≡ self.old.heading → MatchResult result
            (λ _. HasToldAll (R.holds b.untold) b.whole self.new.heading to.new)
            (λ f. Fails f b.whole) }
    {
        let due = self.all_payoffs();
        body::payoffs(&mut self.tokens, due, to)?;
        body::end(&mut self.tokens)
    }

    /// Reads and tells the outcomes, after their opening brace, and the number of one at each
    /// profile, to the end.
    fn tell_outcomes<R: Receive<'a>>(&mut self, to: &mut R) -> Result<(), Fault>
        ensures { (b : Telling R) → b.version ≡ Version.Outcomes
            → StandsAt R.holds b (InOutcomes 0) self.old.tokens to.old
            → b.heading ≡ self.old.heading → MatchResult result
            (λ _. HasToldAll (R.holds b.untold) b.whole self.new.heading to.new)
            (λ f. Fails f b.whole) }
    {
        let outcomes = body::outcomes(&mut self.tokens, self.heading.players.len(), to)?;
        body::numbers(&mut self.tokens, self.heading.profiles.count, outcomes, to)?;
        body::end(&mut self.tokens)
    }

    /// Reads the file to its end, and tells it to a receiver.
    pub(crate) fn tell<R: Receive<'a>>(&mut self, to: &mut R) -> Result<(), Fault>
        requires untold { R.untold to.old }
        requires uncounted { self.old.heading.counts.items ≡ [] }
        ensures { MatchResult result
            (λ _. HasToldAll (R.holds to.old) (answer Format self.old) self.new.heading to.new)
            (λ f. Fails f (answer Format self.old)) }
    {
        let (version, last) = self.begin()?;
        self.tell_heading(version, last, to)?;
        match version {
            Version::Payoffs => self.tell_payoffs(to),
            Version::Outcomes => self.tell_outcomes(to),
        }
    }
}
