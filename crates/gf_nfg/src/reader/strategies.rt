//! The strategies of a strategic file: a count or a list of labels for each player.

ghost use Rattle.std.specs.Prelude.{◌≡◌, ◌<◌, ◌≤◌, ◌-◌, ◌*◌, ℕ, false, length, IfErr, IfOk, OnOk};
ghost use Rattle.std.specs.Prelude.{vec_capacity, vec_len};
ghost use Rattle.gf_token.specs.Next.{is_opening, starts};
ghost use Rattle.gf_token.specs.Offered.{positive};
ghost use Rattle.gf_token.specs.Remaining.{StandsBefore};
ghost use Rattle.gf_nfg.specs.inner.Heard.{Goes};
ghost use Rattle.gf_nfg.specs.Position.Position.{AfterStrategies, BeforeList, BeforeStrategies};
ghost use Rattle.gf_nfg.specs.Position.Position.{Counts, FirstStrategies, InList};
ghost use Rattle.gf_nfg.specs.inner.ReaderState.{HasMore, answer, settling};

use super::{Reader, keep};
use gf_token::{Fault, Span, What, Why};

/// The count that an index is: it is above zero.
#[inline(always)]
fn count_of(index: Option<u32>) -> Option<u32>
    ensures { result ≡ positive index }
{
    match index {
        Some(count) if count > 0 => Some(count),
        _ => None,
    }
}

impl<'a> Reader<'a> {
    /// The next player has this many strategies, as the token at this place says.
    fn settle(&mut self, strategies: usize, stands: Span) -> Result<(), Fault>
        requires some { 0 < strategies }
        requires place { StandsBefore self.old.tokens stands }
        ensures counts { (due : ℕ) → Goes (settling (Counts due) strategies stands self.old) result
            (answer (Counts due) self.new) }
        ensures lists { (due : ℕ) → Goes (settling (BeforeList due) strategies stands self.old)
            result (answer (BeforeList due) self.new) }

        ensures counted { OnOk result (HasMore 1 self.old.heading self.new.heading) }

        // Memory is refused only if there was no room.
        ensures full { IfErr result (λ f. f.why ≡ Why.Memory
            → vec_capacity self.old.heading.counts ≤ vec_len self.old.heading.counts) }
    {
        let Some(profiles) = self.heading.profiles.times(strategies) else {
            return Err(Fault::at(stands, Why::TooManyProfiles));
        };
        let Ok(()) = self.heading.counts.push(strategies as u32) else {
            return Err(Fault::at(stands, Why::Memory));
        };
        self.heading.profiles = profiles;
        Ok(())
    }

    /// Reads a count that is due.
    #[tactic(auto, using(gf_token::proofs::Offered::index_answers))]
    fn count(&mut self, due: What) -> Result<(), Fault>
        ensures first { (left : ℕ) → 0 < left → due ≡ What.Strategies
            → starts is_opening self.old.tokens.ahead ≡ false
            → Goes (answer (FirstStrategies left) self.old) result
            (answer (Counts (left - 1)) self.new) }
        ensures later { (left : ℕ) → 0 < left → due ≡ What.Index
            → Goes (answer (Counts left) self.old) result (answer (Counts (left - 1)) self.new) }
        ensures counted { OnOk result (HasMore 1 self.old.heading self.new.heading) }
    {
        let Some((word, index)) = self.tokens.index() else {
            return Err(self.tokens.refusal(Why::Expected(due)));
        };
        let Some(count) = count_of(index) else {
            return Err(Fault::at(word.span, Why::BadIndex));
        };
        self.settle(count as usize, word.span)
    }

    /// Reads the rest of a list of labels, after its opening brace.
    fn list(&mut self) -> Result<(), Fault>
        ensures machine { (left : ℕ) → Goes (answer (InList left 0) self.old) result
            (answer (BeforeList left) self.new) }
        ensures counted { OnOk result (HasMore 1 self.old.heading self.new.heading) }
    {
        let mut strategies: usize = 0;
        while let Some(strategy) = self.tokens.text() {
            keep(&mut self.heading.labels, strategy)?;
            strategies += 1;
        }
        let Some(brace) = self.tokens.closing() else {
            return Err(self.tokens.refusal(Why::Expected(What::Text)));
        };
        if strategies == 0 {
            return Err(Fault::at(brace, Why::NoEntry));
        }
        self.settle(strategies, brace)
    }

    /// Reads this many counts, as many as are still due.
    fn counts(&mut self, mut due: usize) -> Result<(), Fault>
        ensures machine { Goes (answer (Counts due) self.old) result (answer (Counts 0) self.new) }
        ensures counted { OnOk result (HasMore due self.old.heading self.new.heading) }
    {
        while due > 0 {
            self.count(What::Index)?;
            due -= 1;
        }
        Ok(())
    }

    /// Reads this many lists of labels, as many as are still due.
    fn lists(&mut self, mut due: usize) -> Result<(), Fault>
        ensures machine { Goes (answer (BeforeList due) self.old) result
            (answer (BeforeList 0) self.new) }
        ensures counted { OnOk result (HasMore due self.old.heading self.new.heading) }
    {
        while due > 0 {
            let Some(_) = self.tokens.opening() else {
                return Err(self.tokens.refusal(Why::Expected(What::Opening)));
            };
            self.list()?;
            due -= 1;
        }
        Ok(())
    }

    /// Reads the strategies of the players, if there are players.
    #[tactic(auto, using(crate::proofs::lemmas::runs::ReaderSteps::first_steps))]
    fn counts_or_lists(&mut self) -> Result<(), Fault>
        ensures machine { Goes
            (answer (FirstStrategies (length self.old.heading.players.items)) self.old) result
            (answer (FirstStrategies 0) self.new) }
        ensures counted { OnOk result (HasMore (length self.old.heading.players.items)
            self.old.heading self.new.heading) }
    {
        let players = self.heading.players.len();
        if players == 0 {
            return Ok(());
        }
        if self.tokens.opening().is_some() {
            self.list()?;
            return self.lists(players - 1);
        }
        self.count(What::Strategies)?;
        self.counts(players - 1)
    }

    /// Reads the strategies of the players, in braces. Returns the place of the closing brace.
    pub(super) fn strategies(&mut self) -> Result<Span, Fault>
        ensures machine { Goes (answer BeforeStrategies self.old) result (answer (AfterStrategies
            (length self.new.heading.players.items * self.new.heading.profiles.count)) self.new) }
        ensures counted { OnOk result (HasMore (length self.old.heading.players.items)
            self.old.heading self.new.heading) }
        ensures place { IfOk result (λ brace. StandsBefore self.new.tokens brace) }
    {
        let Some(_) = self.tokens.opening() else {
            return Err(self.tokens.refusal(Why::Expected(What::Opening)));
        };
        self.counts_or_lists()?;
        let Some(brace) = self.tokens.closing() else {
            return Err(self.tokens.refusal(Why::Expected(What::Closing)));
        };
        Ok(brace)
    }
}
