//! The body of a strategic file: the payoffs at each profile, or outcomes and the number of one at
//! each profile.
//!
//! The numbers at the end of a file are most of what it holds, so the functions that read one are
//! `inline(always)`.

ghost use Rattle.std.specs.Prelude.{◌≡◌, ◌<◌, ◌≤◌, ◌+◌, ◌-◌, ℕ, Ok, length, true, false};
ghost use Rattle.std.specs.Prelude.{IfErr, MatchResult, OnOk};
ghost use Rattle.gf_nfg.specs.inner.Heard.{Fails, heard};
ghost use Rattle.gf_nfg.specs.inner.Machine.{Content, at};
ghost use Rattle.gf_nfg.specs.Position.Position.{BracedPayoff, FlatPayoffs, InOutcomes};
ghost use Rattle.gf_nfg.specs.Position.Position.{OutcomeName, OutcomeNumbers};
ghost use Rattle.gf_nfg.specs.inner.ReaderState.{GoesTo, IsCounted, StandsAt, Telling};
ghost use Rattle.gf_nfg.specs.declared.receive.Version.TheVariants as version;

use crate::receive::Receive;
use gf_token::{Cursor, Fault, What, Why};

/// Reads a payoff, and tells it.
#[inline(always)]
fn payoff<'a, R: Receive<'a>>(tokens: &mut Cursor<'a>, to: &mut R) -> Result<(), Fault>
    ensures flat { (b : Telling R) (due : ℕ) → 0 < due → GoesTo b result
        (StandsAt R.holds b (FlatPayoffs due) tokens.old to.old)
        (StandsAt R.holds b (FlatPayoffs (due - 1)) tokens.new to.new) }
    ensures braced { (b : Telling R) (outcomes due : ℕ) → 0 < due → GoesTo b result
        (StandsAt R.holds b (BracedPayoff false outcomes due) tokens.old to.old)
        (StandsAt R.holds b (BracedPayoff true outcomes (due - 1)) tokens.new to.new) }
    ensures shorter { OnOk result (length tokens.new.ahead ≤ length tokens.old.ahead) }

    // Memory is refused only if the receiver had no room.
    ensures full { IfErr result (λ f. f.why ≡ Why.Memory → R.payoffs_full to.old) }
{
    let Some((word, number)) = tokens.number() else {
        return Err(tokens.refusal(Why::Expected(What::Number)));
    };
    match number {
        Ok(payoff) => {
            let Ok(()) = to.payoff(payoff) else {
                return Err(Fault::at(word.span, Why::Memory));
            };
            Ok(())
        }
        Err(cause) => Err(Fault::at(word.span, Why::from(cause))),
    }
}

/// Reads this many payoffs.
pub(super) fn payoffs<'a, R: Receive<'a>>(
    tokens: &mut Cursor<'a>,
    mut due: u128,
    to: &mut R,
) -> Result<(), Fault>
    ensures { (b : Telling R) → GoesTo b result
        (StandsAt R.holds b (FlatPayoffs due) tokens.old to.old)
        (StandsAt R.holds b (FlatPayoffs 0) tokens.new to.new) }
{
    while due > 0 {
        payoff(tokens, to)?;
        due -= 1;
    }
    Ok(())
}

/// Passes the one comma that may follow a payoff in braces.
#[inline(always)]
fn comma(tokens: &mut Cursor<'_>)
    ensures machine { (c : Content) (outcomes due : ℕ)
        → heard (at (BracedPayoff true outcomes due) c) tokens.old
        ≡ heard (at (BracedPayoff false outcomes due) c) tokens.new }
    ensures shorter { length tokens.new.ahead ≤ length tokens.old.ahead }
{
    tokens.comma();
}

/// Reads this many payoffs in braces.
fn braced_payoffs<'a, R: Receive<'a>>(
    tokens: &mut Cursor<'a>,
    mut due: usize,
    to: &mut R,
) -> Result<(), Fault>
    ensures told { (b : Telling R) (outcomes : ℕ) → GoesTo b result
        (StandsAt R.holds b (BracedPayoff false outcomes due) tokens.old to.old)
        (StandsAt R.holds b (BracedPayoff false outcomes 0) tokens.new to.new) }
    ensures shorter { OnOk result (length tokens.new.ahead ≤ length tokens.old.ahead) }
{
    while due > 0 {
        payoff(tokens, to)?;
        comma(tokens);
        due -= 1;
    }
    Ok(())
}

/// Reads an outcome, after its opening brace.
fn outcome<'a, R: Receive<'a>>(
    tokens: &mut Cursor<'a>,
    players: usize,
    to: &mut R,
) -> Result<(), Fault>
    ensures told { (b : Telling R) (outcomes : ℕ) → length b.heading.players.items ≡ players
        → GoesTo b result
        (StandsAt R.holds b (OutcomeName outcomes) tokens.old to.old)
        (StandsAt R.holds b (InOutcomes (outcomes + 1)) tokens.new to.new) }
    ensures shorter { OnOk result (length tokens.new.ahead ≤ length tokens.old.ahead) }
{
    let Some(_) = tokens.text() else {
        return Err(tokens.refusal(Why::Expected(What::Text)));
    };
    braced_payoffs(tokens, players, to)?;
    let Some(_) = tokens.closing() else {
        return Err(tokens.refusal(Why::Expected(What::Closing)));
    };
    Ok(())
}

/// Reads the outcomes, after their opening brace. Returns how many there are, or `u32::MAX` if
/// there are more: no index is greater.
pub(super) fn outcomes<'a, R: Receive<'a>>(
    tokens: &mut Cursor<'a>,
    players: usize,
    to: &mut R,
) -> Result<u32, Fault>
    ensures { (b : Telling R) (profiles : ℕ) → length b.heading.players.items ≡ players
        → b.heading.profiles.count ≡ profiles
        → StandsAt R.holds b (InOutcomes 0) tokens.old to.old → MatchResult result
        (λ outcomes. (n : ℕ) × IsCounted n outcomes
        × StandsAt R.holds b (OutcomeNumbers n profiles) tokens.new to.new)
        (λ f. Fails f b.whole) }
{
    let mut outcomes: u32 = 0;
    while let Some(_) = tokens.opening() {
        outcome(tokens, players, to)?;
        outcomes = outcomes.saturating_add(1);
    }
    let Some(_) = tokens.closing() else {
        return Err(tokens.refusal(Why::Expected(What::Opening)));
    };
    Ok(outcomes)
}

/// Reads the number of one of this many outcomes, and tells it.
#[tactic(auto, using(gf_token::proofs::Offered::index_answers))]
#[inline(always)]
fn number<'a, R: Receive<'a>>(
    tokens: &mut Cursor<'a>,
    outcomes: u32,
    to: &mut R,
) -> Result<(), Fault>
    ensures told { (b : Telling R) (n due : ℕ) → IsCounted n outcomes
        → b.version ≡ version.Outcomes → 0 < due → GoesTo b result
        (StandsAt R.holds b (OutcomeNumbers n due) tokens.old to.old)
        (StandsAt R.holds b (OutcomeNumbers n (due - 1)) tokens.new to.new) }

    // Memory is refused only if the receiver had no room.
    ensures full { IfErr result (λ f. f.why ≡ Why.Memory → R.numbers_full to.old) }
{
    let Some((word, index)) = tokens.index() else {
        return Err(tokens.refusal(Why::Expected(What::Index)));
    };
    let Some(number) = index else {
        return Err(Fault::at(word.span, Why::BadIndex));
    };
    if number > outcomes {
        return Err(Fault::at(word.span, Why::UnknownOutcome));
    }
    let Ok(()) = to.number(number) else {
        return Err(Fault::at(word.span, Why::Memory));
    };
    Ok(())
}

/// Reads the numbers of outcomes at this many profiles, for this many outcomes.
pub(super) fn numbers<'a, R: Receive<'a>>(
    tokens: &mut Cursor<'a>,
    mut due: u32,
    outcomes: u32,
    to: &mut R,
) -> Result<(), Fault>
    ensures { (b : Telling R) (n : ℕ) → IsCounted n outcomes → b.version ≡ version.Outcomes
        → GoesTo b result
        (StandsAt R.holds b (OutcomeNumbers n due) tokens.old to.old)
        (StandsAt R.holds b (OutcomeNumbers n 0) tokens.new to.new) }
{
    while due > 0 {
        number(tokens, outcomes, to)?;
        due -= 1;
    }
    Ok(())
}

/// Reads the end.
pub(super) fn end(tokens: &mut Cursor<'_>) -> Result<(), Fault>
    ensures flat { (c : Content) → MatchResult result
        (λ _. (heard (at (FlatPayoffs 0) c) tokens.old).machine ≡ Ok c)
        (λ f. Fails f (heard (at (FlatPayoffs 0) c) tokens.old)) }
    ensures chosen { (c : Content) (outcomes : ℕ) → MatchResult result
        (λ _. (heard (at (OutcomeNumbers outcomes 0) c) tokens.old).machine ≡ Ok c)
        (λ f. Fails f (heard (at (OutcomeNumbers outcomes 0) c) tokens.old)) }
{
    match tokens.next() {
        Ok(Some(token)) => Err(Fault::at(token.span, Why::Expected(What::End))),
        Ok(None) => Ok(()),
        Err(broken) => Err(broken),
    }
}
