//! What becomes of the contents of a file: a reader tells them to a receiver.

ghost use Rattle.std.specs.Prelude.{◌≡◌, []};

use crate::heading::Heading;
use gf_fraction::Fraction;
use std::alloc::{AllocError, Global};

/// What follows the heading of a file.
#[derive(Clone, Copy)]
pub enum Version {
    /// The payoffs at each profile.
    Payoffs,
    /// Outcomes, and the number of one for each profile.
    Outcomes,
}

/// What is told the heading of a file, then its payoffs, those of the profiles or of the outcomes
/// in turn, and then the numbers of outcomes.
pub(crate) trait Receive<'a> {
    ghost use Rattle.std.specs.Prelude.{OnErr, OnOk};
    ghost use Rattle.gf_nfg.specs.inner.ReaderState.{HasCounts};
    ghost use Rattle.gf_nfg.specs.inner.Told.{Told, told_heading, with_number, with_payoff};

    /// It was told nothing.
    ghost untold: { Self → Type 0 };

    /// What it holds of what it was told. The first argument is what it was before it was told
    /// anything.
    ghost holds: { Self → Self → Told → Type 0 };

    /// There is no room for a payoff.
    ghost payoffs_full: { Self → Type 0 };

    /// There is no room for the number of an outcome.
    ghost numbers_full: { Self → Type 0 };

    /// Takes the heading. No more payoffs, or numbers of outcomes, will follow than `expected`.
    fn heading(
        &mut self,
        heading: &Heading<'a>,
        version: Version,
        expected: usize,
    ) -> Result<(), AllocError>
        requires untold { untold self.old }
        requires counted { HasCounts heading.now }
        ensures { OnOk result (holds self.old self.new (told_heading version heading.now)) };

    /// Takes the next payoff.
    fn payoff(&mut self, payoff: Fraction) -> Result<(), AllocError>
        ensures told { OnOk result ((untold : Self) (told : Told) → holds untold self.old told
            → holds untold self.new (with_payoff told payoff)) }
        ensures full { OnErr result (payoffs_full self.old) };

    /// Takes the number of the outcome at the next profile.
    fn number(&mut self, number: u32) -> Result<(), AllocError>
        ensures told { OnOk result ((untold : Self) (told : Told) → holds untold self.old told
            → holds untold self.new (with_number told number)) }
        ensures full { OnErr result (numbers_full self.old) };
}

/// A receiver that keeps nothing.
#[derive(Drop)]
pub(crate) struct Unkept;

impl<'a> Receive<'a> for Unkept {
    ghost use Rattle.std.specs.Prelude.{⊤};

    ghost untold = { λ _. ⊤ };

    ghost holds = { λ _ _ _. ⊤ };

    ghost payoffs_full = { λ _. ⊥ };

    ghost numbers_full = { λ _. ⊥ };

    fn heading(
        &mut self,
        _heading: &Heading<'a>,
        _version: Version,
        _expected: usize,
    ) -> Result<(), AllocError> {
        Ok(())
    }

    #[inline(always)]
    fn payoff(&mut self, _payoff: Fraction) -> Result<(), AllocError> {
        Ok(())
    }

    #[inline(always)]
    fn number(&mut self, _number: u32) -> Result<(), AllocError> {
        Ok(())
    }
}

/// A receiver that keeps payoffs and numbers.
#[derive(Drop)]
pub(crate) struct Kept {
    /// Rows of one payoff for each player, one row after another: those of the profiles in turn,
    /// the first player's strategy fastest, or those of the outcomes.
    pub payoffs: Vec<Fraction>,
    /// For each profile the number of its outcome, from 1, or 0 if each player is paid zero; none
    /// in payoff version.
    pub numbers: Vec<u32>,
}

impl Kept {
    /// Nothing yet.
    pub(crate) fn new(alloc: Global) -> Kept
        ensures { (result.payoffs.items ≡ []) × (result.numbers.items ≡ []) }
    {
        Kept {
            payoffs: Vec::new(alloc),
            numbers: Vec::new(alloc),
        }
    }
}

impl<'a> Receive<'a> for Kept {
    ghost use Rattle.std.specs.Prelude.{◌≡◌, ◌≤◌, [], vec_capacity, vec_len};

    ghost untold = { λ kept. (kept.payoffs.items ≡ []) × (kept.numbers.items ≡ []) };

    ghost holds = { λ _ kept told. (kept.payoffs.items ≡ told.payoffs)
        × (kept.numbers.items ≡ told.numbers) };

    ghost payoffs_full = { λ kept. vec_capacity kept.payoffs ≤ vec_len kept.payoffs };

    ghost numbers_full = { λ kept. vec_capacity kept.numbers ≤ vec_len kept.numbers };

    fn heading(
        &mut self,
        _heading: &Heading<'a>,
        version: Version,
        expected: usize,
    ) -> Result<(), AllocError> {
        match version {
            Version::Payoffs => self.payoffs.reserve(expected)?,
            Version::Outcomes => self.numbers.reserve(expected)?,
        }
        Ok(())
    }

    #[inline(always)]
    fn payoff(&mut self, payoff: Fraction) -> Result<(), AllocError> {
        self.payoffs.push(payoff)?;
        Ok(())
    }

    #[inline(always)]
    fn number(&mut self, number: u32) -> Result<(), AllocError> {
        self.numbers.push(number)?;
        Ok(())
    }
}
