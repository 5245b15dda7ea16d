//! Places in a file, and why a file is refused there.

ghost use Rattle.std.specs.Prelude.{◌≡◌};
ghost use Rattle.gf_token.specs.Code.{code_of};
ghost use Rattle.gf_token.specs.NumberWhy.{why_of};
ghost use Rattle.gf_token.specs.declared.fault.Why.TheVariants.{Memory};

use gf_fraction::NumberFault;
use std::alloc::{AllocError, AllocFailed};

/// A part of an input: its first byte, and one past its last. Bytes are counted from 0.
///
/// At the end of an input, both are its length.
#[derive(Clone, Copy, Debug, PartialEq, Eq)]
pub struct Span {
    pub start: usize,
    pub end: usize,
}

/// What was expected at a place where a file has something else.
#[derive(Clone, Copy, Debug, PartialEq, Eq)]
pub enum What {
    /// The name of the format, `NFG` or `EFG`.
    Format,
    /// The version of the format, `1` for `NFG` and `2` for `EFG`.
    Version,
    /// The letter `R` or `D`.
    Letter,
    /// A text.
    Text,
    /// An opening brace.
    Opening,
    /// A closing brace.
    Closing,
    /// A number.
    Number,
    /// A count, or the number of a player, an information set or an outcome.
    Index,
    /// The strategies' counts or lists.
    Strategies,
    /// The letter of a node, `c`, `p` or `t`.
    Node,
    /// The end of the file.
    End,
}

/// Why a file is refused, and the place that its [`Fault`] names (this project's profile).
#[derive(Clone, Copy, Debug, PartialEq, Eq)]
pub enum Why {
    /// E1: the file is longer than the program's limit; at the limit.
    TooLong,
    /// E2: a text is unterminated; at its opening quote, one byte.
    Unterminated,
    /// E3: a token of the wrong kind, or the end; at the token or the end.
    Expected(What),
    /// E4: a bare token that does not spell a number, where one is due; at the token.
    NotANumber,
    /// E5: a rational number whose denominator is zero; at the token.
    ZeroDenominator,
    /// E6: a number that needs more than 127 bits, or has too many digits after its point; at the
    /// token.
    NumberTooLarge,
    /// E7: a bare token that is not an index, where one is due, or that is zero, where a positive
    /// one is due; at the token.
    BadIndex,
    /// E8: a player's number above the number of players, at the number; or a personal node in a
    /// game without players, at its letter.
    UnknownPlayer,
    /// E9: the first use of an information set or outcome, with no description; at the token after
    /// its number, or the end.
    NotDescribed,
    /// E10: a repeated description that differs from the first; at the first token that does.
    Mismatch,
    /// E11: a probability below zero; at the number.
    NegativeProbability,
    /// E12: the probabilities of an information set so far add up to more than one; at the number.
    SumAboveOne,
    /// E13: the probabilities of an information set add up to less than one; at the closing brace.
    SumBelowOne,
    /// E14: the sum of the probabilities so far cannot be worked out within 127 bits; at the
    /// number.
    SumOverflow,
    /// E15: an empty list of actions or of a player's strategies; at the closing brace.
    NoEntry,
    /// E16: an outcome number above the number of outcomes of a strategic file; at the number.
    UnknownOutcome,
    /// E18: more profiles than a table may have; at the count, or the closing brace of the labels.
    TooManyProfiles,
    /// E19: memory ran out; at the token that was read, or the end. Up to there, there was nothing
    /// else to refuse.
    Memory,
}

impl Why {
    /// The number that users see after the `E`: 1 to 16, 18 or 19.
    pub fn code(&self) -> u8
        ensures { result ≡ code_of self.now }
    {
        match self {
            Why::TooLong => 1,
            Why::Unterminated => 2,
            Why::Expected(_) => 3,
            Why::NotANumber => 4,
            Why::ZeroDenominator => 5,
            Why::NumberTooLarge => 6,
            Why::BadIndex => 7,
            Why::UnknownPlayer => 8,
            Why::NotDescribed => 9,
            Why::Mismatch => 10,
            Why::NegativeProbability => 11,
            Why::SumAboveOne => 12,
            Why::SumBelowOne => 13,
            Why::SumOverflow => 14,
            Why::NoEntry => 15,
            Why::UnknownOutcome => 16,
            Why::TooManyProfiles => 18,
            Why::Memory => 19,
        }
    }
}

/// A bare token that spells no number is refused for the reason that `Fraction::read` gives.
impl From<NumberFault> for Why {
    ghost from_gives = { λ fault why. why ≡ why_of fault };

    fn from(fault: NumberFault) -> Why {
        match fault {
            NumberFault::NotANumber => Why::NotANumber,
            NumberFault::ZeroDenominator => Why::ZeroDenominator,
            NumberFault::TooLarge => Why::NumberTooLarge,
        }
    }
}

impl From<AllocError> for Why {
    ghost from_gives = { λ _ why. why ≡ Memory };

    fn from(_: AllocError) -> Why {
        Why::Memory
    }
}

impl<T: Drop> From<AllocFailed<T>> for Why {
    ghost from_gives = { λ _ why. why ≡ Memory };

    fn from(_: AllocFailed<T>) -> Why {
        Why::Memory
    }
}

/// The refusal of a file: the place of the token that is refused, or the end, and why.
#[derive(Clone, Copy, Debug, PartialEq, Eq)]
pub struct Fault {
    pub span: Span,
    pub why: Why,
}

impl Fault {
    /// The refusal of the token that stands at `span`.
    // No edit: it puts parts together.
    pub fn at(span: Span, why: Why) -> Fault
        ensures { result ≡ record { span = span; why = why } }
    {
        Fault { span, why }
    }

    /// The refusal at the end of an input of `len` bytes: its place begins and ends there.
    // No edit: it puts parts together.
    pub fn at_end(len: usize, why: Why) -> Fault
        ensures { result ≡ record { span = record { start = len; end = len }; why = why } }
    {
        let end = Span {
            start: len,
            end: len,
        };
        Fault::at(end, why)
    }
}
