//! The mistake by which a file is refused, as far as what stands around the refusal shows it.

use crate::context::Context;
use crate::place::{Place, place_after};
use crate::spelling::{Spelling, of_format, of_small_letter, of_spelling};
use gf_token::{Kind, Token, What, Why};

/// A text that was meant to end elsewhere.
#[derive(Clone, Copy)]
pub enum Quote {
    /// A backslash escapes the quotation mark that was meant to end the text that begins here.
    Escaped(Place),
    /// The text that begins here and has so many lines goes on up to the quotation mark of another.
    Open(Place, usize),
    /// A quotation mark that opens a text and is never closed.
    Lone,
    /// A quotation mark that was meant to stand in a text, perhaps, and ends it.
    Inner,
}

/// A mistake that people make when they write game files.
#[derive(Clone, Copy)]
pub enum Mistake {
    Spelling(Spelling),
    Quote(Quote),
    /// A set or an outcome that is described without its name.
    NoName,
    /// A node without its name.
    NoNodeName,
    /// A description of outcome 0.
    NullOutcome,
    SecondComment,
    /// Something else where the tree begins.
    NoRoot,
    /// Something else where a subtree is due.
    NoSubtree,
    /// The end where a subtree is due.
    TreeEnds,
    /// Something more after a whole game.
    Complete,
    /// The body of a strategic file has fewer payoffs than it needs.
    FewPayoffs {
        players: usize,
        profiles: usize,
        found: usize,
    },
    /// The body of a strategic file has fewer numbers of outcomes than it has profiles.
    FewNumbers {
        profiles: usize,
        found: usize,
    },
    /// Too few or too many payoffs in braces.
    NotOnePayoff,
    /// Too few or too many numbers of strategies.
    NotOneCount,
    /// Too few or too many lists of strategies.
    NotOneListForEach,
    /// A number of the body where the lists or the outcomes before it are not closed.
    NotClosed,
    NoProbability,
    /// A probability of a player's action.
    PlayersProbability,
    CommaAfterLabel,
    /// A comma anywhere else.
    Comma,
    Mismatch,
    SumAboveOne,
    SumBelowOne,
}

/// A refusal: the token or the end that is refused, and what stands before it.
#[derive(Clone, Copy)]
pub struct Refusal<'a> {
    pub why: Why,
    pub found: &'a [u8],
    /// The bytes of the file up to the refusal.
    pub before: &'a [u8],
    pub context: Context<'a>,
}

fn is_one(found: &[u8], byte: u8) -> bool {
    found.len() == 1 && found[0] == byte
}

/// Whether a text has a quotation mark that a person would take for its end: a blank, a line end, a
/// brace or a comma follows it.
fn has_escaped_end(raw: &[u8]) -> bool {
    for end in 2..raw.len() {
        if raw[end - 2] == b'\\'
            && raw[end - 1] == b'"'
            && matches!(raw[end], b' ' | b'\t' | b'\r' | b'\n' | b'{' | b'}' | b',')
        {
            return true;
        }
    }
    false
}

fn has_brace(raw: &[u8]) -> bool {
    for byte in raw {
        if *byte == b'{' || *byte == b'}' {
            return true;
        }
    }
    false
}

/// The text that ends where the refused token begins, if there is one: tokens that were meant to be
/// two have white space or a brace between them.
fn joined_text<'a>(refusal: &Refusal<'a>) -> Option<Token<'a>> {
    let text = refusal.context.last?;
    let is_other = refusal.found.is_empty() || matches!(refusal.found[0], b'{' | b'}' | b',');
    let is_joined = refusal.context.ends_in_text() && text.span.end == refusal.before.len();
    if is_joined && !is_other {
        Some(text)
    } else {
        None
    }
}

/// The mistake in the text that the refused token directly follows, if there is one: only there does a
/// token show that a text ends in the wrong place.
fn of_text_before(refusal: &Refusal<'_>) -> Option<Quote> {
    let text = joined_text(refusal)?;
    let (before, spelled) = refusal
        .before
        .split_at(text.span.start.min(refusal.before.len()));
    let begin = place_after(before);
    let lines = place_after(spelled).line;
    if has_escaped_end(spelled) {
        Some(Quote::Escaped(begin))
    } else if lines > 1 || has_brace(spelled) {
        Some(Quote::Open(begin, lines))
    } else {
        None
    }
}

fn has_only_zeros(token: &[u8]) -> bool {
    for byte in token {
        if *byte != b'0' {
            return false;
        }
    }
    true
}

/// What a text or an opening brace shows where a node or the end is due.
fn of_text_or_brace(refusal: &Refusal<'_>) -> Option<Mistake> {
    let is_text = refusal.found.starts_with(b"\"");
    let is_opening = is_one(refusal.found, b'{');
    if is_text && refusal.context.ends_in_comment() {
        return Some(Mistake::SecondComment);
    }
    let number = refusal.context.last_bare()?;
    if !refusal.context.is_tree || !(is_text || is_opening) {
        None
    } else if has_only_zeros(number) {
        Some(Mistake::NullOutcome)
    } else if is_opening {
        Some(Mistake::NoName)
    } else {
        None
    }
}

/// What anything else shows where a node is due.
fn of_node(refusal: &Refusal<'_>) -> Mistake {
    if refusal.context.numbers == 0 {
        Mistake::NoRoot
    } else if refusal.found.is_empty() {
        Mistake::TreeEnds
    } else {
        Mistake::NoSubtree
    }
}

/// What is missing at the end of the body of a strategic file.
fn of_body(refusal: &Refusal<'_>) -> Option<Mistake> {
    let context = refusal.context;
    if context.is_tree || context.open > 0 || !refusal.found.is_empty() {
        None
    } else if context.has_outcomes() {
        Some(Mistake::FewNumbers {
            profiles: context.profiles,
            found: context.numbers,
        })
    } else {
        Some(Mistake::FewPayoffs {
            players: context.players,
            profiles: context.profiles,
            found: context.numbers,
        })
    }
}

/// What stands in the place of a payoff or a probability.
fn of_number(refusal: &Refusal<'_>) -> Option<Mistake> {
    let context = refusal.context;
    let is_text = refusal.found.starts_with(b"\"");
    let is_closing = is_one(refusal.found, b'}');
    if context.is_tree && context.ends_in_text() && (is_text || is_closing) {
        Some(Mistake::NoProbability)
    } else if is_text && context.ends_in_comment() {
        Some(Mistake::SecondComment)
    } else if is_closing && context.open > 0 {
        Some(Mistake::NotOnePayoff)
    } else {
        of_body(refusal)
    }
}

/// Whether a token looks like a number.
fn is_numeric(token: &[u8]) -> bool {
    match token.first() {
        Some(byte) => byte.is_ascii_digit() || matches!(*byte, b'-' | b'+' | b'.'),
        None => false,
    }
}

/// What a number shows in the place of a label or a closing brace.
fn of_number_too_many(context: &Context<'_>) -> Option<Mistake> {
    if context.is_in_strategies() {
        Some(Mistake::NotOneCount)
    } else if !context.is_in_actions() {
        Some(Mistake::NotOnePayoff)
    } else if !context.is_chance() {
        Some(Mistake::PlayersProbability)
    } else {
        None
    }
}

/// What stands in the place of a text.
fn of_text(refusal: &Refusal<'_>) -> Option<Mistake> {
    if refusal.context.ends_in_letter() {
        Some(Mistake::NoNodeName)
    } else if is_numeric(refusal.found) && refusal.context.is_in_actions() {
        of_number_too_many(&refusal.context)
    } else {
        None
    }
}

/// What stands in the place of a closing brace.
fn of_closing(refusal: &Refusal<'_>) -> Option<Mistake> {
    let context = refusal.context;
    if is_numeric(refusal.found) {
        if context.ends_in_closing() {
            Some(Mistake::NotClosed)
        } else {
            of_number_too_many(&context)
        }
    } else if is_one(refusal.found, b'{') && !context.is_tree && context.open == 1 {
        Some(Mistake::NotOneListForEach)
    } else {
        None
    }
}

/// What a closing brace shows that stands in the place of this.
fn of_early_closing(what: What, refusal: &Refusal<'_>) -> Option<Mistake> {
    let is_early = !refusal.context.is_tree && refusal.context.open == 1;
    if !is_early || !is_one(refusal.found, b'}') {
        return None;
    }
    match what {
        What::Index => Some(Mistake::NotOneCount),
        _ => Some(Mistake::NotOneListForEach),
    }
}

/// What stands in the place of an opening brace.
fn of_opening(refusal: &Refusal<'_>) -> Option<Mistake> {
    let context = refusal.context;
    let is_in_outcomes = context.open == 1 && !context.is_in_strategies();
    if is_numeric(refusal.found) && context.ends_in_closing() && is_in_outcomes {
        Some(Mistake::NotClosed)
    } else if joined_text(refusal).is_some() {
        Some(Mistake::Quote(Quote::Inner))
    } else {
        of_early_closing(What::Opening, refusal)
    }
}

/// What a comma shows that may not stand there.
fn of_comma(context: &Context<'_>) -> Mistake {
    if context.ends_in_text() && context.open > 0 {
        Mistake::CommaAfterLabel
    } else {
        Mistake::Comma
    }
}

/// What a token shows that stands in the place of this.
fn of_expected(what: What, refusal: &Refusal<'_>) -> Option<Mistake> {
    if is_one(refusal.found, b',') {
        return Some(of_comma(&refusal.context));
    }
    match what {
        What::Node => Some(of_text_or_brace(refusal).unwrap_or(of_node(refusal))),
        What::End => Some(of_text_or_brace(refusal).unwrap_or(Mistake::Complete)),
        What::Number => of_number(refusal),
        What::Closing => of_closing(refusal),
        What::Index => match of_early_closing(what, refusal) {
            Some(mistake) => Some(mistake),
            None => of_body(refusal),
        },
        What::Opening => of_opening(refusal),
        What::Letter => {
            let letter = of_small_letter(refusal.found, b"R");
            Some(Mistake::Spelling(letter.or(of_small_letter(refusal.found, b"D"))?))
        }
        What::Text => of_text(refusal),
        What::Format | What::Version | What::Strategies => None,
    }
}

/// Whether a token was refused for what it is, and not for its value.
fn is_of_form(why: Why) -> bool {
    matches!(
        why,
        Why::Unterminated
            | Why::Expected(_)
            | Why::NotANumber
            | Why::BadIndex
            | Why::NotDescribed
            | Why::Mismatch
    )
}

/// What the token itself shows.
fn of_token(refusal: &Refusal<'_>) -> Option<Spelling> {
    if refusal.why == Why::Expected(What::Format) {
        if let Some(mistake) = of_format(refusal.found) {
            return Some(mistake);
        }
    }
    match of_spelling(refusal.found) {
        Some(mistake) => Some(mistake),
        None if refusal.found.starts_with(b"/") && refusal.context.ends_in_value() => {
            Some(Spelling::ApartFraction)
        }
        None => None,
    }
}

/// The mistake that a refusal shows, if it shows one.
pub fn mistake_of(refusal: &Refusal<'_>) -> Option<Mistake> {
    if is_of_form(refusal.why) {
        if let Some(mistake) = of_token(refusal) {
            return Some(Mistake::Spelling(mistake));
        }
        if let Some(mistake) = of_text_before(refusal) {
            return Some(Mistake::Quote(mistake));
        }
    }
    match refusal.why {
        Why::Unterminated => Some(Mistake::Quote(Quote::Lone)),
        Why::Expected(what) => of_expected(what, refusal),
        Why::NotANumber => Some(Mistake::Spelling(Spelling::NotANumber)),
        Why::NumberTooLarge => Some(Mistake::Spelling(Spelling::NumberTooLarge)),
        Why::NotDescribed if is_one(refusal.found, b'{') => Some(Mistake::NoName),
        Why::Mismatch => Some(Mistake::Mismatch),
        Why::SumAboveOne => Some(Mistake::SumAboveOne),
        Why::SumBelowOne => Some(Mistake::SumBelowOne),
        _ => None,
    }
}
