//! What is wrong with a file, in a sentence. The sentences that name no token are those of
//! library/gamefile.c, which has general ones where these say which number is due or new.

ghost use Rattle.std.specs.Prelude.{OnOk};
ghost use Rattle.gf_explain.specs.Place.{EndsLine};

use crate::context::{Context, Index};
use crate::excerpt::front_of;
use crate::mistake::Refusal;
use crate::shown::{Part, ShownText, push_line};
use gf_token::{FormFault, What, Why};
use itoa::Buffer;
use std::alloc::AllocError;

/// The most bytes of a token that a sentence shows.
const MOST: usize = 40;

/// A sentence.
#[derive(Clone, Copy)]
enum Sentence<'a> {
    Plain(&'static str),
    /// A token, between what stands before and after it.
    Naming(&'static str, &'a [u8], &'static str),
}

/// Which number was expected.
fn number_expectation(index: Index) -> &'static str {
    match index {
        Index::Player => "expected a player's number (1 for the first player), found ",
        Index::InformationSet => {
            "expected the number of the information set (a whole number from 1 to 4,294,967,295), \
            found "
        }
        Index::NodeOutcome => {
            "expected the number of the node's outcome (0 if there is none, and at most \
            4,294,967,295), found "
        }
        Index::Strategies => {
            "expected the number of a player's strategies (a whole number from 1 to \
            4,294,967,295), found "
        }
        Index::ProfileOutcome => {
            "expected the number of a profile's outcome (0 if there is none), found "
        }
    }
}

/// What was expected.
fn expectation(what: What, context: &Context<'_>) -> &'static str {
    match what {
        What::Format => "expected `NFG` or `EFG` at the start of the file, found ",
        What::Version => "expected version 1 (after NFG) or version 2 (after EFG), found ",
        What::Letter => "expected `R` or `D`, found ",
        What::Text => "expected a text in double quotes, found ",
        What::Opening => "expected `{`, found ",
        What::Closing => "expected `}`, found ",
        What::Number => "expected a number, found ",
        What::Index => number_expectation(context.due()),
        What::Strategies => {
            "expected the number of strategies of each player, or lists of their labels, found "
        }
        What::Node => "expected a node: `c`, `p` or `t`, found ",
        What::End => "expected the end of the file, found ",
    }
}

/// The sentence of the first use of a number without a description.
fn about_new<'a>(context: &Context<'a>) -> Sentence<'a> {
    let number = context.last_bare().unwrap_or(b"");
    if !context.is_at_set() {
        Sentence::Naming(
            "outcome ",
            number,
            " is used for the first time, so its description must follow its number",
        )
    } else if context.is_chance() {
        Sentence::Naming(
            "information set ",
            number,
            " of chance is used for the first time, so its description must follow its number",
        )
    } else {
        Sentence::Naming(
            "information set ",
            number,
            " of this player is used for the first time, so its description must follow its number",
        )
    }
}

/// The sentence of a player who is not in the game.
fn about_player<'a>(found: &'a [u8]) -> Sentence<'a> {
    if found == b"p".as_slice() {
        Sentence::Plain("this game has no players, so it cannot have a player's node")
    } else {
        Sentence::Naming("there is no player ", found, "")
    }
}

/// The sentence of a fault in a file.
fn sentence_of<'a>(why: Why, found: &'a [u8], context: &Context<'a>) -> Sentence<'a> {
    match why {
        Why::TooLong => Sentence::Plain(
            "the file is larger than 16,777,216 bytes, the largest size that the program reads",
        ),
        Why::Unterminated => Sentence::Plain("this quotation mark is never closed"),
        Why::Expected(what) => Sentence::Naming(expectation(what, context), found, ""),
        Why::NotANumber => Sentence::Naming("", found, " is not a number"),
        Why::ZeroDenominator => Sentence::Plain("the denominator is zero"),
        Why::NumberTooLarge => {
            Sentence::Plain("this number is too large or has too many digits")
        }
        Why::BadIndex => Sentence::Naming(number_expectation(context.due()), found, ""),
        Why::UnknownPlayer => about_player(found),
        Why::NotDescribed => about_new(context),
        Why::Mismatch => Sentence::Plain(
            "this differs from the description given when the number was first used",
        ),
        Why::NegativeProbability => Sentence::Plain("a probability cannot be negative"),
        Why::SumAboveOne => Sentence::Plain("the probabilities add up to more than 1"),
        Why::SumBelowOne => Sentence::Plain("the probabilities add up to less than 1"),
        Why::SumOverflow => Sentence::Plain(
            "the sum of these probabilities cannot be worked out within 127 bits",
        ),
        Why::NoEntry => Sentence::Plain(
            "this list is empty: a player needs at least one strategy, an information set at least \
            one action",
        ),
        Why::UnknownOutcome => Sentence::Naming(
            "there is no outcome ",
            found,
            ": the file describes fewer outcomes",
        ),
        Why::TooManyProfiles => {
            Sentence::Plain("the table would have more than 1,048,576 strategy profiles")
        }
        Why::Memory => Sentence::Plain("out of memory"),
    }
}

/// What a sentence shows of a token, between what stands before and after that. At the end of the
/// file there is no token.
fn named(token: &[u8]) -> [&[u8]; 3] {
    let front = front_of(token, MOST);
    let is_cut = front.len() < token.len();
    if token.is_empty() {
        [b"the end of the file", front, b""]
    } else if token.starts_with(b"\"") {
        [b"the text ", front, if is_cut { b"..." } else { b"" }]
    } else {
        [b"`", front, if is_cut { b"...`" } else { b"`" }]
    }
}

/// Appends a line of these words.
pub fn push_words(text: &mut ShownText, words: &str) -> Result<(), AllocError>
    ensures { OnOk result (EndsLine text.new) }
{
    push_line(text, &[Part::Shown(words.as_bytes())])
}

/// Appends what is wrong with a file.
pub fn push_sentence(text: &mut ShownText, refusal: &Refusal<'_>) -> Result<(), AllocError>
    ensures { OnOk result (EndsLine text.new) }
{
    match sentence_of(refusal.why, refusal.found, &refusal.context) {
        Sentence::Plain(words) => push_words(text, words),
        Sentence::Naming(before, named_token, after) => {
            let [opening, token, closing] = named(named_token);
            push_line(
                text,
                &[
                    Part::Shown(before.as_bytes()),
                    Part::Shown(opening),
                    Part::Shown(token),
                    Part::Shown(closing),
                    Part::Shown(after.as_bytes()),
                ],
            )
        }
    }
}

/// Appends why a game has no table.
pub fn push_form(text: &mut ShownText, fault: &FormFault) -> Result<(), AllocError>
    ensures { OnOk result (EndsLine text.new) }
{
    match fault {
        FormFault::TooManyProfiles => push_words(
            text,
            "the strategic form has more than 1,048,576 strategy profiles",
        ),
        FormFault::Overflow { profile } => {
            let mut buffer = Buffer::new();
            push_line(
                text,
                &[
                    Part::Shown(b"the expected payoffs at profile "),
                    Part::Shown(buffer.format(*profile).as_bytes()),
                    Part::Shown(b" cannot be worked out within 127 bits"),
                ],
            )
        }
        FormFault::Memory => push_words(text, "out of memory"),
    }
}
