//! How to mend a file: the sentence of each mistake.

ghost use Rattle.std.specs.Prelude.{OnOk};
ghost use Rattle.gf_explain.specs.Place.{EndsLine};

use crate::mistake::{Mistake, Quote};
use crate::shown::{Part, ShownText, push_part};
use crate::spelling::Spelling;
use itoa::Buffer;
use std::alloc::AllocError;

/// The sentence of a mistake in how a token is spelled.
fn words_of_spelling(spelling: Spelling) -> &'static str {
    match spelling {
        Spelling::ByteOrderMark => {
            "the file begins with a byte order mark; save it as UTF-8 without one"
        }
        Spelling::Utf16 => {
            "the file seems to be UTF-16; save it as UTF-8 without a byte order mark"
        }
        Spelling::Xml => {
            "this is XML, perhaps a workbook of Gambit (.gbt); save its game as .efg or .nfg"
        }
        Spelling::ActionGraph => {
            "this is an action graph game (.agg, .bagg), which gamefile does not read"
        }
        Spelling::OtherComment => {
            "a file has one comment, a text in double quotes after the players (EFG) or the \
            strategies (NFG)"
        }
        Spelling::OtherQuotes => "texts stand in straight double quotes, as in \"A\"",
        Spelling::OtherMinus => {
            "this begins with a dash or a minus sign that is not - (U+2212, or U+2010 to U+2015)"
        }
        Spelling::NoBreakSpace => "this has a no-break space (U+00A0) in it; write a space",
        Spelling::SmallLetter => "write it in capital letters",
        Spelling::ApartFraction => "a fraction has no spaces in it, as in 1/2",
        Spelling::NotANumber => "write 3, -0.5, 1e-3 or 1/3",
        Spelling::NumberTooLarge => {
            "numerators and denominators have at most 127 bits; at most 38 digits after the point"
        }
    }
}

/// The sentence of a mistake about a quotation mark, with `#` for each of its numbers.
fn words_of_quote(quote: Quote) -> &'static str {
    match quote {
        Quote::Escaped(_) => {
            "the text before this begins at line #, column #; the \\\" in it does not end it, since a \
            label cannot end in a backslash"
        }
        Quote::Open(_, 1) => {
            "the text before this begins at line #, column #; perhaps a quotation mark is missing"
        }
        Quote::Open(_, _) => {
            "the text before this begins at line #, column # and runs over # lines; perhaps a \
            quotation mark is missing"
        }
        Quote::Lone => {
            "a quotation mark inside a label is written \\\" ; a label cannot end in a backslash"
        }
        Quote::Inner => "a quotation mark inside a label is written \\\"",
    }
}

/// The sentence of a mistake, with `#` for each of its numbers.
fn words_of(mistake: &Mistake) -> &'static str {
    match mistake {
        Mistake::Spelling(spelling) => words_of_spelling(*spelling),
        Mistake::Quote(quote) => words_of_quote(*quote),
        Mistake::NoName => "a name comes before the braces, perhaps \"\"",
        Mistake::NoNodeName => "a node's name comes after its letter, perhaps \"\"",
        Mistake::NullOutcome => "outcome 0 takes no description",
        Mistake::SecondComment => "a file has one comment, and this would be a second one",
        Mistake::NoRoot => "the tree begins here, after the players and at most one comment",
        Mistake::NoSubtree => "each action needs a subtree",
        Mistake::TreeEnds => "the tree is incomplete: each action needs a subtree",
        Mistake::Complete => "the game is already complete here",
        Mistake::FewPayoffs { .. } => "the body has # of # payoffs (players times profiles, # x #)",
        Mistake::FewNumbers { .. } => "the body has # of # outcome numbers (one for each profile)",
        Mistake::NotOnePayoff => {
            "give one payoff for each player; decimals have a point, not a comma"
        }
        Mistake::NotOneCount => "give one number of strategies for each player",
        Mistake::NotOneListForEach => "give one list of strategies for each player",
        Mistake::NotClosed => "perhaps a closing brace is missing before this",
        Mistake::NoProbability => "each action of a chance move has a probability",
        Mistake::PlayersProbability => {
            "only the actions of chance moves have probabilities; perhaps a closing brace is \
            missing before this"
        }
        Mistake::CommaAfterLabel => "remove the comma: labels are separated by spaces",
        Mistake::Comma => "a comma may stand only after a payoff in braces; decimals have a point",
        Mistake::Mismatch => "repeat it, leave it out, or give what is different a new number",
        Mistake::SumAboveOne => {
            "probabilities are exact: write 1/6 rather than 0.166667, and 1/2 rather than 50"
        }
        Mistake::SumBelowOne => "probabilities are exact: write 1/3 rather than 0.333",
    }
}

/// The numbers in the sentence of a mistake.
fn numbers_of(mistake: &Mistake) -> [usize; 4] {
    match mistake {
        Mistake::Quote(Quote::Escaped(begin)) => [begin.line, begin.column, 0, 0],
        Mistake::Quote(Quote::Open(begin, lines)) => [begin.line, begin.column, *lines, 0],
        Mistake::FewPayoffs {
            players,
            profiles,
            found,
        } => [
            *found,
            players.saturating_mul(*profiles),
            *players,
            *profiles,
        ],
        Mistake::FewNumbers { profiles, found } => [*found, *profiles, 0, 0],
        _ => [0; 4],
    }
}

/// Appends how to mend a file.
pub fn push_hint(text: &mut ShownText, mistake: &Mistake) -> Result<(), AllocError>
    ensures { OnOk result (EndsLine text.new) }
{
    let numbers = numbers_of(mistake);
    push_part(text, Part::Shown(b"  hint: "))?;
    let mut next = 0;
    for character in words_of(mistake).chars() {
        if character == '#' && next < numbers.len() {
            let mut buffer = Buffer::new();
            let number = buffer.format(numbers[next]);
            push_part(text, Part::Shown(number.as_bytes()))?;
            next += 1;
        } else {
            text.push(character)?;
        }
    }
    text.end_line()
}
