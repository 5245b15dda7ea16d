//! Indices: counts, and the numbers of players, information sets and outcomes.

ghost use Rattle.std.specs.Prelude.{MatchResult};
ghost use Rattle.gf_token.specs.Index.{IsIndex, ReadsIndex};
ghost use Rattle.gf_token.specs.NoIndex.{IsNoIndex};

/// Why a text is not an index.
#[derive(Clone, Copy, PartialEq, Eq)]
pub enum IndexFault {
    /// The text is empty, or has a byte that is not a digit.
    NotDigits,
    /// The text has only digits, with a value above 4,294,967,295.
    TooLarge,
}

/// Stands for any number above the greatest index.
const TOO_LARGE: u64 = u32::MAX as u64 + 1;

/// The greatest number of digits whose value always fits 64 bits.
pub(crate) const WORD_DIGITS: usize = 19;

/// The index that `text` spells by digits only, in base ten; any number of leading zeros is allowed
/// (this project's profile).
///
/// # Errors
///
/// `NotDigits` if the text is empty or has a byte that is not a digit, even after a number that is
/// too large; `TooLarge` if it has only digits and their value is above 4,294,967,295.
pub fn read_index(text: &[u8]) -> Result<u32, IndexFault>
    ensures { MatchResult result (IsIndex text.now) (IsNoIndex text.now) }
{
    if text.is_empty() {
        return Err(IndexFault::NotDigits);
    }
    let is_long = text.len() > WORD_DIGITS;
    let mut value: u64 = 0;
    for byte in text {
        let Some(digit) = char::from(*byte).to_digit(10) else {
            return Err(IndexFault::NotDigits);
        };
        value = value * 10 + u64::from(digit);
        if is_long {
            value = value.min(TOO_LARGE);
        }
    }
    match u32::try_from(value) {
        Ok(index) => Ok(index),
        Err(_) => Err(IndexFault::TooLarge),
    }
}

/// The index that `text` spells, if it spells one.
pub(crate) fn index_in(text: &[u8]) -> Option<u32>
    ensures { ReadsIndex text.now result }
{
    match read_index(text) {
        Ok(index) => Some(index),
        Err(_) => None,
    }
}
