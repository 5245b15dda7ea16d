//! The answer about the bytes of inputs, and how its text is written.

ghost use Rattle.std.specs.Prelude.{◌≡◌, Err, MatchResult, OnErr, OnOk};
ghost use Rattle.gf_run.specs.Streams.{IsWriteFault, IsWritten};
ghost use Rattle.gf_run.specs.Run.{Writes};

use crate::fault::{RunFault, WriteFault};
use crate::streams::sink::{Sink, push_all};
use gf_nfg::TextPieces;

/// The answer about the bytes of inputs, and what is written about it.
#[derive(Drop)]
pub struct Answer<A> {
    pub value: A,
    pub text: TextPieces,
}

/// An answer with a text that is whole.
// No edit: it puts parts together.
pub fn answer_with<A>(value: A, text: Vec<u8>) -> Answer<A>
    ensures value { result.value ≡ value }
    ensures text { result.text.rest ≡ text.items }
{
    Answer {
        value,
        text: TextPieces::of(text),
    }
}

/// Writes a text piece by piece. If the writer fails, a prefix of it has been written.
pub fn push_text<W: Sink>(output: &mut W, mut text: TextPieces) -> Result<(), WriteFault>
    ensures all { OnOk result (IsWritten W.writer output.old output.new text.rest) }
    ensures part { OnErr result (IsWriteFault W.writer output.old output.new text.rest) }
{
    while text.advance() {
        push_all(output, text.piece())?;
    }
    Ok(())
}

/// Writes the text of an answer, if there is one, and returns what it says.
///
/// # Errors
///
/// - The fault of the answer, and then nothing is asked of the output.
/// - `Write`: the writer failed, and a prefix of the text has been written.
// No edit: `run_canon_by` calls it and has one.
pub fn write_answer<A: Drop, W: Sink>(
    answer: Result<Answer<A>, RunFault>,
    output: &mut W,
) -> Result<A, RunFault>
    ensures { MatchResult answer
        (λ answer. Writes W.writer (λ value text. (value ≡ answer.value) × (text ≡ answer.text.rest))
        (λ _. ⊥) result output.old output.new)
        (λ fault. (result ≡ Err fault) × (output.new ≡ output.old)) }
{
    let Answer { value, text } = answer?;
    push_text(output, text)?;
    Ok(value)
}
