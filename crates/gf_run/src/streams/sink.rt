//! Writers that count their failures, and how an output is written whole.

ghost use Rattle.std.specs.Prelude.{◌≡◌, ◌++◌, ◌<◌, ◌≤◌, List, ℕ, MatchResult, OnErr, OnOk};
ghost use Rattle.std.specs.Io.{WritesAtMost};
ghost use Rattle.std.specs.Io.KnownBytes.{WriteAppends};
ghost use Rattle.gf_run.specs.Streams.{CountsPush, HasRisen, Moves, Stream};
ghost use Rattle.gf_run.specs.Streams.{IsBegun, IsOffer, IsWriteFault, IsWritten, Stops};

use crate::fault::WriteFault;
use crate::streams::turns::{PATIENCE, is_interruption};
use std::io;
use std::io::Write;

/// A writer that counts the errors that it returns and the pushes that take nothing.
pub trait Sink: Write {
    /// The bytes that it holds, its failures so far, and what a push gives.
    ghost writer: { Stream Self };

    /// Does what `write` does.
    fn push(&mut self, from: &[u8]) -> Result<usize, io::Error>
        ensures bound { WritesAtMost result from.now }
        ensures bytes { WriteAppends
            (writer.known self.old) (writer.known self.new) result from.now }
        ensures given { writer.gives self.old from.now result self.new }
        ensures counted { CountsPush (writer.count self.old) result (writer.count self.new) };

    /// How many errors `push` has returned, plus how many pushes took nothing, up to `u64::MAX`.
    fn failures(&self) -> u64
        ensures { result ≡ writer.count self.now };

    /// It holds what `write` has written.
    ghost writes: { (s : Self) → writer.known s ≡ Self.contents s };
}

/// A push that is repeated after an interruption. The sixteenth interruption in a row is a write
/// fault, and so is a push that takes nothing.
fn push_again<W: Sink>(output: &mut W, from: &[u8]) -> Result<usize, WriteFault>
    ensures bound { WritesAtMost result from.now }
    ensures bytes { WriteAppends
        (W.writer.known output.old) (W.writer.known output.new) result from.now }
    ensures turn { MatchResult result
        (λ n. (0 < n) × Moves W.writer.gives (IsOffer from.now) from.now n output.old output.new)
        (λ _. Stops W.writer (IsOffer from.now) output.old output.new) }
    ensures counted { MatchResult result
        (λ _. W.writer.count output.old ≤ W.writer.count output.new)
        (λ _. HasRisen (W.writer.count output.old) (W.writer.count output.new)) }
{
    for _turn in 0..PATIENCE {
        match output.push(from) {
            Ok(0) => return Err(WriteFault),
            Ok(count) => return Ok(count),
            Err(error) if is_interruption(&error) => {}
            Err(_) => return Err(WriteFault),
        }
    }
    Err(WriteFault)
}

/// Writes all of `text`, which may be the next part of a longer one.
///
/// # Errors
///
/// `WriteFault` if the writer failed, was interrupted sixteen times in a row, or took nothing. A prefix
/// of the text has been written then.
pub fn push_all<W: Sink>(output: &mut W, text: &[u8]) -> Result<(), WriteFault>
    ensures all { OnOk result (IsWritten W.writer output.old output.new text.now) }
    ensures part { OnErr result (IsWriteFault W.writer output.old output.new text.now) }
    ensures next { (start : W) (whole after : List ℕ)
        → IsBegun W.writer start output.old whole (text.now ++ after) → MatchResult result
        (λ _. IsBegun W.writer start output.new whole after)
        (λ _. IsWriteFault W.writer start output.new whole) }
{
    let mut rest = text;
    while !rest.is_empty() {
        let count = push_again(output, rest)?;
        rest = &rest[count..];
    }
    Ok(())
}
