//! Readers that count their failures, and how an input is read whole.

ghost use Rattle.std.specs.Prelude.{◌≡◌, ◌+◌, ◌<◌, ◌≤◌, ◌++◌, length, take, MatchResult, IfOk, IfErr};
ghost use Rattle.std.specs.Io.{ReadsAtMost};
ghost use Rattle.std.specs.Io.KnownBytes.{ReadConsumes};
ghost use Rattle.gf_run.specs.Streams.{CountsPull, GivesUp, HasRisen, Moves, Stream};
ghost use Rattle.gf_run.specs.Streams.{HasLength, IsNotRead, IsRead, IsReadWhole, limit};

use crate::fault::{RunFault, Which};
use crate::streams::turns::{PATIENCE, is_interruption};
use gf_token::{Fault, Why};
use std::alloc::Global;
use std::io;
use std::io::Read;

/// The most bytes that an input has.
pub const LIMIT: usize = 16_777_216;

/// How many bytes are asked for at once.
const CHUNK: usize = 65_536;

/// A reader that counts the errors that it returns.
pub trait Source: Read {
    /// The bytes that it has left, its failures so far, and what a pull gives.
    ghost reader: { Stream Self };

    /// Does what `read` does.
    fn pull(&mut self, to: &mut [u8]) -> Result<usize, io::Error>
        ensures bound { ReadsAtMost result to.new }
        ensures bytes { ReadConsumes (reader.known self.old) (reader.known self.new) result to.new }
        ensures given { reader.gives self.old to.new result self.new }
        ensures counted { CountsPull (reader.count self.old) result (reader.count self.new) };

    /// How many errors `pull` has returned, up to `u64::MAX`.
    fn failures(&self) -> u64
        ensures { result ≡ reader.count self.now };

    /// It has left what `read` has left.
    ghost reads: { (s : Self) → reader.known s ≡ Self.remaining s };
}

/// A pull that is repeated after an interruption. The sixteenth interruption in a row is a read
/// fault.
fn pull_again<R: Source>(input: &mut R, to: &mut [u8], which: Which) -> Result<usize, RunFault>
    ensures bound { ReadsAtMost result to.new }
    ensures bytes { ReadConsumes
        (R.reader.known input.old) (R.reader.known input.new) result to.new }
    ensures turn { MatchResult result
        (λ n. Moves R.reader.gives (HasLength (length to.old)) to.new n input.old input.new)
        (λ fault. (fault ≡ RunFault.Read which)
        × GivesUp R.reader.gives (HasLength (length to.old)) input.old input.new) }
    ensures counted { MatchResult result
        (λ _. R.reader.count input.old ≤ R.reader.count input.new)
        (λ _. HasRisen (R.reader.count input.old) (R.reader.count input.new)) }
{
    for _turn in 0..PATIENCE {
        match input.pull(to) {
            Ok(count) => return Ok(count),
            Err(error) if is_interruption(&error) => {}
            Err(_) => return Err(RunFault::Read(which)),
        }
    }
    Err(RunFault::Read(which))
}

/// Pulls what comes after these bytes to the front of a buffer, but no more than one byte past the
/// limit, and returns how many bytes came: none at the end of the input.
fn pull_next<R: Source>(
    input: &mut R,
    bytes: &[u8],
    buffer: &mut [u8],
    which: Which,
) -> Result<usize, RunFault>
    requires bytes { length bytes.now ≤ limit }
    requires buffer { 0 < length buffer.now }
    ensures within { IfOk result (λ n.
        (n ≤ length buffer.new) × (length bytes.now + n ≤ limit)) }
    ensures next { (start : R) → IsRead R.reader start input.old bytes.now → MatchResult result
        (λ n. (n ≡ 0 → IsReadWhole R.reader start input.new bytes.now)
        × (0 < n → IsRead R.reader start input.new (bytes.now ++ take n buffer.new)))
        (λ fault. IsNotRead R.reader which fault start input.new) }
{
    let left = LIMIT - bytes.len();
    let room = (left + 1).min(buffer.len());
    let count = pull_again(input, &mut buffer[..room], which)?;
    if left < count {
        let fault = Fault::at_end(LIMIT, Why::TooLong);
        return Err(RunFault::Refused { which, fault });
    }
    Ok(count)
}

/// Reads an input whole, and takes no more than one byte past the limit.
///
/// # Errors
///
/// - `Refused` with E1: the input has a byte past the limit.
/// - `Read`: the reader failed, or was interrupted sixteen times in a row.
/// - `Memory`: memory ran out.
pub fn load<R: Source>(alloc: Global, input: &mut R, which: Which) -> Result<Vec<u8>, RunFault>
    ensures whole { IfOk result (λ bytes. IsReadWhole R.reader input.old input.new bytes.items) }
    ensures part { IfErr result (λ fault. IsNotRead R.reader which fault input.old input.new) }
{
    let mut bytes = Vec::new(alloc);
    let mut buffer = [0; CHUNK];
    loop {
        let count = pull_next(input, bytes.as_slice(), &mut buffer, which)?;
        if count == 0 {
            return Ok(bytes);
        }
        bytes.extend_from_slice(&buffer[..count])?;
    }
}
