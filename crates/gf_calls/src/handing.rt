//! How an answer gets into the caller's buffer.

ghost use Rattle.gf_calls.specs.Handed.{IsHandedOut};

use crate::status::Status;

/// Writes a text, or another list, to the start of a buffer if it fits, and in any case its length
/// beside it.
pub fn hand_out<T: Copy>(text: &[T], out: &mut [T], needed: &mut usize) -> Status
    ensures { IsHandedOut text.now out.old out.new needed.new result }
{
    *needed = text.len();
    if text.len() > out.len() {
        return Status::TooSmall;
    }
    out[..text.len()].copy_from_slice(text);
    Status::Done
}
