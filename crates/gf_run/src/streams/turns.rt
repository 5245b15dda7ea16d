//! How often a reader or a writer is asked again after an interruption.

ghost use Rattle.std.specs.Prelude.{◌≡◌, ◌↔◌, IsTrue};
ghost use Rattle.std.specs.IoError.{error_kind};

use std::io;
use std::io::ErrorKind;

/// How many interruptions in a row end a turn.
pub const PATIENCE: u32 = 16;

/// Whether a read or write with this error is tried again.
pub fn is_interruption(error: &io::Error) -> bool
    ensures { IsTrue result ↔ (error_kind error.now ≡ ErrorKind.Interrupted) }
{
    error.kind() == ErrorKind::Interrupted
}
