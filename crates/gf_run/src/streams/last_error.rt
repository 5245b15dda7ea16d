//! The last error of a reader or a writer.

ghost use Rattle.std.specs.Prelude.{◌≡◌, Option};
ghost use Rattle.std.specs.declared.io.Error.{Error};

use std::io;

/// What keeps the last error that a read or a write of it has returned.
pub trait LastError {
    ghost last: { Self → Option Error };

    /// The last error, or `None` if there was none.
    fn last_error(&self) -> Option<io::Error>
        ensures { result ≡ last self.now };
}
