//! A writer to a terminal that erases what is in a line before it begins one.

ghost use Rattle.std.specs.Prelude.{◌≡◌, None, if◌then◌else◌};
ghost use Rattle.gf_jobs.specs.Opening.{held_by};

use std::io;
use std::io::Write;

/// What erases the line of a terminal.
pub const ERASE: &[u8] = b"\r\x1b[K";

/// A writer to a terminal that erases what is in a line before it begins one.
#[derive(Drop)]
pub struct Erasing<W> {
    terminal: W,
    /// Whether there may be something to erase.
    erases: bool,
    /// Whether a line begins.
    begins: bool,
}

impl<W: Write> Erasing<W> {
    /// Erases nothing unless `erases` is true.
    // No edit: it puts parts together.
    pub fn new(terminal: W, erases: bool) -> Erasing<W>
        ensures { held_by W.contents result ≡ (if erases then None else W.contents terminal) }
    {
        Erasing {
            terminal,
            erases,
            begins: true,
        }
    }
}

impl<W: Write> Write for Erasing<W> {
    ghost contents = { held_by W.contents };

    fn write(&mut self, buf: &[u8]) -> io::Result<usize> {
        if self.erases && self.begins {
            let _ = self.terminal.write(ERASE);
        }
        let count = self.terminal.write(buf)?;
        if count > 0 {
            self.begins = buf[count - 1] == b'\n';
        }
        Ok(count)
    }

    fn flush(&mut self) -> io::Result<()> {
        self.terminal.flush()
    }
}
