//! A reader or a writer with a count of its failures.

ghost use Rattle.std.specs.Prelude.{◌≡◌, None, refl};
ghost use Rattle.gf_run.specs.Streams.{CountsPull, CountsPush, counting, failures_of, inner_of};
ghost use Rattle.gf_run.specs.Streams.{last_of};

use crate::streams::last_error::LastError;
use crate::streams::sink::Sink;
use crate::streams::source::Source;
use std::io;
use std::io::{Read, Write};

/// A reader or a writer with a count of its failures: a `Source` over a `Read`, a `Sink` over a
/// `Write`.
#[derive(Drop)]
pub struct Counted<T> {
    inner: T,
    failures: u64,
    last_error: Option<io::Error>,
}

impl<T> Counted<T> {
    /// Wraps a reader or a writer. It has not failed yet.
    // No edit: it puts parts together.
    pub fn new(inner: T) -> Counted<T>
        ensures inner { inner_of result ≡ inner }
        ensures failures { failures_of result ≡ 0 }
        ensures last { last_of result ≡ None }
    {
        Counted {
            inner,
            failures: 0,
            last_error: None,
        }
    }
}

impl<R: Read> Read for Counted<R> {
    ghost remaining = { λ c. R.remaining (inner_of c) };

    fn read(&mut self, buf: &mut [u8]) -> io::Result<usize> {
        self.inner.read(buf)
    }
}

impl<W: Write> Write for Counted<W> {
    ghost contents = { λ c. W.contents (inner_of c) };

    fn write(&mut self, buf: &[u8]) -> io::Result<usize> {
        self.inner.write(buf)
    }

    fn flush(&mut self) -> io::Result<()> {
        self.inner.flush()
    }
}

impl<R: Read> Source for Counted<R> {
    ghost reader = { counting R.remaining CountsPull };

    fn pull(&mut self, to: &mut [u8]) -> Result<usize, io::Error> {
        let answer = self.inner.read(to);
        if let Err(error) = &answer {
            self.failures = self.failures.saturating_add(1);
            self.last_error = Some(*error);
        }
        answer
    }

    fn failures(&self) -> u64 {
        self.failures
    }

    ghost reads = { λ _. refl };
}

impl<W: Write> Sink for Counted<W> {
    ghost writer = { counting W.contents CountsPush };

    fn push(&mut self, from: &[u8]) -> Result<usize, io::Error> {
        let answer = self.inner.write(from);
        if !matches!(&answer, Ok(count) if *count > 0) {
            self.failures = self.failures.saturating_add(1);
        }
        if let Err(error) = &answer {
            self.last_error = Some(*error);
        }
        answer
    }

    fn failures(&self) -> u64 {
        self.failures
    }

    ghost writes = { λ _. refl };
}

impl<T> LastError for Counted<T> {
    ghost last = { last_of };

    fn last_error(&self) -> Option<io::Error> {
        self.last_error
    }
}
