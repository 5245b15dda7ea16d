//! A reader that keeps the bytes that pass, so that a fault in them can be explained.

ghost use Rattle.std.specs.Prelude.{◌≡◌, ◌≤◌, Ok, length, option_map};
ghost use Rattle.gf_jobs.specs.Opening.{Keeps, bytes_kept, kept_at_first, kept_reader, source_of};

use gf_run::{LastError, Source};
use std::alloc::Global;
use std::io;
use std::io::Read;

/// A reader that keeps the bytes that pass.
#[derive(Drop)]
pub struct Kept<S> {
    source: S,
    /// The bytes that have passed. `None` if they are not kept, or memory for them ran out.
    bytes: Option<Vec<u8>>,
}

impl<S> Kept<S> {
    /// Keeps nothing unless `keeps` is true.
    // No edit: it puts parts together.
    pub fn new(alloc: Global, source: S, keeps: bool) -> Kept<S>
        ensures source { source_of result ≡ source }
        ensures bytes { bytes_kept result ≡ kept_at_first keeps }
    {
        let bytes = if keeps { Some(Vec::new(alloc)) } else { None };
        Kept { source, bytes }
    }

    /// The bytes that have passed, if they are kept.
    // No edit: it returns a part.
    pub fn bytes(&self) -> Option<&[u8]>
        ensures { option_map (λ bytes. bytes.now) result ≡ bytes_kept self.now }
    {
        self.bytes.as_deref()
    }
}

/// Keeps the first `count` bytes of a buffer, unless memory for that is refused.
fn keep(kept: &mut Option<Vec<u8>>, buffer: &[u8], count: usize)
    requires { count ≤ length buffer.now }
    ensures { Keeps (option_map (λ bytes. bytes.items) kept.old) buffer.now (Ok count)
        (option_map (λ bytes. bytes.items) kept.new) }
{
    if let Some(bytes) = kept {
        if bytes.extend_from_slice(&buffer[..count]).is_err() {
            *kept = None;
        }
    }
}

impl<S: Source> Read for Kept<S> {
    ghost remaining = { λ kept. S.remaining (source_of kept) };

    fn read(&mut self, buf: &mut [u8]) -> io::Result<usize> {
        self.source.read(buf)
    }
}

impl<S: Source> Source for Kept<S> {
    ghost reader = { kept_reader S.reader };

    fn pull(&mut self, to: &mut [u8]) -> Result<usize, io::Error> {
        let answer = self.source.pull(to);
        if let Ok(count) = &answer {
            keep(&mut self.bytes, to, *count);
        }
        answer
    }

    fn failures(&self) -> u64 {
        self.source.failures()
    }

    ghost reads = { λ kept. S.reads (source_of kept) };
}

impl<S: LastError> LastError for Kept<S> {
    ghost last = { λ kept. S.last (source_of kept) };

    fn last_error(&self) -> Option<io::Error> {
        self.source.last_error()
    }
}
