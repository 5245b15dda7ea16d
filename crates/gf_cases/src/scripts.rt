//! Readers and writers that do what a list of steps says.

ghost use Rattle.std.specs.Counts.{IsPrefixLen};

use gf_run::LIMIT;
use std::io;
use std::io::{ErrorKind, Read, Write};

/// What a reader or a writer does when it is asked.
#[derive(Clone, Copy)]
pub enum Step {
    /// It moves at most this many bytes.
    Moves(usize),
    /// It gives some spaces.
    Spaces,
    /// It moves nothing.
    Nothing,
    /// It is interrupted.
    Interrupted,
    /// It fails.
    Fails,
}

/// The step of a stream that moves all at once.
pub static AT_ONCE: [Step; 1] = [Step::Moves(usize::MAX)];

/// Steps, of which the last repeats.
#[derive(Clone, Copy)]
struct Script<'a> {
    steps: &'a [Step],
    asked: usize,
}

impl Script<'_> {
    /// The next step. With no steps at all, everything fails.
    fn step(&mut self) -> Step {
        let place = self.asked;
        self.asked = place.saturating_add(1);
        match self.steps.get(place) {
            Some(step) => *step,
            None => match self.steps.last() {
                Some(step) => *step,
                None => Step::Fails,
            },
        }
    }
}

static SPACES: [u8; 4_096] = [b' '; 4_096];

/// Gives as many spaces as there is room for, up to 4,096.
fn give_spaces(buf: &mut [u8]) -> usize
    ensures { IsPrefixLen result buf.new }
{
    let count = buf.len().min(SPACES.len());
    buf[..count].copy_from_slice(&SPACES[..count]);
    count
}

/// A reader of a text.
#[derive(Drop)]
pub struct Reader<'a> {
    text: &'a [u8],
    script: Script<'a>,
    given: usize,
}

impl<'a> Reader<'a> {
    pub fn new(text: &'a [u8], steps: &'a [Step]) -> Reader<'a> {
        Reader {
            text,
            script: Script { steps, asked: 0 },
            given: 0,
        }
    }

    /// How often it was asked.
    pub fn asked(&self) -> usize {
        self.script.asked
    }

    /// Whether it has given as many bytes as an input may have, and one more.
    pub fn is_past_limit(&self) -> bool {
        self.given.checked_sub(LIMIT) == Some(1)
    }

    fn give(&mut self, most: usize, buf: &mut [u8]) -> usize
        ensures { IsPrefixLen result buf.new }
    {
        let count = most.min(buf.len()).min(self.text.len());
        buf[..count].copy_from_slice(&self.text[..count]);
        self.text = &self.text[count..];
        count
    }
}

impl Read for Reader<'_> {
    fn read(&mut self, buf: &mut [u8]) -> io::Result<usize> {
        let count = match self.script.step() {
            Step::Moves(most) => self.give(most, buf),
            Step::Spaces => give_spaces(buf),
            Step::Nothing => 0,
            Step::Interrupted => return Err(io::Error::from(ErrorKind::Interrupted)),
            Step::Fails => return Err(io::Error::from(ErrorKind::Other)),
        };
        self.given = self.given.saturating_add(count);
        Ok(count)
    }
}

/// A writer that expects a text. It needs no memory.
#[derive(Drop)]
pub struct Writer<'a> {
    expected: &'a [u8],
    script: Script<'a>,
    taken: usize,
    is_right: bool,
}

impl<'a> Writer<'a> {
    pub fn new(expected: &'a [u8], steps: &'a [Step]) -> Writer<'a> {
        Writer {
            expected,
            script: Script { steps, asked: 0 },
            taken: 0,
            is_right: true,
        }
    }

    /// Whether it has taken this many bytes, which are those that it expected.
    pub fn has_taken(&self, count: usize) -> bool {
        self.is_right && self.taken == count
    }

    /// Whether it has taken all that it expected.
    pub fn is_done(&self) -> bool {
        self.is_right && self.expected.is_empty()
    }

    fn take(&mut self, most: usize, buf: &[u8]) -> usize
        ensures { IsPrefixLen result buf.now }
    {
        let count = most.min(buf.len());
        if self.expected.starts_with(&buf[..count]) {
            self.expected = &self.expected[count..];
        } else {
            self.is_right = false;
        }
        self.taken = self.taken.saturating_add(count);
        count
    }
}

impl Write for Writer<'_> {
    fn write(&mut self, buf: &[u8]) -> io::Result<usize> {
        match self.script.step() {
            Step::Moves(most) => Ok(self.take(most, buf)),
            Step::Spaces | Step::Nothing => Ok(0),
            Step::Interrupted => Err(io::Error::from(ErrorKind::Interrupted)),
            Step::Fails => Err(io::Error::from(ErrorKind::Other)),
        }
    }

    fn flush(&mut self) -> io::Result<()> {
        Ok(())
    }
}
