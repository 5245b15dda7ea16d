//! A short line of text that takes no memory.

ghost use Rattle.std.specs.Prelude.{◌≡◌, ℕ, ◌+◌, ◌≤◌, List, [], ◌++◌, length, take, decimal};
ghost use Rattle.gf_explain.specs.declared.line.TheConstants.{ROOM};

use itoa::Buffer;
use std::marker::Model;

/// The most bytes that a line has.
pub const ROOM: usize = 80;

/// A line while it is put together.
#[derive(Drop)]
pub struct Line {
    bytes: [u8; ROOM],
    len: usize,
}

impl Model for Line {
    ghost Value = { List ℕ };

    ghost view = { λ line. take line.len line.bytes };

    ghost invariant = { λ line. line.len ≤ ROOM };
}

impl Line {
    /// An empty line.
    // No edit: it puts parts together.
    pub fn new() -> Line
        ensures { result ≡ [] }
    {
        Line {
            bytes: [0; ROOM],
            len: 0,
        }
    }

    /// The bytes so far.
    // No edit: it returns a part.
    pub fn as_slice(&self) -> &[u8]
        ensures { result.now ≡ self.now }
    {
        &self.bytes[..self.len]
    }

    /// Appends bytes. The caller has to ensure that the line then has at most 80.
    // No edit: `refusal_line` calls it and has one.
    pub fn push(&mut self, part: &[u8])
        requires { length self.old + length part.now ≤ ROOM }
        ensures text { self.new ≡ self.old ++ part.now }
        ensures len { length self.new ≡ length self.old + length part.now }
    {
        let end = self.len + part.len();
        self.bytes[self.len..end].copy_from_slice(part);
        self.len = end;
    }

    /// Appends a number in decimal digits. The caller has to ensure that 20 bytes are free.
    // No edit: `refusal_line` calls it and has one.
    pub fn push_number(&mut self, number: usize)
        requires { length self.old + 20 ≤ ROOM }
        ensures text { self.new ≡ self.old ++ decimal number }
        ensures len { length self.new ≤ length self.old + 20 }
    {
        let mut buffer = Buffer::new();
        self.push(buffer.format(number).as_bytes());
    }
}
