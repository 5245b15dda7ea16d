//! How many files are done, shown on a terminal while a long run goes on.

use crate::collections::erasing::ERASE;
use gf_explain::Line;
use std::io::Write;
use std::time::{Clock, Instant};

/// How long nothing is shown at first, and then how often something is, in milliseconds.
const PAUSE: u128 = 200;

/// What is told of each file that is done.
pub trait Progress {
    /// One more file is done, of this many.
    // No clause: nothing is said of what is shown.
    fn step(&mut self, all: usize);

    /// The run over them is at its end.
    // No clause: nothing is said of what is shown.
    fn end(&mut self);
}

/// Shows on a terminal how many files are done, in a line that is erased at the end.
#[derive(Drop)]
pub struct Shown<'a, R, W> {
    rt: &'a R,
    terminal: W,
    done: usize,
    /// When it was shown last, or when the run began. `None` if it is not to be shown.
    last: Option<Instant>,
}

impl<'a, R: Clock, W: Write> Shown<'a, R, W> {
    /// Shows nothing unless `shows` is true.
    // No clause: nothing is said of what is shown.
    pub fn new(rt: &'a R, terminal: W, shows: bool) -> Shown<'a, R, W> {
        let last = if shows { Instant::now(rt).ok() } else { None };
        Shown {
            rt,
            terminal,
            done: 0,
            last,
        }
    }

    /// Shows how many are done.
    fn show(&mut self, all: usize) {
        let mut line = Line::new();
        line.push(ERASE);
        line.push_number(self.done);
        line.push(b" of ");
        line.push_number(all);
        line.push(b" files");
        let _ = self.terminal.write(line.as_slice());
    }
}

impl<R: Clock, W: Write> Progress for Shown<'_, R, W> {
    fn step(&mut self, all: usize) {
        self.done = self.done.saturating_add(1);
        let Some(last) = self.last else {
            return;
        };
        match Instant::now(self.rt) {
            Ok(now) if now.duration_since(last).as_millis() >= PAUSE => {
                self.last = Some(now);
                self.show(all);
            }
            _ => {}
        }
    }

    fn end(&mut self) {
        if self.last.is_some() {
            let _ = self.terminal.write(ERASE);
        }
    }
}
