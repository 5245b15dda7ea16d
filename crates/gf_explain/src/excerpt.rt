//! The line of a file that a fault is about, with marks under the place.

ghost use Rattle.std.specs.Prelude.{OnOk};
ghost use Rattle.gf_explain.specs.Place.{EndsLine};

use crate::place::Place;
use crate::shown::{Part, ShownText, push_line, takes_columns};
use gf_token::Span;
use itoa::Buffer;
use std::alloc::AllocError;

/// The most bytes of a line that are shown.
const WIDTH: usize = 80;

/// How many of them, at most, come before the place if as many come after it.
const HALF: usize = 40;

/// The bytes of the longest character.
const LONGEST: usize = 4;

/// What is shown of a line.
#[derive(Clone, Copy)]
struct Excerpt<'a> {
    before: &'a [u8],
    marked: &'a [u8],
    after: &'a [u8],
    /// Whether there is more of the line before it.
    cut_before: bool,
    /// Whether there is more of the line after it.
    cut_after: bool,
}

/// The bytes before the first line feed, without a carriage return before it.
fn first_line(bytes: &[u8]) -> &[u8] {
    for end in 0..bytes.len() {
        if bytes[end] == b'\n' {
            let line = &bytes[..end];
            return line.strip_suffix(b"\r").unwrap_or(line);
        }
    }
    bytes
}

/// Whether a byte is one of a character that began before it.
fn is_inside(byte: u8) -> bool {
    byte & 0xc0 == 0x80
}

/// At most this many bytes from the front, which end with a whole character.
pub fn front_of(bytes: &[u8], most: usize) -> &[u8] {
    if bytes.len() <= most {
        return bytes;
    }
    for less in 0..LONGEST {
        let end = most.saturating_sub(less);
        if !is_inside(bytes[end]) {
            return &bytes[..end];
        }
    }
    &bytes[..most]
}

/// At most this many bytes at the end, which begin with a whole character.
fn back_of(bytes: &[u8], most: usize) -> &[u8] {
    if bytes.len() <= most {
        return bytes;
    }
    let first = bytes.len() - most;
    for start in first..bytes.len().min(first.saturating_add(LONGEST)) {
        if !is_inside(bytes[start]) {
            return &bytes[start..];
        }
    }
    &bytes[first..]
}

/// What is shown of the line in which a place of this many bytes begins, given what comes before
/// the place in the line, and the rest of the line.
fn cut<'a>(before: &'a [u8], rest: &'a [u8], marked: usize) -> Excerpt<'a> {
    let most_before = WIDTH - rest.len().min(HALF);
    let kept_before = back_of(before, most_before);
    let kept = front_of(rest, WIDTH - before.len().min(most_before));
    let (marked, after) = kept.split_at(marked.min(kept.len()));
    Excerpt {
        before: kept_before,
        marked,
        after,
        cut_before: kept_before.len() < before.len(),
        cut_after: kept.len() < rest.len(),
    }
}

/// Appends the line of a place in a file, after its number, and marks under the place.
pub fn push_excerpt(
    text: &mut ShownText,
    bytes: &[u8],
    span: Span,
    place: Place,
) -> Result<(), AllocError>
    ensures { OnOk result (EndsLine text.new) }
{
    let (before, rest) = bytes.split_at(span.start.min(bytes.len()));
    let line_start = (before.len() + 1).saturating_sub(place.column);
    let excerpt = cut(
        &before[line_start.min(before.len())..],
        first_line(rest),
        span.end.saturating_sub(span.start),
    );
    let mut buffer = Buffer::new();
    push_lines(text, buffer.format(place.line).as_bytes(), &excerpt)
}

/// Appends what is shown of a line, after its number, and marks under the place.
fn push_lines<'a>(
    text: &mut ShownText,
    number: &'a [u8],
    excerpt: &Excerpt<'a>,
) -> Result<(), AllocError>
    ensures { OnOk result (EndsLine text.new) }
{
    let has_marks = takes_columns(excerpt.marked);
    push_line(
        text,
        &[
            Part::Shown(b"  "),
            Part::Shown(number),
            Part::Shown(if excerpt.cut_before {
                b" | ..."
            } else {
                b" | "
            }),
            Part::Shown(excerpt.before),
            Part::Shown(excerpt.marked),
            Part::Shown(excerpt.after),
            Part::Shown(if excerpt.cut_after { b"..." } else { b"" }),
        ],
    )?;
    push_line(
        text,
        &[
            Part::Shown(b"  "),
            Part::Marks(number, ' '),
            Part::Shown(if excerpt.cut_before {
                b" |    "
            } else {
                b" | "
            }),
            Part::Marks(excerpt.before, ' '),
            Part::Marks(if has_marks { excerpt.marked } else { b"^" }, '^'),
        ],
    )
}
