//! Bytes of a file as a terminal may show them.

ghost use Rattle.std.specs.Prelude.{◌≡◌, ◌++◌, ◌∷◌, [], IfOk, OnOk, false};
ghost use Rattle.std.specs.String.{string_bytes};
ghost use Rattle.gf_explain.specs.Place.{EndsLine, line_feed};
ghost use Rattle.gf_explain.specs.Shown.{IsShown, is_obeyed, shown_character, shown_name};

use std::alloc::{AllocError, Global};
use std::marker::Model;
use ucd_props::is_bidi_control;
use unicode_width::UnicodeWidthChar;

/// A text in which no character stands that a terminal obeys but line feeds.
#[derive(Drop)]
pub struct ShownText {
    text: String,
}

impl Model for ShownText {
    ghost use Rattle.std.specs.Prelude.{List, ℕ};
    ghost use Rattle.std.specs.String.{string_bytes};
    ghost use Rattle.gf_explain.specs.Shown.{IsShown};

    ghost Value = { List ℕ };

    ghost view = { λ t. string_bytes t.text };

    ghost invariant = { λ t. IsShown (string_bytes t.text) };
}

impl ShownText {
    /// An empty text.
    // No clause: nothing is said of what is shown.
    pub fn new(alloc: Global) -> ShownText {
        ShownText {
            text: String::new(alloc),
        }
    }

    /// Its bytes, in UTF-8.
    // No edit: it returns a part.
    pub fn as_bytes(&self) -> &[u8]
        ensures value { result.now ≡ self.now }
        ensures shown { IsShown self.now }
    {
        self.text.as_bytes()
    }

    /// Appends what is shown of a character.
    // No clause: nothing is said of what is shown.
    pub fn push(&mut self, character: char) -> Result<(), AllocError> {
        self.text.push(shown(character))
    }

    /// Ends a line.
    // No edit: `push_line` calls it and has one.
    pub fn end_line(&mut self) -> Result<(), AllocError>
        ensures { OnOk result (self.new ≡ self.old ++ line_feed ∷ []) }
    {
        self.text.push('\n')
    }
}

/// A part of a line.
#[derive(Clone, Copy)]
pub enum Part<'a> {
    /// These bytes as text, with a space in place of a tab, and `?` in place of other control
    /// characters, of those that set the direction of a text, and of what is not UTF-8.
    Shown(&'a [u8]),
    /// This mark for each column that these bytes take when they are shown.
    Marks(&'a [u8], char),
}

/// What is shown of a character of a file's name.
fn shown_in_name(character: char) -> char
    ensures { result ≡ shown_character character }
{
    if character.is_control() || is_bidi_control(character) {
        '?'
    } else {
        character
    }
}

/// What is shown of a character of a file.
fn shown(character: char) -> char
    ensures { is_obeyed result ≡ false }
{
    if character == '\t' {
        ' '
    } else {
        shown_in_name(character)
    }
}

/// The columns that a character takes when it is shown by itself, as most terminals show it: those
/// of combining marks are 0, and those of wide characters 2.
fn columns(character: char) -> usize {
    shown(character).width().unwrap_or(1)
}

fn push_shown(text: &mut ShownText, bytes: &[u8]) -> Result<(), AllocError> {
    for chunk in bytes.utf8_chunks() {
        for character in chunk.valid().chars() {
            text.push(character)?;
        }
        for _ in chunk.invalid() {
            text.push('?')?;
        }
    }
    Ok(())
}

fn push_marks(text: &mut ShownText, bytes: &[u8], mark: char) -> Result<(), AllocError> {
    for chunk in bytes.utf8_chunks() {
        for character in chunk.valid().chars() {
            for _ in 0..columns(character) {
                text.push(mark)?;
            }
        }
        for _ in chunk.invalid() {
            text.push(mark)?;
        }
    }
    Ok(())
}

/// Whether these bytes take a column when they are shown.
pub fn takes_columns(bytes: &[u8]) -> bool {
    for chunk in bytes.utf8_chunks() {
        for character in chunk.valid().chars() {
            if columns(character) > 0 {
                return true;
            }
        }
        if !chunk.invalid().is_empty() {
            return true;
        }
    }
    false
}

/// Appends a part of a line.
pub fn push_part(text: &mut ShownText, part: Part<'_>) -> Result<(), AllocError> {
    match part {
        Part::Shown(bytes) => push_shown(text, bytes),
        Part::Marks(bytes, mark) => push_marks(text, bytes, mark),
    }
}

/// Appends a line of these parts.
///
/// # Errors
///
/// `AllocError` if memory is refused; the text has then some of them, or none.
pub fn push_line(text: &mut ShownText, parts: &[Part<'_>]) -> Result<(), AllocError>
    ensures { OnOk result (EndsLine text.new) }
{
    for part in parts {
        push_part(text, *part)?;
    }
    text.end_line()
}

/// The name of a file as it is shown.
///
/// # Errors
///
/// `AllocError` if memory is refused.
pub fn shown_name(alloc: Global, name: &str) -> Result<String, AllocError>
    ensures { IfOk result (λ text. string_bytes text ≡ shown_name name.now) }
{
    let mut text = String::new(alloc);
    for character in name.chars() {
        text.push(shown_in_name(character))?;
    }
    Ok(text)
}
