//! Tokens.

use crate::fault::Span;
use crate::label::Label;

/// What a token is (Gambit documentation, "Game representation formats").
#[derive(Clone, Copy)]
pub enum Kind<'a> {
    /// `{`
    Opening,
    /// `}`
    Closing,
    /// `,`
    Comma,
    /// A label between quotes.
    Text(Label<'a>),
    /// A longest run of bytes that are neither whitespace nor `{`, `}`, `,` or `"` (this project's
    /// profile).
    Bare(&'a [u8]),
}

/// A token, and the place of the bytes that spell it, which for a text include its quotes.
#[derive(Clone, Copy)]
pub struct Token<'a> {
    pub span: Span,
    pub kind: Kind<'a>,
}

/// A bare token that was asked for.
#[derive(Clone, Copy)]
pub struct BareToken<'a> {
    pub span: Span,
    pub bytes: &'a [u8],
}

/// A text that was asked for; its span includes its quotes.
#[derive(Clone, Copy)]
pub struct TextToken<'a> {
    pub span: Span,
    pub label: Label<'a>,
}
