//! The tokens of an input: a reader asks for the one that is due.
//!
//! What is called for each token is `inline(always)`: wide values would otherwise pass through
//! memory.

ghost use Rattle.std.specs.Prelude.{◌≡◌, ◌≤◌, ◌∷◌, false, true, length, IfSome, MatchOption};
ghost use Rattle.gf_fraction.specs.NoNumber.{Reads};
ghost use Rattle.gf_token.specs.HeldTokens.{Nexts};
ghost use Rattle.gf_token.specs.Index.{ReadsIndex};
ghost use Rattle.gf_token.specs.Label.{label_of};
ghost use Rattle.gf_token.specs.Next.{starts, is_bare_token, is_closing, is_quoted};
ghost use Rattle.gf_token.specs.Next.{is_comma, is_opening, is_text_of, is_text_token, is_word};
ghost use Rattle.gf_token.specs.Remaining.{refusal, StandsBefore, Takes};
ghost use Rattle.gf_token.specs.Token.{lexeme};
ghost use Rattle.gf_token.specs.Token.Token.{Bare, Closing, Comma, Opening, Text};
ghost use Rattle.gf_token.specs.TokenSpelling.{Spells};

use crate::byte::is_bare;
use crate::fault::{Fault, Span, Why};
use crate::label::Label;
use crate::scan::{
    bare_end, closing_quote, end_of_label, gap_end, index_end, number_end, spaced_index, token_at,
};
use crate::token::{BareToken, TextToken, Token};
use gf_fraction::{Fraction, NumberFault};
use std::marker::Model;

/// An input, seen with the tokens that are still to come.
///
/// A token that is asked for is taken if it comes next; if another one does, nothing is taken.
///
/// Whitespace has no meaning between tokens (Gambit documentation, "Game representation formats");
/// it is the bytes 9 to 13 and 32. All other bytes that begin nothing else are those of a bare
/// token (this project's profile).
#[derive(Drop)]
pub struct Cursor<'a> {
    input: &'a [u8],
    at: usize,
}

impl<'a> Model for Cursor<'a> {
    ghost use Rattle.gf_token.specs.inner.Finding.{lexed};
    ghost use Rattle.gf_token.specs.Remaining.{AreAhead, Remaining};

    ghost Value = { Remaining };

    ghost view = { λ t. record { input = t.input.now; ahead = lexed t.input.now t.at } };

    ghost invariant = { λ t. AreAhead t.input.now (lexed t.input.now t.at) };
}

impl<'a> Cursor<'a> {
    /// All tokens of an input.
    #[tactic(auto, using(crate::proofs::TokensAhead::tokens_steps))]
    pub fn new(input: &'a [u8]) -> Cursor<'a>
        ensures input { result.input ≡ input.entry.now }
        ensures spelled { Spells 0 input.entry.now result.ahead }
        ensures few { length result.ahead ≤ length input.entry.now }
    {
        Cursor { input, at: 0 }
    }

    /// The next token if it is a bare one.
    // No edit: `Cursor::opening` has one, and proofs of gf_tree rely on this.
    #[tactic(auto, using(crate::proofs::Starts::starts_steps, crate::proofs::TokensAhead::taken))]
    #[inline(always)]
    pub fn bare(&mut self) -> Option<BareToken<'a>>
        ensures next { MatchOption result
            ((self.new ≡ self.old) × (starts is_bare_token self.old.ahead ≡ false))
            (λ t. self.old.ahead
            ≡ lexeme t.span.start t.span.end (Bare t.bytes.now) ∷ self.new.ahead) }
        ensures input { self.new.input ≡ self.old.input }
        ensures place { IfSome result (λ t. StandsBefore self.new t.span) }
    {
        let start = gap_end(self.input, self.at)?;
        if !is_bare(self.input[start]) {
            return None;
        }
        let end = bare_end(self.input, start);
        let bytes = &self.input[start..end];
        self.at = end;
        let span = Span { start, end };
        Some(BareToken { span, bytes })
    }

    /// The next token if it is a bare one, with the index that it spells, if it spells one.
    #[tactic(auto, using(crate::proofs::Starts::starts_steps, crate::proofs::TokensAhead::taken))]
    #[inline(always)]
    pub fn index(&mut self) -> Option<(BareToken<'a>, Option<u32>)>
        ensures next { MatchOption result
            ((self.new ≡ self.old) × (starts is_bare_token self.old.ahead ≡ false))
            (λ t. self.old.ahead
            ≡ lexeme t.0.span.start t.0.span.end (Bare t.0.bytes.now) ∷ self.new.ahead) }
        ensures index { IfSome result (λ t. ReadsIndex t.0.bytes.now t.1) }
        ensures input { self.new.input ≡ self.old.input }
        ensures place { IfSome result (λ t. StandsBefore self.new t.0.span) }
    {
        if let Some((end, index)) = spaced_index(self.input, self.at) {
            let start = self.at + 1;
            let bytes = &self.input[start..end];
            self.at = end;
            let span = Span { start, end };
            return Some((BareToken { span, bytes }, index));
        }
        let start = gap_end(self.input, self.at)?;
        if !is_bare(self.input[start]) {
            return None;
        }
        let (end, index) = index_end(self.input, start);
        let bytes = &self.input[start..end];
        self.at = end;
        let span = Span { start, end };
        Some((BareToken { span, bytes }, index))
    }

    /// The next token if it is a bare one, with the number that it spells, or why it spells none.
    #[tactic(auto, using(crate::proofs::Starts::starts_steps, crate::proofs::TokensAhead::taken))]
    #[inline(always)]
    pub fn number(&mut self) -> Option<(BareToken<'a>, Result<Fraction, NumberFault>)>
        ensures next { MatchOption result
            ((self.new ≡ self.old) × (starts is_bare_token self.old.ahead ≡ false))
            (λ t. self.old.ahead
            ≡ lexeme t.0.span.start t.0.span.end (Bare t.0.bytes.now) ∷ self.new.ahead) }
        ensures number { IfSome result (λ t. Reads t.0.bytes.now t.1) }
        ensures input { self.new.input ≡ self.old.input }
        ensures place { IfSome result (λ t. StandsBefore self.new t.0.span) }
    {
        let start = gap_end(self.input, self.at)?;
        if !is_bare(self.input[start]) {
            return None;
        }
        let (end, number) = number_end(self.input, start);
        let bytes = &self.input[start..end];
        self.at = end;
        let span = Span { start, end };
        Some((BareToken { span, bytes }, number))
    }

    /// Whether the next token begins with a quote: it is a text, or an unterminated text. Nothing
    /// is taken.
    #[tactic(auto, using(crate::proofs::Starts::starts_steps))]
    #[inline(always)]
    pub fn is_quoted(&self) -> bool
        ensures { result ≡ starts is_quoted self.now.ahead }
    {
        match gap_end(self.input, self.at) {
            Some(start) => self.input[start] == b'"',
            None => false,
        }
    }

    /// The next token if it is a text.
    // No edit: `Cursor::opening` has one, and proofs of gf_tree rely on this.
    #[tactic(auto, using(crate::proofs::Starts::starts_steps, crate::proofs::TokensAhead::taken))]
    #[inline(always)]
    pub fn text(&mut self) -> Option<TextToken<'a>>
        ensures next { MatchOption result
            ((self.new ≡ self.old) × (starts is_text_token self.old.ahead ≡ false))
            (λ t. self.old.ahead
            ≡ lexeme t.span.start t.span.end (Text (label_of t.label)) ∷ self.new.ahead) }
        ensures input { self.new.input ≡ self.old.input }
        ensures place { IfSome result (λ t. StandsBefore self.new t.span) }
    {
        let start = gap_end(self.input, self.at)?;
        if self.input[start] != b'"' {
            return None;
        }
        let quote = closing_quote(self.input, start)?;
        let label = Label::of_spelling(&self.input[start + 1..quote]);
        let end = quote + 1;
        self.at = end;
        let span = Span { start, end };
        Some(TextToken { span, label })
    }

    /// The place of the next token if it is the text of this label.
    #[tactic(auto, using(crate::proofs::Starts::starts_steps, crate::proofs::TokensAhead::taken))]
    #[inline(always)]
    pub fn text_of(&mut self, label: Label<'_>) -> Option<Span>
        ensures next { MatchOption result
            ((self.new ≡ self.old)
            × (starts (is_text_of (label_of label.entry)) self.old.ahead ≡ false))
            (λ s. self.old.ahead
            ≡ lexeme s.start s.end (Text (label_of label.entry)) ∷ self.new.ahead) }
        ensures input { self.new.input ≡ self.old.input }
        ensures place { IfSome result (λ s. StandsBefore self.new s) }
    {
        let start = gap_end(self.input, self.at)?;
        let end = end_of_label(self.input, start, label)?;
        self.at = end;
        Some(Span { start, end })
    }

    /// The place of the next token if it is an opening brace.
    #[tactic(auto, using(crate::proofs::Starts::starts_steps, crate::proofs::TokensAhead::taken))]
    #[inline(always)]
    pub fn opening(&mut self) -> Option<Span>
        ensures next { MatchOption result
            ((self.new ≡ self.old) × (starts is_opening self.old.ahead ≡ false))
            (λ s. self.old.ahead ≡ lexeme s.start s.end Opening ∷ self.new.ahead) }
        ensures input { self.new.input ≡ self.old.input }
        ensures place { IfSome result (λ s. StandsBefore self.new s) }
    {
        let start = gap_end(self.input, self.at)?;
        if self.input[start] != b'{' {
            return None;
        }
        let end = start + 1;
        self.at = end;
        Some(Span { start, end })
    }

    /// The place of the next token if it is a closing brace.
    // No edit: `Cursor::opening` has one, and proofs of gf_tree rely on this.
    #[tactic(auto, using(crate::proofs::Starts::starts_steps, crate::proofs::TokensAhead::taken))]
    #[inline(always)]
    pub fn closing(&mut self) -> Option<Span>
        ensures next { MatchOption result
            ((self.new ≡ self.old) × (starts is_closing self.old.ahead ≡ false))
            (λ s. self.old.ahead ≡ lexeme s.start s.end Closing ∷ self.new.ahead) }
        ensures input { self.new.input ≡ self.old.input }
        ensures place { IfSome result (λ s. StandsBefore self.new s) }
    {
        let start = gap_end(self.input, self.at)?;
        if self.input[start] != b'}' {
            return None;
        }
        let end = start + 1;
        self.at = end;
        Some(Span { start, end })
    }

    /// The place of the next token if it is a comma.
    // No edit: `Cursor::opening` has one, and proofs of gf_tree rely on this.
    #[tactic(auto, using(crate::proofs::Starts::starts_steps, crate::proofs::TokensAhead::taken))]
    #[inline(always)]
    pub fn comma(&mut self) -> Option<Span>
        ensures next { MatchOption result
            ((self.new ≡ self.old) × (starts is_comma self.old.ahead ≡ false))
            (λ s. self.old.ahead ≡ lexeme s.start s.end Comma ∷ self.new.ahead) }
        ensures input { self.new.input ≡ self.old.input }
        ensures place { IfSome result (λ s. StandsBefore self.new s) }
    {
        let start = gap_end(self.input, self.at)?;
        if self.input[start] != b',' {
            return None;
        }
        let end = start + 1;
        self.at = end;
        Some(Span { start, end })
    }

    /// Takes the next token if it is this word, and says whether it did.
    #[tactic(auto, using(crate::proofs::Starts::starts_steps, crate::proofs::TokensAhead::taken))]
    pub(crate) fn takes_word(&mut self, word: &[u8]) -> bool
        ensures taken { result ≡ true → Takes (is_word word.now) self.old self.new }
        ensures other { result ≡ false
            → (starts (is_word word.now) self.old.ahead ≡ false) × (self.new ≡ self.old) }
    {
        let Some(start) = gap_end(self.input, self.at) else {
            return false;
        };
        if !is_bare(self.input[start]) {
            return false;
        }
        let end = bare_end(self.input, start);
        if &self.input[start..end] != word {
            return false;
        }
        self.at = end;
        true
    }

    /// The next token, whatever it is, or `None` at the end.
    ///
    /// # Errors
    ///
    /// An unterminated text is refused with [`Why::Unterminated`], at its opening quote, and not
    /// taken.
    pub fn next(&mut self) -> Result<Option<Token<'a>>, Fault>
        ensures next { Nexts self.old.ahead result self.new.ahead }
        ensures input { self.new.input ≡ self.old.input }
    {
        let Some(start) = gap_end(self.input, self.at) else {
            return Ok(None);
        };
        let token = token_at(self.input, start)?;
        self.at = token.span.end;
        Ok(Some(token))
    }

    /// The refusal of what comes next, if something else is due: it stands at the next token, or at
    /// the end. An unterminated text is refused with [`Why::Unterminated`] in any case. Nothing is
    /// taken.
    #[cold]
    pub fn refusal(&self, due: Why) -> Fault
        ensures { result ≡ refusal (length self.now.input) due self.now.ahead }
    {
        let Some(start) = gap_end(self.input, self.at) else {
            return Fault::at_end(self.input.len(), due);
        };
        match token_at(self.input, start) {
            Ok(token) => Fault::at(token.span, due),
            Err(broken) => broken,
        }
    }
}
