//! What stands before the token at which a file is refused.

use gf_token::{Cursor, Kind, Token, read_index};

/// A number that is neither a payoff nor a probability.
#[derive(Clone, Copy)]
pub enum Index {
    Player,
    InformationSet,
    NodeOutcome,
    /// How many strategies a player has.
    Strategies,
    ProfileOutcome,
}

/// What stands before the token at which a file is refused. Nothing of it is refused.
#[derive(Clone, Copy)]
pub struct Context<'a> {
    /// Whether the file is extensive.
    pub is_tree: bool,
    pub last: Option<Token<'a>>,
    pub second_last: Option<Token<'a>>,
    /// How many braces are open.
    pub open: usize,
    /// How many groups in braces are complete.
    groups: usize,
    pub players: usize,
    /// Of a strategic file, the product of the counts of strategies.
    pub profiles: usize,
    /// Of a strategic file, how many labels the list of strategies has that was begun last.
    labels: usize,
    /// How many bare tokens stand behind the players, outside braces: in a strategic file, these
    /// are the numbers of the body.
    pub numbers: usize,
    /// Of a tree, the letter of the node that was begun last, and 0 before the first.
    letter: u8,
    /// How many numbers of this node are read, as if each began with those of a player and a set.
    read: usize,
}

/// Whether a token is this word.
fn is_word(token: Token<'_>, word: &[u8]) -> bool {
    match token.kind {
        Kind::Bare(bytes) => bytes == word,
        _ => false,
    }
}

impl<'a> Context<'a> {
    fn at_start() -> Context<'a> {
        Context {
            is_tree: false,
            last: None,
            second_last: None,
            open: 0,
            groups: 0,
            players: 0,
            profiles: 1,
            labels: 0,
            numbers: 0,
            letter: 0,
            read: 0,
        }
    }

    /// What stands before the token that follows this one.
    fn after(self, token: Token<'a>) -> Context<'a> {
        let counted = match token.kind {
            Kind::Opening => self.after_opening(),
            Kind::Closing => self.after_closing(),
            Kind::Text(_) => self.after_text(),
            Kind::Bare(bytes) => self.after_bare(bytes),
            Kind::Comma => self,
        };
        Context {
            is_tree: match self.last {
                None => is_word(token, b"EFG"),
                Some(_) => self.is_tree,
            },
            last: Some(token),
            second_last: self.last,
            ..counted
        }
    }

    fn after_opening(self) -> Context<'a> {
        Context {
            open: self.open.saturating_add(1),
            labels: 0,
            ..self
        }
    }

    fn after_closing(self) -> Context<'a> {
        let ends_list = self.groups == 1 && self.open == 2;
        Context {
            open: self.open.saturating_sub(1),
            groups: self.groups.saturating_add(usize::from(self.open == 1)),
            profiles: if ends_list {
                self.profiles.saturating_mul(self.labels)
            } else {
                self.profiles
            },
            ..self
        }
    }

    fn after_text(self) -> Context<'a> {
        let is_player = self.groups == 0 && self.open == 1;
        Context {
            players: self.players.saturating_add(usize::from(is_player)),
            labels: self.labels.saturating_add(1),
            ..self
        }
    }

    fn after_bare(self, bytes: &[u8]) -> Context<'a> {
        let is_number = self.groups > 0 && self.open == 0;
        let is_count = self.groups == 1 && self.open == 1;
        let count = match read_index(bytes) {
            Ok(count) if is_count => count as usize,
            _ => 1,
        };
        let node = if is_number { self.in_node(bytes) } else { self };
        Context {
            profiles: self.profiles.saturating_mul(count),
            numbers: self.numbers.saturating_add(usize::from(is_number)),
            ..node
        }
    }

    /// What stands after the letter or a number of a node.
    fn in_node(self, bytes: &[u8]) -> Context<'a> {
        match bytes {
            b"p" => Context {
                letter: b'p',
                read: 0,
                ..self
            },
            b"c" => Context {
                letter: b'c',
                read: 1,
                ..self
            },
            b"t" => Context {
                letter: b't',
                read: 2,
                ..self
            },
            _ => Context {
                read: self.read.saturating_add(1),
                ..self
            },
        }
    }

    /// The number that is due, where one is due.
    pub fn due(&self) -> Index {
        if self.is_in_strategies() {
            Index::Strategies
        } else if !self.is_tree {
            Index::ProfileOutcome
        } else {
            match self.read {
                0 => Index::Player,
                1 => Index::InformationSet,
                _ => Index::NodeOutcome,
            }
        }
    }

    /// Whether the number of a set is the last one of its node so far.
    pub fn is_at_set(&self) -> bool {
        self.is_tree && self.groups > 0 && self.letter != b't' && self.read == 2
    }

    /// Whether the actions of a set are begun and not complete.
    pub fn is_in_actions(&self) -> bool {
        self.is_at_set() && self.open == 1
    }

    /// Whether the last token is the letter of a node.
    pub fn ends_in_letter(&self) -> bool {
        let is_at_node = self.is_tree && self.numbers > 0 && self.open == 0;
        is_at_node && matches!(self.last_bare(), Some(b"c" | b"p" | b"t"))
    }

    /// Whether the last token is a payoff or a probability.
    pub fn ends_in_value(&self) -> bool {
        let has_values = if self.is_tree {
            self.open > 0
        } else {
            self.groups == 2
        };
        has_values && self.last_bare().is_some()
    }

    /// Whether the node that was begun last is one of chance.
    pub fn is_chance(&self) -> bool {
        self.letter == b'c'
    }

    /// Whether the last token is a text.
    pub fn ends_in_text(&self) -> bool {
        is_text(self.last)
    }

    /// Whether the last token is a closing brace.
    pub fn ends_in_closing(&self) -> bool {
        match self.last {
            Some(token) => matches!(token.kind, Kind::Closing),
            None => false,
        }
    }

    /// The last token if it is bare.
    pub fn last_bare(&self) -> Option<&'a [u8]> {
        match self.last {
            Some(
                Token {
                    kind: Kind::Bare(bytes),
                    ..
                },
            ) => Some(bytes),
            _ => None,
        }
    }

    /// Whether the last token is the comment of a file.
    pub fn ends_in_comment(&self) -> bool {
        let after_group = match self.second_last {
            Some(token) => matches!(token.kind, Kind::Closing),
            None => false,
        };
        self.ends_in_text() && after_group && self.open == 0
    }

    /// Whether the strategies of a strategic file are begun and not complete.
    pub fn is_in_strategies(&self) -> bool {
        !self.is_tree && self.groups == 1
    }

    /// Whether the outcomes of a strategic file are complete.
    pub fn has_outcomes(&self) -> bool {
        self.groups > 2
    }
}

fn is_text(token: Option<Token<'_>>) -> bool {
    match token {
        Some(token) => matches!(token.kind, Kind::Text(_)),
        None => false,
    }
}

/// What stands before the token that follows these bytes.
pub fn context_of(before: &[u8]) -> Context<'_> {
    let mut cursor = Cursor::new(before);
    let mut context = Context::at_start();
    // A token has a byte or more, so these are enough turns.
    for _ in 0..before.len() {
        match cursor.next() {
            Ok(Some(token)) => context = context.after(token),
            _ => break,
        }
    }
    context
}
