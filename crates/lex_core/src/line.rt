//! Lines that were read, and their tokens.

ghost use Rattle.std.specs.Prelude.{◌≡◌};

use std::marker::Model;

/// Where the bytes of a token stand.
#[derive(Debug, Drop)]
enum Stored<'a> {
    /// In the line: no escape is among them.
    InLine(&'a [u8]),
    /// In memory of their own.
    Own(Vec<u8>),
}

/// The bytes that a token stands for: a piece of its line, or bytes of their own where an escape stands for one of them.
/// Contracts see them as a list.
#[derive(Debug, Drop)]
pub struct TokenBytes<'a> {
    bytes: Stored<'a>,
}

impl<'a> Model for TokenBytes<'a> {
    ghost use Rattle.std.specs.Prelude.{ℕ, List};
    ghost use Rattle.lex_core.specs.Stored.{bytes_in};

    ghost Value = { List ℕ };

    ghost view = { λ t. bytes_in t.bytes };
}

impl<'a> TokenBytes<'a> {
    /// These bytes of a line.
    pub fn in_line(bytes: &'a [u8]) -> TokenBytes<'a>
        ensures { result ≡ bytes.now }
    {
        TokenBytes {
            bytes: Stored::InLine(bytes),
        }
    }

    /// Bytes of their own.
    pub fn own(bytes: Vec<u8>) -> TokenBytes<'a>
        ensures { result ≡ bytes.items }
    {
        TokenBytes {
            bytes: Stored::Own(bytes),
        }
    }

    /// The bytes.
    pub fn items(&self) -> &[u8]
        ensures { result.now ≡ self.now }
    {
        match &self.bytes {
            Stored::InLine(bytes) => bytes,
            Stored::Own(bytes) => bytes.as_slice(),
        }
    }
}

/// A token of a line.
#[derive(Debug, Drop)]
pub enum Token<'a> {
    /// A word or a number: the bytes as they stand in the line, at least one.
    Bare(TokenBytes<'a>),
    /// A text between quotes: the bytes that it stands for, without the quotes, each escape being the
    /// byte that it names. There may be none.
    Quoted(TokenBytes<'a>),
}

/// The tokens of a line, from left to right. Contracts see them as a list.
#[derive(Debug, Drop)]
pub struct Tokens<'a> {
    tokens: Vec<Token<'a>>,
}

impl<'a> Model for Tokens<'a> {
    ghost use Rattle.std.specs.Prelude.{List};
    ghost use Rattle.lex_core.specs.declared.line.Token.{Token};

    ghost Value = { List Token };

    ghost view = { λ t. t.tokens.items };
}

impl<'a> Tokens<'a> {
    /// These tokens.
    pub fn new(tokens: Vec<Token<'a>>) -> Tokens<'a>
        ensures { result ≡ tokens.entry.items }
    {
        Tokens { tokens }
    }

    /// The tokens.
    pub fn items(&self) -> &[Token<'a>]
        ensures { result.now ≡ self.now }
    {
        self.tokens.as_slice()
    }

    /// The tokens, given back without taking memory.
    pub fn into_items(self) -> Vec<Token<'a>>
        ensures { result.items ≡ self.entry }
    {
        let Tokens { tokens } = self;
        tokens
    }
}

/// A line that has tokens.
#[derive(Debug, Drop)]
pub struct Line<'a> {
    /// The number of the line in its file, from 1. Lines without tokens count too.
    pub number: u32,
    /// At least one.
    pub tokens: Tokens<'a>,
}
