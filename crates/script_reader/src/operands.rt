//! The operands of a line, with what the first of them say.

ghost use Rattle.std.specs.Prelude.{◌≡◌};
ghost use Rattle.bpf_filter.specs.Text.{number_at};
ghost use Rattle.script_reader.specs.Operands.{call_in, named_call, number_in, token_bytes};

use crate::operand::begins_number;
use lex_core::{Token, read_number};
use std::marker::Model;
use sys_abi::calls::call_number;

/// The operands of a line, with what the first of them say. Most lines have at most two: the numbers of others are read where
/// they are asked for. Contracts see the tokens.
#[derive(Drop)]
pub struct Operands<'a> {
    tokens: &'a [Token<'a>],
    /// The number that the first one is.
    first: Option<i128>,
    /// The number that the second one is.
    second: Option<i128>,
    /// The call that the first one names.
    call: Option<i32>,
}

impl<'a> Model for Operands<'a> {
    ghost use Rattle.std.specs.Prelude.{◌≡◌, List};
    ghost use Rattle.lex_core.specs.declared.line.Token.{Token};
    ghost use Rattle.script_reader.specs.Operands.{call_in, number_in};

    ghost Value = { List Token };

    ghost view = { λ o. o.tokens.now };

    ghost invariant = { λ o. (o.first ≡ number_in o.tokens.now 0) × (o.second ≡ number_in o.tokens.now 1) × (o.call ≡ call_in o.tokens.now 0) };
}

/// The bytes that a token stands for.
pub fn token_bytes<'a>(token: &'a Token<'_>) -> &'a [u8]
    ensures { result.now ≡ token_bytes token.now }
{
    match token {
        Token::Bare(bytes) => bytes.items(),
        Token::Quoted(bytes) => bytes.items(),
    }
}

/// The number that the token at a place is.
fn number_in(tokens: &[Token<'_>], place: usize) -> Option<i128>
    ensures { result ≡ number_in tokens.now place }
{
    match tokens.get(place) {
        Some(Token::Bare(word)) => read_number(word.items()),
        _ => None,
    }
}

/// The call that is named so. What begins as a number is no name.
fn named_call(name: &[u8]) -> Option<i32>
    ensures { result ≡ named_call name.now }
{
    if begins_number(name) {
        None
    } else {
        call_number(name)
    }
}

/// The call that the token at a place names.
fn call_in(tokens: &[Token<'_>], place: usize) -> Option<i32>
    ensures { result ≡ call_in tokens.now place }
{
    match tokens.get(place) {
        Some(token) => named_call(token_bytes(token)),
        None => None,
    }
}

impl<'a> Operands<'a> {
    /// Reads these tokens.
    pub fn new(tokens: &'a [Token<'a>]) -> Operands<'a>
        ensures { result ≡ tokens.now }
    {
        Operands {
            tokens,
            first: number_in(tokens, 0),
            second: number_in(tokens, 1),
            call: call_in(tokens, 0),
        }
    }

    pub fn tokens(&self) -> &'a [Token<'a>]
        ensures { result.now ≡ self.now }
    {
        self.tokens
    }

    /// The number that the operand at a place is.
    pub fn number(&self, place: usize) -> Option<i128>
        ensures { result ≡ number_in self.now place }
    {
        match place {
            0 => self.first,
            1 => self.second,
            _ => number_in(self.tokens, place),
        }
    }

    /// The number at a place, and 0 where there is none.
    pub fn number_at(&self, place: usize) -> i128
        ensures { result ≡ number_at self.now place }
    {
        self.number(place).unwrap_or(0)
    }

    /// The call that the operand at a place names.
    pub fn call(&self, place: usize) -> Option<i32>
        ensures { result ≡ call_in self.now place }
    {
        if place == 0 {
            self.call
        } else {
            call_in(self.tokens, place)
        }
    }
}
