//! The lines of a script, one by one.

ghost use Rattle.std.specs.Prelude.{◌≡◌, ◌<◌, ◌≤◌, ◌+◌, ◌^◌, [], ◌∷◌, length, IfOk, IfErr, OnErr, IfSome, IfNone, false, position, ◌==◌};
ghost use Rattle.lex_core.specs.Lines.{is_skipped, lines_after, split, without_return};
ghost use Rattle.lex_core.specs.Given.{refused_at, GivesFirst, RefusesFirst};

use crate::line::{Line, Token, Tokens};
use crate::reason::{LexError, Reason};
use crate::tokens::{is_skipped, read_tokens};
use std::alloc::Global;
use std::marker::Model;
use std::mem;
use sys_abi::memory::OrNoMemory;

/// The lines of a script that have tokens, from the first on. Contracts see those that are left, each with
/// its number.
#[derive(Drop)]
pub struct Lines<'a> {
    alloc: Global,
    rest: &'a [u8],
    /// How many lines stand before `rest`.
    number: u32,
    /// Memory for the tokens of the next line.
    room: Vec<Token<'a>>,
}

impl<'a> Model for Lines<'a> {
    ghost use Rattle.std.specs.Prelude.{◌<◌, ◌+◌, ◌^◌, List, length};
    ghost use Rattle.lex_core.specs.Lines.{Numbered, lines_after};

    ghost Value = { List Numbered };

    ghost view = { λ l. lines_after l.number l.rest.now };

    ghost invariant = { λ l. l.number + length l.rest.now < 2 ^ 32 };
}

/// A line without its end, its number, and the bytes after it.
struct Found<'a> {
    number: u32,
    line: &'a [u8],
    rest: &'a [u8],
}

/// A line without the byte 13 at its end.
#[tactic(auto, using(crate::proofs::Splits::return_dropped, crate::proofs::Splits::return_missing, crate::proofs::Splits::return_empty))]
fn without_return(line: &[u8]) -> &[u8]
    ensures { result.now ≡ without_return line.now }
{
    match line.split_last() {
        Some((&last, front)) if last == b'\r' => front,
        _ => line,
    }
}

/// The place of the first line end.
fn line_end(text: &[u8]) -> Option<usize>
    ensures { result ≡ position (λ b. b == 10) text.now }
{
    text.iter().position(|byte| *byte == b'\n')
}

/// The bytes up to the first line end, and those after it.
#[tactic(auto, using(crate::proofs::Splits::split_place, crate::proofs::Splits::place_within, crate::proofs::Splits::split_last))]
fn split_line(text: &[u8]) -> (&[u8], &[u8])
    requires { 0 < length text.now }
    ensures lines { split text.now ≡ result.0.now ∷ split result.1.now }
    ensures shorter { length result.1.now < length text.now }
{
    match line_end(text) {
        Some(end) => (&text[..end], &text[end + 1..]),
        None => (text, &[]),
    }
}

/// The first line that isn't skipped, where `before` lines stand before `text`.
#[tactic(auto, using(crate::proofs::Splits::line_kept, crate::proofs::Splits::line_passed, crate::proofs::Splits::numbered_end))]
fn first_line(before: u32, text: &[u8]) -> Option<Found<'_>>
    requires { before + length text.now < 2 ^ 32 }
    ensures none { IfNone result (lines_after before text.now ≡ []) }
    ensures found { IfSome result (λ f. lines_after before text.now ≡ record { number = f.number; bytes = f.line.now } ∷ lines_after f.number f.rest.now) }
    ensures kept { IfSome result (λ f. is_skipped f.line.now ≡ false) }
    ensures bound { IfSome result (λ f. f.number + length f.rest.now < 2 ^ 32) }
{
    let mut number = before;
    let mut rest = text;
    while !rest.is_empty() {
        let (whole, more) = split_line(rest);
        let line = without_return(whole);
        number += 1;
        rest = more;
        if !is_skipped(line) {
            return Some(Found { number, line, rest });
        }
    }
    None
}

/// The refusal of a line with this number.
fn refused_at(line: u32, cause: OrNoMemory<Reason>) -> OrNoMemory<LexError>
    ensures { result ≡ refused_at line cause }
{
    match cause {
        OrNoMemory::Refused(reason) => OrNoMemory::Refused(LexError { line, reason }),
        OrNoMemory::NoMemory => OrNoMemory::NoMemory,
    }
}

impl<'a> Lines<'a> {
    /// The lines of these bytes, the first of which has the number 1.
    pub fn new(alloc: Global, bytes: &'a [u8]) -> Lines<'a>
        requires { length bytes.now < 2 ^ 32 }
        ensures { result ≡ lines_after 0 bytes.now }
    {
        Lines {
            alloc,
            rest: bytes,
            number: 0,
            room: Vec::new(alloc),
        }
    }

    /// The next line that has tokens: None at the end of the file.
    ///
    /// `BadByte` and `BadQuote` come where they are the first fault of that line, with its number. After
    /// an error the line is still the next one.
    #[tactic(auto, using(crate::proofs::Splits::first_refused, crate::proofs::Readings::tokens_some))]
    pub fn next(&mut self) -> Result<Option<Line<'a>>, OrNoMemory<LexError>>
        ensures line { IfOk result (λ line. GivesFirst self.old line self.new) }
        ensures some { IfOk result (λ line. IfSome line (λ l. 0 < length l.tokens)) }
        ensures refused { IfErr result (λ e. RefusesFirst self.old e) }
        ensures unchanged { OnErr result (self.new ≡ self.old) }
    {
        let Some(found) = first_line(self.number, self.rest) else {
            return Ok(None);
        };
        let Found { number, line, rest } = found;
        let room = mem::replace(&mut self.room, Vec::new(self.alloc));
        match read_tokens(self.alloc, room, line) {
            Ok(tokens) => {
                self.number = number;
                self.rest = rest;
                Ok(Some(Line { number, tokens }))
            }
            Err(cause) => Err(refused_at(number, cause)),
        }
    }

    /// Takes back the tokens of a line that was read: the next line's stand in their memory.
    pub fn reuse(&mut self, tokens: Tokens<'a>)
        ensures { self.new ≡ self.old }
    {
        self.room = tokens.into_items();
    }
}
