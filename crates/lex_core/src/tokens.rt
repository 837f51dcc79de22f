//! The tokens of a line.

ghost use Rattle.std.specs.Prelude.{◌≡◌, ◌<◌, ◌≤◌, ◌+◌, [], ◌∷◌, length, not, position, Bool, false, IfOk, IfErr, OnOk, Ok, Err};
ghost use Rattle.lex_core.specs.Lexical.{bare, ended, is_bare, is_blank, tokens};
ghost use Rattle.lex_core.specs.Steps.{past_blanks, with_bytes, with_tokens, IsPastBlanks, Refuses};
ghost use Rattle.lex_core.specs.Lines.{is_skipped};
ghost use Rattle.std.specs.List.{prefix_len};

use crate::bytes::{fault_behind, is_bare, is_blank, touching};
use crate::line::{Token, TokenBytes, Tokens};
use crate::quotes::read_quoted;
use crate::reason::Reason;
use std::alloc::Global;
use sys_abi::memory::OrNoMemory;

/// A line from its first byte on that isn't blank.
#[tactic(auto, unfolding(crate::specs::Steps::past_blanks))]
fn past_blanks(line: &[u8]) -> &[u8]
    ensures { result.now ≡ past_blanks line.now }
{
    let mut rest = line;
    while let Some((&byte, more)) = rest.split_first() {
        if !is_blank(byte) {
            break;
        }
        rest = more;
    }
    rest
}

/// Whether a line has no token, or is a comment.
#[tactic(auto, using(crate::proofs::Readings::skips_byte, crate::proofs::Readings::skips_blanks))]
pub fn is_skipped(line: &[u8]) -> bool
    ensures { result ≡ is_skipped line.now }
{
    match past_blanks(line).split_first() {
        Some((&byte, _)) => byte == b'#',
        None => true,
    }
}

/// How many bytes of a bare token a text begins with.
fn bare_len(text: &[u8]) -> usize
    ensures { result ≡ prefix_len is_bare text.now }
{
    let mut rest = text;
    while let Some((&byte, more)) = rest.split_first() {
        if !is_bare(byte) {
            break;
        }
        rest = more;
    }
    text.len() - rest.len()
}

/// The bytes of the bare token that `text` begins with, and what follows it.
#[tactic(auto, using(crate::proofs::Readings::bare_taken, crate::proofs::Readings::bare_refused, crate::proofs::Readings::prefix_within, crate::proofs::Readings::token_is_some))]
fn read_bare(text: &[u8]) -> Result<(&[u8], &[u8]), Reason>
    requires { IsPastBlanks text.now }
    ensures reading { IfOk result (λ found. bare text.now ≡ with_bytes found.0.now (ended (tokens found.1.now))) }
    ensures shorter { IfOk result (λ found. length found.1.now < length text.now) }
    ensures refused { IfErr result (λ reason. bare text.now ≡ Err reason) }
{
    let (front, rest) = text.split_at(bare_len(text));
    match touching(rest) {
        Some(byte) => Err(fault_behind(byte)),
        None => Ok((front, rest)),
    }
}

/// The token that `text` begins with, and what follows it.
#[tactic(auto, using(crate::proofs::Readings::quoted_read, crate::proofs::Readings::quoted_refused, crate::proofs::Readings::bare_read))]
fn read_token(alloc: Global, text: &[u8]) -> Result<(Token<'_>, &[u8]), OrNoMemory<Reason>>
    requires { IsPastBlanks text.now }
    ensures reading { IfOk result (λ found. tokens text.now ≡ with_tokens (found.0 ∷ []) (tokens found.1.now)) }
    ensures shorter { IfOk result (λ found. length found.1.now < length text.now) }
    ensures refused { IfErr result (λ e. Refuses e (tokens text.now)) }
{
    let Some((&first, inner)) = text.split_first() else {
        unreachable!()
    };
    if first == b'"' {
        let (bytes, rest) = read_quoted(alloc, inner)?;
        Ok((Token::Quoted(bytes), rest))
    } else {
        match read_bare(text) {
            Ok((bytes, rest)) => Ok((Token::Bare(TokenBytes::in_line(bytes)), rest)),
            Err(reason) => Err(OrNoMemory::Refused(reason)),
        }
    }
}

/// The tokens of a line, from left to right, or its first fault. They stand in the memory of `room`, whose tokens go away.
#[tactic(auto, using(crate::proofs::Readings::token_added, crate::proofs::Readings::tokens_refused, crate::proofs::Readings::tokens_begin, crate::proofs::Readings::tokens_end, crate::proofs::Readings::begins_past, crate::proofs::Readings::past_shorter))]
pub fn read_tokens<'a>(
    alloc: Global,
    room: Vec<Token<'a>>,
    line: &'a [u8],
) -> Result<Tokens<'a>, OrNoMemory<Reason>>
    ensures reading { IfOk result (λ found. tokens line.now ≡ Ok found) }
    ensures refused { IfErr result (λ e. Refuses e (tokens line.now)) }
{
    let mut found = room;
    found.clear();
    let mut rest = past_blanks(line);
    while !rest.is_empty() {
        let (token, more) = read_token(alloc, rest)?;
        found.push(token)?;
        rest = past_blanks(more);
    }
    Ok(Tokens::new(found))
}
