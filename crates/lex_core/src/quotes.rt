//! Quoted tokens.

ghost use Rattle.std.specs.Prelude.{◌≡◌, ◌<◌, ◌≤◌, length, IfOk, IfErr, OnOk};
ghost use Rattle.lex_core.specs.Lexical as definitions;
ghost use Rattle.lex_core.specs.Lexical.{after, ended, escape, hex, quoted, tokens, with_escape};
ghost use Rattle.lex_core.specs.Steps.{after_escape, after_piece, is_plain, with_bytes, Refuses};
ghost use Rattle.std.specs.List.{prefix_len};

use crate::bytes::{escaped, fault_behind, hex_digit, is_plain, touching};
use crate::line::TokenBytes;
use crate::reason::Reason;
use std::alloc::Global;
use sys_abi::memory::OrNoMemory;

/// The byte of two hexadecimal digits.
fn hex_byte(high: u8, low: u8) -> Option<u8>
    ensures { result ≡ definitions.hex_byte (definitions.hex_digit high) (definitions.hex_digit low) }
{
    Some(hex_digit(high)? * 16 + hex_digit(low)?)
}

/// A byte that an escape stands for, and what follows the escape.
fn escape_of(byte: Option<u8>, rest: &[u8]) -> Result<(u8, &[u8]), Reason>
    ensures reading { with_escape byte (quoted rest.now) ≡ after_escape result }
    ensures rest { IfOk result (λ found. found.1.now ≡ rest.now) }
{
    match byte {
        Some(byte) => Ok((byte, rest)),
        None => Err(Reason::BadQuote),
    }
}

/// The byte that two hexadecimal digits stand for, and what follows them.
#[tactic(auto, unfolding(crate::specs::Lexical::tokens))]
fn hex_escape(text: &[u8]) -> Result<(u8, &[u8]), Reason>
    ensures reading { hex text.now ≡ after_escape result }
    ensures shorter { IfOk result (λ found. length found.1.now < length text.now) }
{
    let Some((&high, rest)) = text.split_first() else {
        return Err(Reason::BadQuote);
    };
    let Some((&low, rest)) = rest.split_first() else {
        return Err(Reason::BadQuote);
    };
    escape_of(hex_byte(high, low), rest)
}

/// The byte that an escape stands for, and what follows it. The backslash stands before `text`.
#[tactic(auto, unfolding(crate::specs::Lexical::tokens))]
fn escape(text: &[u8]) -> Result<(u8, &[u8]), Reason>
    ensures reading { escape text.now ≡ after_escape result }
    ensures shorter { IfOk result (λ found. length found.1.now < length text.now) }
{
    let Some((&letter, rest)) = text.split_first() else {
        return Err(Reason::BadQuote);
    };
    if letter == b'x' {
        return hex_escape(rest);
    }
    escape_of(escaped(letter), rest)
}

/// The next byte of a quoted token, or none where the closing quote comes, and what follows.
#[tactic(auto, unfolding(crate::specs::Lexical::tokens))]
fn piece(text: &[u8]) -> Result<(Option<u8>, &[u8]), Reason>
    ensures reading { quoted text.now ≡ after_piece result }
    ensures shorter { IfOk result (λ found. length found.1.now < length text.now) }
{
    let Some((&byte, rest)) = text.split_first() else {
        return Err(Reason::BadQuote);
    };
    match byte {
        b'"' => Ok((None, rest)),
        b'\\' => {
            let (byte, rest) = escape(rest)?;
            Ok((Some(byte), rest))
        }
        0..=0x1f => Err(Reason::BadQuote),
        _ => Ok((Some(byte), rest)),
    }
}

/// The quoted token before `rest` ends there: a blank or nothing follows.
#[tactic(auto, unfolding(crate::specs::Lexical::tokens))]
fn expect_end(rest: &[u8]) -> Result<(), OrNoMemory<Reason>>
    ensures reading { OnOk result (after rest.now ≡ tokens rest.now) }
    ensures refused { IfErr result (λ e. Refuses e (after rest.now)) }
{
    match touching(rest) {
        Some(byte) => Err(OrNoMemory::Refused(fault_behind(byte))),
        None => Ok(()),
    }
}

/// How many bytes a text within quotes begins with that stand for themselves.
fn plain_len(text: &[u8]) -> usize
    ensures { result ≡ prefix_len is_plain text.now }
{
    let mut rest = text;
    while let Some((&byte, more)) = rest.split_first() {
        if !is_plain(byte) {
            break;
        }
        rest = more;
    }
    text.len() - rest.len()
}

/// The bytes that a text within quotes begins with and that stand for themselves, and what follows them.
#[tactic(auto, using(crate::proofs::Readings::quoted_taken, crate::proofs::Readings::prefix_within))]
fn split_plain(text: &[u8]) -> (&[u8], &[u8])
    ensures reading { quoted text.now ≡ with_bytes result.0.now (quoted result.1.now) }
    ensures shorter { length result.1.now ≤ length text.now }
{
    text.split_at(plain_len(text))
}

/// The bytes that a quoted token with escapes stands for, and what follows it. Before `text` stand the opening quote and these
/// first bytes of it.
#[tactic(auto, using(crate::proofs::Readings::plain_added))]
fn read_escaped<'a>(
    alloc: Global,
    first: &[u8],
    text: &'a [u8],
) -> Result<(Vec<u8>, &'a [u8]), OrNoMemory<Reason>>
    ensures reading { IfOk result (λ found. with_bytes first.now (quoted text.now) ≡ with_bytes found.0.items (ended (tokens found.1.now))) }
    ensures shorter { IfOk result (λ found. length found.1.now < length text.now) }
    ensures refused { IfErr result (λ e. Refuses e (quoted text.now)) }
{
    let mut bytes = Vec::from_slice(alloc, first)?;
    let mut rest = text;
    loop {
        let (byte, next) = piece(rest).map_err(OrNoMemory::Refused)?;
        let Some(byte) = byte else {
            expect_end(next)?;
            return Ok((bytes, next));
        };
        bytes.push(byte)?;
        let (plain, more) = split_plain(next);
        bytes.extend_from_slice(plain)?;
        rest = more;
    }
}

/// The bytes that a quoted token stands for, and what follows it. The opening quote stands before `text`. They are a piece of
/// it where no escape is among them.
#[tactic(auto, using(crate::proofs::Readings::plain_closed, crate::proofs::Readings::plain_refused))]
pub fn read_quoted(
    alloc: Global,
    text: &[u8],
) -> Result<(TokenBytes<'_>, &[u8]), OrNoMemory<Reason>>
    ensures reading { IfOk result (λ found. quoted text.now ≡ with_bytes found.0 (ended (tokens found.1.now))) }
    ensures shorter { IfOk result (λ found. length found.1.now < length text.now) }
    ensures refused { IfErr result (λ e. Refuses e (quoted text.now)) }
{
    let (plain, rest) = split_plain(text);
    if let Some((b'"', behind)) = rest.split_first() {
        expect_end(behind)?;
        return Ok((TokenBytes::in_line(plain), behind));
    }
    let (bytes, behind) = read_escaped(alloc, plain, rest)?;
    Ok((TokenBytes::own(bytes), behind))
}
