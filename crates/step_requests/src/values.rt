//! The values of a line's operands.

ghost use Rattle.std.specs.Prelude.{◌≡◌, IfOk};
ghost use Rattle.step_requests.specs.Requests as definitions;

use hist_model::text::Text;
use lex_core::{Token, read_number};
use std::alloc::{AllocError, Global};

/// The bytes that a token stands for.
fn token_bytes<'a>(token: &'a Token<'_>) -> &'a [u8]
    ensures { result.now ≡ definitions.token_bytes token.now }
{
    match token {
        Token::Bare(word) => word.items(),
        Token::Quoted(bytes) => bytes.items(),
    }
}

/// The bytes of the token at a place; none behind the last one.
pub fn bytes_at<'a>(line: &'a [Token<'_>], place: usize) -> &'a [u8]
    ensures { result.now ≡ definitions.bytes_at line.now place }
{
    match line.get(place) {
        Some(token) => token_bytes(token),
        None => &[],
    }
}

/// A copy of the bytes of the token at a place; none behind the last one.
pub fn text_at(alloc: Global, line: &[Token<'_>], place: usize) -> Result<Text, AllocError>
    ensures { IfOk result (λ text. text ≡ definitions.bytes_at line.now place) }
{
    Ok(Text::new(Vec::from_slice(alloc, bytes_at(line, place))?))
}

/// The number that is written at a place, and 0 where there is none.
fn number_at(line: &[Token<'_>], place: usize) -> i128
    ensures { result ≡ definitions.number_at line.now place }
{
    read_number(bytes_at(line, place)).unwrap_or(0)
}

/// The number of a worker, where it is at most 15.
pub fn worker_at(line: &[Token<'_>]) -> Option<u8>
    ensures { result ≡ definitions.worker_at line.now }
{
    match u8::try_from(number_at(line, 1)) {
        Ok(number) if number < 16 => Some(number),
        _ => None,
    }
}

/// The number of 16 bits at a place, and 0 where there is none.
pub fn half_at(line: &[Token<'_>], place: usize) -> u16
    ensures { result ≡ definitions.half_at line.now place }
{
    u16::try_from(number_at(line, place)).unwrap_or(0)
}

/// The number of 32 bits at a place, and 0 where there is none.
pub fn word_at(line: &[Token<'_>], place: usize) -> u32
    ensures { result ≡ definitions.word_at line.now place }
{
    u32::try_from(number_at(line, place)).unwrap_or(0)
}

/// The number of 64 bits at a place, and 0 where there is none.
pub fn wide_at(line: &[Token<'_>], place: usize) -> u64
    ensures { result ≡ definitions.wide_at line.now place }
{
    u64::try_from(number_at(line, place)).unwrap_or(0)
}

/// The number with a sign of 32 bits at a place, and 0 where there is none.
pub fn signed_word_at(line: &[Token<'_>], place: usize) -> i32
    ensures { result ≡ definitions.signed_word_at line.now place }
{
    let number = number_at(line, place);
    if i32::MIN as i128 <= number && number <= i32::MAX as i128 {
        number as i32
    } else {
        0
    }
}

/// The number with a sign of 64 bits at a place, and 0 where there is none.
pub fn signed_wide_at(line: &[Token<'_>], place: usize) -> i64
    ensures { result ≡ definitions.signed_wide_at line.now place }
{
    let number = number_at(line, place);
    if i64::MIN as i128 <= number && number <= i64::MAX as i128 {
        number as i64
    } else {
        0
    }
}

/// The bytes of a structure that are written in hex at a place; zeros where there are none.
pub fn structure_at<const N: usize>(line: &[Token<'_>], place: usize) -> [u8; N]
    ensures { result ≡ definitions.structure_at N line.now place }
{
    let mut bytes = [0; N];
    match hex::decode_to_slice(bytes_at(line, place), &mut bytes) {
        Ok(()) => bytes,
        Err(_) => [0; N],
    }
}
