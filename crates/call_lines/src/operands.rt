//! What a token means where a call has an operand.

ghost use Rattle.std.specs.Prelude.{◌≡◌, ◌≤◌, ◌==◌, IfOk, IfSome, Ok, Some, map};
ghost use Rattle.std.specs.List.{list_any};
ghost use Rattle.hist_model.specs.RuleParts.{call_of_flag};
ghost use Rattle.policy_reader.specs.Conditions.{HasSmallNumbers};
ghost use Rattle.call_lines.specs.Operands as definitions;
ghost use Rattle.call_lines.specs.Readings.{Gives};

use crate::readings::{Reading, known, refused};
use hist_model::policy::{Cond, Flag};
use hist_model::request::Kind;
use hist_model::text::Text;
use lex_core::{Reason, Token, read_number};
use policy_reader::texts::{behind, items_of};
use policy_reader::{device_of, flag_named, kind_named};
use std::alloc::Global;
use sys_abi::calls;
use sys_abi::calls::call_name;
use sys_abi::device::makedev;
use sys_abi::wire::AT_FDCWD;

/// The greatest mode without a kind.
const PERMISSIONS: i32 = 0o7777;

/// A text of these bytes.
fn copied(alloc: Global, bytes: &[u8]) -> Reading<Text>
    ensures { Gives result (Ok bytes.now) }
{
    Ok(Text::new(Vec::from_slice(alloc, bytes)?))
}

/// Reads any bytes, between quotes.
pub fn read_bytes(alloc: Global, token: &Token<'_>) -> Reading<Text>
    ensures { Gives result (definitions.bytes token.now) }
{
    match token {
        Token::Quoted(text) => copied(alloc, text.items()),
        Token::Bare(_) => refused(Reason::WrongForm),
    }
}

/// Whether a zero byte is among these.
fn has_zero(bytes: &[u8]) -> bool
    ensures { result ≡ list_any (λ b. b == 0) bytes.now }
{
    bytes.iter().any(|b| *b == 0)
}

/// Reads a text that ends at a zero byte in the caller's memory, so that it has none of its own.
pub fn read_text(alloc: Global, token: &Token<'_>) -> Reading<Text>
    ensures { Gives result (definitions.text token.now) }
{
    let text = read_bytes(alloc, token)?;
    if has_zero(text.items()) {
        return refused(Reason::OutOfRange);
    }
    Ok(text)
}

/// The number, where it lies between these two or is one of them.
fn within(low: i32, high: i32, number: Option<i128>) -> Reading<i32>
    ensures { Gives result (definitions.within low high number) }
{
    match number {
        Some(number) => {
            if i128::from(low) <= number && number <= i128::from(high) {
                Ok(number as i32)
            } else {
                refused(Reason::OutOfRange)
            }
        }
        None => refused(Reason::BadNumber),
    }
}

/// The descriptor that a word is.
fn descriptor_of(word: &[u8]) -> Reading<i32>
    ensures { Gives result (definitions.descriptor_of word.now) }
{
    if word == b"AT_FDCWD".as_slice() {
        return Ok(AT_FDCWD);
    }
    within(-i32::MAX - 1, i32::MAX, read_number(word))
}

/// Reads the descriptor of a directory.
pub fn read_descriptor(token: &Token<'_>) -> Reading<i32>
    ensures { Gives result (definitions.descriptor token.now) }
{
    match token {
        Token::Bare(word) => descriptor_of(word.items()),
        Token::Quoted(_) => refused(Reason::WrongForm),
    }
}

/// The number of a call, where it has no name.
fn unnamed(nr: i32) -> Reading<i32>
    ensures { Gives result (definitions.unnamed nr) }
{
    if call_name(nr).is_some() {
        refused(Reason::OutOfRange)
    } else {
        Ok(nr)
    }
}

/// Reads the number of a call that has no name.
pub fn read_call_number(token: &Token<'_>) -> Reading<i32>
    ensures { Gives result (definitions.call_number token.now) }
{
    match token {
        Token::Bare(word) => unnamed(within(0, i32::MAX, read_number(word.items()))?),
        Token::Quoted(_) => refused(Reason::WrongForm),
    }
}

/// Reads the kind of a node.
pub fn read_kind(token: &Token<'_>) -> Reading<Kind>
    ensures { Gives result (definitions.kind token.now) }
{
    match token {
        Token::Bare(word) => known(kind_named(word.items())),
        Token::Quoted(_) => refused(Reason::WrongForm),
    }
}

/// The number of the device that a condition is on.
fn device_numbered(cond: Option<Cond>) -> Reading<u32>
    requires { IfSome cond HasSmallNumbers }
    ensures { Gives result (definitions.device_numbered cond) }
{
    match cond {
        Some(Cond::Dev(major, minor)) => Ok(makedev(major, minor)),
        _ => refused(Reason::BadNumber),
    }
}

/// Reads the number of a device.
pub fn read_device(token: &Token<'_>) -> Reading<u32>
    ensures { Gives result (definitions.device token.now) }
{
    match token {
        Token::Bare(word) => device_numbered(device_of(word.items())),
        Token::Quoted(_) => refused(Reason::WrongForm),
    }
}

/// The permission bits that these digits are.
fn permissions_of(digits: &[u8]) -> Reading<u16>
    ensures value { Gives result (definitions.permissions_of (Some digits.now)) }
    ensures bound { IfOk result (λ n. n ≤ 4095) }
{
    let number = within(0, PERMISSIONS, read_number(digits))?;
    Ok(number as u16)
}

/// Reads the permission bits of a mode.
pub fn read_permissions(token: &Token<'_>) -> Reading<u16>
    ensures value { Gives result (definitions.permissions token.now) }
    ensures bound { IfOk result (λ n. n ≤ 4095) }
{
    match token {
        Token::Bare(word) => match behind(b"mode=", word.items()) {
            Some(digits) => permissions_of(digits),
            None => refused(Reason::UnknownName),
        },
        Token::Quoted(_) => refused(Reason::WrongForm),
    }
}

/// The call that a flag is of, and its bit.
fn call_and_bit(flag: Flag) -> (i32, u64)
    ensures call { result.0 ≡ call_of_flag flag }
    ensures bit { result.1 ≡ definitions.bit_of flag }
{
    match flag {
        Flag::Mount(bit) => (calls::MOUNT, bit),
        Flag::Attribute(bit) => (calls::SETXATTR, u64::from(bit)),
    }
}

/// The bit of a flag, where it is one of this call.
fn bit_for(nr: i32, flag: Flag) -> Option<u64>
    ensures { result ≡ definitions.bit_for nr flag }
{
    let (call, bit) = call_and_bit(flag);
    if call == nr { Some(bit) } else { None }
}

/// The bit of the flag of this name, where it is one of this call.
fn bit_named(nr: i32, name: &[u8]) -> Reading<u64>
    ensures { Gives result (definitions.bit_named nr name.now) }
{
    match flag_named(name) {
        Some(flag) => known(bit_for(nr, flag)),
        None => refused(Reason::UnknownName),
    }
}

/// The bits of the flags of these names.
fn bits_of(nr: i32, names: &[&[u8]]) -> Reading<u64>
    ensures { Gives result (definitions.bits_with nr 0 (map (λ name. name.now) names.now)) }
{
    let mut bits = 0;
    for name in names {
        bits |= bit_named(nr, name)?;
    }
    Ok(bits)
}

/// The bits of the flags that a word names.
fn flags_of(alloc: Global, nr: i32, word: &[u8]) -> Reading<u64>
    ensures { Gives result (definitions.flags_of nr word.now) }
{
    if word == b"-".as_slice() {
        return Ok(0);
    }
    let names = items_of(alloc, word)?;
    bits_of(nr, names.as_slice())
}

/// Reads flags of this call.
pub fn read_flags(alloc: Global, nr: i32, token: &Token<'_>) -> Reading<u64>
    ensures { Gives result (definitions.flags nr token.now) }
{
    match token {
        Token::Bare(word) => flags_of(alloc, nr, word.items()),
        Token::Quoted(_) => refused(Reason::WrongForm),
    }
}
