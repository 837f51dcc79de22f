//! What single bytes of a line are for.

ghost use Rattle.std.specs.Prelude.{◌≡◌, IfNone};
ghost use Rattle.lex_core.specs.Lexical.{begins_token, escaped, fault_behind, hex_digit, is_bare, is_blank};
ghost use Rattle.lex_core.specs.Steps.{is_plain, touching, EndsToken};

use crate::reason::Reason;

/// The bit of the bytes that may stand in a bare token.
const BARE: u8 = 1;

/// The bit of the bytes that stand for themselves within quotes.
const PLAIN: u8 = 2;

/// Of each byte, the bits that it has. The loops over a line's bytes look it up, in place of four comparisons.
const CLASSES: [u8; 256] = [
    0, 0, 0, 0, 0, 0, 0, 0, 0, 0, 0, 0, 0, 0, 0, 0, 0, 0, 0, 0, 0, 0, 0, 0, 0, 0, 0, 0, 0, 0, 0, 0,
    2, 3, 0, 3, 3, 3, 3, 3, 3, 3, 3, 3, 3, 3, 3, 3, 3, 3, 3, 3, 3, 3, 3, 3, 3, 3, 3, 3, 3, 3, 3, 3,
    3, 3, 3, 3, 3, 3, 3, 3, 3, 3, 3, 3, 3, 3, 3, 3, 3, 3, 3, 3, 3, 3, 3, 3, 3, 3, 3, 3, 0, 3, 3, 3,
    3, 3, 3, 3, 3, 3, 3, 3, 3, 3, 3, 3, 3, 3, 3, 3, 3, 3, 3, 3, 3, 3, 3, 3, 3, 3, 3, 3, 3, 3, 3, 2,
    2, 2, 2, 2, 2, 2, 2, 2, 2, 2, 2, 2, 2, 2, 2, 2, 2, 2, 2, 2, 2, 2, 2, 2, 2, 2, 2, 2, 2, 2, 2, 2,
    2, 2, 2, 2, 2, 2, 2, 2, 2, 2, 2, 2, 2, 2, 2, 2, 2, 2, 2, 2, 2, 2, 2, 2, 2, 2, 2, 2, 2, 2, 2, 2,
    2, 2, 2, 2, 2, 2, 2, 2, 2, 2, 2, 2, 2, 2, 2, 2, 2, 2, 2, 2, 2, 2, 2, 2, 2, 2, 2, 2, 2, 2, 2, 2,
    2, 2, 2, 2, 2, 2, 2, 2, 2, 2, 2, 2, 2, 2, 2, 2, 2, 2, 2, 2, 2, 2, 2, 2, 2, 2, 2, 2, 2, 2, 2, 2,
];

/// Whether a byte separates tokens: a space or a tab.
pub fn is_blank(byte: u8) -> bool
    ensures { result ≡ is_blank byte }
{
    byte == b' ' || byte == b'\t'
}

/// Whether a byte may stand in a bare token.
#[tactic(auto, using(crate::proofs::Classes::bare_class))]
pub fn is_bare(byte: u8) -> bool
    ensures { result ≡ is_bare byte }
{
    CLASSES[byte as usize] & BARE != 0
}

/// Whether a byte within quotes stands for itself.
#[tactic(auto, using(crate::proofs::Classes::plain_class))]
pub fn is_plain(byte: u8) -> bool
    ensures { result ≡ is_plain byte }
{
    CLASSES[byte as usize] & PLAIN != 0
}

/// The byte that a backslash and this letter stand for.
pub fn escaped(letter: u8) -> Option<u8>
    ensures { result ≡ escaped letter }
{
    match letter {
        b'0' => Some(0),
        b'n' => Some(b'\n'),
        b'\\' => Some(b'\\'),
        b'"' => Some(b'"'),
        _ => None,
    }
}

/// The value of a hexadecimal digit, with letters of either case.
pub fn hex_digit(digit: u8) -> Option<u8>
    ensures { result ≡ hex_digit digit }
{
    match digit {
        b'0'..=b'9' => Some(digit - b'0'),
        b'a'..=b'f' => Some(digit - b'a' + 10),
        b'A'..=b'F' => Some(digit - b'A' + 10),
        _ => None,
    }
}

/// The byte that stands where a token has to end. None where a blank follows, or nothing.
pub fn touching(rest: &[u8]) -> Option<u8>
    ensures byte { result ≡ touching rest.now }
    ensures none { IfNone result (EndsToken rest.now) }
{
    match rest.split_first() {
        Some((&byte, _)) if !is_blank(byte) => Some(byte),
        _ => None,
    }
}

/// Whether a byte begins a token.
fn begins_token(byte: u8) -> bool
    ensures { result ≡ begins_token byte }
{
    is_bare(byte) || byte == b'"'
}

/// What is wrong with a byte, no blank, that stands where a token has to end.
pub fn fault_behind(byte: u8) -> Reason
    ensures { result ≡ fault_behind byte }
{
    if begins_token(byte) {
        Reason::BadQuote
    } else {
        Reason::BadByte
    }
}
