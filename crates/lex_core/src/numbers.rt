//! Numbers among the tokens of a script.

ghost use Rattle.std.specs.Prelude.{◌≡◌, ◌<◌, ◌≤◌, ◌^◌, length, pos, IfSome};
ghost use Rattle.lex_core.specs.Numbers as definitions;

use crate::bytes::hex_digit;

/// A base, the most digits that a number of it has, and the digits of a number.
struct Form<'a> {
    base: u8,
    most: usize,
    digits: &'a [u8],
}

/// The value of a digit of a base.
fn digit_value(base: u8, digit: u8) -> Option<u8>
    ensures value { result ≡ definitions.digit_value base digit }
    ensures below { IfSome result (λ value. value < base) }
{
    match hex_digit(digit) {
        Some(value) if value < base => Some(value),
        _ => None,
    }
}

/// The value of some digits of a base.
#[tactic(auto, using(crate::proofs::Values::behind_none, crate::proofs::Values::behind_all, crate::proofs::Values::behind_digit, crate::proofs::Values::behind_other, crate::proofs::Values::digit_fits))]
fn digits_value(base: u8, digits: &[u8]) -> Option<u128>
    requires base { base ≤ 16 }
    requires few { length digits.now ≤ 22 }
    ensures value { result ≡ definitions.digits_value base digits.now }
    ensures bound { IfSome result (λ n. n < 2 ^ 88) }
{
    let mut value = 0;
    for &digit in digits {
        let digit = digit_value(base, digit)?;
        value = value * base as u128 + digit as u128;
    }
    Some(value)
}

/// The digits of a number in base 10.
fn decimal(digits: &[u8]) -> Form<'_>
    ensures base { result.base ≡ 10 }
    ensures most { result.most ≡ 20 }
    ensures digits { result.digits.now ≡ digits.now }
{
    Form {
        base: 10,
        most: 20,
        digits,
    }
}

/// What the front of a number without a sign says of its base.
fn form_of(text: &[u8]) -> Form<'_>
    ensures base { result.base ≡ (definitions.form_of text.now).base }
    ensures most { result.most ≡ (definitions.form_of text.now).most }
    ensures digits { result.digits.now ≡ (definitions.form_of text.now).digits }
    ensures small { (result.base ≤ 16) × (result.most ≤ 22) }
{
    let Some((b'0', rest)) = text.split_first() else {
        return decimal(text);
    };
    match rest.split_first() {
        Some((b'x', digits)) => Form {
            base: 16,
            most: 16,
            digits,
        },
        Some((b'o', digits)) => Form {
            base: 8,
            most: 22,
            digits,
        },
        _ => decimal(text),
    }
}

/// How many digits a number may have to be less than 2^64 in every base.
const FEW_DIGITS: usize = 15;

/// The value of few digits of a base.
#[tactic(auto, using(crate::proofs::Values::behind_none, crate::proofs::Values::behind_all, crate::proofs::Values::behind_digit, crate::proofs::Values::behind_other, crate::proofs::Values::digit_fits))]
fn few_digits_value(base: u8, digits: &[u8]) -> Option<u64>
    requires base { base ≤ 16 }
    requires few { length digits.now ≤ 15 }
    ensures value { result ≡ definitions.digits_value base digits.now }
    ensures bound { IfSome result (λ n. n < 2 ^ 60) }
{
    let mut value = 0;
    for &digit in digits {
        let digit = digit_value(base, digit)?;
        value = value * base as u64 + digit as u64;
    }
    Some(value)
}

/// The value of a number without a sign. Most have few digits.
fn unsigned_value(text: &[u8]) -> Option<u128>
    ensures value { result ≡ definitions.unsigned_value text.now }
    ensures bound { IfSome result (λ n. n < 2 ^ 88) }
{
    let Form { base, most, digits } = form_of(text);
    if digits.is_empty() || digits.len() > most {
        return None;
    }
    if digits.len() <= FEW_DIGITS {
        return Some(few_digits_value(base, digits)? as u128);
    }
    digits_value(base, digits)
}

/// The number that the bytes of a bare token stand for.
///
/// A number is a `-` or nothing, and then 1 to 20 decimal digits, `0x` and 1 to 16 hexadecimal digits with letters of
/// either case, or `0o` and 1 to 22 octal digits. None comes exactly where the bytes have none of these forms. So a
/// number is greater than -2^67 and less than 2^67.
pub fn read_number(bare: &[u8]) -> Option<i128>
    ensures { result ≡ definitions.number bare.now }
{
    match bare.split_first() {
        Some((b'-', text)) => Some(-(unsigned_value(text)? as i128)),
        _ => Some(unsigned_value(bare)? as i128),
    }
}

/// The number that a bare token of at most fifteen digits stands for, where it has no sign. None comes exactly where it has a sign,
/// more digits, or none of the forms: `read_number` reads all of them.
pub fn short_number(bare: &[u8]) -> Option<u64>
    ensures value { result ≡ definitions.short_number bare.now }
    ensures number { IfSome result (λ n. definitions.number bare.now ≡ Some (pos n)) }
{
    let Form { base, most, digits } = form_of(bare);
    let count = digits.len();
    if count == 0 || count > most || count > FEW_DIGITS {
        return None;
    }
    few_digits_value(base, digits)
}
