//! Decimal digits, the lowest first.

ghost use Rattle.std.specs.Prelude.{◌≡◌, ◌≤◌, ◌+◌, ◌*◌, ◌^◌, IfOk, OnOk, get_or, length, map, take};
ghost use Rattle.long_count.specs.Digits.{AreDigits, IsTrimmed, value};

use std::alloc::Global;
use sys_abi::memory::NoMemory;

/// The digit at a place; 0 behind the highest.
pub(crate) fn digit_at(digits: &[u8], place: usize) -> u8
    ensures { result ≡ get_or digits.now place 0 }
{
    match digits.get(place) {
        Some(digit) => *digit,
        None => 0,
    }
}

/// How many digits there are up to the highest that isn't 0.
pub(crate) fn significant(digits: &[u8]) -> usize
    ensures within { result ≤ length digits.now }
    ensures value { value (take result digits.now) ≡ value digits.now }
    ensures trimmed { IsTrimmed (take result digits.now) }
{
    let mut count = digits.len();
    'zeros: while count > 0 && digits[count - 1] == 0 {
        count -= 1;
    }
    count
}

/// The digits as bytes of a text, in the same order.
pub(crate) fn glyphs(alloc: Global, digits: &[u8]) -> Result<Vec<u8>, NoMemory>
    requires { AreDigits digits.now }
    ensures { IfOk result (λ text. text.items ≡ map (λ d. 48 + d) digits.now) }
{
    let mut text = Vec::new(alloc);
    for digit in digits {
        text.push(48 + *digit)?;
    }
    Ok(text)
}

/// Adds the digits of a number behind others, from its lowest on.
pub(crate) fn push_number(digits: &mut Vec<u8>, number: u128) -> Result<(), NoMemory>
    requires { AreDigits digits.old.items }
    ensures digits { OnOk result (AreDigits digits.new.items) }
    ensures value { OnOk result (value digits.new.items ≡ value digits.old.items + 10 ^ length digits.old.items * number) }
{
    let mut rest = number;
    'digits: while rest != 0 {
        digits.push((rest % 10) as u8)?;
        rest /= 10;
    }
    Ok(())
}

/// The digits of one number and so many times another one.
pub(crate) fn with_times(
    alloc: Global,
    one: &[u8],
    other: &[u8],
    times: u64,
) -> Result<Vec<u8>, NoMemory>
    requires one { AreDigits one.now }
    requires other { AreDigits other.now }
    ensures digits { IfOk result (λ sum. AreDigits sum.items) }
    ensures value { IfOk result (λ sum. value sum.items ≡ value one.now + value other.now * times) }
{
    let mut sum = Vec::new(alloc);
    let mut carry = 0u128;
    for place in 0..one.len().max(other.len()) {
        let product = u128::from(digit_at(other, place)) * u128::from(times);
        let total = carry + u128::from(digit_at(one, place)) + product;
        sum.push((total % 10) as u8)?;
        carry = total / 10;
    }
    push_number(&mut sum, carry)?;
    Ok(sum)
}
