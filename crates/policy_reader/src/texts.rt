//! What the texts in a policy stand for: numbers, names, and items between commas.

ghost use Rattle.std.specs.Prelude.{◌≡◌, ◌<◌, ◌≤◌, ◌==◌, length, map, position, IfOk, IfSome};
ghost use Rattle.std.specs.List.{list_all};
ghost use Rattle.std.specs.Option.{option_copied};
ghost use Rattle.policy_reader.specs.Readings.{named};
ghost use Rattle.policy_reader.specs.Tables.{rows_of, texts_of};
ghost use Rattle.hist_model.specs.RuleParts.{is_lower_or_digit, is_one_of, is_rule_name, is_rule_name_byte, is_short_name, is_short_name_byte};
ghost use Rattle.policy_reader.specs.Texts.{behind, cut_at, decimal_up_to, is_text_of, items_of, leads_with_zero, past_spaces, trimmed, whole_from, in_range};
ghost use Rattle.serde_json.specs.View.{view};

use plain_words::{is_lower_or_digit, is_one_of, is_short_name_byte, number_between};
use serde_json::Value;
use std::alloc::Global;
use sys_abi::memory::NoMemory;

/// What stands beside a name in a table.
pub fn named<T: Copy>(table: &[(&'static str, T)], name: &[u8]) -> Option<T>
    ensures { result ≡ named (rows_of table.now) name.now }
{
    let row = table.iter().find(|row| row.0.as_bytes() == name)?;
    Some(row.1)
}

/// Whether a name is one of these texts.
pub(crate) fn is_among(texts: &[&'static str], name: &[u8]) -> bool
    ensures { result ≡ is_text_of (texts_of texts.now) name.now }
{
    texts.iter().any(|text| text.as_bytes() == name)
}

/// What stands behind the bytes with which a text begins.
pub fn behind<'a>(front: &[u8], text: &'a [u8]) -> Option<&'a [u8]>
    ensures { option_copied result ≡ behind front.now text.now }
{
    if text.starts_with(front) {
        Some(&text[front.len()..])
    } else {
        None
    }
}

/// Whether a text has two bytes or more, and the first is the digit 0.
fn leads_with_zero(text: &[u8]) -> bool
    ensures { result ≡ leads_with_zero text.now }
{
    text.len() >= 2 && text.starts_with(b"0")
}

/// The number that a decimal text without leading zeros is, where it is at most this.
pub(crate) fn decimal_up_to(text: &[u8], high: u32) -> Option<u32>
    ensures value { result ≡ decimal_up_to high text.now }
    ensures bound { IfSome result (λ n. n ≤ high) }
{
    if leads_with_zero(text) {
        return None;
    }
    let number = number_between(text, 0, u64::from(high))?;
    Some(number as u32)
}

/// The number, where it is from `low` to 2^32 - 1.
fn in_range(low: u32, number: u64) -> Option<u32>
    ensures { result ≡ in_range low number }
{
    if u64::from(low) <= number && number <= u64::from(u32::MAX) {
        Some(number as u32)
    } else {
        None
    }
}

/// The whole number from `low` to 2^32 - 1 that a value is.
pub(crate) fn whole_from(low: u32, value: &Value) -> Option<u32>
    ensures { result ≡ whole_from low (view value.now) }
{
    in_range(low, value.as_u64()?)
}

/// The place of the first byte of this kind.
fn place_of(text: &[u8], mark: u8) -> Option<usize>
    ensures { result ≡ position (λ b. b == mark) text.now }
{
    text.iter().position(|b| *b == mark)
}

/// What stands before the first byte of this kind, and what stands behind it, where there is one.
#[tactic(auto, using(crate::proofs::Cuts::front_found, crate::proofs::Cuts::rest_found, crate::proofs::Cuts::front_missing, crate::proofs::Cuts::rest_missing))]
pub(crate) fn cut_at(text: &[u8], mark: u8) -> (&[u8], Option<&[u8]>)
    ensures front { result.0.now ≡ (cut_at mark text.now).0 }
    ensures rest { option_copied result.1 ≡ (cut_at mark text.now).1 }
    ensures shorter { IfSome result.1 (λ rest. length rest.now < length text.now) }
{
    match place_of(text, mark) {
        Some(at) => (&text[..at], Some(&text[at + 1..])),
        None => (text, None),
    }
}

/// A text from its first byte on that is no space.
fn past_spaces(text: &[u8]) -> &[u8]
    ensures { result.now ≡ past_spaces text.now }
{
    let mut rest = text;
    while let Some((&byte, more)) = rest.split_first() {
        if byte != b' ' {
            break;
        }
        rest = more;
    }
    rest
}

/// A text without the spaces at its ends.
fn trimmed(text: &[u8]) -> &[u8]
    ensures { result.now ≡ trimmed text.now }
{
    let mut rest = past_spaces(text);
    while let Some((&byte, more)) = rest.split_last() {
        if byte != b' ' {
            break;
        }
        rest = more;
    }
    rest
}

/// The items between commas, without the spaces around them; what is empty is no item.
pub fn items_of(alloc: Global, text: &[u8]) -> Result<Vec<&[u8]>, NoMemory>
    ensures { IfOk result (λ items. map (λ item. item.now) items.items ≡ items_of text.now) }
{
    let mut items = Vec::new(alloc);
    let mut rest = Some(text);
    while let Some(left) = rest {
        let (front, more) = cut_at(left, b',');
        let item = trimmed(front);
        if !item.is_empty() {
            items.push(item)?;
        }
        rest = more;
    }
    Ok(items)
}

fn has_short_name_bytes(name: &[u8]) -> bool
    ensures { result ≡ list_all is_short_name_byte name.now }
{
    name.iter().all(|b| is_short_name_byte(*b))
}

/// Whether a file system or a program may have this name: 1 to 32 bytes.
pub(crate) fn is_short_name(name: &[u8]) -> bool
    ensures { result ≡ is_short_name name.now }
{
    !name.is_empty() && name.len() <= 32 && has_short_name_bytes(name)
}

fn is_rule_name_byte(b: u8) -> bool
    ensures { result ≡ is_rule_name_byte b }
{
    is_lower_or_digit(b) || is_one_of(b"._:-", b)
}

fn has_rule_name_bytes(name: &[u8]) -> bool
    ensures { result ≡ list_all is_rule_name_byte name.now }
{
    name.iter().all(|b| is_rule_name_byte(*b))
}

/// Whether a rule may have this name: 1 to 64 bytes, and none of the names of the switches and the defaults.
pub(crate) fn is_rule_name(name: &[u8]) -> bool
    ensures { result ≡ is_rule_name name.now }
{
    !name.is_empty()
        && name.len() <= 64
        && has_rule_name_bytes(name)
        && !(name.starts_with(b"lxd.") || name.starts_with(b"default."))
}
