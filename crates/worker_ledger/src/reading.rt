//! What a ledger's text is read as. Other JSON may be read as something too: whoever reads compares the text with the one that
//! is written of what was read.

ghost use Rattle.std.specs.Prelude.{◌≡◌, ◌<◌, ◌≤◌, ◌^◌, ℕ, List, IfOk, MatchOption, codes, option_and_then, option_map};
ghost use Rattle.hex.specs.Hex.{IsBytes, encode_lower};
ghost use Rattle.serde_json.specs.Find.{as_number, as_str, as_u64, get};
ghost use Rattle.serde_json.specs.View.{items_view, view};
ghost use Rattle.sys_abi.specs.Wire.{notif_bytes};
ghost use Rattle.sys_abi.specs.declared.wire.Notif.{Notif as Wire};
ghost use Rattle.broker_core.specs.Answers.{Answer, Bytes, Failed, Number, Received};
ghost use Rattle.worker_ledger.specs.Data.{answer_data, answers_data, ledger_data};
ghost use Rattle.worker_ledger.specs.Heard.{all_heard, heard};
ghost use Rattle.worker_ledger.specs.Ledgers.{AreAnswers, IsAnswer, IsWire, ledger_text};

use crate::heard::Heard;
use hex::FromHexError;
use serde_json::Value;
use std::alloc::Global;
use sys_abi::errno::Errno;
use sys_abi::memory::NoMemory;
use sys_abi::wire::Notif;

/// The bytes of digits of base 16.
fn bytes_of(alloc: Global, digits: &[u8]) -> Result<Option<Vec<u8>>, NoMemory>
    ensures { (bytes : List ℕ) → IsBytes bytes → digits.now ≡ encode_lower bytes → IfOk result (λ o. MatchOption o ⊥ (λ v. v.items ≡ bytes)) }
{
    match hex::decode(alloc, digits) {
        Ok(bytes) => Ok(Some(bytes)),
        Err(error) => match error {
            FromHexError::OutOfMemory => Err(NoMemory),
            _ => Ok(None),
        },
    }
}

/// The notification of its structure's bytes.
fn notif_of(wire: &[u8]) -> Option<Notif>
    ensures { (notif : Wire) → IsWire notif → wire.now ≡ notif_bytes notif → MatchOption result ⊥ (λ n. n ≡ notif) }
{
    if wire.len() != 80 {
        return None;
    }
    let mut bytes = [0; 80];
    bytes.copy_from_slice(wire);
    Some(Notif::from_bytes(&bytes))
}

/// The text that a member is.
fn text_at<'a>(value: &'a Value, key: &str) -> Option<&'a str>
    ensures { option_map (λ s. s.now) result ≡ option_and_then as_str (get key.now (view value.now)) }
{
    value.get(key)?.as_str()
}

/// The number that a member is.
fn number_at(value: &Value, key: &str) -> Option<u64>
    ensures { result ≡ option_and_then as_u64 (option_and_then as_number (get key.now (view value.now))) }
{
    value.get(key)?.as_u64()
}

/// A received notification, by the digits of its structure.
fn read_notif(alloc: Global, digits: &str) -> Result<Option<Heard>, NoMemory>
    ensures { (notif : Wire) → IsWire notif → digits.now ≡ encode_lower (notif_bytes notif) → IfOk result (λ o. MatchOption o ⊥ (λ h. heard h ≡ Received notif)) }
{
    let Some(wire) = bytes_of(alloc, digits.as_bytes())? else {
        return Ok(None);
    };
    match notif_of(wire.as_slice()) {
        Some(notif) => Ok(Some(Heard::Notif(notif))),
        None => Ok(None),
    }
}

/// Bytes that were read, by their digits.
fn read_bytes(alloc: Global, digits: &str) -> Result<Option<Heard>, NoMemory>
    ensures { (bytes : List ℕ) → IsBytes bytes → digits.now ≡ encode_lower bytes → IfOk result (λ o. MatchOption o ⊥ (λ h. heard h ≡ Bytes bytes)) }
{
    match bytes_of(alloc, digits.as_bytes())? {
        Some(bytes) => Ok(Some(Heard::Bytes(bytes))),
        None => Ok(None),
    }
}

/// A descriptor's number.
fn read_number(number: u64) -> Option<Heard>
    ensures { number < 2 ^ 32 → MatchOption result ⊥ (λ h. heard h ≡ Number number) }
{
    if number > u64::from(u32::MAX) {
        return None;
    }
    Some(Heard::Number(number as u32))
}

/// An error, by its number.
fn read_fault(number: u64) -> Option<Heard>
    ensures { (1 ≤ number) × (number ≤ 4095) → MatchOption result ⊥ (λ h. heard h ≡ Failed number) }
{
    if number > 4095 {
        return None;
    }
    let error = Errno::of(number as u16)?;
    Some(Heard::Fault(error))
}

/// The answer that a value is, if it is one's. A text is taken for that of a deed that was done.
fn read_answer(alloc: Global, value: &Value) -> Result<Option<Heard>, NoMemory>
    ensures { (a : Answer) → IsAnswer a → view value.now ≡ answer_data a → IfOk result (λ o. MatchOption o ⊥ (λ h. heard h ≡ a)) }
{
    if value.is_string() {
        return Ok(Some(Heard::Done));
    }
    if let Some(digits) = text_at(value, "notif") {
        return read_notif(alloc, digits);
    }
    if let Some(digits) = text_at(value, "bytes") {
        return read_bytes(alloc, digits);
    }
    if let Some(number) = number_at(value, "number") {
        return Ok(read_number(number));
    }
    match number_at(value, "fault") {
        Some(number) => Ok(read_fault(number)),
        None => Ok(None),
    }
}

/// The answers that values are, if each is one's.
fn read_answers(alloc: Global, values: &[Value]) -> Result<Option<Vec<Heard>>, NoMemory>
    ensures { (own : List Answer) → AreAnswers own → items_view values.now ≡ answers_data own → IfOk result (λ o. MatchOption o ⊥ (λ v. all_heard v.items ≡ own)) }
{
    let mut answers = Vec::new(alloc);
    let mut left = values;
    while let Some((value, rest)) = left.split_first() {
        let Some(answer) = read_answer(alloc, value)? else {
            return Ok(None);
        };
        answers.push(answer)?;
        left = rest;
    }
    Ok(Some(answers))
}

/// The count and the answers of the ledger that a value is, if it is one's.
fn read_value(alloc: Global, value: &Value) -> Result<Option<(u64, Vec<Heard>)>, NoMemory>
    ensures { (worker count : ℕ) (own : List Answer) → AreAnswers own → view value.now ≡ ledger_data worker count own → IfOk result (λ o. MatchOption o ⊥ (λ x. (x.0 ≡ count) × (all_heard x.1.items ≡ own))) }
{
    let Some(count) = number_at(value, "count") else {
        return Ok(None);
    };
    let Some(values) = value.get("own").and_then(Value::as_array) else {
        return Ok(None);
    };
    match read_answers(alloc, values.as_slice())? {
        Some(own) => Ok(Some((count, own))),
        None => Ok(None),
    }
}

/// The count and the answers of the ledger that these bytes are the text of, if they are one's.
pub(crate) fn read_ledger(alloc: Global, text: &[u8]) -> Result<Option<(u64, Vec<Heard>)>, NoMemory>
    ensures { (worker count : ℕ) (own : List Answer) → worker < 2 ^ 64 → count < 2 ^ 64 → AreAnswers own → text.now ≡ ledger_text worker count own → IfOk result (λ o. MatchOption o ⊥ (λ x. (x.0 ≡ count) × (all_heard x.1.items ≡ own))) }
{
    match Value::from_slice(alloc, text) {
        Ok(value) => read_value(alloc, &value),
        Err(error) if error.is_memory() => Err(NoMemory),
        Err(_) => Ok(None),
    }
}
