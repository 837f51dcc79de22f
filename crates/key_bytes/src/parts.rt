//! The parts of a key, which are added behind others. Each call fails for want of memory alone.

ghost use Rattle.std.specs.Prelude.{◌≡◌, ◌++◌, OnOk};
ghost use Rattle.key_bytes.specs.Parts.{answer_part, flag_part, list_part, number_part, option_part, signed_part, text_part};

use sys_abi::errno::Errno;
use sys_abi::memory::NoMemory;

/// Adds a number.
#[tactic(auto, using(crate::proofs::Numbers::fitting_part))]
pub fn push_number(key: &mut Vec<u8>, number: u64) -> Result<(), NoMemory>
    ensures { OnOk result (key.new.items ≡ key.old.items ++ number_part number) }
{
    key.extend_from_slice(&number.to_le_bytes())?;
    Ok(())
}

/// Adds whether something is so.
pub fn push_flag(key: &mut Vec<u8>, flag: bool) -> Result<(), NoMemory>
    ensures { OnOk result (key.new.items ≡ key.old.items ++ flag_part flag) }
{
    key.push(u8::from(flag))?;
    Ok(())
}

/// Adds a number that may be below 0.
pub fn push_signed(key: &mut Vec<u8>, number: i64) -> Result<(), NoMemory>
    ensures { OnOk result (key.new.items ≡ key.old.items ++ signed_part number) }
{
    if number >= 0 {
        key.push(0)?;
        push_number(key, number as u64)
    } else {
        key.push(1)?;
        push_number(key, (-(number + 1)) as u64)
    }
}

/// Adds a text, with its length before it.
pub fn push_text(key: &mut Vec<u8>, text: &[u8]) -> Result<(), NoMemory>
    ensures { OnOk result (key.new.items ≡ key.old.items ++ text_part text.now) }
{
    push_number(key, text.len() as u64)?;
    key.extend_from_slice(text)?;
    Ok(())
}

/// Adds numbers, with how many there are before them.
pub fn push_numbers(key: &mut Vec<u8>, numbers: &[u32]) -> Result<(), NoMemory>
    ensures { OnOk result (key.new.items ≡ key.old.items ++ list_part number_part numbers.now) }
{
    push_number(key, numbers.len() as u64)?;
    for number in numbers {
        push_number(key, u64::from(*number))?;
    }
    Ok(())
}

/// Adds a number that there may be.
pub fn push_option(key: &mut Vec<u8>, number: Option<u64>) -> Result<(), NoMemory>
    ensures { OnOk result (key.new.items ≡ key.old.items ++ option_part number_part number) }
{
    match number {
        None => push_flag(key, false),
        Some(number) => {
            push_flag(key, true)?;
            push_number(key, number)
        }
    }
}

/// Adds an answer without a value.
pub fn push_answer(key: &mut Vec<u8>, answer: &Result<(), Errno>) -> Result<(), NoMemory>
    ensures { OnOk result (key.new.items ≡ key.old.items ++ answer_part answer.now) }
{
    match answer {
        Ok(()) => push_flag(key, false),
        Err(error) => {
            push_flag(key, true)?;
            push_number(key, u64::from(error.number()))
        }
    }
}
