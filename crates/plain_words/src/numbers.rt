//! Decimal numbers.

ghost use Rattle.std.specs.Prelude.{◌≡◌, ◌≤◌, length, if◌then◌else◌, Some, None};
ghost use Rattle.std.specs.List.{list_all};
ghost use Rattle.hist_model.specs.Words.{number_after, is_digit, number_between};

/// The number that a word of 1 to 20 decimal digits is, where it lies between the bounds.
pub fn number_between(word: &[u8], low: u64, high: u64) -> Option<u64>
    ensures { result ≡ number_between low high word.now }
{
    if word.is_empty() || word.len() > 20 {
        return None;
    }
    let value = digits(word)?;
    if u128::from(low) <= value && value <= u128::from(high) {
        Some(value as u64)
    } else {
        None
    }
}

/// Whether the byte is a decimal digit.
pub fn is_digit(b: u8) -> bool
    ensures { result ≡ is_digit b }
{
    48 <= b && b <= 57
}

/// The number of at most 20 decimal digits; none where a byte is no digit.
#[tactic(auto, using(crate::proofs::Digits::digits_step, crate::proofs::Digits::number_step, crate::proofs::Digits::power_step, crate::proofs::Digits::power_below))]
fn digits(word: &[u8]) -> Option<u128>
    requires { length word.now ≤ 20 }
    ensures { result ≡ (if list_all is_digit word.now then Some (number_after 0 word.now) else None) }
{
    let mut value = 0u128;
    for b in word {
        if !is_digit(*b) {
            return None;
        }
        value = 10 * value + u128::from(*b - 48);
    }
    Some(value)
}
