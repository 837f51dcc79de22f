//! The bytes of names of file systems and of programs.

ghost use Rattle.std.specs.Prelude.{◌≡◌};
ghost use Rattle.hist_model.specs.ShortNames.{is_lower_or_digit, is_one_of, is_short_name_byte};

use crate::numbers::is_digit;

/// Whether the byte is a small letter or a digit.
pub fn is_lower_or_digit(b: u8) -> bool
    ensures { result ≡ is_lower_or_digit b }
{
    (b'a' <= b && b <= b'z') || is_digit(b)
}

/// Whether the byte is one of the marks.
pub fn is_one_of(marks: &[u8], b: u8) -> bool
    ensures { result ≡ is_one_of marks.now b }
{
    marks.contains(&b)
}

/// Whether the names of file systems and of programs in a policy have this byte: `a-z`, `0-9`, `.`, `_` and `-`.
pub fn is_short_name_byte(b: u8) -> bool
    ensures { result ≡ is_short_name_byte b }
{
    is_lower_or_digit(b) || is_one_of(b"._-", b)
}
