//! Bytes as digits of base 16, text between quotes, and names of any bytes.

ghost use Rattle.std.specs.Prelude.{◌≡◌, ◌++◌, ◌∷◌, ◌<◌, OnOk};
ghost use Rattle.std.specs.List.{flat_map};
ghost use Rattle.hist_model.specs.ReportWords.{hex_digit, hex_byte, quoted_byte, quoted, escaped_byte, escaped};

use crate::names::is_short_name_byte;
use sys_abi::memory::NoMemory;

/// A digit of base 16.
fn hex_digit(d: u8) -> u8
    requires { d < 16 }
    ensures { result ≡ hex_digit d }
{
    if d < 10 { b'0' + d } else { b'a' - 10 + d }
}

/// A byte as two digits of base 16.
pub fn hex_byte(byte: u8) -> [u8; 2]
    ensures { result ≡ hex_byte byte }
{
    [hex_digit(byte / 16), hex_digit(byte % 16)]
}

/// Adds a byte as `\x` and two digits of base 16.
fn push_hex_escape(out: &mut Vec<u8>, byte: u8) -> Result<(), NoMemory>
    ensures { OnOk result (out.new.items ≡ out.old.items ++ 92 ∷ 120 ∷ hex_byte byte) }
{
    out.extend_from_slice(b"\\x")?;
    out.extend_from_slice(&hex_byte(byte))?;
    Ok(())
}

/// Adds a byte of a quoted text.
fn push_quoted_byte(out: &mut Vec<u8>, byte: u8) -> Result<(), NoMemory>
    ensures { OnOk result (out.new.items ≡ out.old.items ++ quoted_byte byte) }
{
    if byte == b'"' || byte == b'\\' {
        out.extend_from_slice(&[b'\\', byte])?;
        Ok(())
    } else if 32 <= byte && byte <= 126 {
        out.push(byte)?;
        Ok(())
    } else {
        push_hex_escape(out, byte)
    }
}

/// Adds the bytes of a quoted text.
fn push_quoted_bytes(out: &mut Vec<u8>, text: &[u8]) -> Result<(), NoMemory>
    ensures { OnOk result (out.new.items ≡ out.old.items ++ flat_map quoted_byte text.now) }
{
    for byte in text {
        push_quoted_byte(out, *byte)?;
    }
    Ok(())
}

/// Adds a text between quotes. `"` and `\` stand after a `\`, and a byte that can't be printed as `\x` and two digits of
/// base 16.
pub fn push_quoted(out: &mut Vec<u8>, text: &[u8]) -> Result<(), NoMemory>
    ensures { OnOk result (out.new.items ≡ out.old.items ++ quoted text.now) }
{
    out.push(b'"')?;
    push_quoted_bytes(out, text)?;
    out.push(b'"')?;
    Ok(())
}

/// Adds a byte of a name.
fn push_escaped_byte(out: &mut Vec<u8>, byte: u8) -> Result<(), NoMemory>
    ensures { OnOk result (out.new.items ≡ out.old.items ++ escaped_byte byte) }
{
    if is_short_name_byte(byte) {
        out.push(byte)?;
        Ok(())
    } else {
        push_hex_escape(out, byte)
    }
}

/// Adds a text in the place of a name of a file system or of a program: each byte that such names don't have as `\x` and two
/// digits of base 16.
pub fn push_escaped(out: &mut Vec<u8>, text: &[u8]) -> Result<(), NoMemory>
    ensures { OnOk result (out.new.items ≡ out.old.items ++ escaped text.now) }
{
    for byte in text {
        push_escaped_byte(out, *byte)?;
    }
    Ok(())
}
