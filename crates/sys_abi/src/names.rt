//! Tables of numbers and their names.

ghost use Rattle.std.specs.Prelude.{◌≡◌};
ghost use Rattle.std.specs.Option.{option_copied};
ghost use Rattle.sys_abi.specs.Names.{name_in, number_in, rows_of};

/// A number and its name.
pub(crate) type Row = (u16, &'static str);

/// The name beside this number.
pub(crate) fn name_of(table: &[Row], number: u16) -> Option<&'static str>
    ensures { option_copied result ≡ name_in (rows_of table.now) number }
{
    let row = table.iter().find(|row| row.0 == number)?;
    Some(row.1)
}

/// The number beside this name.
pub(crate) fn number_of(table: &[Row], name: &[u8]) -> Option<u16>
    ensures { result ≡ number_in (rows_of table.now) name.now }
{
    let row = table.iter().find(|row| row.1.as_bytes() == name)?;
    Some(row.0)
}
