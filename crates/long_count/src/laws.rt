//! What texts of long counts are.

ghost use Rattle.long_count.specs.Texts.{IsAsWritten};

/// The text of a number with at most 64 digits is what `{}` writes of it.
pub fn short_ones_are_as_written()
    ensures { IsAsWritten }
{}
