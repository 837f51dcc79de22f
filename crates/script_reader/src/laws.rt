//! Laws of scripts and of their lines. Each is the contract of a function that does nothing.

ghost use Rattle.std.specs.Prelude.{List, Result};
ghost use Rattle.lex_core.specs.declared.line.Token.{Token};
ghost use Rattle.lex_core.specs.declared.reason.Reason.{Reason};
ghost use Rattle.script_reader.specs.Above.{Above};
ghost use Rattle.script_reader.specs.Table.{FirstRowDecides};

/// A line is refused for the first row of the table of reasons whose test shows a fault, and for none where no test shows one.
pub fn first_row_decides()
    ensures { (A : Above) (line : Result (List Token) Reason) → FirstRowDecides A line }
{}
