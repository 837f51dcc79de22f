//! The rules of a line give it one reading.

ghost use Rattle.std.specs.Prelude.{◌≡◌, ℕ, List, Result};
ghost use Rattle.lex_core.specs.Grammar.{Reads};
ghost use Rattle.lex_core.specs.Lexical.{tokens};
ghost use Rattle.lex_core.specs.declared.line.Token.{Token};
ghost use Rattle.lex_core.specs.declared.reason.Reason.{Reason};

/// What is read of a line is what the rules of the grammar give, its tokens or its first fault, and they give nothing else:
/// so they leave no line without a reading, and none with two.
pub fn a_line_has_one_reading()
    ensures given { (line : List ℕ) → Reads line (tokens line) }
    ensures only { (line : List ℕ) (reading : Result (List Token) Reason) → Reads line reading → tokens line ≡ reading }
{}
