//! Instructions as text: a word, and numbers behind it.

ghost use Rattle.std.specs.Prelude.{◌≡◌, is_none};
ghost use Rattle.std.specs.List.{list_any};
ghost use Rattle.lex_core.specs.declared.line.Token.{Token};
ghost use Rattle.bpf_filter.specs.Text.{insn_of, insn_text, is_quoted, number, number_at, operands_insn};

use crate::words::{instruction, is_script_word};
use hist_model::script::Insn;
use lex_core::{Line, Reason, Token, read_number};

/// Whether a token stands between quotes.
fn is_quoted(token: &Token<'_>) -> bool
    ensures { result ≡ is_quoted token.now }
{
    matches!(token, Token::Quoted(_))
}

/// The number that a bare token is.
fn number(token: &Token<'_>) -> Option<i128>
    ensures { result ≡ number token.now }
{
    match token {
        Token::Bare(digits) => read_number(digits.items()),
        Token::Quoted(_) => None,
    }
}

/// The number at a place among the operands, and 0 behind the last one and where a text or another word stands.
pub fn number_at(operands: &[Token<'_>], place: usize) -> i128
    ensures { result ≡ number_at operands.now place }
{
    match operands.get(place) {
        Some(operand) => number(operand).unwrap_or(0),
        None => 0,
    }
}

/// The instruction of these operands, each of which is a number: K, JT and JF, of which those that are missing are 0.
fn insn_of(code: u16, operands: &[Token<'_>]) -> Result<Insn, Reason>
    ensures { result ≡ insn_of code operands.now }
{
    match (
        u32::try_from(number_at(operands, 0)),
        u8::try_from(number_at(operands, 1)),
        u8::try_from(number_at(operands, 2)),
    ) {
        (Ok(k), Ok(jt), Ok(jf)) => Ok(Insn { code, jt, jf, k }),
        _ => Err(Reason::OutOfRange),
    }
}

/// Whether one of the operands stands between quotes.
fn any_is_quoted(operands: &[Token<'_>]) -> bool
    ensures { result ≡ list_any is_quoted operands.now }
{
    operands.iter().any(|operand| is_quoted(operand))
}

/// Whether one of the operands is no number.
fn any_is_no_number(operands: &[Token<'_>]) -> bool
    ensures { result ≡ list_any (λ operand. is_none (number operand)) operands.now }
{
    operands.iter().any(|operand| number(operand).is_none())
}

/// The instruction of this code, behind whose word so many operands belong.
fn operands_insn(code: u16, count: usize, operands: &[Token<'_>]) -> Result<Insn, Reason>
    ensures { result ≡ operands_insn code count operands.now }
{
    if operands.len() != count {
        return Err(Reason::WrongCount);
    }
    if any_is_quoted(operands) {
        return Err(Reason::WrongForm);
    }
    if any_is_no_number(operands) {
        return Err(Reason::BadNumber);
    }
    insn_of(code, operands)
}

/// The instruction that a line of a filter states. Fields that it doesn't use are 0.
///
/// A line that states none is refused: `UnknownWord` where its first token is no word of a script, `OutOfPlace` where it is one
/// that belongs elsewhere, `WrongCount` for too few or too many operands, `WrongForm` for one between quotes, `BadNumber` for
/// one that is no number, and `OutOfRange` for a K outside 0 to 2^32 - 1 and a JT or JF outside 0 to 255. Where several hold,
/// the reason is the one named first here, whichever operand it is for.
pub fn read_text(line: &Line<'_>) -> Result<Insn, Reason>
    ensures { result ≡ insn_text line.now.tokens }
{
    let Some((Token::Bare(word), operands)) = line.tokens.items().split_first() else {
        return Err(Reason::UnknownWord);
    };
    match instruction(word.items()) {
        Some((code, count)) => operands_insn(code, count, operands),
        None if is_script_word(word.items()) => Err(Reason::OutOfPlace),
        None => Err(Reason::UnknownWord),
    }
}
