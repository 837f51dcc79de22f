//! What a line states by itself.

ghost use Rattle.std.specs.Prelude.{◌≡◌, ◌∷◌, Bool, IfOk};
ghost use Rattle.bpf_filter.specs.Text.{insn_text};
ghost use Rattle.script_reader.specs.Lines as definitions;
ghost use Rattle.script_reader.specs.Outcomes.{States};
ghost use Rattle.script_reader.specs.Rules.{IsSound};
ghost use Rattle.script_reader.specs.Words.{in_filter, in_schedule, word_of};
ghost use Rattle.script_reader.specs.declared.word.Section.{Section};

use crate::error::Fault;
use crate::operand::operands_fault;
use crate::operands::Operands;
use crate::request::{is_request, request_statement};
use crate::statement::{Statement, statement_of};
use crate::word::{Section, Word, belongs, word_of};
use bpf_filter::{is_script_word, read_text};
use lex_core::{Line, Reason, Token};
use std::alloc::Global;
use sys_abi::memory::OrNoMemory;

/// Whether a word comes after one that it has to stand before.
fn comes_late(base_is_stated: bool, word: Word) -> bool
    ensures { result ≡ definitions.comes_late base_is_stated word }
{
    match word {
        Word::Pidmax => base_is_stated,
        _ => false,
    }
}

/// Whether a word may stand in a section; `base_is_stated` is whether a `pidbase` stands above.
fn is_in_place(section: Section, base_is_stated: bool, word: Word) -> bool
    ensures { result ≡ definitions.is_in_place section base_is_stated word }
{
    belongs(word, section) && !comes_late(base_is_stated, word)
}

/// Why a word can't begin a line here that is none of the plain words.
fn other_word(word: &[u8]) -> Reason
    ensures { result ≡ definitions.other_word word.now }
{
    if is_script_word(word) {
        Reason::OutOfPlace
    } else {
        Reason::UnknownWord
    }
}

/// What a line with this word states.
fn word_statement<'a>(
    alloc: Global,
    section: Section,
    base_is_stated: bool,
    word: Word,
    operands: &'a [Token<'a>],
) -> Result<Statement<'a>, OrNoMemory<Fault>>
    ensures reading { States (definitions.word_statement section base_is_stated word operands.now) result }
    ensures sound { IfOk result (λ s. IsSound section base_is_stated s) }
{
    if !is_in_place(section, base_is_stated, word) {
        return Err(OrNoMemory::Refused(Fault::Wrong(Reason::OutOfPlace)));
    }
    let operands = Operands::new(operands);
    if let Some(reason) = operands_fault(word, &operands) {
        return Err(OrNoMemory::Refused(Fault::Wrong(reason)));
    }
    Ok(statement_of(alloc, word, &operands)?)
}

/// What a line states with this word and these operands.
fn bytes_statement<'a>(
    alloc: Global,
    section: Section,
    base_is_stated: bool,
    bytes: &[u8],
    operands: &'a [Token<'a>],
) -> Result<Statement<'a>, OrNoMemory<Fault>>
    ensures reading { States (definitions.bytes_statement section base_is_stated (word_of bytes.now) bytes.now operands.now) result }
    ensures sound { IfOk result (λ s. IsSound section base_is_stated s) }
{
    match word_of(bytes) {
        Some(word) => word_statement(alloc, section, base_is_stated, word, operands),
        None => Err(OrNoMemory::Refused(Fault::Wrong(other_word(bytes)))),
    }
}

/// What a line states with this first token and these operands.
fn token_statement<'a>(
    alloc: Global,
    section: Section,
    base_is_stated: bool,
    first: &Token<'_>,
    operands: &'a [Token<'a>],
) -> Result<Statement<'a>, OrNoMemory<Fault>>
    ensures reading { States (definitions.plain_statement section base_is_stated (first.now ∷ operands.now)) result }
    ensures sound { IfOk result (λ s. IsSound section base_is_stated s) }
{
    match first {
        Token::Bare(bytes) => {
            bytes_statement(alloc, section, base_is_stated, bytes.items(), operands)
        }
        Token::Quoted(_) => Err(OrNoMemory::Refused(Fault::Wrong(Reason::UnknownWord))),
    }
}

/// What a line states that is no instruction of a filter.
fn plain_statement<'a>(
    alloc: Global,
    section: Section,
    base_is_stated: bool,
    tokens: &'a [Token<'a>],
) -> Result<Statement<'a>, OrNoMemory<Fault>>
    ensures reading { States (definitions.plain_statement section base_is_stated tokens.now) result }
    ensures sound { IfOk result (λ s. IsSound section base_is_stated s) }
{
    match tokens.split_first() {
        Some((first, operands)) => token_statement(alloc, section, base_is_stated, first, operands),
        None => Err(OrNoMemory::Refused(Fault::Wrong(Reason::UnknownWord))),
    }
}

fn is_end(word: Option<Word>) -> bool
    ensures { result ≡ definitions.is_end word }
{
    matches!(word, Some(Word::End))
}

/// Whether a line says that a block ends.
fn ends_block(tokens: &[Token<'_>]) -> bool
    ensures { result ≡ definitions.ends_block tokens.now }
{
    match tokens.first() {
        Some(Token::Bare(bytes)) => is_end(word_of(bytes.items())),
        _ => false,
    }
}

/// What a line of a filter's block states.
fn insn_statement<'a>(line: &'a Line<'a>) -> Result<Statement<'a>, OrNoMemory<Fault>>
    ensures reading { States (definitions.insn_statement (insn_text line.now.tokens)) result }
    ensures sound { IfOk result (λ s. (p : Section) (base_is_stated : Bool) → IsSound p base_is_stated s) }
{
    match read_text(line) {
        Ok(insn) => Ok(Statement::Insn(insn)),
        Err(reason) => Err(OrNoMemory::Refused(Fault::Wrong(reason))),
    }
}

fn in_filter(section: Section) -> bool
    ensures { result ≡ in_filter section }
{
    matches!(section, Section::Filter)
}

fn in_schedule(section: Section) -> bool
    ensures { result ≡ in_schedule section }
{
    matches!(section, Section::Schedule)
}

/// What a line states by itself, where it stands in a section and `base_is_stated` is whether a `pidbase` stands above. Its faults
/// are those that it shows without the lines above.
pub fn read_line<'a>(
    alloc: Global,
    section: Section,
    base_is_stated: bool,
    line: &'a Line<'a>,
) -> Result<Statement<'a>, OrNoMemory<Fault>>
    ensures reading { States (definitions.tokens_statement section base_is_stated line.now.tokens) result }
    ensures sound { IfOk result (λ s. IsSound section base_is_stated s) }
{
    if in_filter(section) && !ends_block(line.tokens.items()) {
        return insn_statement(line);
    }
    if in_schedule(section) && is_request(line.tokens.items()) {
        return request_statement(alloc, line.tokens.items());
    }
    plain_statement(alloc, section, base_is_stated, line.tokens.items())
}
