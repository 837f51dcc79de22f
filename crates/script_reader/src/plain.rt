//! Plain lines of a schedule: the steps of a task or a worker, of which a long script has most of its lines. They are read without
//! the table of words, and join those above without a statement between. Every other line, and each with a fault, is for
//! `reading`, which reads these too.

ghost use Rattle.std.specs.Prelude.{◌≡◌, ◌≤◌, ◌<◌, IfSome, Some, pos};
ghost use Rattle.lex_core.specs.Numbers.{number};
ghost use Rattle.script_reader.specs.Plain as definitions;
ghost use Rattle.script_reader.specs.declared.word.Section.TheVariants.{Schedule};

use crate::word::Section;
use lex_core::{Token, short_number};
use step_requests::names::is_task_text;

/// Who steps by a plain line, and how often.
pub(crate) enum PlainTurn<'a> {
    Task { name: &'a [u8], count: u32 },
    Worker { worker: u8, count: u32 },
}

/// How often someone steps by a word.
fn count_of(word: &[u8]) -> Option<u32>
    ensures { IfSome result (λ n. definitions.IsCount word.now n) }
{
    match short_number(word) {
        Some(n) if 1 <= n && n <= 200_000 => Some(n as u32),
        _ => None,
    }
}

/// How often someone steps by what stands after the name.
fn plain_count(tokens: &[Token<'_>]) -> Option<u32>
    ensures { IfSome result (λ n. definitions.Counts tokens.now n) }
{
    let Some((first, more)) = tokens.split_first() else {
        return Some(1);
    };
    if !more.is_empty() {
        return None;
    }
    match first {
        Token::Bare(word) => count_of(word.items()),
        Token::Quoted(_) => None,
    }
}

/// The worker of a number.
fn worker_of(word: &[u8]) -> Option<u8>
    ensures number { IfSome result (λ worker. number word.now ≡ Some (pos worker)) }
    ensures below { IfSome result (λ worker. worker < 16) }
{
    match short_number(word) {
        Some(n) if n < 16 => Some(n as u8),
        _ => None,
    }
}

/// Who steps so often by a line's word and the name after it.
fn turn_of<'a>(word: &[u8], who: &'a [u8], count: u32) -> Option<PlainTurn<'a>>
    ensures names { IfSome result (λ turn. definitions.Names word.now who.now turn) }
    ensures count { IfSome result (λ turn. definitions.count_in turn ≡ count) }
{
    if word == b"w".as_slice() {
        let worker = worker_of(who)?;
        return Some(PlainTurn::Worker { worker, count });
    }
    if word == b"t".as_slice() && is_task_text(who) {
        return Some(PlainTurn::Task { name: who, count });
    }
    None
}

/// What a plain line of the schedule says.
fn scheduled<'a>(tokens: &'a [Token<'a>]) -> Option<PlainTurn<'a>>
    ensures stated { IfSome result (λ turn. definitions.AreStated Schedule tokens.now turn) }
    ensures sound { IfSome result (λ turn. definitions.AreSound turn) }
{
    let Some((Token::Bare(word), operands)) = tokens.split_first() else {
        return None;
    };
    let Some((Token::Bare(who), more)) = operands.split_first() else {
        return None;
    };
    let count = plain_count(more)?;
    turn_of(word.items(), who.items(), count)
}

/// What a line says that stands in a section, where it is plain.
pub(crate) fn plain_turn<'a>(section: Section, tokens: &'a [Token<'a>]) -> Option<PlainTurn<'a>>
    ensures stated { IfSome result (λ turn. definitions.AreStated section tokens.now turn) }
    ensures sound { IfSome result (λ turn. definitions.AreSound turn) }
{
    match section {
        Section::Schedule => scheduled(tokens),
        _ => None,
    }
}
