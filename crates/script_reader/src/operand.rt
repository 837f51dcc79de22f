//! What may stand after the words of lines.

ghost use Rattle.std.specs.Prelude.{◌≡◌, ◌≤◌, length, slice_get};
ghost use Rattle.lex_core.specs.declared.line.Token.TheVariants.{Bare};
ghost use Rattle.lex_core.specs.Numbers as numbers;
ghost use Rattle.script_reader.specs.Operands as definitions;

use crate::operands::Operands;
use crate::paths::{ROOT, has_zero, is_path};
use crate::word::Word;
use lex_core::{Reason, Token};
use step_requests::names::is_task_text;
use sys_abi::calls::call_number;
use sys_abi::signals::{SIGKILL, SIGTERM, SIGUSR1, SIGUSR2};

/// What an operand has to be.
#[derive(Clone, Copy)]
pub enum Operand {
    /// A number in a range, its ends among it.
    Number {
        least: i128,
        most: i128,
    },
    /// The address of a page.
    Page,
    /// A signal that may be sent: SIGKILL, SIGUSR1, SIGUSR2 or SIGTERM.
    Signal,
    /// A signal whose handler may be set: SIGUSR1, SIGUSR2 or SIGTERM.
    Handled,
    /// A path of one or more names.
    Path,
    /// A path, or `/` alone.
    Root,
    /// A text with a length in bytes; `zeros` is whether zero bytes may stand in it.
    Text {
        least: usize,
        most: usize,
        zeros: bool,
    },
    /// The name of a program.
    Program,
    /// The name of a call.
    CallName,
    /// The name of a call, or its number.
    Call,
    /// The disposition of a handler.
    Disposition,
    /// The word `listener`.
    Listener,
    /// Whom a signal is for.
    Whom,
    /// The name of a task.
    Task,
}

/// Whom a signal is for, as the first word after `kill` says.
#[derive(Clone, Copy)]
pub enum Addressee {
    /// `self`.
    Own,
    Parent,
    Child,
    Pid,
    /// Another word, or none.
    Unknown,
}

/// Whom a word after `kill` names.
fn addressee_of(word: &[u8]) -> Addressee
    ensures { result ≡ definitions.addressee_of word.now }
{
    if word == b"self".as_slice() {
        Addressee::Own
    } else if word == b"parent".as_slice() {
        Addressee::Parent
    } else if word == b"child".as_slice() {
        Addressee::Child
    } else if word == b"pid".as_slice() {
        Addressee::Pid
    } else {
        Addressee::Unknown
    }
}

/// Whom the first of the operands of a `kill` names.
pub fn addressee_in(operands: &[Token<'_>]) -> Addressee
    ensures { result ≡ definitions.addressee_in operands.now }
{
    match operands.first() {
        Some(Token::Bare(word)) => addressee_of(word.items()),
        _ => Addressee::Unknown,
    }
}

/// How many operands a `kill` has, at least and at most.
fn kill_counts(whom: Addressee) -> (usize, usize)
    ensures { result ≡ definitions.kill_counts whom }
{
    match whom {
        Addressee::Own | Addressee::Parent => (2, 2),
        Addressee::Child | Addressee::Pid => (3, 3),
        Addressee::Unknown => (2, 3),
    }
}

/// How many operands stand after a word, at least and at most.
fn counts(word: Word, operands: &[Token<'_>]) -> (usize, usize)
    ensures { result ≡ definitions.counts word operands.now }
{
    match word {
        Word::Killable | Word::Wait | Word::Exit | Word::Schedule | Word::End => (0, 0),
        Word::Filter => (0, 1),
        Word::Task | Word::Worker => (1, 2),
        Word::Call => (1, 7),
        Word::Notify => (1, 64),
        Word::Link | Word::Map | Word::Cgroup | Word::Poke | Word::Handler => (2, 2),
        Word::Kill => kill_counts(addressee_in(operands)),
        Word::Chr | Word::Blk | Word::Attr | Word::Fill => (3, 3),
        Word::Figures => (6, 6),
        _ => (1, 1),
    }
}

/// Whether there are neither too few nor too many operands.
fn is_counted(word: Word, operands: &[Token<'_>]) -> bool
    ensures { result ≡ definitions.is_counted word operands.now }
{
    let (least, most) = counts(word, operands);
    least <= operands.len() && operands.len() <= most
}

/// A number without a sign.
fn natural(least: u64, most: u64) -> Operand
    ensures { result ≡ definitions.natural least most }
{
    Operand::Number {
        least: least as i128,
        most: most as i128,
    }
}

/// A number of 64 bits.
fn wide() -> Operand
    ensures { result ≡ definitions.wide }
{
    natural(0, u64::MAX)
}

/// A number of 64 bits, with a sign or without.
fn argument() -> Operand
    ensures { result ≡ definitions.argument }
{
    Operand::Number {
        least: -0x8000_0000_0000_0000,
        most: 0xffff_ffff_ffff_ffff,
    }
}

/// What the number after the word of whom a signal is for has to be: that of a child, a PID, or any number
/// after another word.
fn kill_number(whom: Addressee) -> Operand
    ensures { result ≡ definitions.kill_number whom }
{
    match whom {
        Addressee::Child => natural(1, 100_000),
        Addressee::Pid => natural(0, 0xffff_ffff),
        _ => Operand::Number {
            least: -(1 << 100),
            most: 1 << 100,
        },
    }
}

/// What an operand of `kill` has to be. The signal comes last.
fn kill_operand(operands: &[Token<'_>], place: usize) -> Operand
    requires { place ≤ length operands.now }
    ensures { result ≡ definitions.kill_operand operands.now place }
{
    if place == 0 {
        Operand::Whom
    } else if place + 1 == operands.len() {
        Operand::Signal
    } else {
        kill_number(addressee_in(operands))
    }
}

fn device_operand(place: usize) -> Operand
    ensures { result ≡ definitions.device_operand place }
{
    match place {
        0 => Operand::Path,
        1 => natural(0, 4095),
        _ => natural(0, 1_048_575),
    }
}

/// What an operand of `attr` has to be: the path of a node, a name and a value (xattr(7)).
fn attr_operand(place: usize) -> Operand
    ensures { result ≡ definitions.attr_operand place }
{
    match place {
        0 => Operand::Path,
        1 => Operand::Text {
            least: 1,
            most: 255,
            zeros: false,
        },
        _ => Operand::Text {
            least: 0,
            most: 4096,
            zeros: true,
        },
    }
}

fn fill_operand(place: usize) -> Operand
    ensures { result ≡ definitions.fill_operand place }
{
    match place {
        0 => wide(),
        1 => natural(1, 65_536),
        _ => natural(0, 255),
    }
}

/// The first operand is of one kind, and the others of another.
fn first_or(place: usize, first: Operand, other: Operand) -> Operand
    ensures { result ≡ definitions.first_or place first other }
{
    if place == 0 { first } else { other }
}

/// What the operand at a place after a word has to be.
fn operand_at(word: Word, operands: &[Token<'_>], place: usize) -> Operand
    requires { place ≤ length operands.now }
    ensures { result ≡ definitions.operand_at word operands.now place }
{
    match word {
        Word::Pidmax => natural(1, 4_194_304),
        Word::Pidbase => natural(0, 4_194_303),
        Word::Rlimit => natural(0, 4096),
        Word::Dir | Word::Reg | Word::Fifo | Word::Sock => Operand::Path,
        Word::Link => first_or(
            place,
            Operand::Path,
            Operand::Text {
                least: 1,
                most: 4095,
                zeros: false,
            },
        ),
        Word::Chr | Word::Blk => device_operand(place),
        Word::Attr => attr_operand(place),
        Word::Root => Operand::Root,
        Word::Broker => natural(0, 1023),
        Word::Map => first_or(place, Operand::Page, natural(1, 64)),
        Word::Figures => {
            if place == 5 {
                natural(0, 65_535)
            } else {
                wide()
            }
        }
        Word::Notify => Operand::CallName,
        Word::Filter => Operand::Listener,
        Word::Prog | Word::Spawn | Word::Thread => Operand::Program,
        Word::Poke => first_or(
            place,
            wide(),
            Operand::Text {
                least: 1,
                most: 65_536,
                zeros: true,
            },
        ),
        Word::Fill => fill_operand(place),
        Word::Call => first_or(place, Operand::Call, argument()),
        Word::Kill => kill_operand(operands, place),
        Word::Handler => first_or(place, Operand::Handled, Operand::Disposition),
        Word::Task => first_or(place, Operand::Task, natural(1, 200_000)),
        Word::Worker => first_or(place, natural(0, 15), natural(1, 200_000)),
        _ => wide(),
    }
}

#[inline(always)]
fn fault_unless(right: bool, reason: Reason) -> Option<Reason>
    ensures { result ≡ definitions.fault_unless right reason }
{
    if right { None } else { Some(reason) }
}

/// Whether a number is the address of a page, up to 2^47.
fn is_page(number: Option<u64>) -> bool
    ensures { result ≡ definitions.is_page number }
{
    match number {
        Some(address) => address % 4096 == 0 && address <= 1 << 47,
        None => false,
    }
}

/// Whether a number is that of a signal whose handler may be set.
fn is_handled_signal(number: Option<u64>) -> bool
    ensures { result ≡ definitions.is_handled_signal number }
{
    match number {
        Some(signal) => {
            signal == SIGUSR1 as u64 || signal == SIGUSR2 as u64 || signal == SIGTERM as u64
        }
        None => false,
    }
}

/// Whether a number is that of a signal that may be sent.
fn is_sent_signal(number: Option<u64>) -> bool
    ensures { result ≡ definitions.is_sent_signal number }
{
    match number {
        Some(signal) => signal == SIGKILL as u64 || is_handled_signal(number),
        None => false,
    }
}

/// Whether a number may stand where such an operand belongs.
#[inline(always)]
fn is_allowed(kind: Operand, number: i128) -> bool
    ensures { result ≡ definitions.is_allowed kind number }
{
    match kind {
        Operand::Number { least, most } => least <= number && number <= most,
        Operand::Page => is_page(u64::try_from(number).ok()),
        Operand::Signal => is_sent_signal(u64::try_from(number).ok()),
        Operand::Handled => is_handled_signal(u64::try_from(number).ok()),
        Operand::Call => 0 <= number && number < 0x8000_0000,
        _ => false,
    }
}

#[inline(always)]
fn number_fault(kind: Operand, number: Option<i128>) -> Option<Reason>
    ensures { result ≡ definitions.number_fault kind number }
{
    match number {
        Some(number) => fault_unless(is_allowed(kind, number), Reason::OutOfRange),
        None => Some(Reason::BadNumber),
    }
}

/// Whether a word is meant as a number: it begins with `-` or a digit.
pub fn begins_number(word: &[u8]) -> bool
    ensures { result ≡ definitions.begins_number word.now }
{
    match word.first() {
        Some(&first) => first == b'-' || (b'0' <= first && first <= b'9'),
        None => false,
    }
}

fn is_call_name(word: &[u8]) -> bool
    ensures { result ≡ definitions.is_call_name word.now }
{
    call_number(word).is_some()
}

/// Whether a word is the disposition of a handler.
fn is_disposition(word: &[u8]) -> bool
    ensures { result ≡ definitions.is_disposition word.now }
{
    word == b"default".as_slice() || word == b"restart".as_slice() || word == b"plain".as_slice()
}

fn is_addressee(whom: Addressee) -> bool
    ensures { result ≡ definitions.is_addressee whom }
{
    !matches!(whom, Addressee::Unknown)
}

/// The fault of the operand that names a call, by its number or its name.
fn call_fault(word: &[u8], number: Option<i128>, call: Option<i32>) -> Option<Reason>
    requires number { number ≡ numbers.number word.now }
    requires call { call ≡ definitions.named_call word.now }
    ensures { result ≡ definitions.call_fault word.now }
{
    if begins_number(word) {
        number_fault(Operand::Call, number)
    } else {
        fault_unless(call.is_some(), Reason::UnknownName)
    }
}

/// The fault of the operand at a place, which is this word. A text belongs between quotes.
fn word_fault(kind: Operand, word: &[u8], operands: &Operands<'_>, place: usize) -> Option<Reason>
    requires { slice_get operands.now place ≡ Some (Bare word.now) }
    ensures { result ≡ definitions.operand_fault kind (Bare word.now) }
{
    match kind {
        Operand::Path | Operand::Root | Operand::Text { .. } => Some(Reason::WrongForm),
        Operand::Program => fault_unless(word.len() <= 64, Reason::OutOfRange),
        Operand::CallName => fault_unless(is_call_name(word), Reason::UnknownName),
        Operand::Call => call_fault(word, operands.number(place), operands.call(place)),
        Operand::Disposition => fault_unless(is_disposition(word), Reason::UnknownName),
        Operand::Listener => { fault_unless(word == b"listener".as_slice(), Reason::UnknownName) }
        Operand::Whom => { fault_unless(is_addressee(addressee_of(word)), Reason::UnknownName) }
        Operand::Task => fault_unless(is_task_text(word), Reason::BadNumber),
        _ => number_fault(kind, operands.number(place)),
    }
}

/// The fault of an operand between quotes.
fn text_fault(kind: Operand, bytes: &[u8]) -> Option<Reason>
    ensures { result ≡ definitions.text_fault kind bytes.now }
{
    match kind {
        Operand::Path => fault_unless(is_path(bytes), Reason::BadPath),
        Operand::Root => fault_unless(bytes == ROOT || is_path(bytes), Reason::BadPath),
        Operand::Text { least, most, zeros } => fault_unless(
            least <= bytes.len() && bytes.len() <= most && (zeros || !has_zero(bytes)),
            Reason::OutOfRange,
        ),
        _ => Some(Reason::WrongForm),
    }
}

/// The fault that the operand at a place shows by itself; none after the last one.
fn operand_fault(kind: Operand, operands: &Operands<'_>, place: usize) -> Option<Reason>
    ensures { result ≡ definitions.fault_at kind operands.now place }
{
    match operands.tokens().get(place) {
        Some(Token::Bare(word)) => word_fault(kind, word.items(), operands, place),
        Some(Token::Quoted(bytes)) => text_fault(kind, bytes.items()),
        None => None,
    }
}

/// Where a reason stands among those that an operand shows by itself.
fn rank(reason: Reason) -> u8
    ensures { result ≡ definitions.rank reason }
{
    match reason {
        Reason::WrongForm => 0,
        Reason::BadNumber => 1,
        Reason::OutOfRange => 2,
        Reason::BadPath => 3,
        _ => 4,
    }
}

/// Of two faults, the one whose reason stands first in the table of reasons.
fn earlier(one: Option<Reason>, other: Option<Reason>) -> Option<Reason>
    ensures { result ≡ definitions.earlier one other }
{
    match (one, other) {
        (None, other) => other,
        (Some(reason), None) => Some(reason),
        (Some(reason), Some(other)) => {
            if rank(reason) <= rank(other) {
                Some(reason)
            } else {
                Some(other)
            }
        }
    }
}

/// The first fault that the operands show by themselves.
#[tactic(auto, using(crate::proofs::OperandFaults::faults_end))]
fn fault_among(word: Word, operands: &Operands<'_>) -> Option<Reason>
    ensures { result ≡ definitions.fault_from word operands.now 0 operands.now }
{
    let mut found = None;
    let mut place = operands.tokens().len();
    while place > 0 {
        place -= 1;
        found = earlier(
            operand_fault(operand_at(word, operands.tokens(), place), operands, place),
            found,
        );
    }
    found
}

/// The fault that a line's operands show by themselves: their count, and then, whichever operand it is for, the reason that
/// stands first in the table.
pub fn operands_fault(word: Word, operands: &Operands<'_>) -> Option<Reason>
    ensures { result ≡ definitions.operands_fault word operands.now }
{
    if is_counted(word, operands.tokens()) {
        fault_among(word, operands)
    } else {
        Some(Reason::WrongCount)
    }
}
