//! What may stand behind the words of a line.

ghost use Rattle.std.specs.Prelude.{◌≡◌, ◌≤◌, ◌<◌, ◌^◌, length};
ghost use Rattle.step_requests.specs.Operands as definitions;

use crate::names::is_task_text;
use crate::word::{Deed, Form, LookAt};
use hex::FromHexError;
use lex_core::{Reason, Token, read_number};

/// A structure whose bytes a line may state (seccomp_unotify(2), sysinfo(2)).
#[derive(Clone, Copy)]
pub enum Structure {
    Notif,
    Resp,
    Addfd,
    Sysinfo,
}

/// What an operand has to be.
#[derive(Clone, Copy)]
pub enum Operand {
    /// A word that says which request the line is. Nothing can be wrong with it.
    Word,
    /// A number in a range, its ends among it.
    Number { least: i128, most: i128 },
    /// The bytes of a structure, two hexadecimal digits each.
    Bytes(Structure),
    /// A text; `zeros` is whether zero bytes may stand in it.
    Text { zeros: bool },
    /// The name of a task.
    Task,
    /// The word `via`.
    Via,
    /// The word `shift`.
    Shift,
    /// The word `follow` or `nofollow`.
    Follow,
}

/// The size of the largest structure.
const MOST_BYTES: usize = 112;

/// How many bytes a structure has.
fn size_of(structure: Structure) -> usize
    ensures value { result ≡ definitions.size_of structure }
    ensures few { result ≤ 112 }
{
    match structure {
        Structure::Notif => 80,
        Structure::Resp | Structure::Addfd => 24,
        Structure::Sysinfo => 112,
    }
}

/// How many tokens of a worker's line stand before its operands.
fn words_before(deed: Deed) -> usize
    ensures value { result ≡ definitions.words_before deed }
    ensures few { result ≤ 4 }
{
    match deed {
        Deed::Mknod | Deed::Mknodat | Deed::Mount | Deed::SetXattr => 4,
        _ => 3,
    }
}

/// How many operands a worker's request has at least.
fn operand_count(deed: Deed) -> usize
    ensures value { result ≡ definitions.operand_count deed }
    ensures few { result ≤ 5 }
{
    match deed {
        Deed::RecvRaw | Deed::OpenMem | Deed::Check | Deed::AddfdRaw | Deed::SendRaw => 1,
        Deed::OpenBase | Deed::Read | Deed::Plant => 2,
        Deed::Mknod => 3,
        Deed::Mknodat | Deed::SetXattr | Deed::Send => 4,
        Deed::Mount | Deed::Addfd => 5,
        Deed::Recv | Deed::AddfdResult | Deed::LetGo => 0,
    }
}

/// How many more operands it may have.
fn more_operands(deed: Deed) -> usize
    ensures value { result ≡ definitions.more_operands deed }
    ensures few { result ≤ 3 }
{
    match deed {
        Deed::Mount => 3,
        _ => 0,
    }
}

/// How many operands a `look` has.
fn look_count(at: LookAt) -> usize
    ensures value { result ≡ definitions.look_count at }
    ensures few { result ≤ 4 }
{
    match at {
        LookAt::Pid => 1,
        LookAt::Fd => 2,
        LookAt::Path => 4,
        LookAt::Listener => 0,
    }
}

/// How many tokens a line has at least.
fn least_tokens(form: Form) -> usize
    ensures value { result ≡ definitions.least_tokens form }
    ensures few { result ≤ 9 }
{
    match form {
        Form::Worker(deed) => words_before(deed) + operand_count(deed),
        Form::Look(at) => 2 + look_count(at),
        Form::Task | Form::Judge { idle: true } => 2,
        _ => 1,
    }
}

/// How many tokens a line may have beyond that.
fn spare_tokens(form: Form) -> usize
    ensures value { result ≡ definitions.spare_tokens form }
    ensures few { result ≤ 3 }
{
    match form {
        Form::Worker(deed) => more_operands(deed),
        _ => 0,
    }
}

/// Whether a line has neither too few nor too many tokens.
fn is_counted(form: Form, line: &[Token<'_>]) -> bool
    ensures { result ≡ definitions.is_counted form line.now }
{
    let least = least_tokens(form);
    least <= line.len() && line.len() <= least + spare_tokens(form)
}

/// A number without a sign.
fn natural(most: u128) -> Operand
    requires { most < 2 ^ 127 }
    ensures { result ≡ definitions.natural most }
{
    Operand::Number {
        least: 0,
        most: most as i128,
    }
}

/// A number without a sign, of 32 bits.
fn word() -> Operand
    ensures { result ≡ definitions.word }
{
    natural(0xffff_ffff)
}

/// A number without a sign, of 64 bits.
fn wide() -> Operand
    ensures { result ≡ definitions.wide }
{
    natural(0xffff_ffff_ffff_ffff)
}

/// A number with a sign, of 32 bits.
fn signed_word() -> Operand
    ensures { result ≡ definitions.signed_word }
{
    Operand::Number {
        least: -0x8000_0000,
        most: 0x7fff_ffff,
    }
}

/// A number with a sign, of 64 bits.
fn signed_wide() -> Operand
    ensures { result ≡ definitions.signed_wide }
{
    Operand::Number {
        least: -0x8000_0000_0000_0000,
        most: 0x7fff_ffff_ffff_ffff,
    }
}

/// The number of a worker. One above 15 has a refusal of its own.
fn seat() -> Operand
    ensures { result ≡ definitions.seat }
{
    natural(1 << 100)
}

/// A text without a zero byte.
fn c_string() -> Operand
    ensures { result ≡ definitions.c_string }
{
    Operand::Text { zeros: false }
}

/// What an operand has to be where the first one is of one kind, and the others are of another.
fn first_or(place: usize, first: Operand, other: Operand) -> Operand
    ensures { result ≡ definitions.first_or place first other }
{
    if place == 0 { first } else { other }
}

/// What an operand of a `mknod` has to be: the path, the mode and the device.
fn mknod_operand(place: usize) -> Operand
    ensures { result ≡ definitions.mknod_operand place }
{
    match place {
        0 => c_string(),
        1 => word(),
        _ => wide(),
    }
}

/// What an operand of a `mknodat` has to be: a descriptor stands before those of a `mknod`.
fn mknodat_operand(place: usize) -> Operand
    ensures { result ≡ definitions.mknodat_operand place }
{
    if place == 0 {
        signed_word()
    } else {
        mknod_operand(place - 1)
    }
}

/// What an operand behind a mount's data has to be, where there are so many operands.
fn tail_operand(count: usize, place: usize) -> Operand
    ensures { result ≡ definitions.tail_operand count place }
{
    match place {
        5 if count == 6 => Operand::Shift,
        5 => Operand::Via,
        6 => c_string(),
        _ => Operand::Shift,
    }
}

/// What an operand of a mount with so many has to be: the source, the target, the type, the flags, the data, and what may follow.
fn mount_operand(count: usize, place: usize) -> Operand
    ensures { result ≡ definitions.mount_operand count place }
{
    if place == 3 {
        wide()
    } else if place >= 5 {
        tail_operand(count, place)
    } else {
        c_string()
    }
}

/// What an operand of a `setxattr` has to be: the path, the name, the value and the flags.
fn setxattr_operand(place: usize) -> Operand
    ensures { result ≡ definitions.setxattr_operand place }
{
    match place {
        3 => wide(),
        2 => Operand::Text { zeros: true },
        _ => c_string(),
    }
}

/// What an operand of an answer has to be: the id, the value, the error and the flags.
fn send_operand(place: usize) -> Operand
    ensures { result ≡ definitions.send_operand place }
{
    match place {
        0 => wide(),
        1 => signed_wide(),
        2 => signed_word(),
        _ => word(),
    }
}

/// What an operand of a worker's request with so many operands has to be.
fn deed_operand(deed: Deed, count: usize, place: usize) -> Operand
    ensures { result ≡ definitions.deed_operand deed count place }
{
    match deed {
        Deed::RecvRaw => Operand::Bytes(Structure::Notif),
        Deed::OpenMem => word(),
        Deed::OpenBase => first_or(place, word(), signed_word()),
        Deed::Read => first_or(place, wide(), natural(0xffff)),
        Deed::Mknod => mknod_operand(place),
        Deed::Mknodat => mknodat_operand(place),
        Deed::Mount => mount_operand(count, place),
        Deed::SetXattr => setxattr_operand(place),
        Deed::Plant => first_or(place, wide(), Operand::Bytes(Structure::Sysinfo)),
        Deed::Addfd => first_or(place, wide(), word()),
        Deed::AddfdRaw => Operand::Bytes(Structure::Addfd),
        Deed::Send => send_operand(place),
        Deed::SendRaw => Operand::Bytes(Structure::Resp),
        _ => wide(),
    }
}

/// What the token at a place of a worker's line has to be.
fn worker_operand(deed: Deed, tokens: usize, place: usize) -> Operand
    requires { place ≤ tokens }
    ensures { result ≡ definitions.worker_operand deed tokens place }
{
    let words = words_before(deed);
    if place == 1 {
        seat()
    } else if words <= place {
        deed_operand(deed, tokens - words, place - words)
    } else {
        Operand::Word
    }
}

/// What an operand of a path that is looked at has to be: the PID, the descriptor, the path, and whether a link is followed.
fn look_path_operand(place: usize) -> Operand
    ensures { result ≡ definitions.look_path_operand place }
{
    match place {
        0 => word(),
        1 => signed_word(),
        2 => c_string(),
        _ => Operand::Follow,
    }
}

/// What the token at a place of a `look` has to be.
fn look_operand(at: LookAt, place: usize) -> Operand
    ensures { result ≡ definitions.look_operand at place }
{
    if place < 2 {
        return Operand::Word;
    }
    match at {
        LookAt::Path => look_path_operand(place - 2),
        LookAt::Pid | LookAt::Fd | LookAt::Listener => word(),
    }
}

/// What the token at a place of a line with so many has to be.
fn operand_at(form: Form, tokens: usize, place: usize) -> Operand
    requires { place ≤ tokens }
    ensures { result ≡ definitions.operand_at form tokens place }
{
    match form {
        Form::Worker(deed) => worker_operand(deed, tokens, place),
        Form::Judge { .. } => Operand::Word,
        Form::Look(at) => look_operand(at, place),
        _ => first_or(place, Operand::Word, Operand::Task),
    }
}

/// A fault for this reason, unless all is right.
fn fault_unless(right: bool, why: Reason) -> Option<Reason>
    ensures { result ≡ definitions.fault_unless right why }
{
    if right { None } else { Some(why) }
}

/// The fault of a number that has to lie between two others; none was read where the operand is no number.
fn number_fault(least: i128, most: i128, number: Option<i128>) -> Option<Reason>
    ensures { result ≡ definitions.number_fault least most number }
{
    match number {
        Some(number) => fault_unless(least <= number && number <= most, Reason::OutOfRange),
        None => Some(Reason::BadNumber),
    }
}

/// The fault of the digits of a structure.
fn hex_fault(structure: Structure, digits: &[u8]) -> Option<Reason>
    ensures { result ≡ definitions.hex_fault structure digits.now }
{
    let mut bytes = [0; MOST_BYTES];
    match hex::decode_to_slice(digits, &mut bytes[..size_of(structure)]) {
        Ok(()) => None,
        Err(FromHexError::InvalidHexCharacter { .. }) => Some(Reason::BadNumber),
        Err(_) => Some(Reason::OutOfRange),
    }
}

/// Whether a word says if a link is followed.
fn says_follow(word: &[u8]) -> bool
    ensures { result ≡ definitions.says_follow word.now }
{
    word == b"follow".as_slice() || word == b"nofollow".as_slice()
}

/// The fault of an operand without quotes.
fn word_fault(kind: Operand, bytes: &[u8]) -> Option<Reason>
    ensures { result ≡ definitions.word_fault kind bytes.now }
{
    match kind {
        Operand::Word => None,
        Operand::Number { least, most } => number_fault(least, most, read_number(bytes)),
        Operand::Bytes(structure) => hex_fault(structure, bytes),
        Operand::Task => fault_unless(is_task_text(bytes), Reason::BadNumber),
        Operand::Via => fault_unless(bytes == b"via".as_slice(), Reason::UnknownName),
        Operand::Shift => fault_unless(bytes == b"shift".as_slice(), Reason::UnknownName),
        Operand::Follow => fault_unless(says_follow(bytes), Reason::UnknownName),
        Operand::Text { .. } => Some(Reason::WrongForm),
    }
}

/// The fault of an operand between quotes.
fn text_fault(kind: Operand, bytes: &[u8]) -> Option<Reason>
    ensures { result ≡ definitions.text_fault kind bytes.now }
{
    match kind {
        Operand::Text { zeros } => {
            fault_unless(zeros || !bytes.contains(&0), Reason::OutOfRange)
        }
        _ => Some(Reason::WrongForm),
    }
}

/// The fault that the token at a place shows by itself; none behind the last one.
fn fault_at(kind: Operand, line: &[Token<'_>], place: usize) -> Option<Reason>
    ensures { result ≡ definitions.fault_at kind line.now place }
{
    match line.get(place) {
        Some(Token::Bare(word)) => word_fault(kind, word.items()),
        Some(Token::Quoted(bytes)) => text_fault(kind, bytes.items()),
        None => None,
    }
}

/// Where a reason stands among those that an operand shows by itself.
fn rank(why: Reason) -> u8
    ensures { result ≡ definitions.rank why }
{
    match why {
        Reason::WrongForm => 0,
        Reason::BadNumber => 1,
        Reason::OutOfRange => 2,
        _ => 3,
    }
}

/// Of two faults, the one whose reason stands first in the table of reasons.
fn earlier(one: Option<Reason>, other: Option<Reason>) -> Option<Reason>
    ensures { result ≡ definitions.earlier one other }
{
    match (one, other) {
        (None, other) => other,
        (Some(why), None) => Some(why),
        (Some(why), Some(other)) => {
            if rank(why) <= rank(other) {
                Some(why)
            } else {
                Some(other)
            }
        }
    }
}

/// The first fault that the tokens of a line show by themselves.
#[tactic(auto, using(crate::proofs::OperandFaults::faults_end))]
fn fault_among(form: Form, line: &[Token<'_>]) -> Option<Reason>
    ensures { result ≡ definitions.fault_from form (length line.now) 0 line.now }
{
    let mut found = None;
    let mut place = line.len();
    while place > 0 {
        place -= 1;
        found = earlier(
            fault_at(operand_at(form, line.len(), place), line, place),
            found,
        );
    }
    found
}

/// The fault that a line's tokens show by themselves: their count, and then, whichever token it is for, the reason that stands
/// first in the table of reasons.
pub fn line_fault(form: Form, line: &[Token<'_>]) -> Option<Reason>
    ensures { result ≡ definitions.line_fault form line.now }
{
    if is_counted(form, line) {
        fault_among(form, line)
    } else {
        Some(Reason::WrongCount)
    }
}
