//! The request that a call's word and its operands make.

ghost use Rattle.std.specs.Prelude.{◌≡◌, ◌≤◌, ◌<◌, IfOk, None, Some};
ghost use Rattle.hist_model.specs.Requests.{low_32};
ghost use Rattle.call_lines.specs.Readings.{Gives};
ghost use Rattle.call_lines.specs.Requests as definitions;

use crate::operands::{
    read_bytes, read_call_number, read_descriptor, read_device, read_flags, read_kind,
    read_permissions, read_text,
};
use crate::readings::{Reading, refused};
use crate::words::{Word, word_named};
use hist_model::request::{Kind, Request};
use hist_model::text::Text;
use lex_core::{Reason, Token};
use std::alloc::Global;
use sys_abi::calls;

/// The four bits of a mode that ask for a kind (inode(7)).
fn type_bits(kind: Kind) -> u16
    ensures value { result ≡ definitions.type_bits kind }
    ensures bound { result < 16 }
{
    match kind {
        Kind::Fifo => 0o01,
        Kind::Chr => 0o02,
        Kind::Dir => 0o04,
        Kind::Blk => 0o06,
        Kind::Reg => 0o10,
        Kind::Sock => 0o14,
        Kind::Bad => 0o17,
    }
}

/// A mode that asks for a kind, with these permissions.
fn mode_of(kind: Kind, permissions: u16) -> u16
    requires { permissions ≤ 4095 }
    ensures { result ≡ definitions.mode_of kind permissions }
{
    type_bits(kind) * 0o10000 + permissions
}

/// Reads the permissions behind a node, where there are any.
fn last_permissions(tokens: &[Token<'_>]) -> Reading<u16>
    ensures value { Gives result (definitions.last_permissions tokens.now) }
    ensures bound { IfOk result (λ n. n ≤ 4095) }
{
    match tokens {
        [] => Ok(0),
        [token] => read_permissions(token),
        _ => refused(Reason::WrongCount),
    }
}

/// Reads what stands behind a node's kind and numbers.
fn numbered_node(
    dirfd: Option<i32>,
    path: Text,
    kind: Kind,
    dev: u32,
    tokens: &[Token<'_>],
) -> Reading<Request>
    ensures { Gives result (definitions.numbered_node dirfd path kind dev tokens.now) }
{
    let permissions = last_permissions(tokens)?;
    Ok(Request::Mknod {
        dirfd,
        path,
        mode: mode_of(kind, permissions),
        dev: u64::from(dev),
    })
}

/// Reads what stands behind the kind of a device.
fn device_node(dirfd: Option<i32>, path: Text, kind: Kind, tokens: &[Token<'_>]) -> Reading<Request>
    ensures { Gives result (definitions.device_node dirfd path kind tokens.now) }
{
    match tokens {
        [token, rest @ ..] => numbered_node(dirfd, path, kind, read_device(token)?, rest),
        [] => refused(Reason::WrongCount),
    }
}

/// Reads what stands behind a node's kind.
fn node(dirfd: Option<i32>, path: Text, kind: Kind, tokens: &[Token<'_>]) -> Reading<Request>
    ensures { Gives result (definitions.node dirfd path kind tokens.now) }
{
    match kind {
        Kind::Chr | Kind::Blk => device_node(dirfd, path, kind, tokens),
        _ => numbered_node(dirfd, path, kind, 0, tokens),
    }
}

/// Reads the operands of mknod.
fn mknod(alloc: Global, dirfd: Option<i32>, tokens: &[Token<'_>]) -> Reading<Request>
    ensures { Gives result (definitions.mknod dirfd tokens.now) }
{
    match tokens {
        [path, kind, rest @ ..] => {
            let path = read_text(alloc, path)?;
            let kind = read_kind(kind)?;
            node(dirfd, path, kind, rest)
        }
        _ => refused(Reason::WrongCount),
    }
}

/// Reads the operands of mknodat.
fn mknodat(alloc: Global, tokens: &[Token<'_>]) -> Reading<Request>
    ensures { Gives result (definitions.mknodat tokens.now) }
{
    match tokens {
        [dirfd, rest @ ..] => {
            let dirfd = read_descriptor(dirfd)?;
            mknod(alloc, Some(dirfd), rest)
        }
        [] => refused(Reason::WrongCount),
    }
}

/// Reads the data of a mount, where there is any.
fn last_text(alloc: Global, tokens: &[Token<'_>]) -> Reading<Text>
    ensures { Gives result (definitions.last_text tokens.now) }
{
    match tokens {
        [] => Ok(Text::new(Vec::new(alloc))),
        [token] => read_text(alloc, token),
        _ => refused(Reason::WrongCount),
    }
}

/// Reads a mount's flags and its data.
fn mount_options(alloc: Global, tokens: &[Token<'_>]) -> Reading<(u64, Text)>
    ensures { Gives result (definitions.mount_options tokens.now) }
{
    match tokens {
        [] => Ok((0, Text::new(Vec::new(alloc)))),
        [token, rest @ ..] => {
            let flags = read_flags(alloc, calls::MOUNT, token)?;
            let data = last_text(alloc, rest)?;
            Ok((flags, data))
        }
    }
}

/// Reads the operands of mount.
fn mount(alloc: Global, tokens: &[Token<'_>]) -> Reading<Request>
    ensures { Gives result (definitions.mount tokens.now) }
{
    match tokens {
        [source, target, fstype, rest @ ..] => {
            let source = read_text(alloc, source)?;
            let target = read_text(alloc, target)?;
            let fstype = read_text(alloc, fstype)?;
            let (flags, options) = mount_options(alloc, rest)?;
            Ok(Request::Mount {
                source,
                target,
                fstype,
                options,
                via: Text::new(Vec::new(alloc)),
                flags,
                shift: false,
            })
        }
        _ => refused(Reason::WrongCount),
    }
}

/// The low 32 bits of an argument.
fn low_32(argument: u64) -> u32
    ensures { result ≡ low_32 argument }
{
    (argument % 0x1_0000_0000) as u32
}

/// Reads the flags of setxattr, where there are any.
fn attribute_flags(alloc: Global, tokens: &[Token<'_>]) -> Reading<u32>
    ensures { Gives result (definitions.attribute_flags tokens.now) }
{
    match tokens {
        [] => Ok(0),
        [token] => {
            let flags = read_flags(alloc, calls::SETXATTR, token)?;
            Ok(low_32(flags))
        }
        _ => refused(Reason::WrongCount),
    }
}

/// Reads the operands of setxattr.
fn setxattr(alloc: Global, tokens: &[Token<'_>]) -> Reading<Request>
    ensures { Gives result (definitions.setxattr tokens.now) }
{
    match tokens {
        [path, name, value, rest @ ..] => {
            let path = read_text(alloc, path)?;
            let name = read_text(alloc, name)?;
            let value = read_bytes(alloc, value)?;
            let flags = attribute_flags(alloc, rest)?;
            Ok(Request::SetXattr {
                path,
                name,
                value,
                flags,
            })
        }
        _ => refused(Reason::WrongCount),
    }
}

/// Reads the operands of openat.
fn openat(alloc: Global, tokens: &[Token<'_>]) -> Reading<Request>
    ensures { Gives result (definitions.openat tokens.now) }
{
    match tokens {
        [dirfd, path] => {
            let dirfd = read_descriptor(dirfd)?;
            let path = read_text(alloc, path)?;
            Ok(Request::OpenAt {
                dirfd,
                path,
                flags: 0,
            })
        }
        _ => refused(Reason::WrongCount),
    }
}

/// A call of which no argument is written.
fn alone(request: Request, tokens: &[Token<'_>]) -> Reading<Request>
    ensures { Gives result (definitions.alone request tokens.now) }
{
    match tokens {
        [] => Ok(request),
        _ => refused(Reason::WrongCount),
    }
}

/// Reads the number of a call that has no name.
fn other(tokens: &[Token<'_>]) -> Reading<Request>
    ensures { Gives result (definitions.other tokens.now) }
{
    match tokens {
        [token] => {
            let nr = read_call_number(token)?;
            Ok(Request::Other { nr })
        }
        _ => refused(Reason::WrongCount),
    }
}

/// Reads the operands behind a word.
fn worded(alloc: Global, word: Word, tokens: &[Token<'_>]) -> Reading<Request>
    ensures { Gives result (definitions.worded word tokens.now) }
{
    match word {
        Word::Mknod => mknod(alloc, None, tokens),
        Word::Mknodat => mknodat(alloc, tokens),
        Word::Mount => mount(alloc, tokens),
        Word::Setxattr => setxattr(alloc, tokens),
        Word::Openat => openat(alloc, tokens),
        Word::Sysinfo => alone(Request::Sysinfo { addr: 0 }, tokens),
        Word::Close => alone(Request::Other { nr: calls::CLOSE }, tokens),
        Word::Getpid => alone(Request::Other { nr: calls::GETPID }, tokens),
        Word::Other => other(tokens),
    }
}

/// Reads the operands behind a word, where it is known.
fn known_word(alloc: Global, word: Option<Word>, tokens: &[Token<'_>]) -> Reading<Request>
    ensures { Gives result (definitions.known_word word tokens.now) }
{
    match word {
        Some(word) => worded(alloc, word, tokens),
        None => refused(Reason::UnknownWord),
    }
}

/// Reads the request that the tokens of a line make.
pub fn read_request(alloc: Global, tokens: &[Token<'_>]) -> Reading<Request>
    ensures { Gives result (definitions.request tokens.now) }
{
    match tokens {
        [first, rest @ ..] => match first {
            Token::Bare(name) => known_word(alloc, word_named(name.items()), rest),
            Token::Quoted(_) => refused(Reason::UnknownWord),
        },
        [] => refused(Reason::UnknownWord),
    }
}
