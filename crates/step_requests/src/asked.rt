//! What a worker's line asks for, and what a line looks at.

ghost use Rattle.std.specs.Prelude.{◌≡◌, ◌<◌, IfOk};
ghost use Rattle.step_requests.specs.Requests as definitions;

use crate::request::{Asked, Look};
use crate::values::{
    bytes_at, half_at, signed_wide_at, signed_word_at, structure_at, text_at, wide_at, word_at,
};
use crate::word::{Deed, LookAt};
use hist_model::boxed::Boxed;
use hist_model::request::Request;
use hist_model::text::Text;
use lex_core::Token;
use std::alloc::{AllocError, Global};
use sys_abi::memory::NoMemory;
use sys_abi::wire::{Addfd, Resp};

/// A node, whose path, mode and device stand from a place on. Of the mode the low 16 bits are kept, as of a call's argument.
fn node_at(
    alloc: Global,
    line: &[Token<'_>],
    dirfd: Option<i32>,
    place: usize,
) -> Result<Request, AllocError>
    requires { place < 6 }
    ensures { IfOk result (λ q. q ≡ definitions.node_at line.now dirfd place) }
{
    Ok(Request::Mknod {
        dirfd,
        path: text_at(alloc, line, place)?,
        mode: (word_at(line, place + 1) % 0x1_0000) as u16,
        dev: wide_at(line, place + 2),
    })
}

/// The program that serves a mount; empty for none.
fn program_of(alloc: Global, line: &[Token<'_>]) -> Result<Text, AllocError>
    ensures { IfOk result (λ text. text ≡ definitions.program_of line.now) }
{
    if line.len() >= 11 {
        text_at(alloc, line, 10)
    } else {
        Ok(Text::new(Vec::new(alloc)))
    }
}

/// Whether the last word of a mount is `shift`.
fn has_shift(line: &[Token<'_>]) -> bool
    ensures { result ≡ definitions.has_shift line.now }
{
    line.len() == 10 || line.len() == 12
}

fn mount_of(alloc: Global, line: &[Token<'_>]) -> Result<Request, AllocError>
    ensures { IfOk result (λ q. q ≡ definitions.mount_of line.now) }
{
    Ok(Request::Mount {
        source: text_at(alloc, line, 4)?,
        target: text_at(alloc, line, 5)?,
        fstype: text_at(alloc, line, 6)?,
        options: text_at(alloc, line, 8)?,
        via: program_of(alloc, line)?,
        flags: wide_at(line, 7),
        shift: has_shift(line),
    })
}

/// An attribute. Of the flags the low 32 bits are kept, as of a call's argument.
fn setxattr_of(alloc: Global, line: &[Token<'_>]) -> Result<Request, AllocError>
    ensures { IfOk result (λ q. q ≡ definitions.setxattr_of line.now) }
{
    Ok(Request::SetXattr {
        path: text_at(alloc, line, 4)?,
        name: text_at(alloc, line, 5)?,
        value: text_at(alloc, line, 6)?,
        flags: (wide_at(line, 7) % 0x1_0000_0000) as u32,
    })
}

fn resp_at(line: &[Token<'_>]) -> Resp
    ensures { result ≡ definitions.resp_at line.now }
{
    Resp {
        id: wide_at(line, 3),
        val: signed_wide_at(line, 4),
        error: signed_word_at(line, 5),
        flags: word_at(line, 6),
    }
}

fn addfd_at(line: &[Token<'_>]) -> Addfd
    ensures { result ≡ definitions.addfd_at line.now }
{
    Addfd {
        id: wide_at(line, 3),
        flags: word_at(line, 4),
        srcfd: word_at(line, 5),
        newfd: word_at(line, 6),
        newfd_flags: word_at(line, 7),
    }
}

fn plant(line: &[Token<'_>]) -> Asked
    ensures { result ≡ definitions.plant line.now }
{
    Asked::Plant {
        addr: wide_at(line, 3),
        bytes: structure_at::<112>(line, 4),
    }
}

/// A call that a worker makes itself.
fn act(alloc: Global, request: Request) -> Result<Asked, NoMemory>
    ensures { IfOk result (λ a. a ≡ definitions.act request) }
{
    Ok(Asked::Act(Boxed::new(alloc, request)?))
}

/// What a worker's line asks for, where its operands have no fault.
pub fn asked(alloc: Global, deed: Deed, line: &[Token<'_>]) -> Result<Asked, NoMemory>
    ensures { IfOk result (λ a. a ≡ definitions.asked deed line.now) }
{
    match deed {
        Deed::Recv => Ok(Asked::Recv([0; 80])),
        Deed::RecvRaw => Ok(Asked::Recv(structure_at::<80>(line, 3))),
        Deed::OpenMem => Ok(Asked::OpenMem {
            pid: word_at(line, 3),
        }),
        Deed::OpenBase => Ok(Asked::OpenBase {
            pid: word_at(line, 3),
            dirfd: signed_word_at(line, 4),
        }),
        Deed::Check => Ok(Asked::Check {
            id: wide_at(line, 3),
        }),
        Deed::Read => Ok(Asked::Read {
            addr: wide_at(line, 3),
            len: half_at(line, 4),
        }),
        Deed::Mknod => act(alloc, node_at(alloc, line, None, 4)?),
        Deed::Mknodat => {
            let dirfd = signed_word_at(line, 4);
            act(alloc, node_at(alloc, line, Some(dirfd), 5)?)
        }
        Deed::Mount => act(alloc, mount_of(alloc, line)?),
        Deed::SetXattr => act(alloc, setxattr_of(alloc, line)?),
        Deed::Plant => Ok(plant(line)),
        Deed::Addfd => Ok(Asked::Addfd(addfd_at(line).to_bytes())),
        Deed::AddfdRaw => Ok(Asked::Addfd(structure_at::<24>(line, 3))),
        Deed::AddfdResult => Ok(Asked::AddfdResult),
        Deed::Send => Ok(Asked::Send(resp_at(line).to_bytes())),
        Deed::SendRaw => Ok(Asked::Send(structure_at::<24>(line, 3))),
        Deed::LetGo => Ok(Asked::LetGo),
    }
}

/// What a line looks at, where its operands have no fault.
pub fn look_of(alloc: Global, at: LookAt, line: &[Token<'_>]) -> Result<Look, AllocError>
    ensures { IfOk result (λ look. look ≡ definitions.look_of at line.now) }
{
    Ok(match at {
        LookAt::Pid => Look::Pid {
            pid: word_at(line, 2),
        },
        LookAt::Fd => Look::Fd {
            pid: word_at(line, 2),
            number: word_at(line, 3),
        },
        LookAt::Path => Look::Path {
            pid: word_at(line, 2),
            dirfd: signed_word_at(line, 3),
            path: text_at(alloc, line, 4)?,
            follows: bytes_at(line, 5) == b"follow".as_slice(),
        },
        LookAt::Listener => Look::Listener,
    })
}
