//! The parts of a listener's key.

ghost use Rattle.std.specs.Prelude.{◌≡◌, ◌++◌, OnOk};
ghost use Rattle.key_bytes.specs.Parts.{list_part, option_part};
ghost use Rattle.listener.specs.Keys.{asked_part, entry_part, installed_part, reply_code, reply_number, reply_part, request_part};

use crate::order::Entry;
use crate::requests::Request;
use hist_model::notification::Reply;
use key_bytes::{push_flag, push_number, push_signed};
use sys_abi::errno::Errno;
use sys_abi::memory::NoMemory;
use sys_abi::wire::Addfd;

/// The number of a way to return.
fn reply_code(reply: &Reply) -> u64
    ensures { result ≡ reply_code reply.now }
{
    match reply {
        Reply::Continue => 0,
        Reply::Installing => 1,
        Reply::Value(_) => 2,
        Reply::Fail(_) => 3,
    }
}

/// The value or the error that comes back; 0 where it is neither.
fn reply_number(reply: &Reply) -> i64
    ensures { result ≡ reply_number reply.now }
{
    match reply {
        Reply::Value(value) => *value,
        Reply::Fail(errno) => i64::from(errno.number()),
        Reply::Continue | Reply::Installing => 0,
    }
}

/// Adds how a call will return, if it was answered.
fn push_reply(key: &mut Vec<u8>, reply: Option<Reply>) -> Result<(), NoMemory>
    ensures { OnOk result (key.new.items ≡ key.old.items ++ option_part reply_part reply) }
{
    match reply {
        None => push_flag(key, false),
        Some(reply) => {
            push_flag(key, true)?;
            push_number(key, reply_code(&reply))?;
            push_signed(key, reply_number(&reply))
        }
    }
}

/// Adds a listed call.
pub(crate) fn push_entry(key: &mut Vec<u8>, entry: &Entry) -> Result<(), NoMemory>
    ensures { OnOk result (key.new.items ≡ key.old.items ++ entry_part entry.now) }
{
    push_number(key, entry.number)?;
    push_number(key, u64::from(entry.owner.ordinal))?;
    push_reply(key, entry.reply)
}

/// Adds what was asked for.
fn push_asked(key: &mut Vec<u8>, asked: &Addfd) -> Result<(), NoMemory>
    ensures { OnOk result (key.new.items ≡ key.old.items ++ asked_part asked.now) }
{
    push_number(key, asked.id)?;
    push_number(key, u64::from(asked.flags))?;
    push_number(key, u64::from(asked.srcfd))?;
    push_number(key, u64::from(asked.newfd))?;
    push_number(key, u64::from(asked.newfd_flags))
}

/// Adds what an installation answered, if it was tried.
fn push_installed(key: &mut Vec<u8>, answer: Option<Result<u32, Errno>>) -> Result<(), NoMemory>
    ensures { OnOk result (key.new.items ≡ key.old.items ++ option_part installed_part answer) }
{
    match answer {
        None => push_flag(key, false),
        Some(Ok(number)) => {
            push_flag(key, true)?;
            push_number(key, 0)?;
            push_number(key, u64::from(number))
        }
        Some(Err(errno)) => {
            push_flag(key, true)?;
            push_number(key, 1)?;
            push_number(key, u64::from(errno.number()))
        }
    }
}

/// Adds a request for a descriptor.
fn push_request(key: &mut Vec<u8>, request: &Request) -> Result<(), NoMemory>
    ensures { OnOk result (key.new.items ≡ key.old.items ++ request_part request.now) }
{
    push_number(key, u64::from(request.worker))?;
    push_asked(key, &request.asked)?;
    push_installed(key, request.result)
}

/// Adds requests for descriptors, with how many there are before them.
pub(crate) fn push_requests(key: &mut Vec<u8>, requests: &[Request]) -> Result<(), NoMemory>
    ensures { OnOk result (key.new.items ≡ key.old.items ++ list_part request_part requests.now) }
{
    push_number(key, requests.len() as u64)?;
    for request in requests {
        push_request(key, request)?;
    }
    Ok(())
}
