//! A call as a file of calls has it.

ghost use Rattle.std.specs.Prelude.{◌≡◌, ◌++◌, OnOk, codes};
ghost use Rattle.std.specs.Fmt.{signed_decimal};
ghost use Rattle.hist_model.specs.ReportWords.{quoted};
ghost use Rattle.policy_explain.specs.Asked.{asked_text, data_text};

use crate::flags::push_flags;
use audit_log::line::LineBuffer;
use audit_log::request::push_request;
use hist_model::request::Request;
use hist_model::text::Text;
use std::alloc::Global;
use sys_abi::calls::call_name;
use sys_abi::memory::NoMemory;

/// Adds a mount's data, where there is any.
fn push_data(line: &mut LineBuffer, text: &[u8]) -> Result<(), NoMemory>
    ensures { OnOk result (line.new ≡ line.old ++ data_text text.now) }
{
    if text.is_empty() {
        return Ok(());
    }
    line.push(" ")?;
    line.push_quoted(text)
}

/// Adds a word and three texts, each with a space behind it.
fn push_texts(
    line: &mut LineBuffer,
    word: &str,
    first: &Text,
    second: &Text,
    third: &Text,
) -> Result<(), NoMemory>
    ensures { OnOk result (line.new ≡ line.old ++ (word.now ++ codes " " ++ quoted first.now ++ codes " " ++ quoted second.now ++ codes " " ++ quoted third.now ++ codes " ")) }
{
    line.push(word)?;
    line.push(" ")?;
    line.push_quoted(first.items())?;
    line.push(" ")?;
    line.push_quoted(second.items())?;
    line.push(" ")?;
    line.push_quoted(third.items())?;
    line.push(" ")
}

/// Adds a file that is opened.
fn push_openat(line: &mut LineBuffer, dirfd: i32, path: &Text) -> Result<(), NoMemory>
    ensures { OnOk result (line.new ≡ line.old ++ (codes "openat " ++ signed_decimal dirfd ++ codes " " ++ quoted path.now)) }
{
    line.push("openat ")?;
    line.push_signed(i64::from(dirfd))?;
    line.push(" ")?;
    line.push_quoted(path.items())
}

/// Adds a call of which no argument is told.
fn push_other(line: &mut LineBuffer, nr: i32) -> Result<(), NoMemory>
    ensures { OnOk result (line.new ≡ line.old ++ asked_text (Request.Other nr)) }
{
    match call_name(nr) {
        Some(name) => line.push(name),
        None => {
            line.push("other ")?;
            line.push_signed(i64::from(nr))
        }
    }
}

/// Adds a call as a file of calls has it.
pub fn push_asked(alloc: Global, line: &mut LineBuffer, request: &Request) -> Result<(), NoMemory>
    ensures { OnOk result (line.new ≡ line.old ++ asked_text request.now) }
{
    match request {
        Request::Mount {
            source,
            target,
            fstype,
            options,
            ..
        } => {
            push_texts(line, "mount", source, target, fstype)?;
            push_flags(alloc, line, request)?;
            push_data(line, options.items())
        }
        Request::SetXattr {
            path,
            name,
            value,
            ..
        } => {
            push_texts(line, "setxattr", path, name, value)?;
            push_flags(alloc, line, request)
        }
        Request::OpenAt { dirfd, path, .. } => push_openat(line, *dirfd, path),
        Request::Other { nr } => push_other(line, *nr),
        Request::Mknod { .. } | Request::Sysinfo { .. } => push_request(line, request),
    }
}
