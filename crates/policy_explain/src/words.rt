//! The words for what a call misses of a rule.

ghost use Rattle.std.specs.Prelude.{◌≡◌, ◌++◌, OnOk, codes};
ghost use Rattle.std.specs.List.{flat_map, join_by};
ghost use Rattle.std.specs.Option.{option_copied};
ghost use Rattle.hist_model.specs.ReportWords.{call_text, quoted};
ghost use Rattle.policy_explain.specs.Words.{asked_kind, asked_node, call_missed, calls_text, is_not, kind_text, number_or_dash, quoted_or_dash, unmet_text};

use crate::flags::push_unmet_flags;
use audit_log::line::LineBuffer;
use audit_log::request::push_node;
use audit_log::words::push_call;
use hist_model::policy::{Calls, Cond};
use hist_model::request::{Kind, Request, node_device};
use policy_eval::conditions::{attribute_of, dirfd_of, fstype_of, path_of, source_of, value_of};
use sys_abi::memory::NoMemory;

/// Adds a text between quotes, or `-`.
fn push_quoted_or_dash(line: &mut LineBuffer, text: Option<&[u8]>) -> Result<(), NoMemory>
    ensures { OnOk result (line.new ≡ line.old ++ quoted_or_dash (option_copied text.entry)) }
{
    match text {
        Some(text) => line.push_quoted(text),
        None => line.push("-"),
    }
}

/// Adds a number, or `-`.
fn push_number_or_dash(line: &mut LineBuffer, number: Option<i32>) -> Result<(), NoMemory>
    ensures { OnOk result (line.new ≡ line.old ++ number_or_dash number) }
{
    match number {
        Some(number) => line.push_signed(i64::from(number)),
        None => line.push("-"),
    }
}

/// The word for a kind of node.
fn kind_word(kind: Kind) -> &'static str
    ensures { result.now ≡ kind_text kind }
{
    match kind {
        Kind::Reg => "reg",
        Kind::Chr => "chr",
        Kind::Blk => "blk",
        Kind::Fifo => "fifo",
        Kind::Sock => "sock",
        Kind::Dir => "dir",
        Kind::Bad => "bad",
    }
}

/// Adds the kind of the node that is asked for.
fn push_asked_kind(line: &mut LineBuffer, request: &Request) -> Result<(), NoMemory>
    ensures { OnOk result (line.new ≡ line.old ++ asked_kind request.now) }
{
    match request {
        Request::Mknod { mode, .. } => line.push(kind_word(Kind::of_mode(*mode))),
        _ => line.push("-"),
    }
}

/// Adds the kind of the node that is asked for, with the numbers of a device.
fn push_asked_node(line: &mut LineBuffer, request: &Request) -> Result<(), NoMemory>
    ensures { OnOk result (line.new ≡ line.old ++ asked_node request.now) }
{
    match request {
        Request::Mknod { mode, dev, .. } => {
            push_node(line, Kind::of_mode(*mode), node_device(*dev))
        }
        _ => line.push("-"),
    }
}

/// Adds a text that isn't the one that a rule is for.
fn push_other_text(
    line: &mut LineBuffer,
    key: &str,
    found: Option<&[u8]>,
    wanted: &[u8],
) -> Result<(), NoMemory>
    ensures { OnOk result (line.new ≡ line.old ++ is_not key.now (quoted_or_dash (option_copied found.entry)) (quoted wanted.now)) }
{
    line.push(key)?;
    line.push(": ")?;
    push_quoted_or_dash(line, found)?;
    line.push(" is not ")?;
    line.push_quoted(wanted)
}

/// Adds a path that doesn't lie under a directory.
fn push_not_under(line: &mut LineBuffer, request: &Request, dir: &[u8]) -> Result<(), NoMemory>
    ensures { OnOk result (line.new ≡ line.old ++ unmet_text (Cond.Under dir.now) request.now) }
{
    line.push("under: ")?;
    push_quoted_or_dash(line, path_of(request))?;
    line.push(" is not under ")?;
    line.push_quoted(dir)
}

/// Adds a kind of node that isn't the one that a rule is for.
fn push_other_kind(line: &mut LineBuffer, request: &Request, kind: Kind) -> Result<(), NoMemory>
    ensures { OnOk result (line.new ≡ line.old ++ unmet_text (Cond.Kind kind) request.now) }
{
    line.push("kind: ")?;
    push_asked_kind(line, request)?;
    line.push(" is not ")?;
    line.push(kind_word(kind))
}

/// Adds a node that isn't a device with these numbers.
fn push_other_device(
    line: &mut LineBuffer,
    request: &Request,
    major: u32,
    minor: u32,
) -> Result<(), NoMemory>
    ensures { OnOk result (line.new ≡ line.old ++ unmet_text (Cond.Dev major minor) request.now) }
{
    line.push("dev: ")?;
    push_asked_node(line, request)?;
    line.push(" is not ")?;
    line.push_number(u64::from(major))?;
    line.push(":")?;
    line.push_number(u64::from(minor))
}

/// Adds a directory's descriptor that isn't this one.
fn push_other_dirfd(line: &mut LineBuffer, request: &Request, number: i32) -> Result<(), NoMemory>
    ensures { OnOk result (line.new ≡ line.old ++ unmet_text (Cond.Dirfd number) request.now) }
{
    line.push("dirfd: ")?;
    push_number_or_dash(line, dirfd_of(request))?;
    line.push(" is not ")?;
    line.push_signed(i64::from(number))
}

/// Adds a condition that the request doesn't meet.
pub fn push_unmet(line: &mut LineBuffer, cond: &Cond, request: &Request) -> Result<(), NoMemory>
    ensures { OnOk result (line.new ≡ line.old ++ unmet_text cond.now request.now) }
{
    match cond {
        Cond::Path(text) => push_other_text(line, "path", path_of(request), text.items()),
        Cond::Under(dir) => push_not_under(line, request, dir.items()),
        Cond::Kind(kind) => push_other_kind(line, request, *kind),
        Cond::Dev(major, minor) => push_other_device(line, request, *major, *minor),
        Cond::Fstype(text) => push_other_text(line, "fstype", fstype_of(request), text.items()),
        Cond::Source(text) => push_other_text(line, "source", source_of(request), text.items()),
        Cond::Name(text) => push_other_text(line, "name", attribute_of(request), text.items()),
        Cond::Value(text) => push_other_text(line, "value", value_of(request), text.items()),
        Cond::Dirfd(number) => push_other_dirfd(line, request, *number),
        Cond::Flags { all, none } => push_unmet_flags(line, all.items(), none.items(), request),
        Cond::ShortDevice => line.push("dev: its number has more than 32 bits"),
        Cond::PlainFlags => line.push("flags: REMOUNT, BIND or MOVE is set"),
    }
}

/// Adds calls with the word `or` before each.
fn push_more_calls(line: &mut LineBuffer, numbers: &[i32]) -> Result<(), NoMemory>
    ensures { OnOk result (line.new ≡ line.old ++ flat_map (λ nr. codes " or " ++ call_text nr) numbers.now) }
{
    for nr in numbers {
        line.push(" or ")?;
        push_call(line, *nr)?;
    }
    Ok(())
}

/// Adds a rule's calls.
fn push_calls(line: &mut LineBuffer, calls: &Calls) -> Result<(), NoMemory>
    ensures { OnOk result (line.new ≡ line.old ++ calls_text calls.now) }
{
    match calls {
        Calls::Named(numbers) => push_numbers(line, numbers.items()),
        Calls::Other => line.push("other"),
    }
}

/// Adds calls with the word `or` between them.
fn push_numbers(line: &mut LineBuffer, numbers: &[i32]) -> Result<(), NoMemory>
    ensures { OnOk result (line.new ≡ line.old ++ join_by call_text (codes " or ") numbers.now) }
{
    match numbers {
        [] => Ok(()),
        [first, rest @ ..] => {
            push_call(line, *first)?;
            push_more_calls(line, rest)
        }
    }
}

/// Adds a call that is none of a rule's calls.
pub fn push_call_missed(
    line: &mut LineBuffer,
    calls: &Calls,
    request: &Request,
) -> Result<(), NoMemory>
    ensures { OnOk result (line.new ≡ line.old ++ call_missed calls.now request.now) }
{
    line.push("call: ")?;
    push_call(line, request.call())?;
    line.push(" is not ")?;
    push_calls(line, calls)
}
