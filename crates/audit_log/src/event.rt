//! What happened in an event, in words.

ghost use Rattle.std.specs.Prelude.{◌≡◌, ◌++◌, OnOk, codes, decimal, replicate, take, true, length, ◌<◌, ◌≤◌, ◌==◌, ◌%◌};
ghost use Rattle.hist_model.specs.ReportWords.{number_text, result_text, trimmed};
ghost use Rattle.hist_model.specs.ReportJournal.{request_text, spawn_kind_text, spawned_text, disposition_text, entered_text, args_text, delivered_text, read_text, asked_text, sending_text, target_text, what_text};
ghost use Rattle.hist_model.specs.Kinds.{has_send_flag};

use crate::line::LineBuffer;
use crate::request::push_request;
use crate::words::{
    push_back, push_call, push_errno, push_hex_or_dash, push_name, push_number_or_errno,
    push_result,
};
use hist_model::event::{Back, Delivered, Disposition, Entered, SpawnKind, What};
use hist_model::request::Request;
use hist_model::text::{TaskName, Text};
use sys_abi::errno::Errno;
use sys_abi::memory::NoMemory;
use sys_abi::wire::{Addfd, Notif};

/// Adds what happened, in words.
pub fn push_what(line: &mut LineBuffer, what: &What) -> Result<(), NoMemory>
    ensures { OnOk result (line.new ≡ line.old ++ what_text what.now) }
{
    match what {
        What::Spawn { child, answer } => push_spawn(line, child, answer),
        What::Poke { addr, bytes } => push_poke(line, *addr, bytes),
        What::Handler { sig, disposition } => push_signal_word(
            line,
            "handler ",
            *sig,
            disposition_word(*disposition),
        ),
        What::Enter { nr, args, verdict } => push_enter(line, *nr, args, *verdict),
        What::Native { answer } => push_answered(line, "native ", answer),
        What::Install { answer } => push_answered(line, "install ", answer),
        What::Resume { back } => push_resume(line, *back),
        What::Signal { pid, sig, answer } => push_kill(line, *pid, *sig, answer),
        What::Deliver { sig, effect } => {
            push_signal_word(line, "deliver ", *sig, delivered_word(*effect))
        }
        What::Reap { answer } => push_reap(line, answer),
        What::Exit => line.push("exit"),
        What::Recv { answer } => push_recv(line, answer),
        What::OpenMem { pid, answer } => push_numbered(line, "open-mem ", u64::from(*pid), answer),
        What::OpenBase { pid, dirfd, answer } => push_open_base(line, *pid, *dirfd, answer),
        What::Check { id, answer } => push_numbered(line, "check ", *id, answer),
        What::Read { addr, len, answer } => push_read(line, *addr, *len, answer),
        What::Act {
            request,
            answer,
            ..
        } => push_act(line, request.get(), answer),
        What::Plant { addr, answer, .. } => push_numbered(line, "plant ", *addr, answer),
        What::AddfdPut { asked, answer } => push_put(line, asked, answer),
        What::AddfdTake { answer } => push_answered(line, "addfd-take ", answer),
        What::Send { id, back, answer } => push_send(line, *id, *back, answer),
        What::LetGo => line.push("let-go"),
        What::Skip => line.push("skip"),
        What::Close => line.push("close"),
    }
}

/// The word for how a task came by its memory.
fn spawn_kind_word(kind: SpawnKind) -> &'static str
    ensures { result.now ≡ spawn_kind_text kind }
{
    match kind {
        SpawnKind::New => "new",
        SpawnKind::Copied => "copy",
        SpawnKind::Shared => "share",
    }
}

/// The word for what a task does at a signal.
fn disposition_word(disposition: Disposition) -> &'static str
    ensures { result.now ≡ disposition_text disposition }
{
    match disposition {
        Disposition::Default => "default",
        Disposition::Restart => "restart",
        Disposition::Plain => "plain",
    }
}

/// The word for what a delivery does.
fn delivered_word(effect: Delivered) -> &'static str
    ensures { result.now ≡ delivered_text effect }
{
    match effect {
        Delivered::End => "end",
        Delivered::Run => "run",
        Delivered::Restart => "restart",
        Delivered::Eintr => "eintr",
    }
}

/// Adds that a task was made.
fn push_spawn(
    line: &mut LineBuffer,
    child: &TaskName,
    answer: &Result<(u32, SpawnKind), Errno>,
) -> Result<(), NoMemory>
    ensures { OnOk result (line.new ≡ line.old ++ what_text (What.Spawn child.now answer.now)) }
{
    line.push("spawn ")?;
    push_name(line, child)?;
    line.push(" ")?;
    push_spawned(line, answer)
}

/// Adds what a new task got.
fn push_spawned(
    line: &mut LineBuffer,
    answer: &Result<(u32, SpawnKind), Errno>,
) -> Result<(), NoMemory>
    ensures { OnOk result (line.new ≡ line.old ++ spawned_text answer.now) }
{
    match answer {
        Ok((pid, kind)) => {
            line.push("pid=")?;
            line.push_number(u64::from(*pid))?;
            line.push(" ")?;
            line.push(spawn_kind_word(*kind))
        }
        Err(error) => push_errno(line, *error),
    }
}

/// Adds that bytes were stored.
fn push_poke(line: &mut LineBuffer, addr: u64, bytes: &Text) -> Result<(), NoMemory>
    ensures { OnOk result (line.new ≡ line.old ++ what_text (What.Poke addr bytes.now)) }
{
    line.push("poke ")?;
    line.push_number(addr)?;
    line.push(" ")?;
    line.push_hex(bytes.items())
}

/// Adds a word, a signal and another word.
fn push_signal_word(line: &mut LineBuffer, word: &str, sig: u8, then: &str) -> Result<(), NoMemory>
    ensures { OnOk result (line.new ≡ line.old ++ (word.now ++ decimal sig ++ codes " " ++ then.now)) }
{
    line.push(word)?;
    line.push_number(u64::from(sig))?;
    line.push(" ")?;
    line.push(then)
}

/// Adds that a call was entered.
fn push_enter(
    line: &mut LineBuffer,
    nr: i32,
    args: &[u64; 6],
    verdict: Entered,
) -> Result<(), NoMemory>
    ensures { OnOk result (line.new ≡ line.old ++ what_text (What.Enter nr args.now verdict)) }
{
    line.push("call ")?;
    push_call(line, nr)?;
    push_args(line, args)?;
    line.push(" ")?;
    push_entered(line, verdict)
}

/// Adds the arguments of a call, each after a space.
fn push_args(line: &mut LineBuffer, args: &[u64]) -> Result<(), NoMemory>
    ensures { OnOk result (line.new ≡ line.old ++ args_text args.now) }
{
    for arg in args {
        line.push(" ")?;
        line.push_number(*arg)?;
    }
    Ok(())
}

/// Adds what the filters say.
pub fn push_entered(line: &mut LineBuffer, verdict: Entered) -> Result<(), NoMemory>
    ensures { OnOk result (line.new ≡ line.old ++ entered_text verdict) }
{
    match verdict {
        Entered::Notify { id } => {
            line.push("notify id=")?;
            line.push_number(id)
        }
        Entered::Allow => line.push("allow"),
        Entered::Log => line.push("log"),
        Entered::Fails(number) => {
            line.push("errno=")?;
            line.push_number(u64::from(number))
        }
        Entered::NoSys => line.push("nosys"),
        Entered::Kill => line.push("kill"),
    }
}

/// Adds a word and a number or an error.
fn push_answered(
    line: &mut LineBuffer,
    word: &str,
    answer: &Result<u32, Errno>,
) -> Result<(), NoMemory>
    ensures { OnOk result (line.new ≡ line.old ++ (word.now ++ number_text answer.now)) }
{
    line.push(word)?;
    push_number_or_errno(line, answer)
}

/// Adds that a call returned.
fn push_resume(line: &mut LineBuffer, back: Back) -> Result<(), NoMemory>
    ensures { OnOk result (line.new ≡ line.old ++ what_text (What.Resume back)) }
{
    line.push("resume ")?;
    push_back(line, back)
}

/// Adds that a signal was sent.
fn push_kill(
    line: &mut LineBuffer,
    pid: u32,
    sig: u8,
    answer: &Result<(), Errno>,
) -> Result<(), NoMemory>
    ensures { OnOk result (line.new ≡ line.old ++ what_text (What.Signal pid sig answer.now)) }
{
    line.push("kill ")?;
    line.push_number(u64::from(pid))?;
    line.push(" ")?;
    line.push_number(u64::from(sig))?;
    line.push(" ")?;
    push_result(line, answer)
}

/// Adds that a task waited for a child.
fn push_reap(line: &mut LineBuffer, answer: &Result<TaskName, Errno>) -> Result<(), NoMemory>
    ensures { OnOk result (line.new ≡ line.old ++ what_text (What.Reap answer.now)) }
{
    line.push("wait ")?;
    match answer {
        Ok(name) => push_name(line, name),
        Err(error) => push_errno(line, *error),
    }
}

/// Adds that a notification was received.
fn push_recv(line: &mut LineBuffer, answer: &Result<Notif, Errno>) -> Result<(), NoMemory>
    ensures { OnOk result (line.new ≡ line.old ++ what_text (What.Recv answer.now)) }
{
    line.push("recv ")?;
    match answer {
        Ok(notif) => {
            line.push("id=")?;
            line.push_number(notif.id)?;
            line.push(" pid=")?;
            line.push_number(u64::from(notif.pid))
        }
        Err(error) => push_errno(line, *error),
    }
}

/// Adds a word, a number and `ok` or an error.
#[inline(always)]
fn push_numbered(
    line: &mut LineBuffer,
    word: &str,
    number: u64,
    answer: &Result<(), Errno>,
) -> Result<(), NoMemory>
    ensures { OnOk result (line.new ≡ line.old ++ (word.now ++ decimal number ++ codes " " ++ result_text answer.now)) }
{
    line.push(word)?;
    line.push_number(number)?;
    line.push(" ")?;
    push_result(line, answer)
}

/// Adds that a worker opened the directory from which paths go.
fn push_open_base(
    line: &mut LineBuffer,
    pid: u32,
    dirfd: i32,
    answer: &Result<(), Errno>,
) -> Result<(), NoMemory>
    ensures { OnOk result (line.new ≡ line.old ++ what_text (What.OpenBase pid dirfd answer.now)) }
{
    line.push("open-base ")?;
    line.push_number(u64::from(pid))?;
    line.push(" ")?;
    line.push_signed(i64::from(dirfd))?;
    line.push(" ")?;
    push_result(line, answer)
}

/// Adds that a worker read memory.
fn push_read(
    line: &mut LineBuffer,
    addr: u64,
    len: u16,
    answer: &Result<Text, Errno>,
) -> Result<(), NoMemory>
    ensures { OnOk result (line.new ≡ line.old ++ what_text (What.Read addr len answer.now)) }
{
    line.push("read ")?;
    line.push_number(addr)?;
    line.push(" ")?;
    line.push_number(u64::from(len))?;
    line.push(" ")?;
    push_bytes_read(line, answer)
}

/// Adds the bytes that were read, without the zero bytes at their end.
fn push_bytes_read(line: &mut LineBuffer, answer: &Result<Text, Errno>) -> Result<(), NoMemory>
    ensures { OnOk result (line.new ≡ line.old ++ read_text answer.now) }
{
    match answer {
        Ok(text) => {
            let bytes = text.items();
            push_hex_or_dash(line, &bytes[..trimmed_len(bytes)])
        }
        Err(error) => push_errno(line, *error),
    }
}

/// Whether so many bytes are zero.
#[inline(always)]
fn are_zero<const N: usize>(bytes: &[u8]) -> bool
    requires { N ≤ 64 }
    ensures { result ≡ true → bytes.now ≡ replicate N 0 }
{
    bytes == &[0; N][..]
}

/// How many bytes are left where zero bytes at the end are passed, so many at a time.
#[inline(always)]
fn without_zeros<const N: usize>(bytes: &[u8]) -> usize
    requires { (0 < N) × (N ≤ 64) }
    ensures bound { result ≤ length bytes.now }
    ensures same { trimmed (take result bytes.now) ≡ trimmed bytes.now }
{
    let mut len = bytes.len();
    while len >= N && are_zero::<N>(&bytes[len - N..len]) {
        len -= N;
    }
    len
}

/// How many bytes are left where most of the zero bytes at the end are passed: a buffer's end is mostly long.
fn without_most_zeros(bytes: &[u8]) -> usize
    ensures bound { result ≤ length bytes.now }
    ensures same { trimmed (take result bytes.now) ≡ trimmed bytes.now }
{
    let len = without_zeros::<64>(bytes);
    without_zeros::<8>(&bytes[..len])
}

/// How many bytes there are up to the last one that isn't zero.
#[tactic(auto, using(crate::proofs::Trimmed::trimmed_zero, crate::proofs::Trimmed::trimmed_full))]
fn trimmed_len(bytes: &[u8]) -> usize
    ensures bound { result ≤ length bytes.now }
    ensures front { take result bytes.now ≡ trimmed bytes.now }
{
    let mut len = without_most_zeros(bytes);
    while len > 0 && bytes[len - 1] == 0 {
        len -= 1;
    }
    len
}

/// Adds that a worker did what the policy grants.
fn push_act(
    line: &mut LineBuffer,
    request: &Request,
    answer: &Result<(), Errno>,
) -> Result<(), NoMemory>
    ensures { OnOk result (line.new ≡ line.old ++ (codes "act " ++ request_text request.now ++ codes " " ++ result_text answer.now)) }
{
    line.push("act ")?;
    push_request(line, request)?;
    line.push(" ")?;
    push_result(line, answer)
}

/// Adds that a descriptor was asked to be put into a task: the call, the broker's number, and the number in the task, `-` for the lowest free one.
fn push_put(
    line: &mut LineBuffer,
    asked: &Addfd,
    answer: &Result<(), Errno>,
) -> Result<(), NoMemory>
    ensures { OnOk result (line.new ≡ line.old ++ what_text (What.AddfdPut asked.now answer.now)) }
{
    line.push("addfd-put ")?;
    push_asked(line, asked)?;
    line.push(" ")?;
    push_result(line, answer)
}

/// Adds what is asked when a descriptor is put into a task.
fn push_asked(line: &mut LineBuffer, asked: &Addfd) -> Result<(), NoMemory>
    ensures { OnOk result (line.new ≡ line.old ++ asked_text asked.now) }
{
    line.push_number(asked.id)?;
    line.push(" src=")?;
    line.push_number(u64::from(asked.srcfd))?;
    line.push(" at=")?;
    push_target(line, asked)?;
    line.push(sending_word(asked))
}

/// Adds the number at which a descriptor is asked for, if its flags have one.
fn push_target(line: &mut LineBuffer, asked: &Addfd) -> Result<(), NoMemory>
    ensures { OnOk result (line.new ≡ line.old ++ target_text (asked.now.flags % 2 == 1) asked.now.newfd) }
{
    if asked.has_setfd() {
        line.push_number(u64::from(asked.newfd))
    } else {
        line.push("-")
    }
}

/// The word of an installation that doesn't answer its call, too.
fn sending_word(asked: &Addfd) -> &'static str
    ensures { result.now ≡ sending_text (has_send_flag asked.now) }
{
    if asked.has_send_flag() { "" } else { " nosend" }
}

/// Adds that a worker answered a notification.
fn push_send(
    line: &mut LineBuffer,
    id: u64,
    back: Back,
    answer: &Result<(), Errno>,
) -> Result<(), NoMemory>
    ensures { OnOk result (line.new ≡ line.old ++ what_text (What.Send id back answer.now)) }
{
    line.push("send ")?;
    line.push_number(id)?;
    line.push(" ")?;
    push_back(line, back)?;
    line.push(" ")?;
    push_result(line, answer)
}
