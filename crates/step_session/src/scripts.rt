//! The script that plays a history again.

ghost use Rattle.std.specs.Prelude.{◌≡◌, ◌++◌, false, IfOk, OnOk, codes};
ghost use Rattle.std.specs.Fmt.{signed_decimal};
ghost use Rattle.hist_model.specs.ReportWords.{hex};
ghost use Rattle.asked_steps.specs.Steps.{is_closed};
ghost use Rattle.step_session.specs.Answers.{script_answer};
ghost use Rattle.step_session.specs.Lines.{has_end};
ghost use Rattle.step_session.specs.Scripts as definitions;

use crate::lines::first_line;
use crate::origin::Origin;
use crate::refusal::Refusal;
use crate::texts::{push_refusal, push_sized};
use audit_log::line::LineBuffer;
use audit_log::words::push_name;
use hist_model::event::{Actor, Back, Event, What};
use hist_model::history::History;
use hist_model::request::Request;
use hist_model::text::Text;
use std::alloc::Global;
use sys_abi::memory::NoMemory;
use sys_abi::wire::Addfd;

/// How many events a script can play whose listener isn't closed: its start, and 200,000 steps.
const MOST_EVENTS: usize = 200_001;

/// How many bytes a script may have.
const MOST_BYTES: usize = 8_388_608;

/// Whether a byte is a blank or a tab.
fn is_blank(byte: u8) -> bool
    ensures { result ≡ definitions.is_blank byte }
{
    byte == b' ' || byte == b'\t'
}

/// Bytes without the blanks and tabs before them.
#[tactic(auto, unfolding(crate::specs::Scripts::unindented))]
fn unindented(line: &[u8]) -> &[u8]
    ensures { result.now ≡ definitions.unindented line.now }
{
    let mut rest = line;
    'blanks: while let Some((first, behind)) = rest.split_first() {
        if !is_blank(*first) {
            return rest;
        }
        rest = behind;
    }
    rest
}

/// Whether a line opens the schedule.
fn opens_schedule(line: &[u8]) -> bool
    ensures { result ≡ definitions.opens_schedule line.now }
{
    unindented(line).starts_with(b"schedule")
}

/// Adds a line.
fn push_line(front: &mut Vec<u8>, line: &[u8]) -> Result<(), NoMemory>
    ensures { OnOk result (front.new.items ≡ front.old.items ++ (line.now ++ codes "\n")) }
{
    front.extend_from_slice(line)?;
    front.push(b'\n')?;
    Ok(())
}

/// Adds the last line, whose end isn't there, unless it is empty or opens the schedule.
#[tactic(auto, using(crate::proofs::Fronts::front_last))]
fn push_last(front: &mut Vec<u8>, line: &[u8]) -> Result<(), NoMemory>
    requires { has_end line.now ≡ false }
    ensures { OnOk result (front.new.items ≡ front.old.items ++ definitions.before_schedule line.now) }
{
    if line.is_empty() {
        return Ok(());
    }
    if opens_schedule(line) {
        return Ok(());
    }
    push_line(front, line)
}

/// The lines before a script's schedule.
pub(crate) fn before_schedule(alloc: Global, script: &[u8]) -> Result<Text, NoMemory>
    ensures { IfOk result (λ front. front ≡ definitions.before_schedule script.now) }
{
    let mut front = Vec::new(alloc);
    let mut rest = script;
    'lines: while let Some((line, behind)) = first_line(rest) {
        if opens_schedule(line) {
            return Ok(Text::new(front));
        }
        push_line(&mut front, line)?;
        rest = behind;
    }
    push_last(&mut front, rest)?;
    Ok(Text::new(front))
}

/// Adds a blank and a number.
fn push_field(line: &mut LineBuffer, number: u64) -> Result<(), NoMemory>
    ensures { OnOk result (line.new ≡ line.old ++ definitions.field number) }
{
    line.push(" ")?;
    line.push_number(number)
}

/// Adds a blank and a text between quotes.
fn push_text(line: &mut LineBuffer, text: &[u8]) -> Result<(), NoMemory>
    ensures { OnOk result (line.new ≡ line.old ++ definitions.text text.now) }
{
    line.push(" ")?;
    line.push_quoted(text)
}

/// Adds a node's path, mode and device.
fn push_node(line: &mut LineBuffer, path: &[u8], mode: u16, dev: u64) -> Result<(), NoMemory>
    ensures { OnOk result (line.new ≡ line.old ++ definitions.node_text path.now mode dev) }
{
    push_text(line, path)?;
    push_field(line, u64::from(mode))?;
    push_field(line, dev)
}

/// Adds the program that serves a mount, if one does, and whether the mount shifts owners.
fn push_server(line: &mut LineBuffer, via: &[u8], shift: bool) -> Result<(), NoMemory>
    ensures { OnOk result (line.new ≡ line.old ++ (definitions.via_text via.now ++ definitions.shift_text shift)) }
{
    if !via.is_empty() {
        line.push(" via")?;
        push_text(line, via)?;
    }
    if shift {
        line.push(" shift")?;
    }
    Ok(())
}

/// Adds three texts.
fn push_texts(
    line: &mut LineBuffer,
    first: &Text,
    second: &Text,
    third: &Text,
) -> Result<(), NoMemory>
    ensures { OnOk result (line.new ≡ line.old ++ (definitions.text first.now ++ definitions.text second.now ++ definitions.text third.now)) }
{
    push_text(line, first.items())?;
    push_text(line, second.items())?;
    push_text(line, third.items())
}

/// Adds a call that a worker makes itself.
fn push_act(line: &mut LineBuffer, request: &Request) -> Result<(), NoMemory>
    ensures { OnOk result (line.new ≡ line.old ++ definitions.act_text request.now) }
{
    match request {
        Request::Mknod {
            dirfd: None,
            path,
            mode,
            dev,
        } => {
            line.push("mknod")?;
            push_node(line, path.items(), *mode, *dev)
        }
        Request::Mknod {
            dirfd: Some(dirfd),
            path,
            mode,
            dev,
        } => {
            line.push("mknodat ")?;
            line.push_signed(i64::from(*dirfd))?;
            push_node(line, path.items(), *mode, *dev)
        }
        Request::Mount {
            source,
            target,
            fstype,
            options,
            via,
            flags,
            shift,
        } => {
            line.push("mount")?;
            push_texts(line, source, target, fstype)?;
            push_field(line, *flags)?;
            push_text(line, options.items())?;
            push_server(line, via.items(), *shift)
        }
        Request::SetXattr {
            path,
            name,
            value,
            flags,
        } => {
            line.push("setxattr")?;
            push_texts(line, path, name, value)?;
            push_field(line, u64::from(*flags))
        }
        Request::OpenAt { .. } | Request::Sysinfo { .. } | Request::Other { .. } => Ok(()),
    }
}

/// Adds the fields of a request for a descriptor.
fn push_addfd(line: &mut LineBuffer, want: &Addfd) -> Result<(), NoMemory>
    ensures { OnOk result (line.new ≡ line.old ++ definitions.addfd_text want.now) }
{
    push_field(line, want.id)?;
    push_field(line, u64::from(want.flags))?;
    push_field(line, u64::from(want.srcfd))?;
    push_field(line, u64::from(want.newfd))?;
    push_field(line, u64::from(want.newfd_flags))
}

/// Adds the fields of an answer behind its id.
fn push_back(line: &mut LineBuffer, back: &Back) -> Result<(), NoMemory>
    ensures { OnOk result (line.new ≡ line.old ++ definitions.back_text back.now) }
{
    match back {
        Back::Value(value) => {
            line.push(" ")?;
            line.push_signed(*value)?;
            line.push(" 0 0")
        }
        Back::Fail(error) => {
            line.push(" 0 -")?;
            line.push_number(u64::from(error.number()))?;
            line.push(" 0")
        }
        Back::Continue => line.push(" 0 0 1"),
    }
}

/// Adds a word and a number.
fn push_numbered(line: &mut LineBuffer, word: &str, number: u64) -> Result<(), NoMemory>
    ensures { OnOk result (line.new ≡ line.old ++ (word.now ++ definitions.field number)) }
{
    line.push(word)?;
    push_field(line, number)
}

/// Adds the opening of a base of paths.
fn push_base(line: &mut LineBuffer, pid: u32, dirfd: i32) -> Result<(), NoMemory>
    ensures { OnOk result (line.new ≡ line.old ++ (codes "open-base" ++ definitions.field pid ++ codes " " ++ signed_decimal dirfd)) }
{
    push_numbered(line, "open-base", u64::from(pid))?;
    line.push(" ")?;
    line.push_signed(i64::from(dirfd))
}

/// Adds the writing of an answer of sysinfo.
fn push_plant(line: &mut LineBuffer, addr: u64, bytes: &[u8; 112]) -> Result<(), NoMemory>
    ensures { OnOk result (line.new ≡ line.old ++ (codes "plant" ++ definitions.field addr ++ codes " " ++ hex bytes.now)) }
{
    push_numbered(line, "plant", addr)?;
    line.push(" ")?;
    line.push_hex(bytes)
}

/// Adds what a worker asked the kernel for.
fn push_deed(line: &mut LineBuffer, what: &What) -> Result<(), NoMemory>
    ensures { OnOk result (line.new ≡ line.old ++ definitions.deed_text what.now) }
{
    match what {
        What::Recv { .. } => line.push("recv"),
        What::OpenMem { pid, .. } => push_numbered(line, "open-mem", u64::from(*pid)),
        What::OpenBase { pid, dirfd, .. } => push_base(line, *pid, *dirfd),
        What::Check { id, .. } => push_numbered(line, "check", *id),
        What::Read { addr, len, .. } => {
            push_numbered(line, "read", *addr)?;
            push_field(line, u64::from(*len))
        }
        What::Act { request, .. } => {
            line.push("act ")?;
            push_act(line, request.get())
        }
        What::Plant { addr, bytes, .. } => push_plant(line, *addr, bytes.get()),
        What::AddfdPut { asked, .. } => {
            line.push("addfd")?;
            push_addfd(line, asked)
        }
        What::AddfdTake { .. } => line.push("addfd-result"),
        What::Send { id, back, .. } => {
            push_numbered(line, "send", *id)?;
            push_back(line, back)
        }
        What::LetGo => line.push("let-go"),
        _ => Ok(()),
    }
}

/// Adds the line of an event in a schedule, if it has one.
fn push_turn(line: &mut LineBuffer, event: &Event) -> Result<(), NoMemory>
    ensures { OnOk result (line.new ≡ line.old ++ definitions.turn_text event.now) }
{
    match &event.who {
        Actor::Task(name) => {
            line.push("t ")?;
            push_name(line, name)?;
            line.push("\n")
        }
        Actor::Worker(number) => {
            line.push("w ")?;
            line.push_number(u64::from(*number))?;
            line.push(" ")?;
            push_deed(line, &event.what)?;
            line.push("\n")
        }
        Actor::Listener | Actor::Start => Ok(()),
    }
}

/// The script that plays a history again.
fn script_text(alloc: Global, front: &Text, history: &History) -> Result<LineBuffer, NoMemory>
    ensures { IfOk result (λ text. text ≡ definitions.script_text front.now history.now.events) }
{
    let mut text = LineBuffer::new(alloc);
    text.push_bytes(front.items())?;
    text.push("schedule\n")?;
    for event in history.events() {
        push_turn(&mut text, event)?;
    }
    text.push("end\n")?;
    Ok(text)
}

/// How many events a script can play.
fn most_events(history: &History) -> usize
    ensures { result ≡ definitions.most_events (is_closed history.now.events) }
{
    match history.events().last() {
        Some(event) if matches!(event.what, What::Close) => MOST_EVENTS + 1,
        _ => MOST_EVENTS,
    }
}

/// Adds the script that plays a history again, behind a line that tells its length.
pub(crate) fn push_script(
    alloc: Global,
    origin: &Origin,
    history: &History,
    line: &mut LineBuffer,
) -> Result<(), NoMemory>
    ensures { OnOk result (line.new ≡ line.old ++ script_answer origin.now history.now.events) }
{
    if history.len() > most_events(history) {
        return push_refusal(line, Refusal::Full);
    }
    let text = script_text(alloc, &origin.front, history)?;
    if text.bytes().len() > MOST_BYTES {
        return push_refusal(line, Refusal::Full);
    }
    push_sized(line, "script", text.bytes())
}
