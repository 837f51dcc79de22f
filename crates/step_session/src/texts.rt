//! The lines of answers.

ghost use Rattle.std.specs.Prelude.{◌≡◌, ◌++◌, OnOk};
ghost use Rattle.step_session.specs.Texts.{asked_text, event_front, event_text, fault_text, faulty_text, more_numbers, notif_text, numbers_text, refusal_text, refused_text, sized, told};

use crate::reasons::reason_text;
use crate::refusal::Refusal;
use audit_log::event::push_what;
use audit_log::line::LineBuffer;
use audit_log::words::{push_actor, push_hex_or_dash};
use hist_model::event::{Event, What};
use step_requests::LineFault;
use sys_abi::memory::NoMemory;
use sys_abi::wire::Notif;

/// Adds numbers, each behind a comma.
fn push_more(line: &mut LineBuffer, numbers: &[u64]) -> Result<(), NoMemory>
    ensures { OnOk result (line.new ≡ line.old ++ more_numbers numbers.now) }
{
    for number in numbers {
        line.push(",")?;
        line.push_number(*number)?;
    }
    Ok(())
}

/// Adds numbers with commas between them.
fn push_numbers(line: &mut LineBuffer, numbers: &[u64]) -> Result<(), NoMemory>
    ensures { OnOk result (line.new ≡ line.old ++ numbers_text numbers.now) }
{
    match numbers {
        [] => Ok(()),
        [first, rest @ ..] => {
            line.push_number(*first)?;
            push_more(line, rest)
        }
    }
}

/// Adds the fields of a notification that its line in a journal leaves out.
fn push_notif(line: &mut LineBuffer, notif: &Notif) -> Result<(), NoMemory>
    ensures { OnOk result (line.new ≡ line.old ++ notif_text notif.now) }
{
    line.push(" flags=")?;
    line.push_number(u64::from(notif.flags))?;
    line.push(" nr=")?;
    line.push_signed(i64::from(notif.call.nr))?;
    line.push(" arch=")?;
    line.push_number(u64::from(notif.call.arch))?;
    line.push(" ip=")?;
    line.push_number(notif.call.ip)?;
    line.push(" args=")?;
    push_numbers(line, &notif.call.args)
}

/// Adds what a worker was told that the line in a journal leaves out.
fn push_told(line: &mut LineBuffer, what: &What) -> Result<(), NoMemory>
    ensures { OnOk result (line.new ≡ line.old ++ told what.now) }
{
    match what {
        What::Recv { answer: Ok(notif) } => push_notif(line, notif),
        What::Read {
            answer: Ok(bytes),
            ..
        } => {
            line.push(" bytes=")?;
            push_hex_or_dash(line, bytes.items())
        }
        _ => Ok(()),
    }
}

/// Adds the line that an event has in a journal, after so many others, but for its end.
fn push_front(line: &mut LineBuffer, place: usize, event: &Event) -> Result<(), NoMemory>
    ensures { OnOk result (line.new ≡ line.old ++ event_front place event.now.who event.now.what) }
{
    line.push_number(place as u64)?;
    line.push(" ")?;
    push_actor(line, &event.who)?;
    line.push(" ")?;
    push_what(line, &event.what)
}

/// Adds the line of an event that comes after so many others, with what a worker was told.
pub(crate) fn push_event(line: &mut LineBuffer, place: usize, event: &Event) -> Result<(), NoMemory>
    ensures { OnOk result (line.new ≡ line.old ++ event_text place event.now.who event.now.what) }
{
    push_front(line, place, event)?;
    push_told(line, &event.what)?;
    line.push("\n")
}

/// Adds a text behind a line with its word and its length.
pub(crate) fn push_sized(line: &mut LineBuffer, word: &str, text: &[u8]) -> Result<(), NoMemory>
    ensures { OnOk result (line.new ≡ line.old ++ sized word.now text.now) }
{
    line.push(word)?;
    line.push(" ")?;
    line.push_number(text.len() as u64)?;
    line.push("\n")?;
    line.push_bytes(text)
}

/// The text of why what a worker asks for isn't done.
fn asked_text(why: asked_steps::Refusal) -> &'static str
    ensures { result.now ≡ asked_text why }
{
    match why {
        asked_steps::Refusal::NoMemoryIsOpen => "no memory is open",
        asked_steps::Refusal::RequestIsPut => "request is put",
        asked_steps::Refusal::NoRequest => "no request",
    }
}

/// The text of a refusal.
fn refusal_text(why: Refusal) -> &'static str
    ensures { result.now ≡ refusal_text why }
{
    match why {
        Refusal::NoTask => "no task",
        Refusal::Asked(why) => asked_text(why),
        Refusal::Closed => "closed",
        Refusal::Full => "full",
    }
}

/// Adds the line of a refusal.
pub(crate) fn push_refusal(line: &mut LineBuffer, why: Refusal) -> Result<(), NoMemory>
    ensures { OnOk result (line.new ≡ line.old ++ refused_text why) }
{
    line.push("refused ")?;
    line.push(refusal_text(why))?;
    line.push("\n")
}

/// Adds what is wrong with a line that is no request.
fn push_fault_text(line: &mut LineBuffer, fault: LineFault) -> Result<(), NoMemory>
    ensures { OnOk result (line.new ≡ line.old ++ fault_text fault) }
{
    match fault {
        LineFault::Empty => line.push("empty line"),
        LineFault::Worker => line.push("worker"),
        LineFault::Reason(reason) => {
            line.push("line: ")?;
            line.push_bytes(reason_text(reason))
        }
    }
}

/// Adds the answer to a line that is no request.
pub(crate) fn push_fault(line: &mut LineBuffer, fault: LineFault) -> Result<(), NoMemory>
    ensures { OnOk result (line.new ≡ line.old ++ faulty_text fault) }
{
    line.push("refused ")?;
    push_fault_text(line, fault)?;
    line.push("\n")
}
