//! The key of lines.

ghost use Rattle.std.specs.Option.{option_copied};
ghost use Rattle.std.specs.Prelude.{◌≡◌, ◌++◌, OnOk};
ghost use Rattle.key_bytes.specs.Parts.{number_part, option_part};
ghost use Rattle.outcome_lines.specs.Keys.{came_code, came_part, finding_code, finding_part, line_part, lines_part, sight_part, told_part, verdict_code, verdict_part};

use crate::line::{Line, Sight, Told};
use hist_model::event::Entered;
use hist_model::report::{Finding, Outcome};
use key_bytes::{push_flag, push_number, push_numbers, push_option, push_signed, push_text};
use sys_abi::memory::NoMemory;

/// The number of what the filters say of a call, and what it has.
fn verdict_code(verdict: Entered) -> (u64, u64)
    ensures { result ≡ verdict_code verdict }
{
    match verdict {
        Entered::Notify { id } => (0, id),
        Entered::Allow => (1, 0),
        Entered::Log => (2, 0),
        Entered::NoSys => (3, 0),
        Entered::Kill => (4, 0),
        Entered::Fails(error) => (5, u64::from(error)),
    }
}

/// The number of what a call came to, and what it has.
fn came_code(came: Outcome) -> (u64, i64)
    ensures { result ≡ came_code came }
{
    match came {
        Outcome::Open => (0, 0),
        Outcome::Restarted => (1, 0),
        Outcome::Ended => (2, 0),
        Outcome::Returned(value) => (3, value),
        Outcome::Failed(error) => (4, i64::from(error.number())),
    }
}

/// The number of what a session came to, and the place of the rule that decided.
fn finding_code(finding: Finding) -> (u64, u64)
    ensures { result ≡ finding_code finding }
{
    match finding {
        Finding::Gone => (0, 0),
        Finding::Open => (1, 0),
        Finding::Fault => (2, 0),
        Finding::Spent(rule) => (3, rule as u64),
        Finding::Granted(rule) => (4, rule as u64),
        Finding::Denied(rule) => (5, rule as u64),
        Finding::Passed(rule) => (6, rule as u64),
        Finding::Injected(rule) => (7, rule as u64),
    }
}

/// Adds what the filters say of a call.
fn push_verdict(key: &mut Vec<u8>, verdict: Entered) -> Result<(), NoMemory>
    ensures { OnOk result (key.new.items ≡ key.old.items ++ verdict_part verdict) }
{
    let (kind, held) = verdict_code(verdict);
    push_number(key, kind)?;
    push_number(key, held)
}

/// Adds what a call came to.
fn push_came(key: &mut Vec<u8>, came: Outcome) -> Result<(), NoMemory>
    ensures { OnOk result (key.new.items ≡ key.old.items ++ came_part came) }
{
    let (kind, held) = came_code(came);
    push_number(key, kind)?;
    push_signed(key, held)
}

/// Adds what a session came to.
fn push_finding(key: &mut Vec<u8>, finding: Finding) -> Result<(), NoMemory>
    ensures { OnOk result (key.new.items ≡ key.old.items ++ finding_part finding) }
{
    let (kind, held) = finding_code(finding);
    push_number(key, kind)?;
    push_number(key, held)
}

/// Adds what would take an effect from sight.
fn push_sight(key: &mut Vec<u8>, sight: &Sight) -> Result<(), NoMemory>
    ensures { OnOk result (key.new.items ≡ key.old.items ++ sight_part sight.now) }
{
    match sight {
        Sight::OnRoot(node) => {
            push_flag(key, false)?;
            push_number(key, u64::from(node.ordinal))
        }
        Sight::OnAttr { node, name, value } => {
            push_flag(key, true)?;
            push_number(key, u64::from(node.ordinal))?;
            push_text(key, name.items())?;
            push_text(key, value.items())
        }
    }
}

/// Adds what would take an effect from sight, if something does.
fn push_sight_if(key: &mut Vec<u8>, sight: Option<&Sight>) -> Result<(), NoMemory>
    ensures { OnOk result (key.new.items ≡ key.old.items ++ option_part sight_part (option_copied sight.entry)) }
{
    match sight {
        None => push_flag(key, false),
        Some(sight) => {
            push_flag(key, true)?;
            push_sight(key, sight)
        }
    }
}

/// Adds the worker that has a session in hand.
fn push_worker(key: &mut Vec<u8>, worker: Option<u8>) -> Result<(), NoMemory>
    ensures { OnOk result (key.new.items ≡ key.old.items ++ option_part number_part worker) }
{
    match worker {
        None => push_option(key, None),
        Some(worker) => push_option(key, Some(u64::from(worker))),
    }
}

/// Adds what is told of a session.
fn push_told(key: &mut Vec<u8>, told: &Told) -> Result<(), NoMemory>
    ensures { OnOk result (key.new.items ≡ key.old.items ++ told_part told.now) }
{
    push_worker(key, told.worker)?;
    push_finding(key, told.finding)?;
    push_flag(key, told.sent)?;
    push_flag(key, told.lost)?;
    push_text(key, told.did.items())?;
    push_text(key, told.did_unseen.items())?;
    push_sight_if(key, told.sight.as_ref())
}

/// Adds what is told of a session, if there is one.
fn push_told_if(key: &mut Vec<u8>, told: Option<&Told>) -> Result<(), NoMemory>
    ensures { OnOk result (key.new.items ≡ key.old.items ++ option_part told_part (option_copied told.entry)) }
{
    match told {
        None => push_flag(key, false),
        Some(told) => {
            push_flag(key, true)?;
            push_told(key, told)
        }
    }
}

/// Adds a line.
fn push_line(key: &mut Vec<u8>, line: &Line) -> Result<(), NoMemory>
    ensures { OnOk result (key.new.items ≡ key.old.items ++ line_part line.now) }
{
    push_numbers(key, line.name.items())?;
    push_number(key, line.number)?;
    push_signed(key, i64::from(line.nr))?;
    push_verdict(key, line.verdict)?;
    push_came(key, line.came)?;
    push_flag(key, line.installed)?;
    push_told_if(key, line.session.as_ref())
}

/// Adds the key of lines, by which equal ones are found. Fails for want of memory alone; then a front of the key was added.
pub fn write_key(key: &mut Vec<u8>, lines: &[Line]) -> Result<(), NoMemory>
    ensures { OnOk result (key.new.items ≡ key.old.items ++ lines_part lines.now) }
{
    push_number(key, lines.len() as u64)?;
    for line in lines {
        push_line(key, line)?;
    }
    Ok(())
}
