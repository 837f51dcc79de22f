//! Why the policy doesn't grant an effect, or not once more.

ghost use Rattle.arg_capture.specs.Plans.{IsSound};

use crate::effects::rule_of;
use crate::made_texts::{are_answered, texts_copied};
use crate::reasons::{Case, begin_at, push_at};
use crate::weak_bytes::{address_of, byte_at, count_of, plan_of};
use crate::words::{name_of_rule, push_rule, text_name};
use arg_capture::Part;
use audit_log::line::LineBuffer;
use audit_log::words::push_errno;
use broker_judge::called::{decide_with, texts_of};
use broker_judge::reads::{SeatRead, Seen, Worth};
use broker_judge::stood::stood_text;
use broker_judge::texts::fits_part;
use hist_model::event::What;
use hist_model::policy::{Policy, Verdict};
use hist_model::text::Text;
use std::alloc::Global;
use sys_abi::memory::NoMemory;

/// Notes the bytes of a text that a read gives and that weren't known. Answers whether there is one.
fn note_given(known: &mut [bool], read: &SeatRead, addr: u64, text: &[u8]) -> bool {
    let mut gives = false;
    for place in 0..known.len() {
        if !known[place]
            && read.told(addr.wrapping_add(place as u64)) == Seen::Byte(byte_at(text, place))
        {
            known[place] = true;
            gives = true;
        }
    }
    gives
}

/// Notes the reads on which a text at a place of its plan may rest, from the newest on: each has a byte that those behind it lack.
fn note_support(
    alloc: Global,
    reads: &[SeatRead],
    part: &Part,
    at: usize,
    text: &[u8],
    noted: &mut [Option<usize>],
) -> Result<(), NoMemory> {
    let mut known = vec![in alloc; false; count_of(part, text)]?;
    for behind in 0..reads.len() {
        let place = reads.len() - 1 - behind;
        if note_given(known.as_mut_slice(), &reads[place], address_of(part), text) {
            if let Some(note) = noted.get_mut(place) {
                *note = Some(at);
            }
        }
    }
    Ok(())
}

/// Adds the reads on which texts may rest.
fn push_readings(line: &mut LineBuffer, case: &Case<'_>, texts: &[Text]) -> Result<(), NoMemory> {
    let alloc = case.judge.alloc;
    let reads = case.seat.reads.as_slice();
    let mut noted = vec![in alloc; None; reads.len()]?;
    let mut parts = plan_of(case.call);
    for at in 0..texts.len() {
        if let Some(part) = parts.first() {
            note_support(
                alloc,
                reads,
                &part,
                at,
                texts[at].items(),
                noted.as_mut_slice(),
            )?;
            parts.drop_first();
        }
    }
    push_noted(line, case, noted.as_slice(), "the ")
}

/// Adds the reads that are noted, each with the text that was read, behind these words.
fn push_noted(
    line: &mut LineBuffer,
    case: &Case<'_>,
    noted: &[Option<usize>],
    words: &str,
) -> Result<(), NoMemory> {
    for read in 0..noted.len() {
        if let (Some(part), Some((place, _group))) = (noted[read], case.seat.read_at.get(read)) {
            begin_at(line, case, *place)?;
            line.push(words)?;
            line.push(text_name(case.call.called.nr, part))?;
            line.push(" was read here\n")?;
        }
    }
    Ok(())
}

/// The texts of the first whole copy of the best reads that make one; none where there is none.
fn first_copied(case: &Case<'_>) -> Result<Vec<Text>, NoMemory> {
    let alloc = case.judge.alloc;
    if are_answered(case.seat.reads.as_slice()) {
        let mut all = texts_copied(alloc, case.seat, case.call)?;
        if !all.is_empty() {
            return Ok(all.remove(0).into_items());
        }
    }
    Ok(Vec::new(alloc))
}

/// The texts for which the event was done.
fn texts_done(case: &Case<'_>) -> Result<Vec<Text>, NoMemory> {
    match case.what {
        What::Act { request, .. } => texts_of(case.judge.alloc, request.get()),
        What::AddfdPut { .. } => first_copied(case),
        _ => Ok(Vec::new(case.judge.alloc)),
    }
}

/// Adds what a rule says, with the error of a denial.
pub(crate) fn push_said(
    line: &mut LineBuffer,
    policy: &Policy,
    rule: usize,
    verdict: &Verdict,
) -> Result<(), NoMemory> {
    push_rule(line, policy, rule, verdict)?;
    match verdict {
        Verdict::Deny(errno) => {
            line.push(" ")?;
            push_errno(line, *errno)
        }
        _ => Ok(()),
    }
}

/// The first text, by its place, that never stood so in the caller's memory, as far as the reads tell that a good check follows.
fn first_torn(case: &Case<'_>, texts: &[Text]) -> Result<Option<(usize, Part)>, NoMemory> {
    let mut parts = plan_of(case.call);
    for at in 0..texts.len() {
        if let Some(part) = parts.first() {
            if !stands(case, &part, texts[at].items())? {
                return Ok(Some((at, part)));
            }
            parts.drop_first();
        }
    }
    Ok(None)
}

/// Whether a part can have a text, and it stood so in the caller's memory, as far as the reads tell that a good check follows.
fn stands(case: &Case<'_>, part: &Part, text: &[u8]) -> Result<bool, NoMemory>
    requires { IsSound part.now }
{
    let reads = case.seat.reads.as_slice();
    Ok(fits_part(part, text) && stood_text(case.judge.alloc, reads, Worth::Valid, part, text)?)
}

/// Adds the reads of whose bytes a text is made that never stood so.
pub(crate) fn push_torn(line: &mut LineBuffer, case: &Case<'_>) -> Result<(), NoMemory> {
    let texts = texts_done(case)?;
    let Some((at, part)) = first_torn(case, texts.as_slice())? else {
        return Ok(());
    };
    let Some(text) = texts.get(at) else {
        return Ok(());
    };
    let alloc = case.judge.alloc;
    let reads = case.seat.reads.as_slice();
    let mut noted = vec![in alloc; None; reads.len()]?;
    note_support(alloc, reads, &part, at, text.items(), noted.as_mut_slice())?;
    push_noted(line, case, noted.as_slice(), "a part of the ")
}

/// Adds the reads on which the effect may rest, and what the policy says of its texts.
pub(crate) fn push_ungranted(line: &mut LineBuffer, case: &Case<'_>) -> Result<(), NoMemory> {
    let texts = texts_done(case)?;
    push_readings(line, case, texts.as_slice())?;
    let decided = decide_with(
        case.judge.alloc,
        case.policy,
        &case.call.called,
        texts.as_slice(),
    )?;
    line.push("  ")?;
    push_rule(line, case.policy, decided.rule, &decided.verdict)?;
    if matches!(decided.verdict, Verdict::Grant | Verdict::Inject { .. }) {
        line.push(", but not just this")?;
    }
    line.push("\n")
}

/// How often the rule at a place may be done by, if that is limited.
fn most_times(policy: &Policy, rule: usize) -> Option<u32> {
    policy.rules.items().get(rule)?.times
}

/// Adds the effects that were done by the rule before.
pub(crate) fn push_spent(line: &mut LineBuffer, case: &Case<'_>) -> Result<(), NoMemory> {
    let spent = rule_of(case.judge.alloc, case.policy, case.call, case.what)?;
    line.push("  rule ")?;
    line.push_bytes(name_of_rule(case.policy, spent))?;
    line.push(" grants ")?;
    if let Some(times) = most_times(case.policy, spent) {
        line.push_number(u64::from(times))?;
    }
    line.push(" in all\n")?;
    for done in case.judge.done.as_slice() {
        if is_by_rule(case, done.place, done.call, spent)? {
            push_at(line, case, done.place, "one of them")?;
        }
    }
    Ok(())
}

/// Whether the event at a place is an act or a plant that was done for a call, by the number of that, and by the rule at another place.
fn is_by_rule(case: &Case<'_>, place: usize, number: usize, rule: usize) -> Result<bool, NoMemory> {
    let (Some(event), Some(call)) = (case.before.get(place), case.judge.calls.rows.get(number))
    else {
        return Ok(false);
    };
    match &event.what {
        What::Act { answer: Ok(()), .. } | What::Plant { answer: Ok(()), .. } => {
            Ok(rule_of(case.judge.alloc, case.policy, call, &event.what)? == rule)
        }
        _ => Ok(false),
    }
}
