//! The lines of classes that are answered otherwise.

ghost use Rattle.std.specs.Prelude.{◌≡◌, ◌++◌, IfOk, OnOk, codes, map, slice_get};
ghost use Rattle.std.specs.List.{flat_map};
ghost use Rattle.std.specs.Option.{option_copied};
ghost use Rattle.policy_explain.specs.Blocks.{place_text};
ghost use Rattle.policy_compare.specs.Answers.{answer_of};
ghost use Rattle.policy_compare.specs.Lines.{answer_text, change_lines, change_text, class_lines, is_alike, line_of, name_text};
ghost use Rattle.policy_compare.specs.Lines.{notified_text, shift_text, side_text, sides_text, times_text, verdict_text, via_text, way_text};

use crate::answers::{Way, is_same, shifts, times_of, verdict_of, via_of, way_of};
use crate::notified::is_notified;
use audit_log::line::LineBuffer;
use audit_log::words::push_errno;
use hist_model::policy::{Rule, Verdict};
use hist_model::request::Request;
use hist_model::script::FilterLine;
use hist_model::text::{Sequence, Text};
use policy_classes::found::Class;
use policy_explain::asked::push_asked;
use std::alloc::Global;
use sys_abi::errno::Errno;
use sys_abi::memory::NoMemory;

/// The rule at a place, if there is one.
pub(crate) fn rule_at(rules: &[Rule], place: usize) -> Option<&Rule>
    ensures { option_copied result ≡ slice_get rules.now place }
{
    rules.get(place)
}

// ---- Answers

/// Adds a denial, with its error.
fn push_denial(line: &mut LineBuffer, error: Errno) -> Result<(), NoMemory>
    ensures { OnOk result (line.new ≡ line.old ++ verdict_text (Verdict.Deny error)) }
{
    line.push("deny,error=")?;
    push_errno(line, error)
}

/// Adds a number, or `-`.
fn push_place(line: &mut LineBuffer, number: Option<u32>) -> Result<(), NoMemory>
    ensures { OnOk result (line.new ≡ line.old ++ place_text number) }
{
    match number {
        Some(number) => line.push_number(u64::from(number)),
        None => line.push("-"),
    }
}

/// Adds the giving of a file, with its numbers in the broker and in the caller.
fn push_injection(line: &mut LineBuffer, src: u32, at: Option<u32>) -> Result<(), NoMemory>
    ensures { OnOk result (line.new ≡ line.old ++ verdict_text (Verdict.Inject src at)) }
{
    line.push("inject,src=")?;
    line.push_number(u64::from(src))?;
    line.push(",at=")?;
    push_place(line, at)
}

/// Adds a verdict.
fn push_verdict(line: &mut LineBuffer, verdict: Verdict) -> Result<(), NoMemory>
    ensures { OnOk result (line.new ≡ line.old ++ verdict_text verdict) }
{
    match verdict {
        Verdict::Grant => line.push("grant"),
        Verdict::Deny(error) => push_denial(line, error),
        Verdict::Pass => line.push("pass"),
        Verdict::Inject { src, at } => push_injection(line, src, at),
    }
}

/// Adds the program that serves a mount, where there is one.
fn push_via(line: &mut LineBuffer, via: &[u8]) -> Result<(), NoMemory>
    ensures { OnOk result (line.new ≡ line.old ++ via_text via.now) }
{
    if via.is_empty() {
        return Ok(());
    }
    line.push(",via=")?;
    line.push_quoted(via)
}

/// Adds that a mount shifts owners.
fn push_shift(line: &mut LineBuffer, shift: bool) -> Result<(), NoMemory>
    ensures { OnOk result (line.new ≡ line.old ++ shift_text shift) }
{
    if shift {
        return line.push(",shift");
    }
    Ok(())
}

/// Adds how often a rule grants, where that is limited.
fn push_times(line: &mut LineBuffer, times: Option<u32>) -> Result<(), NoMemory>
    ensures { OnOk result (line.new ≡ line.old ++ times_text times) }
{
    match times {
        Some(times) => {
            line.push(",times=")?;
            line.push_number(u64::from(times))
        }
        None => Ok(()),
    }
}

/// Adds what a rule answers; where there is none, the call is passed.
fn push_answer(line: &mut LineBuffer, rule: Option<&Rule>) -> Result<(), NoMemory>
    ensures { OnOk result (line.new ≡ line.old ++ answer_text (answer_of (option_copied rule.entry))) }
{
    push_verdict(line, verdict_of(rule))?;
    push_via(line, via_of(rule))?;
    push_shift(line, shifts(rule))?;
    push_times(line, times_of(rule))
}

/// Adds a rule's name, or `-`.
fn push_name(line: &mut LineBuffer, rule: Option<&Rule>) -> Result<(), NoMemory>
    ensures { OnOk result (line.new ≡ line.old ++ name_text (option_copied rule.entry)) }
{
    match rule {
        Some(rule) => line.push_bytes(rule.name.items()),
        None => line.push("-"),
    }
}

// ---- Classes

/// The word for which way an answer changed, with a space behind it.
fn way_word(way: Way) -> &'static str
    ensures { result.now ≡ way_text way }
{
    match way {
        Way::Wider => "wider ",
        Way::Narrower => "narrower ",
        Way::Other => "other ",
    }
}

/// Adds a rule and what it answers, each behind a word.
fn push_side(
    line: &mut LineBuffer,
    rule_word: &str,
    answer_word: &str,
    rule: Option<&Rule>,
) -> Result<(), NoMemory>
    ensures { OnOk result (line.new ≡ line.old ++ side_text rule_word.now answer_word.now (option_copied rule.entry)) }
{
    line.push(rule_word)?;
    push_name(line, rule)?;
    line.push(answer_word)?;
    push_answer(line, rule)
}

/// Adds two rules and what they answer.
fn push_sides(line: &mut LineBuffer, old: Option<&Rule>, new: Option<&Rule>) -> Result<(), NoMemory>
    ensures { OnOk result (line.new ≡ line.old ++ sides_text (option_copied old.entry) (option_copied new.entry)) }
{
    push_side(line, " old-rule=", " old=", old)?;
    push_side(line, " new-rule=", " new=", new)
}

/// Adds that calls aren't notified.
pub(crate) fn push_notified(line: &mut LineBuffer, notified: bool) -> Result<(), NoMemory>
    ensures { OnOk result (line.new ≡ line.old ++ notified_text notified) }
{
    if notified {
        return Ok(());
    }
    line.push(" notified=no")
}

/// Adds the line of a call that two rules answer otherwise.
fn push_change(
    alloc: Global,
    line: &mut LineBuffer,
    old: Option<&Rule>,
    new: Option<&Rule>,
    witness: &Request,
    notified: bool,
) -> Result<(), NoMemory>
    ensures { OnOk result (line.new ≡ line.old ++ change_text (option_copied old.entry) (option_copied new.entry) witness.now notified) }
{
    line.push(way_word(way_of(old, new)))?;
    push_asked(alloc, line, witness)?;
    push_sides(line, old, new)?;
    push_notified(line, notified)?;
    line.push("\n")
}

/// Whether the rules answer the calls of a class alike.
pub(crate) fn is_alike(old: &[Rule], new: &[Rule], class: &Class) -> bool
    ensures { result ≡ is_alike old.now new.now class.now }
{
    is_same(rule_at(old, class.old_place), rule_at(new, class.new_place))
}

/// The line of a class.
fn change_line(
    alloc: Global,
    old: &[Rule],
    new: &[Rule],
    filters: Option<&Sequence<FilterLine>>,
    class: &Class,
) -> Result<Text, NoMemory>
    ensures { IfOk result (λ text. text ≡ line_of old.now new.now (option_copied filters.entry) class.now) }
{
    let notified = is_notified(filters, &class.witness);
    let old = rule_at(old, class.old_place);
    let new = rule_at(new, class.new_place);
    let mut line = LineBuffer::new(alloc);
    push_change(alloc, &mut line, old, new, &class.witness, notified)?;
    Ok(Text::new(line.into_bytes()))
}

/// Adds the line of a class, where its calls are answered otherwise.
fn push_changed(
    alloc: Global,
    old: &[Rule],
    new: &[Rule],
    filters: Option<&Sequence<FilterLine>>,
    class: &Class,
    lines: &mut Vec<Text>,
) -> Result<(), NoMemory>
    ensures { OnOk result (lines.new.items ≡ lines.old.items ++ change_lines old.now new.now (option_copied filters.entry) class.now) }
{
    if is_alike(old, new, class) {
        return Ok(());
    }
    lines.push(change_line(alloc, old, new, filters, class)?)?;
    Ok(())
}

/// Adds the lines of the classes that are answered otherwise.
pub(crate) fn push_changes(
    alloc: Global,
    old: &[Rule],
    new: &[Rule],
    filters: Option<&Sequence<FilterLine>>,
    classes: &[Class],
    lines: &mut Vec<Text>,
) -> Result<(), NoMemory>
    ensures { OnOk result (lines.new.items ≡ lines.old.items ++ class_lines old.now new.now (option_copied filters.entry) classes.now) }
{
    for class in classes {
        push_changed(alloc, old, new, filters, class, lines)?;
    }
    Ok(())
}
