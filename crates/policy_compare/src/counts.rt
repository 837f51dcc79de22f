//! The lines of classes that one policy counts together, and the other apart.

ghost use Rattle.std.specs.Prelude.{◌≡◌, ◌++◌, IfOk, OnOk};
ghost use Rattle.std.specs.Option.{option_copied};
ghost use Rattle.policy_compare.specs.Lines.{apart_lines, are_notified, count_lines, count_text, first_of_new, first_of_old};
ghost use Rattle.policy_compare.specs.Lines.{is_counted, share_lines, together_lines};

use crate::answers::times_of;
use crate::lines::{is_alike, push_notified, rule_at};
use crate::notified::is_notified;
use audit_log::line::LineBuffer;
use hist_model::policy::Rule;
use hist_model::script::FilterLine;
use hist_model::text::{Sequence, Text};
use policy_classes::found::Class;
use policy_explain::asked::push_asked;
use std::alloc::Global;
use sys_abi::memory::NoMemory;

/// Whether the calls of a class are answered alike, and it is limited how often.
fn is_counted(old: &[Rule], new: &[Rule], class: &Class) -> bool
    ensures { result ≡ is_counted old.now new.now class.now }
{
    times_of(rule_at(old, class.old_place)).is_some() && is_alike(old, new, class)
}

/// The first of the classes that an old rule counts.
fn first_of_old<'a>(
    old: &[Rule],
    new: &[Rule],
    classes: &'a [Class],
    place: usize,
) -> Option<&'a Class>
    ensures { option_copied result ≡ first_of_old old.now new.now classes.now place }
{
    classes.iter().find(|class| class.old_place == place && is_counted(old, new, *class))
}

/// The first of the classes that a new rule counts.
fn first_of_new<'a>(
    old: &[Rule],
    new: &[Rule],
    classes: &'a [Class],
    place: usize,
) -> Option<&'a Class>
    ensures { option_copied result ≡ first_of_new old.now new.now classes.now place }
{
    classes.iter().find(|class| class.new_place == place && is_counted(old, new, *class))
}

/// Whether the filters notify the calls of both classes that are shown.
fn are_notified(filters: Option<&Sequence<FilterLine>>, first: &Class, second: &Class) -> bool
    ensures { result ≡ are_notified (option_copied filters.entry) first.now second.now }
{
    is_notified(filters, &first.witness) && is_notified(filters, &second.witness)
}

/// The line of two classes that are counted otherwise.
fn count_line(
    alloc: Global,
    first: &Class,
    second: &Class,
    how: &str,
    notified: bool,
) -> Result<Text, NoMemory>
    ensures { IfOk result (λ text. text ≡ count_text first.now second.now how.now notified) }
{
    let mut line = LineBuffer::new(alloc);
    line.push("counts ")?;
    push_asked(alloc, &mut line, &first.witness)?;
    line.push(" and ")?;
    push_asked(alloc, &mut line, &second.witness)?;
    line.push(how)?;
    push_notified(&mut line, notified)?;
    line.push("\n")?;
    Ok(Text::new(line.into_bytes()))
}

/// Adds the line of a class that the new policy counts apart from the first one of its old rule.
fn push_apart(
    alloc: Global,
    filters: Option<&Sequence<FilterLine>>,
    first: Option<&Class>,
    class: &Class,
    lines: &mut Vec<Text>,
) -> Result<(), NoMemory>
    ensures { OnOk result (lines.new.items ≡ lines.old.items ++ apart_lines (option_copied filters.entry) (option_copied first.entry) class.now) }
{
    let Some(first) = first else {
        return Ok(());
    };
    if first.new_place == class.new_place {
        return Ok(());
    }
    let notified = are_notified(filters, first, class);
    lines.push(count_line(alloc, first, class, " old=together new=apart", notified)?)?;
    Ok(())
}

/// Adds the line of a class that the new policy counts together with the first one of its new rule, and the old one apart.
fn push_together(
    alloc: Global,
    filters: Option<&Sequence<FilterLine>>,
    first: Option<&Class>,
    class: &Class,
    lines: &mut Vec<Text>,
) -> Result<(), NoMemory>
    ensures { OnOk result (lines.new.items ≡ lines.old.items ++ together_lines (option_copied filters.entry) (option_copied first.entry) class.now) }
{
    let Some(first) = first else {
        return Ok(());
    };
    if first.old_place == class.old_place {
        return Ok(());
    }
    let notified = are_notified(filters, first, class);
    lines.push(count_line(alloc, first, class, " old=apart new=together", notified)?)?;
    Ok(())
}

/// Adds the lines of a class beside the first ones of its rules.
fn push_shares(
    alloc: Global,
    old: &[Rule],
    new: &[Rule],
    filters: Option<&Sequence<FilterLine>>,
    classes: &[Class],
    class: &Class,
    lines: &mut Vec<Text>,
) -> Result<(), NoMemory>
    ensures { OnOk result (lines.new.items ≡ lines.old.items ++ share_lines old.now new.now (option_copied filters.entry) classes.now class.now) }
{
    if !is_counted(old, new, class) {
        return Ok(());
    }
    let first = first_of_old(old, new, classes, class.old_place);
    push_apart(alloc, filters, first, class, lines)?;
    let first = first_of_new(old, new, classes, class.new_place);
    push_together(alloc, filters, first, class, lines)
}

/// Adds the lines of the classes that are counted otherwise.
pub(crate) fn push_counts(
    alloc: Global,
    old: &[Rule],
    new: &[Rule],
    filters: Option<&Sequence<FilterLine>>,
    classes: &[Class],
    lines: &mut Vec<Text>,
) -> Result<(), NoMemory>
    ensures { OnOk result (lines.new.items ≡ lines.old.items ++ count_lines old.now new.now (option_copied filters.entry) classes.now) }
{
    for class in classes {
        push_shares(alloc, old, new, filters, classes, class, lines)?;
    }
    Ok(())
}
