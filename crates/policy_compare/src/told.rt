//! The comparison as text.

ghost use Rattle.std.specs.Prelude.{◌≡◌, ◌++◌, IfOk, OnOk, take};
ghost use Rattle.std.specs.List.{flat_map};
ghost use Rattle.std.specs.Option.{option_copied};
ghost use Rattle.policy_compare.specs.Lines.{comparison, differences, end_text, ending, ending_of, head_text, most_lines};
ghost use Rattle.policy_compare.specs.Lines.{sum_text, text_of, whole_text};

use crate::counts::push_counts;
use crate::lines::push_changes;
use audit_log::line::LineBuffer;
use hist_model::policy::Rule;
use hist_model::script::FilterLine;
use hist_model::text::{Sequence, Text};
use policy_classes::ending::{Ending, Told};
use policy_classes::found::Class;
use std::alloc::Global;
use sys_abi::memory::NoMemory;

/// How many lines are told at most behind the first one.
const MOST_LINES: usize = 1000;

/// How a comparison with these lines ends.
fn ending_of(lines: &[Text], whole: bool) -> Ending
    ensures { result ≡ ending_of lines.now whole }
{
    match (lines, whole) {
        ([_, ..], _) => Ending::Otherwise,
        ([], true) => Ending::Alike,
        ([], false) => Ending::Undecided,
    }
}

/// The word for whether all classes are known.
fn whole_word(whole: bool) -> &'static str
    ensures { result.now ≡ whole_text whole }
{
    if whole { "yes" } else { "no" }
}

/// Adds a number behind a word.
fn push_sum(line: &mut LineBuffer, word: &str, n: usize) -> Result<(), NoMemory>
    ensures { OnOk result (line.new ≡ line.old ++ sum_text word.now n) }
{
    line.push(word)?;
    line.push_number(n as u64)
}

/// Adds whether all classes are known, at the end of the line.
fn push_end(line: &mut LineBuffer, whole: bool) -> Result<(), NoMemory>
    ensures { OnOk result (line.new ≡ line.old ++ end_text whole) }
{
    line.push(" whole=")?;
    line.push(whole_word(whole))?;
    line.push("\n")
}

/// Adds the first line of a comparison that shows something.
fn push_head(
    line: &mut LineBuffer,
    changes: usize,
    counts: usize,
    whole: bool,
) -> Result<(), NoMemory>
    ensures { OnOk result (line.new ≡ line.old ++ head_text changes counts whole) }
{
    push_sum(line, "differ classes=", changes)?;
    push_sum(line, " counts=", counts)?;
    push_end(line, whole)?;
    Ok(())
}

/// The first lines, as many as are told.
fn told_lines(lines: &[Text]) -> &[Text]
    ensures { result.now ≡ take most_lines lines.now }
{
    if lines.len() < MOST_LINES {
        return lines;
    }
    &lines[..MOST_LINES]
}

/// Adds lines.
fn push_lines(text: &mut LineBuffer, lines: &[Text]) -> Result<(), NoMemory>
    ensures { OnOk result (text.new ≡ text.old ++ flat_map (λ line. line) lines.now) }
{
    for line in lines {
        text.push_bytes(line.items())?;
    }
    Ok(())
}

/// Adds the first line, and those behind it that are told.
fn push_differences(
    text: &mut LineBuffer,
    changes: usize,
    counts: usize,
    whole: bool,
    lines: &[Text],
) -> Result<(), NoMemory>
    ensures { OnOk result (text.new ≡ text.old ++ differences (head_text changes counts whole) lines.now) }
{
    push_head(text, changes, counts, whole)?;
    push_lines(text, told_lines(lines))
}

/// Adds the text of a comparison: of how many classes that are answered otherwise, of how many that are counted otherwise, and their lines.
fn push_text(
    text: &mut LineBuffer,
    changes: usize,
    counts: usize,
    whole: bool,
    lines: &[Text],
) -> Result<(), NoMemory>
    ensures { OnOk result (text.new ≡ text.old ++ text_of (ending_of lines.now whole) (head_text changes counts whole) lines.now) }
{
    match ending_of(lines, whole) {
        Ending::Alike => text.push("equal\n"),
        Ending::Undecided => text.push("undecided\n"),
        Ending::Otherwise => push_differences(text, changes, counts, whole, lines),
    }
}

/// What is told of classes, and how that ends.
pub(crate) fn told(
    alloc: Global,
    old: &[Rule],
    new: &[Rule],
    filters: Option<&Sequence<FilterLine>>,
    classes: &[Class],
    whole: bool,
) -> Result<Told, NoMemory>
    ensures text { IfOk result (λ told. told.text ≡ comparison old.now new.now (option_copied filters.entry) classes.now whole) }
    ensures ending { IfOk result (λ told. told.ending ≡ ending old.now new.now (option_copied filters.entry) classes.now whole) }
{
    let mut lines = Vec::new(alloc);
    push_changes(alloc, old, new, filters, classes, &mut lines)?;
    let changes = lines.len();
    push_counts(alloc, old, new, filters, classes, &mut lines)?;
    let counts = lines.len() - changes;
    let mut text = LineBuffer::new(alloc);
    push_text(&mut text, changes, counts, whole, lines.as_slice())?;
    Ok(Told {
        text: Text::new(text.into_bytes()),
        ending: ending_of(lines.as_slice(), whole),
    })
}
