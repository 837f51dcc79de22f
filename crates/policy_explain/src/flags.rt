//! The names of flags.

ghost use Rattle.std.specs.Prelude.{◌≡◌, ◌++◌, IfOk, OnOk, codes, map, find, not};
ghost use Rattle.std.specs.List.{flat_map, join_by};
ghost use Rattle.std.specs.Option.{option_copied};
ghost use Rattle.hist_model.specs.Decisions.{has_flag};
ghost use Rattle.policy_reader.specs.Tables.{rows_of};
ghost use Rattle.policy_explain.specs.Words.{bit_text, flag_eq, flag_name, flag_text, flags_text, missed_flag, name_in, names_or_dash, set_names, set_names_in};

use audit_log::line::LineBuffer;
use hist_model::policy::Flag;
use hist_model::request::Request;
use policy_eval::conditions::has_flag;
use policy_reader::FLAGS;
use std::alloc::Global;
use sys_abi::memory::NoMemory;

/// Whether two flags are one.
fn is_same(a: Flag, b: Flag) -> bool
    ensures { result ≡ flag_eq a b }
{
    match (a, b) {
        (Flag::Mount(a), Flag::Mount(b)) => a == b,
        (Flag::Attribute(a), Flag::Attribute(b)) => a == b,
        _ => false,
    }
}

/// The name of a flag in a table.
fn name_in(rows: &[(&'static str, Flag)], flag: Flag) -> Option<&'static str>
    ensures { option_copied result ≡ name_in (rows_of rows.now) flag }
{
    let row = rows.iter().find(|row| is_same(row.1, flag))?;
    Some(row.0)
}

/// The name of a flag.
#[tactic(auto, unfolding(crate::specs::Words::flag_name))]
fn flag_name(flag: Flag) -> Option<&'static str>
    ensures { option_copied result ≡ flag_name flag }
{
    name_in(&FLAGS, flag)
}

/// Adds the bit of a flag.
fn push_bit(line: &mut LineBuffer, flag: Flag) -> Result<(), NoMemory>
    ensures { OnOk result (line.new ≡ line.old ++ bit_text flag) }
{
    match flag {
        Flag::Mount(bit) => line.push_number(bit),
        Flag::Attribute(bit) => line.push_number(u64::from(bit)),
    }
}

/// Adds a flag's name, or its bit.
fn push_flag(line: &mut LineBuffer, flag: Flag) -> Result<(), NoMemory>
    ensures { OnOk result (line.new ≡ line.old ++ flag_text flag) }
{
    match flag_name(flag) {
        Some(name) => line.push(name),
        None => push_bit(line, flag),
    }
}

/// The names in a table of the flags that are set.
fn set_names_in(
    alloc: Global,
    rows: &[(&'static str, Flag)],
    request: &Request,
) -> Result<Vec<&'static str>, NoMemory>
    ensures { IfOk result (λ names. map (λ name. name.now) names.items ≡ set_names_in (rows_of rows.now) request.now) }
{
    let mut names = Vec::new(alloc);
    for row in rows {
        if has_flag(request, row.1) {
            names.push(row.0)?;
        }
    }
    Ok(names)
}

/// The names of the flags that are set.
#[tactic(auto, unfolding(crate::specs::Words::set_names))]
fn set_names(alloc: Global, request: &Request) -> Result<Vec<&'static str>, NoMemory>
    ensures { IfOk result (λ names. map (λ name. name.now) names.items ≡ set_names request.now) }
{
    set_names_in(alloc, &FLAGS, request)
}

/// Adds names with a comma before each.
fn push_behind_commas(line: &mut LineBuffer, names: &[&'static str]) -> Result<(), NoMemory>
    ensures { OnOk result (line.new ≡ line.old ++ flat_map (λ name. codes "," ++ name.now) names.now) }
{
    for name in names {
        line.push(",")?;
        line.push(name)?;
    }
    Ok(())
}

/// Adds names with commas between them, or `-` where there are none.
fn push_names(line: &mut LineBuffer, names: &[&'static str]) -> Result<(), NoMemory>
    ensures { OnOk result (line.new ≡ line.old ++ names_or_dash (map (λ name. name.now) names.now)) }
{
    match names {
        [] => line.push("-"),
        [first, rest @ ..] => {
            line.push(first)?;
            push_behind_commas(line, rest)
        }
    }
}

/// Adds the flags that are set.
pub fn push_flags(alloc: Global, line: &mut LineBuffer, request: &Request) -> Result<(), NoMemory>
    ensures { OnOk result (line.new ≡ line.old ++ flags_text request.now) }
{
    let names = set_names(alloc, request)?;
    push_names(line, names.as_slice())
}

/// The first flag that should be set and isn't.
fn unset(flags: &[Flag], request: &Request) -> Option<Flag>
    ensures { result ≡ find (λ f. not (has_flag request.now f)) flags.now }
{
    flags.iter().copied().find(|flag| !has_flag(request, *flag))
}

/// The first flag that shouldn't be set and is.
fn set(flags: &[Flag], request: &Request) -> Option<Flag>
    ensures { result ≡ find (λ f. has_flag request.now f) flags.now }
{
    flags.iter().copied().find(|flag| has_flag(request, *flag))
}

/// Adds a flag, and whether it is set.
fn push_missed_flag(
    line: &mut LineBuffer,
    unset: Option<Flag>,
    set: Option<Flag>,
) -> Result<(), NoMemory>
    ensures { OnOk result (line.new ≡ line.old ++ missed_flag unset set) }
{
    line.push("flags")?;
    match (unset, set) {
        (Some(flag), _) => {
            line.push(": ")?;
            push_flag(line, flag)?;
            line.push(" is not set")
        }
        (None, Some(flag)) => {
            line.push(": ")?;
            push_flag(line, flag)?;
            line.push(" is set")
        }
        (None, None) => Ok(()),
    }
}

/// Adds the first flag for which the request doesn't meet a condition on flags.
pub fn push_unmet_flags(
    line: &mut LineBuffer,
    all: &[Flag],
    none: &[Flag],
    request: &Request,
) -> Result<(), NoMemory>
    ensures { OnOk result (line.new ≡ line.old ++ missed_flag (find (λ f. not (has_flag request.now f)) all.now) (find (λ f. has_flag request.now f) none.now)) }
{
    push_missed_flag(line, unset(all, request), set(none, request))
}
