//! Calls with other texts in place of their own, as the conditions of rules tell texts apart.

use crate::calls::{text_of, with_fstype, with_name, with_path, with_source, with_value};
use hist_model::policy::{Cond, Rule};
use hist_model::request::Request;
use hist_model::text::Text;
use policy_eval::conditions::covers;
use std::alloc::Global;
use sys_abi::memory::NoMemory;

/// Calls that may be passed, and others that may be denied.
#[derive(Drop)]
pub struct Pairs {
    pub calls: Vec<Request>,
    pub others: Vec<Request>,
}

/// Texts that no rule is likely to ask for.
const PLAIN: &[&'static str] = &["x", "/x", "/xx", "xxx", "/z"];

/// How many calls are made of one.
const MOST_MADE: usize = 4_096;

/// What a text is of a call.
#[derive(Clone, Copy, PartialEq, Eq, Debug)]
enum Part {
    Path,
    Fstype,
    Source,
    Name,
    Value,
}

const PARTS: &[Part] = &[
    Part::Path,
    Part::Fstype,
    Part::Source,
    Part::Name,
    Part::Value,
];

/// Whether a call has such a text.
fn has_part(call: &Request, part: Part) -> bool {
    match (call, part) {
        (Request::Mknod { .. }, Part::Path) => true,
        (Request::OpenAt { .. }, Part::Path) => true,
        (Request::Mount { .. }, Part::Path) => true,
        (Request::Mount { .. }, Part::Fstype) => true,
        (Request::Mount { .. }, Part::Source) => true,
        (Request::SetXattr { .. }, Part::Path) => true,
        (Request::SetXattr { .. }, Part::Name) => true,
        (Request::SetXattr { .. }, Part::Value) => true,
        _ => false,
    }
}

/// The call with another text there.
fn with_part(alloc: Global, call: &Request, part: Part, new: &[u8]) -> Result<Request, NoMemory> {
    match part {
        Part::Path => with_path(alloc, call, new),
        Part::Fstype => with_fstype(alloc, call, new),
        Part::Source => with_source(alloc, call, new),
        Part::Name => with_name(alloc, call, new),
        Part::Value => with_value(alloc, call, new),
    }
}

/// A path below a directory.
fn below(alloc: Global, dir: &[u8]) -> Result<Text, NoMemory> {
    let mut path = Vec::from_slice(alloc, dir)?;
    path.extend_from_slice(b"/x")?;
    Ok(Text::new(path))
}

/// The text for which a condition asks there.
fn asked(alloc: Global, cond: &Cond, part: Part) -> Result<Option<Text>, NoMemory> {
    Ok(match (cond, part) {
        (Cond::Path(text), Part::Path)
        | (Cond::Fstype(text), Part::Fstype)
        | (Cond::Source(text), Part::Source)
        | (Cond::Name(text), Part::Name)
        | (Cond::Value(text), Part::Value) => Some(text_of(alloc, text.items())?),
        (Cond::Under(dir), Part::Path) => Some(below(alloc, dir.items())?),
        _ => None,
    })
}

/// The texts for which the rules of a call ask there, behind some for which they likely don't.
fn texts(alloc: Global, rules: &[Rule], call: &Request, part: Part) -> Result<Vec<Text>, NoMemory> {
    let mut found = Vec::new(alloc);
    for plain in PLAIN {
        found.push(text_of(alloc, plain.as_bytes())?)?;
    }
    for rule in rules {
        if covers(&rule.calls, call.call()) {
            for cond in rule.conds.items() {
                if let Some(text) = asked(alloc, cond, part)? {
                    found.push(text)?;
                }
            }
        }
    }
    Ok(found)
}

/// A value of so many bytes, all of them this one.
fn value_of(alloc: Global, byte: u8, len: usize) -> Result<Text, NoMemory> {
    let mut value = Vec::new(alloc);
    for _ in 0..len {
        value.push(byte)?;
    }
    Ok(Text::new(value))
}

/// The values for which the rules of a call ask, each with two others of its length.
fn values(alloc: Global, rules: &[Rule], call: &Request) -> Result<Vec<Text>, NoMemory> {
    let mut found = Vec::new(alloc);
    for text in texts(alloc, rules, call, Part::Value)? {
        let len = text.items().len();
        found.push(text)?;
        found.push(value_of(alloc, b'x', len)?)?;
        found.push(value_of(alloc, b'z', len)?)?;
    }
    Ok(found)
}

/// The texts that a call may have there.
fn all_texts(
    alloc: Global,
    rules: &[Rule],
    call: &Request,
    part: Part,
) -> Result<Vec<Text>, NoMemory> {
    match part {
        Part::Value => values(alloc, rules, call),
        Part::Path | Part::Fstype | Part::Source | Part::Name => texts(alloc, rules, call, part),
    }
}

/// These calls, and each of them with each of the texts there.
fn more(
    alloc: Global,
    calls: Vec<Request>,
    part: Part,
    texts: &[Text],
) -> Result<Vec<Request>, NoMemory> {
    let mut made = Vec::new(alloc);
    for call in calls.as_slice() {
        for text in texts {
            if made.len() < MOST_MADE {
                made.push(with_part(alloc, call, part, text.items())?)?;
            }
        }
    }
    let mut all = calls;
    all.append(&mut made)?;
    Ok(all)
}

/// The call, and others that have another text there.
fn with_values(alloc: Global, rules: &[Rule], call: &Request) -> Result<Vec<Request>, NoMemory> {
    let mut calls = Vec::new(alloc);
    calls.push(call.copied(alloc)?)?;
    if has_part(call, Part::Value) {
        let texts = values(alloc, rules, call)?;
        return more(alloc, calls, Part::Value, texts.as_slice());
    }
    Ok(calls)
}

/// A call that is passed, with others that differ from it in their texts alone, where an attribute's value keeps its length.
pub fn pairs_of(alloc: Global, rules: &[Rule], call: &Request) -> Result<Pairs, NoMemory> {
    let mut others = Vec::new(alloc);
    others.push(call.copied(alloc)?)?;
    for part in PARTS {
        if has_part(call, *part) {
            let texts = all_texts(alloc, rules, call, *part)?;
            others = more(alloc, others, *part, texts.as_slice())?;
        }
    }
    Ok(Pairs {
        calls: with_values(alloc, rules, call)?,
        others,
    })
}
