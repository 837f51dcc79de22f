//! Where a refusal's place stands in the text, and what would be right there.

use crate::lines::refusal_place;
use crate::nearest::nearest;
use crate::scanner::Scanned;
use crate::words;
use hist_model::text::Text;
use policy_reader::PolicyError;
use std::alloc::Global;
use sys_abi::memory::NoMemory;

/// Which words may stand at a place, and what they are.
#[derive(Clone, Copy)]
struct Allowed {
    what: &'static str,
    words: &'static [&'static str],
}

/// Whether the text has this part.
fn has(text: &[u8], part: &[u8]) -> bool {
    text.windows(part.len().max(1)).any(|window| window == part)
}

/// The keys that may stand where a key isn't known.
fn allowed_keys(path: &[u8]) -> Allowed {
    let (what, words) = if path.starts_with(b"config.") {
        ("the keys are", words::CONFIG_KEYS)
    } else if !path.starts_with(b"rules[") {
        ("the keys of a policy are", words::TOP_KEYS)
    } else if has(path, b"].when.flags.") {
        ("the keys of flags are", words::FLAG_KEYS)
    } else if has(path, b"].when.") {
        ("the conditions are", words::CONDITIONS)
    } else if has(path, b"].then.") {
        ("the keys of an answer are", words::ANSWER_KEYS)
    } else {
        ("the keys of a rule are", words::RULE_KEYS)
    };
    Allowed { what, words }
}

/// The words that may stand where a value is bad, where there are some.
fn allowed_values(path: &[u8]) -> Option<Allowed> {
    let (what, words) = if path == b"profile".as_slice() {
        ("the profiles are", words::PROFILES)
    } else if path.starts_with(b"config.") {
        ("a switch is", words::SWITCHES)
    } else if has(path, b"].call") {
        ("the calls are", words::CALLS)
    } else if path.ends_with(b".kind") {
        ("the kinds are", words::KINDS)
    } else if path.ends_with(b".then.deny") {
        ("the errors are", words::ERRORS)
    } else if path.ends_with(b".then") {
        ("an answer is", words::ANSWERS)
    } else if has(path, b".flags.") {
        ("the flags are", words::FLAGS)
    } else {
        return None;
    };
    Some(Allowed { what, words })
}

/// What a value has to be that is none of a few words.
fn form_of(path: &[u8]) -> &'static str {
    if path == b"(top)".as_slice() {
        "a policy is an object: {\"rules\": [..]}"
    } else if path == b"version".as_slice() {
        "a version is 1 or 2, without quotes"
    } else if path == b"config".as_slice() {
        "an object of LXD's keys, each with a text: {\"security.syscalls.intercept.mknod\": \"true\"}"
    } else if path == b"rules".as_slice() {
        "an array of rules: [{\"name\": \"NAME\", \"call\": \"mknod\", \"then\": \"pass\"}]"
    } else if path.ends_with(b".name") {
        "a rule has a name of its own, of 1 to 64 of a-z, 0-9, ., _, : and -, that doesn't begin with lxd. or default."
    } else if path.ends_with(b".dev") {
        "a device is \"MAJOR:MINOR\", as \"1:3\", beside a call that makes nodes"
    } else if path.ends_with(b".under") {
        "a directory begins with / and doesn't end with one, as \"/run\", beside a call with a path"
    } else if path.ends_with(b".times") {
        "a whole number from 1 to 4294967295, in a rule that grants"
    } else if path.ends_with(b".dirfd") {
        "a whole number from 0 to 2147483647, or -100 (AT_FDCWD), beside mknod, mknodat or openat"
    } else if path.ends_with(b"]") {
        "a rule is an object: {\"name\": \"NAME\", \"call\": \"mknod\", \"then\": \"pass\"}"
    } else {
        "the value has another type or isn't for each call of its rule"
    }
}

/// Adds what may have been meant, and which words may stand there.
fn push_allowed(
    alloc: Global,
    cure: &mut Vec<u8>,
    written: &[u8],
    allowed: Allowed,
) -> Result<(), NoMemory> {
    if let Some(word) = nearest(alloc, written, allowed.words)? {
        cure.extend_from_slice(b"did you mean ")?;
        cure.extend_from_slice(word.as_bytes())?;
        cure.extend_from_slice(b"? ")?;
    }
    cure.extend_from_slice(allowed.what.as_bytes())?;
    for word in allowed.words {
        cure.extend_from_slice(b" ")?;
        cure.extend_from_slice(word.as_bytes())?;
    }
    Ok(())
}

/// What is told of bytes that are no JSON, whose first fault is here.
fn not_json(bytes: &[u8], at: usize) -> &'static str {
    let before = last_before(bytes, at);
    match bytes.get(at) {
        None => "the text ends before a brace, a bracket or a quote is closed",
        Some(b'\'') => "texts and keys stand in double quotes",
        Some(b'/' | b'#') => "JSON has no comments",
        Some(b'}' | b']') if before == b',' => "leave out the comma before this",
        Some(b'"') if before == b'"' => "a comma or a colon is missing before this",
        Some(b'{' | b'"') if before == b'}' => "a comma is missing before this",
        Some(b'-') if before == b'\n' =>
            "this looks like YAML: a policy is JSON, and begins with a brace",
        Some(byte) if byte.is_ascii_alphabetic() && before == b'\n' => {
            "this looks like YAML: a policy is JSON, and begins with a brace"
        }
        Some(byte) if byte.is_ascii_alphabetic() => "keys and texts stand in double quotes",
        Some(_) => "JSON has nothing like this here",
    }
}

/// The last byte before a place that isn't blank; a line feed where there is none.
fn last_before(bytes: &[u8], at: usize) -> u8 {
    let mut last = b'\n';
    for place in 0..at.min(bytes.len()) {
        if bytes[place] > b' ' {
            last = bytes[place];
        }
    }
    last
}

/// The key between quotes at the end of a path.
fn quoted_part(path: &[u8]) -> &[u8] {
    let mut start = path.len();
    for place in 0..path.len() {
        if path[place] == b'"' {
            start = place + 1;
            break;
        }
    }
    let end = path.len().saturating_sub(1);
    match path.get(start..end) {
        Some(key) => key,
        None => &[],
    }
}

/// What would be right in place of a refused value or key.
fn cure_at(
    alloc: Global,
    bytes: &[u8],
    scanned: &Scanned,
    error: &PolicyError,
    node: usize,
) -> Result<Vec<u8>, NoMemory> {
    let mut cure = Vec::new(alloc);
    match error {
        PolicyError::BadKey { path } => {
            let path = path.items();
            push_allowed(alloc, &mut cure, quoted_part(path), allowed_keys(path))?;
        }
        PolicyError::BadValue { path } => match allowed_values(path.items()) {
            Some(allowed) => push_allowed(alloc, &mut cure, scanned.text(bytes, node), allowed)?,
            None => cure.extend_from_slice(form_of(path.items()).as_bytes())?,
        },
        PolicyError::TooMany => cure.extend_from_slice(b"a policy has at most 1024 rules")?,
        PolicyError::NotJson => {}
    }
    Ok(cure)
}

/// The place of a refusal in the text, and what would be right there.
pub fn cure_of(
    alloc: Global,
    bytes: &[u8],
    scanned: &Scanned,
    error: &PolicyError,
) -> Result<(usize, Text), NoMemory> {
    if let PolicyError::NotJson = error {
        let at = scanned.fault.unwrap_or(bytes.len());
        let cure = Vec::from_slice(alloc, not_json(bytes, at).as_bytes())?;
        return Ok((at, Text::new(cure)));
    }
    let node = scanned.at_path(bytes, refusal_place(error));
    let cure = cure_at(alloc, bytes, scanned, error, node)?;
    let at = match error {
        PolicyError::BadKey { .. } => scanned.key_begin_of(node),
        _ => scanned.begin_of(node),
    };
    Ok((at, Text::new(cure)))
}
