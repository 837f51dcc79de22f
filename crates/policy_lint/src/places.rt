//! Where the parts of a policy stand in its text.

use crate::scanner::{Form, Scanned};
use hist_model::text::Text;
use plain_words::push_quoted;
use std::alloc::Global;
use sys_abi::memory::NoMemory;

/// Where the rules of a policy stand.
#[derive(Drop)]
pub struct Places {
    /// The nodes of its own rules.
    rules: Vec<usize>,
}

impl Scanned {
    /// Where a value begins.
    fn start(&self, node: usize) -> usize {
        match self.nodes.get(node) {
            Some(node) => node.start,
            None => 0,
        }
    }

    /// Where it ends.
    fn end(&self, node: usize) -> usize {
        match self.nodes.get(node) {
            Some(node) => node.end,
            None => 0,
        }
    }

    /// Whether a value stands in this one, and in none between.
    fn is_child(&self, number: usize, parent: usize) -> bool {
        match self.nodes.get(number) {
            Some(node) => node.parent == parent,
            None => false,
        }
    }

    /// Whether a node stands in this one, and has this key.
    fn has_key(&self, bytes: &[u8], number: usize, parent: usize, key: &[u8]) -> bool {
        let Some(node) = self.nodes.get(number) else {
            return false;
        };
        let (from, to) = node.key;
        match bytes.get(from..to) {
            Some(found) => node.parent == parent && found == key,
            None => false,
        }
    }

    /// The member of this key in a value, the last one where it stands twice.
    pub fn member(&self, bytes: &[u8], parent: usize, key: &[u8]) -> Option<usize> {
        let end = self.end(parent);
        let mut found = None;
        for number in parent.saturating_add(1)..self.nodes.len() {
            if end <= self.start(number) {
                return found;
            }
            if self.has_key(bytes, number, parent, key) {
                found = Some(number);
            }
        }
        found
    }

    /// The items of an array.
    pub fn items(&self, alloc: Global, parent: usize) -> Result<Vec<usize>, NoMemory> {
        let end = self.end(parent);
        let mut items = Vec::new(alloc);
        for number in parent.saturating_add(1)..self.nodes.len() {
            if end <= self.start(number) {
                return Ok(items);
            }
            if self.is_child(number, parent) {
                items.push(number)?;
            }
        }
        Ok(items)
    }

    /// The item of an array at a place.
    fn item(&self, parent: usize, place: usize) -> Option<usize> {
        let end = self.end(parent);
        let mut left = place;
        for number in parent.saturating_add(1)..self.nodes.len() {
            if end <= self.start(number) {
                return None;
            }
            if self.is_child(number, parent) {
                if left == 0 {
                    return Some(number);
                }
                left -= 1;
            }
        }
        None
    }

    /// Where a path leads from this value by one of its parts, as `rules[3]`.
    fn follow(&self, bytes: &[u8], from: usize, part: &[u8]) -> Option<usize> {
        let (name, rest) = cut(part, b'[');
        let member = self.member(bytes, from, name)?;
        match rest {
            Some(number) => self.item(member, digits(number)),
            None => Some(member),
        }
    }

    /// Where a path leads, or as far as it does.
    pub fn at_path(&self, bytes: &[u8], path: &[u8]) -> usize {
        let (front, key) = cut(path, b'"');
        let mut node = 0;
        for part in front.split(|byte| *byte == b'.') {
            if !part.is_empty() {
                match self.follow(bytes, node, part) {
                    Some(next) => node = next,
                    None => return node,
                }
            }
        }
        match key {
            Some(quoted) => self.member(bytes, node, front_of(quoted)).unwrap_or(node),
            None => node,
        }
    }

    /// What stands between the quotes of a text, or the whole of another value.
    pub fn text<'b>(&self, bytes: &'b [u8], node: usize) -> &'b [u8] {
        let from = self.start(node);
        let to = self.end(node);
        let inside = match self.nodes.get(node) {
            Some(node) if node.form == Form::Text => (from.saturating_add(1), to.saturating_sub(1)),
            _ => (from, to),
        };
        let (from, to) = inside;
        match bytes.get(from..to) {
            Some(text) => text,
            None => &[],
        }
    }

    /// The key of a value, if it has one.
    pub fn key<'b>(&self, bytes: &'b [u8], number: usize) -> Option<&'b [u8]> {
        let (from, to) = self.nodes.get(number)?.key;
        if from == 0 {
            return None;
        }
        bytes.get(from..to)
    }

    /// The nodes from one that stands in the first node down to this one.
    fn chain(&self, alloc: Global, number: usize) -> Result<Vec<usize>, NoMemory> {
        let mut chain = Vec::new(alloc);
        let mut at = number;
        for _ in 0..DEEPEST {
            if at == 0 {
                break;
            }
            chain.push(at)?;
            at = match self.nodes.get(at) {
                Some(node) => node.parent,
                None => 0,
            };
        }
        chain.reverse();
        Ok(chain)
    }

    /// Adds a part of a path.
    fn push_part(
        &self,
        alloc: Global,
        path: &mut Vec<u8>,
        bytes: &[u8],
        number: usize,
    ) -> Result<(), NoMemory> {
        match self.key(bytes, number) {
            Some(key) => {
                if !path.is_empty() {
                    path.push(b'.')?;
                }
                if is_word(key) {
                    path.extend_from_slice(key)?;
                } else {
                    push_quoted(path, key)?;
                }
            }
            None => {
                let before = match self.nodes.get(number) {
                    Some(node) => node.before,
                    None => 0,
                };
                let part = format!(in alloc; "[{before}]")?;
                path.extend_from_slice(part.as_bytes())?;
            }
        }
        Ok(())
    }

    /// The path that leads to a value.
    pub fn path_of(&self, alloc: Global, bytes: &[u8], number: usize) -> Result<Text, NoMemory> {
        let mut path = Vec::new(alloc);
        for part in self.chain(alloc, number)? {
            self.push_part(alloc, &mut path, bytes, part)?;
        }
        Ok(Text::new(path))
    }

    /// Where a value begins.
    pub fn begin_of(&self, node: usize) -> usize {
        self.start(node)
    }

    /// Where its key begins, or itself where it has none.
    pub fn key_begin_of(&self, node: usize) -> usize {
        match self.nodes.get(node) {
            Some(node) if node.key.0 > 0 => node.key.0.saturating_sub(1),
            Some(node) => node.start,
            None => 0,
        }
    }
}

/// How deep a policy's values stand at most: deeper ones are refused.
const DEEPEST: usize = 128;

/// Whether a key is written without quotes in a path.
fn is_word(key: &[u8]) -> bool {
    key.iter().all(|byte| byte.is_ascii_lowercase())
}

/// What stands before the first such byte, and behind it if there is one.
pub fn cut(text: &[u8], byte: u8) -> (&[u8], Option<&[u8]>) {
    for place in 0..text.len() {
        if text[place] == byte {
            return (&text[..place], Some(&text[place + 1..]));
        }
    }
    (text, None)
}

/// All but the last byte.
fn front_of(text: &[u8]) -> &[u8] {
    match text.split_last() {
        Some((_, front)) => front,
        None => &[],
    }
}

/// The number whose digits a text begins with.
fn digits(text: &[u8]) -> usize {
    let mut number: usize = 0;
    for byte in text {
        if !byte.is_ascii_digit() {
            return number;
        }
        number = number
            .saturating_mul(10)
            .saturating_add((*byte - b'0') as usize);
    }
    number
}

impl Places {
    /// The places of a policy.
    pub fn new(alloc: Global, bytes: &[u8], scanned: &Scanned) -> Result<Places, NoMemory> {
        let rules = match scanned.member(bytes, 0, b"rules") {
            Some(rules) => scanned.items(alloc, rules)?,
            None => Vec::new(alloc),
        };
        Ok(Places { rules })
    }

    /// The node of a rule.
    fn rule(&self, place: usize) -> usize {
        match self.rules.get(place) {
            Some(node) => *node,
            None => 0,
        }
    }

    /// Where a rule begins.
    pub fn of_rule(&self, scanned: &Scanned, place: usize) -> usize {
        scanned.start(self.rule(place))
    }

    /// Where the conditions of a rule begin, or the rule where it has none.
    pub fn of_conditions(&self, bytes: &[u8], scanned: &Scanned, place: usize) -> usize {
        let rule = self.rule(place);
        match scanned.member(bytes, rule, b"when") {
            Some(conditions) => scanned.start(conditions),
            None => scanned.start(rule),
        }
    }
}
