//! Where the values of a JSON text stand, for messages alone: what the text says, `policy_reader` decides.
//!
//! A text is gone through byte by byte. Each value is a node, in the order of the text, so that what stands in a value lies behind it.

use std::alloc::Global;
use sys_abi::memory::NoMemory;

/// What a value is, as far as its place needs it.
#[derive(Clone, Copy, PartialEq, Eq, Debug)]
pub enum Form {
    Object,
    Array,
    Text,
    /// A number, `true`, `false` or `null`.
    Plain,
}

/// A value of the text. Places are numbers of bytes before it.
#[derive(Clone, Copy, Debug)]
pub struct Node {
    /// The node in which it stands; the first node stands in none, and has itself here.
    pub parent: usize,
    pub form: Form,
    /// Where its key begins and ends, without its quotes; the same place twice where it has none.
    pub key: (usize, usize),
    pub start: usize,
    pub end: usize,
    /// How many values of the same one stand before it, and how many stand in it.
    pub before: usize,
    pub count: usize,
}

/// What may come next.
#[derive(Clone, Copy, PartialEq, Eq, Debug)]
enum Expected {
    Value,
    ValueOrEnd,
    Key,
    KeyOrEnd,
    Colon,
    CommaOrEnd,
    Nothing,
    /// The rest of a text, of one whose next byte is escaped, or of a plain value.
    InText,
    Escaped,
    InPlain,
}

/// A text that was gone through.
#[derive(Drop)]
pub struct Scanned {
    pub nodes: Vec<Node>,
    /// Where it stops being JSON, if it does.
    pub fault: Option<usize>,
}

/// The state of going through a text.
#[derive(Drop)]
struct Scanner {
    nodes: Vec<Node>,
    /// The nodes that aren't closed.
    open: Vec<usize>,
    expected: Expected,
    /// Whether the text in hand is a key.
    in_key: bool,
    key: (usize, usize),
    len: usize,
}

impl Scanner {
    /// Nothing was read of a text of so many bytes.
    fn new(alloc: Global, len: usize) -> Scanner {
        Scanner {
            nodes: Vec::new(alloc),
            open: Vec::new(alloc),
            expected: Expected::Value,
            in_key: false,
            key: (0, 0),
            len,
        }
    }

    /// Counts one more value in a node, and returns how many there were.
    fn count(&mut self, number: usize) -> usize {
        match self.nodes.get_mut(number) {
            Some(node) => {
                let before = node.count;
                node.count = before.saturating_add(1);
                before
            }
            None => 0,
        }
    }

    /// Adds a value that begins here, and returns its number.
    fn begin(&mut self, at: usize, form: Form) -> Result<usize, NoMemory> {
        let parent = match self.open.last() {
            Some(node) => *node,
            None => 0,
        };
        let number = self.nodes.len();
        let before = self.count(parent);
        self.nodes.push(Node {
            parent,
            form,
            key: self.key,
            start: at,
            end: self.len,
            before,
            count: 0,
        })?;
        self.key = (0, 0);
        Ok(number)
    }

    /// Adds an object or an array, which is open from here on.
    fn open(&mut self, at: usize, form: Form, expected: Expected) -> Result<bool, NoMemory> {
        let number = self.begin(at, form)?;
        self.open.push(number)?;
        self.expected = expected;
        Ok(true)
    }

    /// Notes where a value ends.
    fn end(&mut self, number: usize, at: usize) {
        if let Some(node) = self.nodes.get_mut(number) {
            node.end = at;
        }
        self.expected = if self.open.is_empty() {
            Expected::Nothing
        } else {
            Expected::CommaOrEnd
        };
    }

    /// Whether the value in which we are has this form.
    fn is_in(&self, form: Form) -> bool {
        match self.open.last() {
            Some(number) => match self.nodes.get(*number) {
                Some(node) => node.form == form,
                None => false,
            },
            None => false,
        }
    }

    /// Closes the value in which we are, if it has this form.
    fn close(&mut self, at: usize, form: Form) -> bool {
        if !self.is_in(form) {
            return false;
        }
        if let Some(number) = self.open.pop() {
            self.end(number, at.saturating_add(1));
        }
        true
    }

    /// Reads the first byte of a value.
    fn read_value(&mut self, at: usize, byte: u8) -> Result<bool, NoMemory> {
        match byte {
            b'{' => self.open(at, Form::Object, Expected::KeyOrEnd),
            b'[' => self.open(at, Form::Array, Expected::ValueOrEnd),
            b'"' => {
                self.begin(at, Form::Text)?;
                self.in_key = false;
                self.expected = Expected::InText;
                Ok(true)
            }
            b'-' | b'0'..=b'9' | b't' | b'f' | b'n' => {
                self.begin(at, Form::Plain)?;
                self.expected = Expected::InPlain;
                Ok(true)
            }
            _ => Ok(false),
        }
    }

    /// Reads the first byte of a key.
    fn read_key(&mut self, at: usize, byte: u8) -> bool {
        if byte != b'"' {
            return false;
        }
        self.in_key = true;
        self.key = (at.saturating_add(1), at.saturating_add(1));
        self.expected = Expected::InText;
        true
    }

    /// Reads what stands behind a value.
    fn read_behind(&mut self, at: usize, byte: u8) -> bool {
        match byte {
            b',' => {
                self.expected = if self.is_in(Form::Object) {
                    Expected::Key
                } else {
                    Expected::Value
                };
                true
            }
            b'}' => self.close(at, Form::Object),
            b']' => self.close(at, Form::Array),
            _ => false,
        }
    }

    /// Reads a byte of a text.
    fn read_text(&mut self, at: usize, byte: u8) -> bool {
        if byte == b'\\' {
            self.expected = Expected::Escaped;
        } else if byte == b'"' && self.in_key {
            let (start, _) = self.key;
            self.key = (start, at);
            self.expected = Expected::Colon;
        } else if byte == b'"' {
            let last = self.nodes.len().saturating_sub(1);
            self.end(last, at.saturating_add(1));
        }
        byte >= b' '
    }

    /// Reads a byte of a plain value, or what stands behind it.
    fn read_plain(&mut self, at: usize, byte: u8) -> bool {
        if is_plain(byte) {
            return true;
        }
        let last = self.nodes.len().saturating_sub(1);
        self.end(last, at);
        is_blank(byte) || (!self.open.is_empty() && self.read_behind(at, byte))
    }

    /// Reads a byte, and answers whether the text may be JSON so far.
    fn read(&mut self, at: usize, byte: u8) -> Result<bool, NoMemory> {
        match self.expected {
            Expected::InText => Ok(self.read_text(at, byte)),
            Expected::Escaped => {
                self.expected = Expected::InText;
                Ok(true)
            }
            Expected::InPlain => Ok(self.read_plain(at, byte)),
            _ if is_blank(byte) => Ok(true),
            Expected::Value => self.read_value(at, byte),
            Expected::ValueOrEnd if byte == b']' => Ok(self.close(at, Form::Array)),
            Expected::ValueOrEnd => self.read_value(at, byte),
            Expected::Key => Ok(self.read_key(at, byte)),
            Expected::KeyOrEnd if byte == b'}' => Ok(self.close(at, Form::Object)),
            Expected::KeyOrEnd => Ok(self.read_key(at, byte)),
            Expected::Colon if byte == b':' => {
                self.expected = Expected::Value;
                Ok(true)
            }
            Expected::CommaOrEnd => Ok(self.read_behind(at, byte)),
            Expected::Colon | Expected::Nothing => Ok(false),
        }
    }

    /// Whether the text may end here.
    fn is_done(&self) -> bool {
        self.open.is_empty()
            && (self.expected == Expected::Nothing || self.expected == Expected::InPlain)
    }
}

/// Whether the byte stands between values.
fn is_blank(byte: u8) -> bool {
    byte == b' ' || byte == b'\n' || byte == b'\t' || byte == b'\r'
}

/// Whether the byte may stand in a number, in `true`, `false` or `null`.
fn is_plain(byte: u8) -> bool {
    byte.is_ascii_alphanumeric() || byte == b'+' || byte == b'-' || byte == b'.'
}

/// Goes through a text.
pub fn scan(alloc: Global, bytes: &[u8]) -> Result<Scanned, NoMemory> {
    let mut scanner = Scanner::new(alloc, bytes.len());
    for at in 0..bytes.len() {
        if !scanner.read(at, bytes[at])? {
            return Ok(Scanned {
                nodes: scanner.nodes,
                fault: Some(at),
            });
        }
    }
    let fault = if scanner.is_done() {
        None
    } else {
        Some(bytes.len())
    };
    Ok(Scanned {
        nodes: scanner.nodes,
        fault,
    })
}
