//! Lines and columns of places in a text.

ghost use Rattle.std.specs.Prelude.{◌≡◌};

use crate::finding::{Fault, Finding};

/// A place in a text, with its line and its column, which go on from one place to the next.
#[derive(Drop)]
pub struct Position<'a> {
    bytes: &'a [u8],
    at: usize,
    line: usize,
    column: usize,
}

/// Whether a character begins with this byte.
fn is_first(byte: u8) -> bool {
    byte & 0xc0 != 0x80
}

impl<'a> Position<'a> {
    /// The begin of a text.
    pub fn new(bytes: &'a [u8]) -> Position<'a> {
        Position {
            bytes,
            at: 0,
            line: 1,
            column: 1,
        }
    }

    /// Goes past a byte.
    fn pass(&mut self, byte: u8) {
        if byte == b'\n' {
            self.line = self.line.saturating_add(1);
            self.column = 1;
        } else if is_first(byte) {
            self.column = self.column.saturating_add(1);
        }
    }

    /// The line and the column of the place behind so many bytes, or of the end.
    pub fn of(&mut self, at: usize) -> (usize, usize) {
        if at < self.at {
            self.at = 0;
            self.line = 1;
            self.column = 1;
        }
        let bytes = self.bytes;
        let end = at.min(bytes.len());
        for place in self.at..end {
            self.pass(bytes[place]);
        }
        self.at = end;
        (self.line, self.column)
    }

    /// What is found at a place of the text.
    pub fn found(&mut self, at: usize, fault: Fault) -> Finding
        ensures { result.fault ≡ fault }
    {
        let (line, column) = self.of(at);
        Finding {
            at,
            line,
            column,
            fault,
        }
    }
}
