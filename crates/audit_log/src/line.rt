//! A line of a report, as it is put together.

ghost use Rattle.std.specs.Prelude.{◌≡◌, ℕ, ◌+◌, ◌<◌, ◌≤◌, ◌++◌, [], OnOk, decimal, length, take};
ghost use Rattle.std.specs.Fmt.{signed_decimal};
ghost use Rattle.hist_model.specs.ReportWords.{escaped, hex, quoted};

use crate::digits::{Digits, FEW_DIGITS, place_digits};
use plain_words::{hex_byte, push_escaped, push_quoted};
use std::alloc::Global;
use std::marker::Model;
use sys_abi::memory::NoMemory;

/// How many bytes are stored as digits of base 16 at a time.
const PIECE: usize = 16;

/// How much room is made beyond what is wanted.
const SPARE: usize = 64;

/// The bytes of a line so far. After want of memory they say nothing.
///
/// Most pieces are a few bytes, whose number the compiler knows where they are added. So they are stored into room that is there
/// already, without a call.
#[derive(Drop)]
pub struct LineBuffer {
    /// The bytes of the line, and room for more behind them.
    room: Vec<u8>,
    /// How many of them are the line's.
    len: usize,
}

impl Model for LineBuffer {
    ghost use Rattle.std.specs.Prelude.{List, ℕ, ◌≤◌, length, take};

    ghost Value = { List ℕ };

    ghost view = { λ l. take l.len l.room.items };

    ghost invariant = { λ l. l.len ≤ length l.room.items };
}

/// Makes a room longer, by these bytes at least; what stands there stays.
#[cold]
#[inline(never)]
#[tactic(auto, using(crate::proofs::Room::kept_front))]
fn lengthen(room: &mut Vec<u8>, bytes: &[u8]) -> Result<(), NoMemory>
    ensures kept { (n : ℕ) → n ≤ length room.old.items → take n room.new.items ≡ take n room.old.items }
    ensures longer { length room.old.items ≤ length room.new.items }
    ensures long { OnOk result (length room.old.items + length bytes.now ≤ length room.new.items) }
{
    room.extend_from_slice(bytes)?;
    room.extend_from_slice(&[0; SPARE])?;
    Ok(())
}

/// Stores bytes at a place in a room, and returns where they end.
#[inline(always)]
fn place(room: &mut [u8], at: usize, bytes: &[u8]) -> usize
    requires { at + length bytes.now ≤ length room.old }
    ensures moved { result ≡ at + length bytes.now }
    ensures len { length room.new ≡ length room.old }
    ensures front { take result room.new ≡ take at room.old ++ bytes.now }
{
    let end = at + bytes.len();
    room[at..end].copy_from_slice(bytes);
    end
}

/// The same, but it returns where the first `count` of them end.
#[inline(always)]
fn place_first(room: &mut [u8], at: usize, bytes: &[u8], count: usize) -> usize
    requires fits { at + length bytes.now ≤ length room.old }
    requires few { count ≤ length bytes.now }
    ensures moved { result ≡ at + count }
    ensures len { length room.new ≡ length room.old }
    ensures within { result ≤ length room.new }
    ensures front { take result room.new ≡ take at room.old ++ take count bytes.now }
{
    place(room, at, bytes);
    at + count
}

/// As many bytes as are stored at a time, as digits of base 16.
#[inline(always)]
fn hex_piece(bytes: &[u8]) -> [u8; 2 * PIECE]
    requires { length bytes.now ≡ 16 }
    ensures { result ≡ hex bytes.now }
{
    let mut digits = [0; 2 * PIECE];
    for place in 0..PIECE {
        let [high, low] = hex_byte(bytes[place]);
        digits[2 * place] = high;
        digits[2 * place + 1] = low;
    }
    digits
}

impl LineBuffer {
    /// An empty line.
    pub fn new(alloc: Global) -> LineBuffer
        ensures { result ≡ [] }
    {
        LineBuffer {
            room: Vec::new(alloc),
            len: 0,
        }
    }

    /// Its bytes.
    pub fn bytes(&self) -> &[u8]
        ensures { result.now ≡ self.now }
    {
        &self.room[..self.len]
    }

    /// Its bytes, given up without taking memory.
    pub fn into_bytes(self) -> Vec<u8>
        ensures { result.items ≡ self }
    {
        let LineBuffer { mut room, len } = self;
        room.truncate(len);
        room
    }

    /// Makes it empty, and keeps its room.
    pub fn clear(&mut self)
        ensures { self.new ≡ [] }
    {
        self.len = 0;
    }

    /// Adds the first of some bytes, as many as are told.
    #[inline(always)]
    pub(crate) fn push_first(&mut self, bytes: &[u8], count: usize) -> Result<(), NoMemory>
        requires { count ≤ length bytes.now }
        ensures { OnOk result (self.new ≡ self.old ++ take count bytes.now) }
    {
        if bytes.len() > self.room.len() - self.len {
            return self.push_beyond(bytes, count);
        }
        self.len = place_first(self.room.as_mut_slice(), self.len, bytes, count);
        Ok(())
    }

    /// The same, where there is too little room. Apart from the usual way, so that this one keeps nothing for it.
    #[cold]
    #[inline(never)]
    fn push_beyond(&mut self, bytes: &[u8], count: usize) -> Result<(), NoMemory>
        requires { count ≤ length bytes.now }
        ensures { OnOk result (self.new ≡ self.old ++ take count bytes.now) }
    {
        lengthen(&mut self.room, bytes)?;
        self.len = place_first(self.room.as_mut_slice(), self.len, bytes, count);
        Ok(())
    }

    /// Adds bytes as they are.
    #[inline(always)]
    pub fn push_bytes(&mut self, bytes: &[u8]) -> Result<(), NoMemory>
        ensures { OnOk result (self.new ≡ self.old ++ bytes.now) }
    {
        self.push_first(bytes, bytes.len())
    }

    /// Adds a text.
    #[inline(always)]
    pub fn push(&mut self, text: &str) -> Result<(), NoMemory>
        ensures { OnOk result (self.new ≡ self.old ++ text.now) }
    {
        self.push_bytes(text.as_bytes())
    }

    /// Adds bytes as digits of base 16.
    pub fn push_hex(&mut self, bytes: &[u8]) -> Result<(), NoMemory>
        ensures { OnOk result (self.new ≡ self.old ++ hex bytes.now) }
    {
        let mut at = 0;
        while PIECE <= bytes.len() - at {
            self.push_bytes(&hex_piece(&bytes[at..at + PIECE]))?;
            at += PIECE;
        }
        self.push_hex_rest(&bytes[at..])
    }

    /// The same, of fewer bytes than are stored at a time.
    fn push_hex_rest(&mut self, bytes: &[u8]) -> Result<(), NoMemory>
        requires { length bytes.now < 16 }
        ensures { OnOk result (self.new ≡ self.old ++ hex bytes.now) }
    {
        let mut piece = [0; PIECE];
        piece[..bytes.len()].copy_from_slice(bytes);
        self.push_first(&hex_piece(&piece), 2 * bytes.len())
    }

    /// Adds a text between quotes.
    pub fn push_quoted(&mut self, text: &[u8]) -> Result<(), NoMemory>
        ensures { OnOk result (self.new ≡ self.old ++ quoted text.now) }
    {
        let len = self.len;
        self.len = 0;
        self.room.truncate(len);
        push_quoted(&mut self.room, text)?;
        self.len = self.room.len();
        Ok(())
    }

    /// Adds a text in the place of a name of a program.
    pub(crate) fn push_escaped(&mut self, text: &[u8]) -> Result<(), NoMemory>
        ensures { OnOk result (self.new ≡ self.old ++ escaped text.now) }
    {
        let len = self.len;
        self.len = 0;
        self.room.truncate(len);
        push_escaped(&mut self.room, text)?;
        self.len = self.room.len();
        Ok(())
    }

    /// Adds a number.
    #[inline(always)]
    #[tactic(auto, using(std::proofs::lemmas::Fmt::decimal_digit))]
    pub fn push_number(&mut self, n: u64) -> Result<(), NoMemory>
        ensures { OnOk result (self.new ≡ self.old ++ decimal n) }
    {
        if n < 10 {
            return self.push_bytes(&[b'0' + n as u8]);
        }
        self.push_digits(n)
    }

    /// The same, of more than one digit.
    #[inline(never)]
    fn push_digits(&mut self, n: u64) -> Result<(), NoMemory>
        requires { 10 ≤ n }
        ensures { OnOk result (self.new ≡ self.old ++ decimal n) }
    {
        if n < 100_000_000 {
            self.push_few_digits(n)
        } else {
            self.push_any_digits(n)
        }
    }

    /// The same, of two to eight digits. They are written where they stay, since it is seen before how many there are.
    #[inline(always)]
    fn push_few_digits(&mut self, n: u64) -> Result<(), NoMemory>
        requires { (10 ≤ n) × (n < 100000000) }
        ensures { OnOk result (self.new ≡ self.old ++ decimal n) }
    {
        if self.room.len() - self.len < FEW_DIGITS {
            return self.push_any_digits(n);
        }
        self.len = place_digits(self.room.as_mut_slice(), self.len, n);
        Ok(())
    }

    /// The same, of any number. As many bytes are stored as it may have digits, and those that it has count.
    #[inline(never)]
    fn push_any_digits(&mut self, n: u64) -> Result<(), NoMemory>
        ensures { OnOk result (self.new ≡ self.old ++ decimal n) }
    {
        let digits = Digits::of(n);
        self.push_first(&digits.text, digits.count)
    }

    /// Adds a number that may be negative.
    pub fn push_signed(&mut self, n: i64) -> Result<(), NoMemory>
        ensures { OnOk result (self.new ≡ self.old ++ signed_decimal n) }
    {
        if n < 0 {
            self.push("-")?;
        }
        self.push_number(n.unsigned_abs())
    }
}
