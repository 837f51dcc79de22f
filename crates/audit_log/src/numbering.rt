//! Numbers that are counted as text.

ghost use Rattle.std.specs.Prelude.{◌≡◌, ◌+◌, ◌<◌, ◌^◌, ◌++◌, OnOk, decimal};

use crate::digits::{DIGITS, Digits, FEW_DIGITS};
use crate::line::LineBuffer;
use std::marker::Model;
use sys_abi::memory::NoMemory;

/// A number and its digits, of which those of the next number are made: of ten numbers nine differ from the one before in the last
/// digit alone.
#[derive(Drop)]
pub(crate) struct Numbering {
    number: u64,
    /// The digits, and room for as many as a number may have.
    text: [u8; DIGITS],
    /// The index of the last digit.
    last: usize,
}

impl Model for Numbering {
    ghost use Rattle.std.specs.Prelude.{◌≡◌, ◌+◌, ◌≤◌, ℕ, decimal, take};

    ghost Value = { ℕ };

    ghost view = { λ n. n.number };

    ghost invariant = { λ n. (n.last ≤ 19) × (take (n.last + 1) n.text ≡ decimal n.number) };
}

impl Numbering {
    /// This number.
    #[tactic(auto, using(crate::proofs::Numbers::some_digits))]
    pub(crate) fn of(number: u64) -> Numbering
        ensures { result ≡ number }
    {
        let digits = Digits::of(number);
        let text = digits.text;
        let last = digits.count - 1;
        Numbering { number, text, last }
    }

    /// Goes on to the next number.
    #[tactic(auto, using(crate::proofs::Numbers::counted_on))]
    pub(crate) fn advance(&mut self)
        requires { self.old + 1 < 2 ^ 64 }
        ensures { self.new ≡ self.old + 1 }
    {
        let digit = self.text[self.last];
        if digit < b'9' {
            self.text[self.last] = digit + 1;
            self.number += 1;
        } else {
            *self = Numbering::of(self.number + 1);
        }
    }

    /// Adds its digits to a line. As many bytes are stored as most numbers have digits, and those that it has count.
    #[inline(always)]
    pub(crate) fn push_to(&self, line: &mut LineBuffer) -> Result<(), NoMemory>
        ensures { OnOk result (line.new ≡ line.old ++ decimal self.now) }
    {
        if self.last < FEW_DIGITS {
            line.push_first(&self.text[..FEW_DIGITS], self.last + 1)
        } else {
            line.push_first(&self.text, self.last + 1)
        }
    }
}
