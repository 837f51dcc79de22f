//! The digits of numbers.

ghost use Rattle.std.specs.Prelude.{◌≡◌, ◌+◌, ◌<◌, ◌≤◌, ◌++◌, decimal, length, take};

use itoa::write_digits;

/// How many digits a number may have.
pub(crate) const DIGITS: usize = 20;

/// How many digits most numbers have at most.
pub(crate) const FEW_DIGITS: usize = 8;

/// The digits of a number.
#[derive(Drop)]
pub(crate) struct Digits {
    /// The digits, and room for as many as a number may have.
    pub(crate) text: [u8; DIGITS],
    /// How many digits it has.
    pub(crate) count: usize,
    ghost few: { count ≤ 20 },
}

impl Digits {
    /// Those of a number.
    #[tactic(auto, using(crate::proofs::Room::window_shows))]
    pub(crate) fn of(number: u64) -> Digits
        ensures { take result.count result.text ≡ decimal number }
    {
        let mut digits = [b'0'; 2 * DIGITS];
        let start = write_digits(number, &mut digits, DIGITS);
        let mut text = [b'0'; DIGITS];
        text.copy_from_slice(&digits[start..start + DIGITS]);
        Digits {
            text,
            count: DIGITS - start,
        }
    }
}

/// How many digits a number has that has two to eight of them.
#[inline(always)]
#[tactic(auto, using(crate::proofs::Numbers::five, crate::proofs::Numbers::six, crate::proofs::Numbers::seven, crate::proofs::Numbers::eight))]
fn digit_count(n: u64) -> usize
    requires { (10 ≤ n) × (n < 100000000) }
    ensures few { result ≤ 8 }
    ensures count { result ≡ length (decimal n) }
{
    if n < 10_000 {
        digit_count_short(n)
    } else if n < 100_000 {
        5
    } else if n < 1_000_000 {
        6
    } else if n < 10_000_000 {
        7
    } else {
        8
    }
}

/// The same, of two to four digits.
#[inline(always)]
#[tactic(auto, using(crate::proofs::Numbers::two, crate::proofs::Numbers::three, crate::proofs::Numbers::four))]
fn digit_count_short(n: u64) -> usize
    requires { (10 ≤ n) × (n < 10000) }
    ensures few { result ≤ 8 }
    ensures count { result ≡ length (decimal n) }
{
    if n < 100 {
        2
    } else if n < 1000 {
        3
    } else {
        4
    }
}

/// Writes a number of two to eight digits at a place in a room, and returns where it ends.
#[inline(always)]
pub(crate) fn place_digits(room: &mut [u8], at: usize, n: u64) -> usize
    requires number { (10 ≤ n) × (n < 100000000) }
    requires fits { at + 8 ≤ length room.old }
    ensures within { result ≤ length room.new }
    ensures front { take result room.new ≡ take at room.old ++ decimal n }
{
    let end = at + digit_count(n);
    write_digits(n, room, end);
    end
}
