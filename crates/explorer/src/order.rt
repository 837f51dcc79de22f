//! Which of two histories comes first, by the delays that were left after each of their turns.

ghost use Rattle.std.specs.Prelude.{◌≡◌, ◌||◌, ◌&&◌, ◌==◌, nat_lt, map};
ghost use Rattle.explorer.specs.Paths.{is_before, left_of};

use crate::frames::Frame;

/// Whether turns come before others: at the first one where they differ more delays are left.
pub(crate) fn come_before(turns: &[Frame], others: &[Frame]) -> bool
    ensures { result ≡ is_before (map left_of turns.now) (map left_of others.now) }
{
    'turns: for index in 0..turns.len() {
        if index == others.len() {
            return false;
        }
        let left = turns[index].left;
        let other = others[index].left;
        if left != other {
            return other < left;
        }
    }
    turns.len() < others.len()
}

/// Whether a history comes first: more delays are left to it, or as many, and its turns come before the other one's.
pub(crate) fn comes_first(left: u64, turns: &[Frame], other: u64, others: &[Frame]) -> bool
    ensures { result ≡ nat_lt other left || (left == other && is_before (map left_of turns.now) (map left_of others.now)) }
{
    other < left || (left == other && come_before(turns, others))
}
