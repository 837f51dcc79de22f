//! The list of a space's pages, in the order of their numbers.

ghost use Rattle.std.specs.Prelude.{◌≡◌};
ghost use Rattle.sorted_list.specs.Entries.{NumbersRise};
ghost use Rattle.task_groups.specs.Lists.{page_number, slot_of};

use sorted_list::{Numbered, find};

/// Which slot has the page of a number: the addresses from 4,096 times this number on.
#[derive(Clone, Copy, PartialEq, Eq, Debug)]
pub struct PageEntry {
    pub number: u64,
    pub slot: usize,
}

impl Numbered for PageEntry {
    ghost number = { page_number };

    fn number(&self) -> u64 {
        self.number
    }
}

/// The slot of the page that has this number.
#[tactic(auto, unfolding(crate::specs::Lists::slot_of))]
pub fn slot_of(list: &[PageEntry], number: u64) -> Option<usize>
    ensures { NumbersRise page_number list.now → result ≡ slot_of list.now number }
{
    match find(list, number) {
        Some(entry) => Some(entry.slot),
        None => None,
    }
}
