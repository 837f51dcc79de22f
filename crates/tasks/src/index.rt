//! Ordinals of tasks under keys, in the order of the keys.

ghost use Rattle.tasks.specs.Index.{entry_key};

use sorted_list::Numbered;

/// A task under a key.
#[derive(Clone, Copy, PartialEq, Eq, Debug)]
pub struct Entry {
    pub key: u32,
    pub task: u32,
}

impl Numbered for Entry {
    ghost number = { entry_key };

    fn number(&self) -> u64 {
        self.key as u64
    }
}
