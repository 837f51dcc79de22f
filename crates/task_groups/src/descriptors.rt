//! The entries of one table, in the order of their numbers.

ghost use Rattle.std.specs.Prelude.{◌≡◌};
ghost use Rattle.sorted_list.specs.Entries.{NumbersRise};
ghost use Rattle.task_groups.specs.Descriptors.{descriptor_number, IsFirstFree, console_descriptor, console_descriptors};

use hist_model::request::Obj;
use sorted_list::Numbered;

/// What a number of a table leads to, and whether it is closed by execve(2) (FD_CLOEXEC).
#[derive(Clone, Copy, PartialEq, Eq, Debug)]
pub struct Descriptor {
    pub number: u32,
    pub obj: Obj,
    pub cloexec: bool,
}

impl Numbered for Descriptor {
    ghost number = { descriptor_number };

    fn number(&self) -> u64 {
        u64::from(self.number)
    }
}

/// The lowest number without an entry: that of the first place whose entry has another number, which is then above it.
pub fn first_free(entries: &[Descriptor]) -> usize
    ensures { NumbersRise descriptor_number entries.now → IsFirstFree entries.now result }
{
    let mut low = 0;
    let mut high = entries.len();
    while low < high {
        let middle = low + (high - low) / 2;
        if entries[middle].number as usize == middle {
            low = middle + 1;
        } else {
            high = middle;
        }
    }
    low
}

/// What is open in a new table: standard input, output and error.
pub fn console() -> [Descriptor; 3]
    ensures { result ≡ console_descriptors }
{
    [
        console_descriptor(0),
        console_descriptor(1),
        console_descriptor(2),
    ]
}

/// A number that leads to the console.
fn console_descriptor(number: u32) -> Descriptor
    ensures { result ≡ console_descriptor number }
{
    Descriptor {
        number,
        obj: Obj::Console,
        cloexec: false,
    }
}
