//! Small lists, which contracts see as lists.

ghost use Rattle.std.specs.Prelude.{◌≡◌, ◌↔◌, IsTrue, [], IfOk, IfSome};

use std::alloc::Global;
use std::marker::Model;
use sys_abi::memory::NoMemory;

/// Bytes: a path, a name, a value. They need not be UTF-8.
#[derive(Debug, Drop)]
pub struct Text {
    bytes: Vec<u8>,
}

impl Model for Text {
    ghost use Rattle.std.specs.Prelude.{ℕ, List};

    ghost Value = { List ℕ };

    ghost view = { λ t. t.bytes.items };
}

impl Text {
    /// The text of these bytes.
    pub fn new(bytes: Vec<u8>) -> Text
        ensures { result ≡ bytes.items }
    {
        Text { bytes }
    }

    /// A copy of this text.
    pub fn copied(&self, alloc: Global) -> Result<Text, NoMemory>
        ensures { IfOk result (λ t. t ≡ self.now) }
    {
        Ok(Text::new(Vec::from_slice(alloc, self.items())?))
    }

    /// Its bytes.
    pub fn items(&self) -> &[u8]
        ensures { result.now ≡ self.now }
    {
        self.bytes.as_slice()
    }
}

impl PartialEq for Text {
    ghost use Rattle.std.specs.Prelude.{bytes_eq};
    ghost use Rattle.std.proofs.Common.{rules};
    ghost use Rattle.std.specs.Cmp.Rules.{comparing};

    ghost eq = { bytes_eq };

    ghost laws = { Prim.search (comparing, rules) };

    fn eq(&self, other: &Text) -> bool {
        self.items() == other.items()
    }
}

impl Eq for Text {
    ghost use Rattle.std.proofs.Common.{rules};
    ghost use Rattle.std.specs.Cmp.Rules.{comparing};

    ghost laws = { Prim.search (comparing, rules) };
}

/// How many numbers a name has at most that takes no memory of its own. Few tasks have a longer one: it would be the name of a
/// task's child's child's child's child's child.
const MOST_FEW: usize = 5;

/// At most five numbers, which stand in the value itself.
#[derive(Debug, Drop)]
struct FewNumbers {
    len: u8,
    /// The numbers, and then any.
    numbers: [u32; MOST_FEW],
}

impl Model for FewNumbers {
    ghost use Rattle.std.specs.Prelude.{ℕ, List, take, ◌≤◌};

    ghost Value = { List ℕ };

    ghost view = { λ f. take f.len f.numbers };

    ghost invariant = { λ f. f.len ≤ 5 };
}

impl FewNumbers {
    /// These numbers; none exactly where there are more than five.
    fn of(items: &[u32]) -> Option<FewNumbers>
        ensures { IfSome result (λ few. few ≡ items.now) }
    {
        let len = items.len();
        if len > MOST_FEW {
            return None;
        }
        let mut numbers = [0; MOST_FEW];
        numbers[..len].copy_from_slice(items);
        Some(FewNumbers {
            len: len as u8,
            numbers,
        })
    }

    /// The numbers.
    fn items(&self) -> &[u32]
        ensures { result.now ≡ self.now }
    {
        &self.numbers[..self.len as usize]
    }
}

/// The numbers of a name.
#[derive(Debug, Drop)]
enum Numbers {
    Few(FewNumbers),
    Many(Vec<u32>),
}

/// The name of a task: `0` for the first one, and for a child its parent's numbers and then its own
/// among its parent's children, counted from 1. A name of few numbers takes no memory of its own.
#[derive(Debug, Drop)]
pub struct TaskName {
    numbers: Numbers,
}

impl Model for TaskName {
    ghost use Rattle.std.specs.Prelude.{ℕ, List};

    ghost Value = { List ℕ };

    ghost use Rattle.hist_model.specs.Numbers.{numbers_in};

    ghost view = { λ t. numbers_in t.numbers };
}

impl TaskName {
    /// The name of these numbers.
    pub fn new(numbers: Vec<u32>) -> TaskName
        ensures { result ≡ numbers.items }
    {
        let numbers = match FewNumbers::of(numbers.as_slice()) {
            Some(few) => Numbers::Few(few),
            None => Numbers::Many(numbers),
        };
        TaskName { numbers }
    }

    /// The name of these numbers, which are copied. It takes memory only where there are more than five.
    pub fn of(alloc: Global, items: &[u32]) -> Result<TaskName, NoMemory>
        ensures { IfOk result (λ n. n ≡ items.now) }
    {
        let numbers = match FewNumbers::of(items) {
            Some(few) => Numbers::Few(few),
            None => Numbers::Many(Vec::from_slice(alloc, items)?),
        };
        Ok(TaskName { numbers })
    }

    /// A copy of this name.
    pub fn copied(&self, alloc: Global) -> Result<TaskName, NoMemory>
        ensures { IfOk result (λ n. n ≡ self.now) }
    {
        TaskName::of(alloc, self.items())
    }

    /// Its numbers.
    pub fn items(&self) -> &[u32]
        ensures { result.now ≡ self.now }
    {
        match &self.numbers {
            Numbers::Few(few) => few.items(),
            Numbers::Many(numbers) => numbers.as_slice(),
        }
    }
}

impl PartialEq for TaskName {
    ghost use Rattle.std.specs.Prelude.{bytes_eq};
    ghost use Rattle.std.proofs.Common.{rules};
    ghost use Rattle.std.specs.Cmp.Rules.{comparing};

    ghost eq = { bytes_eq };

    ghost laws = { Prim.search (comparing, rules) };

    fn eq(&self, other: &TaskName) -> bool {
        self.items() == other.items()
    }
}

impl Eq for TaskName {
    ghost use Rattle.std.proofs.Common.{rules};
    ghost use Rattle.std.specs.Cmp.Rules.{comparing};

    ghost laws = { Prim.search (comparing, rules) };
}

/// A list of one kind of item, as the rules of a policy or the instructions of a program.
#[derive(Debug, Drop)]
pub struct Sequence<T> {
    items: Vec<T>,
}

impl<T> Model for Sequence<T> {
    ghost use Rattle.std.specs.Prelude.{List};

    ghost Value = { List T };

    ghost view = { λ s. s.items.items };
}

impl<T> Sequence<T> {
    /// The sequence of these items.
    pub fn new(items: Vec<T>) -> Sequence<T>
        ensures { result ≡ items.items }
    {
        Sequence { items }
    }

    /// Its items.
    pub fn items(&self) -> &[T]
        ensures { result.now ≡ self.now }
    {
        self.items.as_slice()
    }

    /// Its items, given back without taking memory.
    pub fn into_items(self) -> Vec<T>
        ensures { result.items ≡ self }
    {
        let Sequence { items } = self;
        items
    }
}
