//! Names that were read before.

ghost use Rattle.std.specs.Prelude.{◌≡◌, ◌++◌, ◌∷◌, ◌||◌, [], ℕ, List, bytes_eq, false, if◌then◌else◌, OnOk};
ghost use Rattle.hist_model.specs.RuleParts.{has_named};
ghost use Rattle.policy_reader.specs.NameSets.{holds, HoldsNames};

use std::alloc::Global;
use std::collections::BTreeSet;
use sys_abi::memory::NoMemory;

/// A set of names, in which one is found in time of the logarithm of their count.
#[derive(Drop)]
pub(crate) struct Names {
    set: BTreeSet<Vec<u8>>,
}

impl Names {
    /// No name.
    pub(crate) fn new(alloc: Global) -> Names
        ensures { (q : List ℕ) → holds result q ≡ false }
    {
        Names {
            set: BTreeSet::new(alloc),
        }
    }

    /// Whether it has this name.
    pub(crate) fn holds(&self, name: &[u8]) -> bool
        ensures { result ≡ holds self.now name.now }
    {
        self.set.contains(name)
    }

    /// Adds a name.
    pub(crate) fn add(&mut self, alloc: Global, name: &[u8]) -> Result<(), NoMemory>
        ensures { OnOk result ((q : List ℕ) → holds self.new q ≡ (bytes_eq name.now q || holds self.old q)) }
    {
        let key = Vec::from_slice(alloc, name)?;
        self.set.insert(key)?;
        Ok(())
    }
}

/// Keeps an item, unless one of this name is kept already.
pub(crate) fn keep<T: Drop>(
    alloc: Global,
    names: &mut Names,
    kept: &mut Vec<T>,
    name: &[u8],
    item: T,
) -> Result<(), NoMemory>
    ghost name_of: { T → List ℕ }
    requires named { name_of item ≡ name.now }
    requires held { HoldsNames name_of names.old kept.old.items }
    ensures kept { OnOk result (kept.new.items ≡ (if has_named name_of kept.old.items name.now then kept.old.items else kept.old.items ++ item ∷ [])) }
    ensures held { OnOk result (HoldsNames name_of names.new kept.new.items) }
{
    if names.holds(name) {
        return Ok(());
    }
    names.add(alloc, name)?;
    kept.push(item)?;
    Ok(())
}
