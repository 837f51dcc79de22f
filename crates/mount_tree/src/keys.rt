//! What rows are found by.

ghost use Rattle.std.specs.Prelude.{◌≡◌, Some};
ghost use Rattle.mount_tree.specs.Chains.{hash_of};
ghost use Rattle.mount_tree.specs.Keys as definitions;
ghost use Rattle.mount_tree.specs.Keys.{Key, key_of};

use std::alloc::Global;
use sys_abi::memory::NoMemory;

/// 2 ^ 32 divided by the golden ratio: the factor that spreads owners which follow one another.
const SPREAD: u32 = 2_654_435_769;

/// The prime of FNV-1a of 32 bits.
const PRIME: u32 = 16_777_619;

/// A row that is found by its key: its owner, if it has one, and its name.
pub trait Row {
    /// Its key.
    ghost key: { Self → Key };

    /// The ordinal of its owner.
    fn owner(&self) -> Option<u32>
        ensures { result ≡ (key self.now).owner };

    /// Its name.
    fn name(&self) -> &[u8]
        ensures { result.now ≡ (key self.now).name };

    /// Gives it memory for its texts and no more. After `NoMemory` it is as it was.
    fn make_exact(&mut self, alloc: Global) -> Result<(), NoMemory>
        ensures { self.new ≡ self.old };
}

/// Whether a row is an owner's of a name.
pub fn is_key<T: Row>(row: &T, owner: u32, name: &[u8]) -> bool
    ensures { result ≡ definitions.is_key (T.key row.now) (key_of (Some owner) name.now) }
{
    match row.owner() {
        Some(other) => other == owner && row.name() == name,
        None => false,
    }
}

/// The hash of an owner's row of a name: FNV-1a of the name, begun with the owner.
pub fn hash(owner: u32, name: &[u8]) -> u32
    ensures { result ≡ hash_of owner name.now }
{
    let mut hash = owner.wrapping_mul(SPREAD);
    for byte in name {
        hash = (hash ^ *byte as u32).wrapping_mul(PRIME);
    }
    // only the lower bits choose a bucket
    hash ^ (hash >> 16)
}
