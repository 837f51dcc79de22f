//! What the rows of a tree are found by.

ghost use Rattle.std.specs.Prelude.{◌≡◌};
ghost use Rattle.mount_tree.specs.Keys.{node_key, attr_key, mount_key, covered_key, alike_key};

use crate::keys::Row;
use hist_model::request::MountRow;
use hist_model::tree::{AttrRow, Mounted, NodeRow};
use std::alloc::Global;
use sys_abi::memory::NoMemory;

/// A node is found by the directory in which it lies, and by its name there.
impl Row for NodeRow {
    ghost key = { node_key };

    fn owner(&self) -> Option<u32> {
        self.parent
    }

    fn name(&self) -> &[u8] {
        self.name.items()
    }

    fn make_exact(&mut self, alloc: Global) -> Result<(), NoMemory> {
        self.name = self.name.copied(alloc)?;
        Ok(())
    }
}

/// An attribute is found by the node that has it, and by its name.
impl Row for AttrRow {
    ghost key = { attr_key };

    fn owner(&self) -> Option<u32> {
        Some(self.on)
    }

    fn name(&self) -> &[u8] {
        self.name.items()
    }

    fn make_exact(&mut self, alloc: Global) -> Result<(), NoMemory> {
        let name = self.name.copied(alloc)?;
        self.value = self.value.copied(alloc)?;
        self.name = name;
        Ok(())
    }
}

/// A mount is found by the directory that it covers.
impl Row for Mounted {
    ghost key = { mount_key };

    fn owner(&self) -> Option<u32> {
        Some(self.target)
    }

    fn name(&self) -> &[u8] {
        &[]
    }

    fn make_exact(&mut self, alloc: Global) -> Result<(), NoMemory> {
        make_row_exact(&mut self.row, alloc)
    }
}

/// Gives a row memory for its texts and no more. After `NoMemory` it is as it was.
fn make_row_exact(row: &mut MountRow, alloc: Global) -> Result<(), NoMemory>
    ensures { row.new ≡ row.old }
{
    let source = row.source.copied(alloc)?;
    let fstype = row.fstype.copied(alloc)?;
    let options = row.options.copied(alloc)?;
    row.via = row.via.copied(alloc)?;
    row.source = source;
    row.fstype = fstype;
    row.options = options;
    Ok(())
}

/// A directory that a mount covers, with the mount's root, by which it is found.
#[derive(Clone, Copy, Debug)]
pub struct Covered {
    pub root: u32,
    pub target: u32,
}

impl Row for Covered {
    ghost key = { covered_key };

    fn owner(&self) -> Option<u32> {
        Some(self.root)
    }

    fn name(&self) -> &[u8] {
        &[]
    }

    fn make_exact(&mut self, _alloc: Global) -> Result<(), NoMemory> {
        Ok(())
    }
}

/// A node, by which it is found, and another one at which the same is seen.
#[derive(Clone, Copy, Debug)]
pub struct Alike {
    pub node: u32,
    pub other: u32,
}

impl Row for Alike {
    ghost key = { alike_key };

    fn owner(&self) -> Option<u32> {
        Some(self.node)
    }

    fn name(&self) -> &[u8] {
        &[]
    }

    fn make_exact(&mut self, _alloc: Global) -> Result<(), NoMemory> {
        Ok(())
    }
}
