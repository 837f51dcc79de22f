//! The key of a kernel.

ghost use Rattle.std.specs.Prelude.{◌≡◌, ◌++◌, OnOk};
ghost use Rattle.model_kernel.specs.Keys.{kernel_part, resources_part};

use crate::kernel::Kernel;
use crate::resources::Resources;
use sys_abi::memory::NoMemory;

impl Resources {
    /// Adds the part of these tables in a key.
    fn write_key(&self, key: &mut Vec<u8>) -> Result<(), NoMemory>
        ensures { OnOk result (key.new.items ≡ key.old.items ++ resources_part self.now) }
    {
        self.listener.write_key(key)?;
        self.groups.write_key(key)?;
        self.tree.write_key(key)?;
        self.workers.write_key(key)?;
        self.spent.write_key(key)
    }
}

impl Kernel {
    /// Adds the key of this kernel: only kernels that have the same tables have equal ones. Fails for want of memory alone; then a front
    /// of the key was added.
    pub fn write_key(&self, key: &mut Vec<u8>) -> Result<(), NoMemory>
        ensures { OnOk result (key.new.items ≡ key.old.items ++ kernel_part self.now) }
    {
        self.tasks.write_key(key)?;
        self.resources.write_key(key)
    }
}
