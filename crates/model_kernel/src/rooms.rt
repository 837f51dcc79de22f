//! Room for what tasks and workers do, made before they do it.

ghost use Rattle.std.specs.Prelude.{◌≡◌, ℕ, ◌+◌, ◌≤◌, List, Option, Some, IfOk, OnOk};
ghost use Rattle.hist_model.specs.Effects.{effect};
ghost use Rattle.hist_model.specs.declared.event.Event.{Event};
ghost use Rattle.hist_model.specs.declared.script.Script.{Script};
ghost use Rattle.listener.specs.Table.{HasRoom as HasCallRoom};
ghost use Rattle.path_walk.specs.Performed.{room_wanted};
ghost use Rattle.task_groups.specs.Groups.{HasRoom as HasGroupRoom, HasRow, HasStoreRoom, IsLive};
ghost use Rattle.task_groups.specs.Rows.{SameGroups};
ghost use Rattle.model_kernel.specs.Kernels.{IsKernel};
ghost use Rattle.model_kernel.specs.Spent.{HasRoom as HasSpentRoom};
ghost use Rattle.model_kernel.specs.Stands.{HasPlantRoom, StandsFor};

use crate::kernel::Kernel;
use crate::resources::Resources;
use hist_model::policy::Cap;
use hist_model::request::Request;
use sys_abi::memory::NoMemory;
use task_groups::Groups;

/// The bytes of sysinfo's answer.
const SYSINFO_SIZE: u32 = 112;

/// The most bytes of a name (path_resolution(7)).
const MOST_NAME: usize = 255;

/// The sum of two lengths; there is no room for more than an address space.
fn sum(first: usize, second: usize) -> Result<usize, NoMemory>
    ensures { IfOk result (λ n. n ≡ first + second) }
{
    first.checked_add(second).ok_or(NoMemory)
}

/// For how many bytes a request wants room in the tree.
fn bytes_wanted(request: &Request) -> Result<usize, NoMemory>
    ensures { IfOk result (λ len. room_wanted (effect request.now) ≤ len + 1) }
{
    match request {
        Request::Mknod { .. } => Ok(MOST_NAME),
        Request::Mount {
            source,
            fstype,
            options,
            via,
            ..
        } => sum(
            sum(source.items().len(), fstype.items().len())?,
            sum(options.items().len(), via.items().len())?,
        ),
        Request::SetXattr { name, value, .. } => sum(name.items().len(), value.items().len()),
        _ => Ok(0),
    }
}

/// For how many bytes a request wants room in the tree; there is no room for 2^32.
fn room_for(request: &Request) -> Result<u32, NoMemory>
    ensures { IfOk result (λ len. room_wanted (effect request.now) ≤ len + 1) }
{
    let wanted = bytes_wanted(request)?;
    u32::try_from(wanted).map_err(|_| NoMemory)
}

/// Makes room for the answer of sysinfo in the memory of a group, if there is one.
fn ready_store(groups: &mut Groups, group: Option<u32>) -> Result<(), NoMemory>
    requires { (g : ℕ) → group ≡ Some g → HasRow groups.old g }
    ensures room { OnOk result ((g : ℕ) → group ≡ Some g → HasStoreRoom groups.new g 112) }
    ensures same { SameGroups groups.old groups.new }
{
    match group {
        Some(group) => groups.ready_store(group, SYSINFO_SIZE),
        None => Ok(()),
    }
}

/// Makes room for the entry of one call that is listed, and for one copy of a group, or one `store` of at most `len` bytes
/// or one `install` in it. There is none for the 2^32-th group.
pub(crate) fn ready_entry(resources: &mut Resources, group: u32, len: u32) -> Result<(), NoMemory>
    requires { IsLive resources.old.groups group }
    ensures group { OnOk result (HasGroupRoom resources.new.groups group len) }
    ensures call { OnOk result (HasCallRoom resources.new.listener.queue) }
    ensures stands { (S : Script) (K : List Event) (living : ℕ → ℕ) → StandsFor S K living resources.old → StandsFor S K living resources.new }
{
    resources.groups.ready(group, len)?;
    resources.listener.ready()
}

impl Kernel {
    /// Makes room for one `act` with a request under a cap, but for its event.
    pub fn ready_act(&mut self, request: &Request, cap: Option<Cap>) -> Result<(), NoMemory>
        requires { IsKernel self.old }
        ensures spent { OnOk result (HasSpentRoom self.new.resources.spent cap) }
        ensures tree { OnOk result (room_wanted (effect request.now) ≤ self.new.resources.tree.spare) }
        ensures kernel { IsKernel self.new }
        ensures same { self.new ≡ record self.old { resources = self.new.resources } }
    {
        self.resources.tree.ready(room_for(request)?)?;
        self.resources.spent.ready(cap)
    }

    /// Makes room for one `plant` of a worker under a cap, but for its event.
    pub fn ready_plant(&mut self, worker: u8, cap: Option<Cap>) -> Result<(), NoMemory>
        requires { IsKernel self.old }
        ensures room { OnOk result (HasPlantRoom self.new.resources worker cap) }
        ensures kernel { IsKernel self.new }
        ensures same { self.new ≡ record self.old { resources = self.new.resources } }
    {
        let group = self.resources.workers.memory(worker);
        ready_store(&mut self.resources.groups, group)?;
        self.resources.spent.ready(cap)
    }
}
