//! The answer of sysinfo(2) in its caller's memory.

ghost use Rattle.std.specs.Prelude.{◌≡◌, ℕ, Some, OnErr, if◌then◌else◌};
ghost use Rattle.hist_model.specs.Memory.{all_mapped, sysinfo_size};
ghost use Rattle.hist_model.specs.Natives.{Fails, Writes};
ghost use Rattle.hist_model.specs.Sysinfo.{host_sysinfo};
ghost use Rattle.sys_abi.specs.Errnos.{efault};
ghost use Rattle.task_groups.specs.Groups.{Holds, IsLive, HasStoreRoom};
ghost use Rattle.task_groups.specs.Rows.{IsSound, SameMarks};
ghost use Rattle.task_groups.specs.State.{State};
ghost use Rattle.native_calls.specs.Done.{GroupsRun};

use hist_model::request::Fault;
use hist_model::script::Figures;
use sys_abi::errno::Errno;
use task_groups::Groups;

/// Stores the host's figures at an address of the memory of a group, for which there is room: EFAULT where they don't fit
/// there.
pub(crate) fn write_sysinfo(
    groups: &mut Groups,
    group: u32,
    figures: &Figures,
    addr: u64,
) -> Result<u32, Errno>
    requires live { IsLive groups.old group }
    requires room { HasStoreRoom groups.old group 112 }
    ensures run { (s : State) → Holds s groups.old
        → GroupsRun s group (Some (addr, host_sysinfo figures.now)) (if all_mapped s.map addr sysinfo_size then Writes else Fails efault) result groups.new }
    ensures marks { IsSound groups.old → SameMarks groups.old group groups.new }
    ensures refused { OnErr result (groups.new ≡ groups.old) }
{
    match groups.store(group, addr, &emu_sysinfo::host(figures)) {
        Ok(()) => Ok(0),
        Err(Fault) => Err(Errno::EFAULT),
    }
}
