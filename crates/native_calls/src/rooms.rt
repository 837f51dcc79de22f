//! Room for native calls.

ghost use Rattle.std.specs.Prelude.{◌≡◌, ◌+◌, ◌≤◌, ℕ, length, IfOk, OnOk};
ghost use Rattle.task_groups.specs.Groups.{IsLive};
ghost use Rattle.task_groups.specs.Rows.{SameGroups};
ghost use Rattle.native_calls.specs.Done.{room_natively};
ghost use Rattle.native_calls.specs.Stands.{IsReady, room_of};

use crate::call::NativeCall;
use hist_model::request::Request;
use mount_tree::tree::Tree;
use sys_abi::memory::NoMemory;
use task_groups::Groups;

/// The bytes of sysinfo's answer.
const SYSINFO_SIZE: u32 = 112;

/// The most bytes of a name (path_resolution(7)).
const MOST_NAME: u32 = 255;

/// The bytes of two texts together; there is no room for 2^32.
fn length_of_both(first: &[u8], second: &[u8]) -> Result<u32, NoMemory>
    ensures { IfOk result (λ len. len ≡ length first.now + length second.now) }
{
    let Some(len) = first.len().checked_add(second.len()) else {
        return Err(NoMemory);
    };
    u32::try_from(len).map_err(|_| NoMemory)
}

/// For how many bytes a request wants room in the tree.
fn request_room(request: &Request) -> Result<u32, NoMemory>
    ensures { IfOk result (λ len. room_natively request.now ≤ len + 1) }
{
    match request {
        Request::Mknod { .. } => Ok(MOST_NAME),
        Request::SetXattr { name, value, .. } => length_of_both(name.items(), value.items()),
        _ => Ok(0),
    }
}

/// For how many bytes a call wants room in the tree.
fn call_room(call: &NativeCall) -> Result<u32, NoMemory>
    ensures { IfOk result (λ len. room_of call.now ≤ len + 1) }
{
    match call {
        NativeCall::Request {
            request: Ok(request),
            ..
        } => request_room(request),
        _ => Ok(0),
    }
}

/// Makes room for a call of a task of a group, which then takes no memory.
pub fn ready(
    call: &NativeCall,
    group: u32,
    tree: &mut Tree,
    groups: &mut Groups,
) -> Result<(), NoMemory>
    requires { IsLive groups.old group }
    ensures room { OnOk result (IsReady call.now group tree.new.spare groups.new) }
    ensures live { IsLive groups.new group }
    ensures tree { tree.new.tree ≡ tree.old.tree }
    ensures groups { SameGroups groups.old groups.new }
{
    tree.ready(call_room(call)?)?;
    groups.ready(group, SYSINFO_SIZE)
}
