//! The parts of a key of groups.

ghost use Rattle.std.specs.Prelude.{◌≡◌, ◌++◌, OnOk};
ghost use Rattle.key_bytes.specs.Parts.{list_part};
ghost use Rattle.task_groups.specs.Keys.{descriptor_part, object_code, object_number};

use crate::descriptors::Descriptor;
use hist_model::request::Obj;
use key_bytes::{push_flag, push_number};
use sys_abi::memory::NoMemory;

/// The number of a kind of file.
fn object_code(object: &Obj) -> u64
    ensures { result ≡ object_code object.now }
{
    match object {
        Obj::Console => 0,
        Obj::Node(_) => 1,
        Obj::Broker(_) => 2,
    }
}

/// The ordinal of a node, or the number of the broker's file; 0 of the console.
fn object_number(object: &Obj) -> u32
    ensures { result ≡ object_number object.now }
{
    match object {
        Obj::Console => 0,
        Obj::Node(node) => node.ordinal,
        Obj::Broker(file) => *file,
    }
}

/// Adds a descriptor.
fn push_descriptor(key: &mut Vec<u8>, descriptor: &Descriptor) -> Result<(), NoMemory>
    ensures { OnOk result (key.new.items ≡ key.old.items ++ descriptor_part descriptor.now) }
{
    push_number(key, u64::from(descriptor.number))?;
    push_number(key, object_code(&descriptor.obj))?;
    push_number(key, u64::from(object_number(&descriptor.obj)))?;
    push_flag(key, descriptor.cloexec)
}

/// Adds the descriptors of a group, with how many there are before them.
pub(crate) fn push_descriptors(
    key: &mut Vec<u8>,
    descriptors: &[Descriptor],
) -> Result<(), NoMemory>
    ensures { OnOk result (key.new.items ≡ key.old.items ++ list_part descriptor_part descriptors.now) }
{
    push_number(key, descriptors.len() as u64)?;
    for descriptor in descriptors {
        push_descriptor(key, descriptor)?;
    }
    Ok(())
}
