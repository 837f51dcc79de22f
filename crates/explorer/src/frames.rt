//! The turns with which a walk begins.

ghost use Rattle.std.specs.Prelude.{◌≡◌, IfOk};

use std::alloc::Global;
use sys_abi::memory::NoMemory;

/// A turn of a walk.
#[derive(Drop, Debug)]
pub(crate) struct Frame {
    /// The place in the circle of the actor that had the turn.
    pub(crate) place: usize,
    /// How many places from the one that had the turn before were tried.
    pub(crate) next: usize,
    /// How many delays are left after it.
    pub(crate) left: u64,
}

ghost use Rattle.explorer.specs.Frames.{last_place};

/// The place of the last of these turns; before any, that of the first task.
pub(crate) fn last_place(frames: &[Frame]) -> usize
    ensures { result ≡ last_place 0 frames.now }
{
    match frames.last() {
        Some(frame) => frame.place,
        None => 0,
    }
}

/// A copy of turns, with room for one more.
pub(crate) fn copied(alloc: Global, frames: &[Frame]) -> Result<Vec<Frame>, NoMemory>
    ensures { IfOk result (λ copy. copy.items ≡ frames.now) }
{
    let mut copy = Vec::with_capacity(alloc, frames.len().saturating_add(1))?;
    for frame in frames {
        copy.push(Frame {
            place: frame.place,
            next: frame.next,
            left: frame.left,
        })?;
    }
    Ok(copy)
}
