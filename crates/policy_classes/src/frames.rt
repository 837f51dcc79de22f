//! What is still to be looked at.

ghost use Rattle.std.specs.Prelude.{◌≡◌, ◌++◌, OnOk, map};
ghost use Rattle.policy_classes.specs.Choices.{choices};
ghost use Rattle.policy_classes.specs.Frames.{frame_seen, frames_seen};
ghost use Rattle.policy_classes.specs.Looked.{with_choice};
ghost use Rattle.policy_classes.specs.Pending.{rules_seen};
ghost use Rattle.policy_classes.specs.Search.{atoms_left};

use crate::atoms::Field;
use crate::choices::choices;
use crate::marks::marks;
use crate::pending::{Pending, atoms_left, left_of};
use hist_model::request::Request;
use std::alloc::Global;
use sys_abi::memory::NoMemory;

/// A request of which some fields have values, with what is left of the rules of both policies.
#[derive(Debug, Drop)]
pub struct Frame<'a> {
    pub request: Request,
    pub old: Vec<Pending<'a>>,
    pub new: Vec<Pending<'a>>,
}

/// Adds a frame for each value of a field that its atoms tell apart.
pub fn push_choices<'a>(
    alloc: Global,
    field: Field,
    frame: &Frame<'a>,
    frames: &mut Vec<Frame<'a>>,
) -> Result<(), NoMemory>
    ensures { OnOk result (frames_seen frames.new.items ≡ frames_seen frames.old.items
        ++ map (with_choice field (frame_seen frame.now)) (choices field (atoms_left (rules_seen frame.now.old.items) (rules_seen frame.now.new.items)) frame.now.request)) }
{
    let atoms = atoms_left(alloc, frame.old.as_slice(), frame.new.as_slice())?;
    let requests = choices(alloc, field, atoms.as_slice(), &frame.request)?;
    let old_marks = marks(alloc, field, frame.old.as_slice())?;
    let new_marks = marks(alloc, field, frame.new.as_slice())?;
    for request in requests {
        let old = left_of(
            alloc,
            field,
            &request,
            old_marks.as_slice(),
            frame.old.as_slice(),
        )?;
        let new = left_of(
            alloc,
            field,
            &request,
            new_marks.as_slice(),
            frame.new.as_slice(),
        )?;
        frames.push(Frame { request, old, new })?;
    }
    Ok(())
}
