//! The search for classes: the fields of a request get values, one after another, and each time what is decided is dropped.

ghost use Rattle.std.specs.Prelude.{◌≡◌, ◌≤◌, ◌&&◌, ◌==◌, true, map, All, Any, IfOk, OnOk, ◌↔◌};
ghost use Rattle.hist_model.specs.declared.request.Request.{Request as AnyRequest};
ghost use Rattle.policy_classes.specs.Asked.{IsCall};
ghost use Rattle.policy_classes.specs.Classes.{Adds, HasWitness, Holds, IsLeast, lesser_class};
ghost use Rattle.policy_classes.specs.Frames.{frame_seen, frames_seen};
ghost use Rattle.policy_classes.specs.Looked.{Looks, places_looked, start_frame};
ghost use Rattle.policy_classes.specs.Plain.{IsPlainRule, standing_calls};

use crate::found::{Class, Classes};
use crate::frames::{Frame, push_choices};
use crate::order::is_at_most;
use crate::pending::{first_place, next_field};
use hist_model::policy::Rule;
use hist_model::request::Request;
use hist_model::text::Sequence;
use std::alloc::Global;
use sys_abi::memory::NoMemory;

/// Whether the class is of these two rules.
fn is_of(class: &Class, old_place: usize, new_place: usize) -> bool
    ensures { result ≡ ((class.now.old_place == old_place) && (class.now.new_place == new_place)) }
{
    class.old_place == old_place && class.new_place == new_place
}

/// Gives the class another witness, if that is less.
fn lessen(alloc: Global, class: &mut Class, witness: &Request) -> Result<(), NoMemory>
    ensures { OnOk result (class.new ≡ lesser_class class.old
        (record { old_place = class.old.old_place; new_place = class.old.new_place; witness = witness.now })) }
{
    if is_at_most(alloc, &class.witness, witness)? {
        return Ok(());
    }
    class.witness = witness.copied(alloc)?;
    Ok(())
}

/// Adds the class of a request, or leaves the lesser of its witness and that of one of the same two rules.
fn add_class(
    alloc: Global,
    classes: &mut Vec<Class>,
    old_place: usize,
    new_place: usize,
    witness: &Request,
) -> Result<(), NoMemory>
    ensures { OnOk result (Adds (record { old_place = old_place; new_place = new_place; witness = witness.now })
        classes.old.items classes.new.items) }
{
    for place in 0..classes.len() {
        if is_of(&classes[place], old_place, new_place) {
            lessen(alloc, &mut classes[place], witness)?;
            return Ok(());
        }
    }
    let witness = witness.copied(alloc)?;
    classes.push(Class {
        old_place,
        new_place,
        witness,
    })?;
    Ok(())
}

/// Looks at a frame: a field gets each of its values, or the class is added whose rules decide.
#[tactic(auto, using(crate::proofs::Walked::field_opens, crate::proofs::Walked::class_is_added))]
fn look<'a>(
    alloc: Global,
    olds: usize,
    news: usize,
    frame: &Frame<'a>,
    frames: &mut Vec<Frame<'a>>,
    classes: &mut Vec<Class>,
) -> Result<(), NoMemory>
    ensures { OnOk result (Looks olds news (frame_seen frame.now)
        (frames_seen frames.old.items) (frames_seen frames.new.items) classes.old.items classes.new.items) }
{
    if let Some(field) = next_field(frame.old.as_slice(), frame.new.as_slice()) {
        push_choices(alloc, field, frame, frames)?;
        return Ok(());
    }
    let old_place = first_place(olds, frame.old.as_slice());
    let new_place = first_place(news, frame.new.as_slice());
    add_class(alloc, classes, old_place, new_place, &frame.request)?;
    Ok(())
}

/// The classes of all calls, from the requests of the calls that stand for all, each with its least call. They are whole exactly
/// where at most `bound` requests are looked at.
pub fn walk(
    alloc: Global,
    old: &[Rule],
    new: &[Rule],
    mut frames: Vec<Frame<'_>>,
    bound: u32,
) -> Result<Classes, NoMemory>
    requires plain_old { All IsPlainRule old.now }
    requires plain_new { All IsPlainRule new.now }
    requires starts { frames_seen frames.items ≡ map (start_frame old.now new.now) standing_calls }
    ensures witnesses { IfOk result (λ found. All (HasWitness old.now new.now) found.classes) }
    ensures there { IfOk result (λ found. found.whole ≡ true
        → (q : AnyRequest) → IsCall q → Any (Holds old.now new.now q) found.classes) }
    ensures least { IfOk result (λ found. found.whole ≡ true → All (IsLeast old.now new.now) found.classes) }
    ensures whole { IfOk result (λ found. found.whole ≡ true ↔ places_looked old.now new.now ≤ bound) }
{
    let mut classes = Vec::new(alloc);
    let mut left = bound;
    while let Some(frame) = frames.pop() {
        if left == 0 {
            return Ok(Classes {
                classes: Sequence::new(classes),
                whole: false,
            });
        }
        left -= 1;
        look(
            alloc,
            old.len(),
            new.len(),
            &frame,
            &mut frames,
            &mut classes,
        )?;
    }
    Ok(Classes {
        classes: Sequence::new(classes),
        whole: true,
    })
}
