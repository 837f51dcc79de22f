//! The classes of all calls.

ghost use Rattle.std.specs.Prelude.{◌≡◌, ◌≤◌, ◌↔◌, [], true, false, All, Any, IfOk};
ghost use Rattle.hist_model.specs.declared.request.Request.{Request as AnyRequest};
ghost use Rattle.policy_classes.specs.Asked.{IsCall};
ghost use Rattle.policy_classes.specs.Classes.{HasWitness, Holds, IsLeast};
ghost use Rattle.policy_classes.specs.Looked.{places_looked};
ghost use Rattle.policy_classes.specs.Plain.{IsPlainRule};

use crate::atoms::atoms_by_rule;
use crate::found::Classes;
use crate::plain::are_plain;
use crate::start::start_frames;
use crate::walk::walk;
use hist_model::policy::Rule;
use hist_model::text::Sequence;
use std::alloc::Global;
use sys_abi::memory::NoMemory;

/// How many requests are looked at before a look at all calls is given up.
pub const MOST_LOOKED: u32 = 1_000_000;

/// No class, and not whole.
fn untold(alloc: Global) -> Classes
    ensures classes { result.classes ≡ [] }
    ensures whole { result.whole ≡ false }
{
    Classes {
        classes: Sequence::new(Vec::new(alloc)),
        whole: false,
    }
}

/// The classes of calls of two policies' rules. Each is told by the places of the rules that decide its calls, and has one of these
/// calls as its witness; where the classes are whole, the least of them.
///
/// They are whole unless a rule names a call that has no name, or a flag that isn't one bit; or more than `bound` requests, of which
/// some fields are decided, would be looked at.
pub fn classes(alloc: Global, old: &[Rule], new: &[Rule], bound: u32) -> Result<Classes, NoMemory>
    ensures witnesses { IfOk result (λ found. All (HasWitness old.now new.now) found.classes) }
    ensures there { IfOk result (λ found. found.whole ≡ true
        → (q : AnyRequest) → IsCall q → Any (Holds old.now new.now q) found.classes) }
    ensures least { IfOk result (λ found. found.whole ≡ true → All (IsLeast old.now new.now) found.classes) }
    ensures whole { IfOk result (λ found. found.whole ≡ true
        ↔ (All IsPlainRule old.now × All IsPlainRule new.now × (places_looked old.now new.now ≤ bound))) }
{
    let old_atoms = atoms_by_rule(alloc, old)?;
    let new_atoms = atoms_by_rule(alloc, new)?;
    if !are_plain(old, old_atoms.as_slice()) {
        return Ok(untold(alloc));
    }
    if !are_plain(new, new_atoms.as_slice()) {
        return Ok(untold(alloc));
    }
    let frames = start_frames(alloc, old, new, old_atoms.as_slice(), new_atoms.as_slice())?;
    walk(alloc, old, new, frames, bound)
}
