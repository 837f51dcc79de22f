//! The newest event of a kernel, and what it has opened.

ghost use Rattle.std.specs.Prelude.{◌≡◌, ◌<◌, ◌≤◌, ◌^◌, ℕ, ◌∷◌, [], List, Some, Ok, pos, true, false, reverse, IfSome, IfNone};
ghost use Rattle.hist_model.specs.Files.{files};
ghost use Rattle.hist_model.specs.Look.{Name};
ghost use Rattle.hist_model.specs.Memory.{group_named};
ghost use Rattle.hist_model.specs.Natives.{base_of};
ghost use Rattle.hist_model.specs.Tasks.{ended, is_made};
ghost use Rattle.hist_model.specs.Trees.{ordinal_of};
ghost use Rattle.hist_model.specs.declared.event.Actor.TheVariants.{Task};
ghost use Rattle.hist_model.specs.declared.event.Event.{Event as EventValue};
ghost use Rattle.hist_model.specs.declared.event.What.TheVariants.{Native};
ghost use Rattle.model_kernel.specs.Kernels.{IsKernel, past};
ghost use Rattle.judge_pass.specs.Opened.{HasOpened};
ghost use Rattle.judge_pass.specs.Stands.{IsHistory};

use hist_model::event::{Actor, Event, What};
use hist_model::request::NodeRef;
use hist_model::script::Script;
use hist_model::text::TaskName;
use model_kernel::Kernel;

/// The newest event of a kernel, and those before it, the oldest first.
#[tactic(auto, using(hist_model::proofs::Scans::reverse_push))]
pub(crate) fn newest(kernel: &Kernel) -> Option<(&Event, &[Event])>
    ensures some { IfSome result (λ p. past kernel.now ≡ p.0.now ∷ reverse p.1.now) }
    ensures none { IfNone result (past kernel.now ≡ []) }
{
    kernel.history().events().split_last()
}

/// The task that an actor is.
fn task_in(who: &Actor) -> Option<&TaskName>
    ensures some { IfSome result (λ name. who.now ≡ Task name.now) }
    ensures none { IfNone result ((name : Name) → who.now ≡ Task name → ⊥) }
{
    match who {
        Actor::Task(name) => Some(name),
        Actor::Start | Actor::Worker(_) | Actor::Listener => None,
    }
}

/// The number that a native call has given.
fn number_in(what: &What) -> Option<u32>
    ensures some { IfSome result (λ n. what.now ≡ Native (Ok n)) }
    ensures none { IfNone result ((n : ℕ) → what.now ≡ Native (Ok n) → ⊥) }
{
    match what {
        What::Native { answer: Ok(number) } => Some(*number),
        _ => None,
    }
}

/// A task opens fewer numbers than 2^31, since a script's limit is low.
fn has_few_numbers(script: &Script)
    ensures { script.now.rlimit ≤ 4096 }
{
    let _limit = script.rlimit;
}

/// The directory to which a number of a task leads.
fn directory_of(kernel: &Kernel, name: &TaskName, number: u32) -> Option<NodeRef>
    requires { IsKernel kernel.now }
    ensures { (g : ℕ) → is_made (past kernel.now) name.now ≡ true → ended (past kernel.now) name.now ≡ false → group_named (past kernel.now) name.now ≡ Some g → number < 2 ^ 31 → ordinal_of result ≡ base_of kernel.now.script (files kernel.now.script (past kernel.now)) g (pos number) }
{
    let task = kernel.find(name.items())?;
    let number = i32::try_from(number).ok()?;
    kernel.directory(task, number)
}

/// The directory to which the number leads that the newest event of a kernel has opened.
pub(crate) fn opened(kernel: &Kernel) -> Option<NodeRef>
    requires kernel { IsKernel kernel.now }
    requires history { IsHistory kernel.now.script (past kernel.now) }
    ensures { (K : List EventValue) (e : EventValue) → past kernel.now ≡ e ∷ K → HasOpened kernel.now.script K e result }
{
    let (event, _before) = newest(kernel)?;
    has_few_numbers(kernel.script());
    let name = task_in(&event.who)?;
    let number = number_in(&event.what)?;
    directory_of(kernel, name, number)
}
