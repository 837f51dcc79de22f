//! The marks of what workers did that a later effect may take from sight.

ghost use Rattle.std.specs.Prelude.{◌≡◌, ◌<◌, ◌-◌, ◌++◌, [], length, IfOk, OnOk};
ghost use Rattle.hist_model.specs.Trees.{ordinal_of};
ghost use Rattle.hist_model.specs.declared.event.Actor.TheVariants.{Worker};
ghost use Rattle.model_kernel.specs.Kernels.{IsKernel, past};
ghost use Rattle.outcome_text.specs.Sight.{done_on, hidden, led_to, marked, marks};

use hist_model::event::What;
use hist_model::request::{NodeRef, Request};
use model_kernel::Kernel;
use outcome_text::hidden_places;
use outcome_text::mark::Mark;
use path_walk::effects::follow;
use path_walk::resolution::Walk;
use std::alloc::Global;
use sys_abi::memory::NoMemory;

/// The node to which a path of a worker's request leads.
#[tactic(auto, using(crate::proofs::Marking::led_there, crate::proofs::Marking::led_nowhere))]
fn led_to(kernel: &Kernel, walk: &mut Walk, worker: u8, path: &[u8]) -> Option<NodeRef>
    requires { IsKernel kernel.now }
    ensures { ordinal_of result ≡ led_to kernel.now.script (past kernel.now) worker path.now }
{
    match follow(
        kernel.tree(),
        kernel.script().root,
        kernel.base(worker),
        path,
        walk,
    ) {
        Ok(node) => Some(node),
        Err(_) => None,
    }
}

/// What a worker's newest step was done on, where it made a mount or set an attribute: the root that it mounted, or the attribute's node.
fn done_on(kernel: &Kernel, walk: &mut Walk, worker: u8, what: &What) -> Option<NodeRef>
    requires { IsKernel kernel.now }
    ensures { ordinal_of result ≡ done_on kernel.now.script (past kernel.now) (Worker worker) what.now }
{
    let What::Act {
        request,
        answer: Ok(()),
        ..
    } = what
    else {
        return None;
    };
    match request.get() {
        Request::Mount { .. } => kernel.tree().newest_mount(),
        Request::SetXattr { path, .. } => led_to(kernel, walk, worker, path.items()),
        _ => None,
    }
}

/// The marks, the oldest first, and the room of the walks that find their nodes.
#[derive(Drop)]
pub(crate) struct Marks {
    list: Vec<Mark>,
    walk: Walk,
}

impl Marks {
    /// No mark.
    pub(crate) fn none(alloc: Global) -> Result<Marks, NoMemory>
        ensures { IfOk result (λ marks. marks.list.items ≡ []) }
    {
        Ok(Marks {
            list: Vec::new(alloc),
            walk: Walk::new(alloc)?,
        })
    }

    /// The marks, the oldest first.
    pub(crate) fn list(&self) -> &[Mark]
        ensures { result.now ≡ self.now.list.items }
    {
        self.list.as_slice()
    }

    /// Marks a worker's newest step, if it made a mount or set an attribute.
    #[tactic(auto, using(crate::proofs::Marking::mark_more, crate::proofs::Marking::mark_none))]
    pub(crate) fn mark(&mut self, kernel: &Kernel, worker: u8, what: &What) -> Result<(), NoMemory>
        requires kernel { IsKernel kernel.now }
        requires begun { 0 < length (past kernel.now) }
        ensures { OnOk result (self.new.list.items ≡ self.old.list.items ++ marked (length (past kernel.now) - 1) (done_on kernel.now.script (past kernel.now) (Worker worker) what.now)) }
    {
        let place = kernel.history().len() - 1;
        if let Some(node) = done_on(kernel, &mut self.walk, worker, what) {
            self.list.push(Mark { place, node })?;
        }
        Ok(())
    }

    /// The places of the marked effects that are out of sight in the kernel's tree.
    pub(crate) fn hidden(&self, alloc: Global, kernel: &Kernel) -> Result<Vec<usize>, NoMemory>
        requires kernel { IsKernel kernel.now }
        requires marks { self.now.list.items ≡ marks kernel.now.script (past kernel.now) }
        ensures { IfOk result (λ places. places.items ≡ hidden kernel.now.script (past kernel.now)) }
    {
        hidden_places(alloc, kernel.tree(), kernel.history(), self.list.as_slice())
    }
}
