//! What tasks and workers use.

ghost use Rattle.std.specs.Prelude.{◌≡◌, ℕ, [], ◌∷◌, IfOk};
ghost use Rattle.hist_model.specs.declared.event.Event.{Event};
ghost use Rattle.history_frames.specs.Ordinals.{groups_made};
ghost use Rattle.task_groups.specs.Stands.{IsFresh};
ghost use Rattle.task_groups.specs.State.{one_more};
ghost use Rattle.model_kernel.specs.Stands.{StandsFor};

use crate::rows::WorkerRows;
use crate::spent::SpentRows;
use hist_model::script::Script;
use listener::Listener;
use mount_tree::tree::Tree;
use native_calls::Container;
use path_walk::resolution::Walk;
use std::alloc::Global;
use sys_abi::memory::NoMemory;
use task_groups::Groups;

/// The kernel's tables but those of its tasks. They are one struct, so that a call can be lent all of them.
pub(crate) struct Resources {
    pub(crate) groups: Groups,
    pub(crate) listener: Listener,
    pub(crate) tree: Tree,
    pub(crate) walk: Walk,
    pub(crate) workers: WorkerRows,
    pub(crate) spent: SpentRows,
    pub(crate) container: Container,
}

// (written out, so that what letting one go comes to is proved here once)
impl Drop for Resources {
    fn drop(self) {
        let Resources {
            groups: _groups,
            listener: _listener,
            tree: _tree,
            walk: _walk,
            workers: _workers,
            spent: _spent,
            container: _container,
        } = self;
    }
}

impl Resources {
    /// The tables after a script's start: the stated tree, the group of the first task, and nothing open.
    pub(crate) fn new(alloc: Global, script: &Script) -> Result<Resources, NoMemory>
        ensures { IfOk result (λ r. (e : Event) → IsFresh e → StandsFor script.now (e ∷ []) (one_more (λ o. 0) (groups_made [])) r) }
    {
        Ok(Resources {
            groups: Groups::new(alloc, script)?.fresh()?,
            listener: Listener::new(alloc, script.firstid)?,
            tree: Tree::stated(alloc, script.tree.items())?,
            walk: Walk::new(alloc)?,
            workers: WorkerRows::new(),
            spent: SpentRows::new(alloc),
            container: Container {
                root: script.root,
                figures: script.figures,
            },
        })
    }
}
