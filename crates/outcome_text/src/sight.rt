//! Which effects a later one took from sight.

ghost use Rattle.std.specs.Prelude.{◌≡◌, IfOk};
ghost use Rattle.outcome_text.specs.Sight.{hidden_among, is_hidden, is_hidden_at};
ghost use Rattle.hist_model.specs.Look.{event_at};

use crate::mark::Mark;
use hist_model::event::What;
use hist_model::history::History;
use hist_model::request::{NodeRef, Request};
use mount_tree::tree::Tree;
use std::alloc::Global;
use sys_abi::memory::NoMemory;

/// Whether what a step did on a node is hidden in the tree: another mount stands on the root that it mounted, or the attribute that it
/// set has another value.
fn is_hidden(tree: &Tree, what: &What, node: NodeRef) -> bool
    ensures { result ≡ is_hidden tree.now.tree what.now node.ordinal }
{
    let What::Act { request, .. } = what else {
        return false;
    };
    match request.get() {
        Request::Mount { .. } => tree.has_mount(node),
        Request::SetXattr { name, value, .. } => {
            !tree.has_value(node, name.items(), value.items())
        }
        _ => false,
    }
}

/// Whether the effect of a history is hidden in the tree.
#[tactic(auto, using(crate::proofs::Seen::no_event))]
fn is_mark_hidden(tree: &Tree, history: &History, mark: Mark) -> bool
    ensures { result ≡ is_hidden_at tree.now.tree (event_at history.now.events mark.place) mark.node.ordinal }
{
    match history.get(mark.place) {
        Some(event) => is_hidden(tree, &event.what, mark.node),
        None => false,
    }
}

/// The places of those of a history's marks that are hidden in the tree.
pub fn hidden_places(
    alloc: Global,
    tree: &Tree,
    history: &History,
    marks: &[Mark],
) -> Result<Vec<usize>, NoMemory>
    ensures { IfOk result (λ places. places.items ≡ hidden_among tree.now.tree history.now.events marks.now) }
{
    let mut places = Vec::new(alloc);
    for mark in marks {
        if is_mark_hidden(tree, history, *mark) {
            places.push(mark.place)?;
        }
    }
    Ok(places)
}
