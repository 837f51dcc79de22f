//! A node's row, of rows that are kept the oldest first.

ghost use Rattle.std.specs.Prelude.{◌≡◌, ◌<◌, ◌≤◌, length, reverse, IfSome, IfNone, None, Some};
ghost use Rattle.hist_model.specs.Trees.{row_in};

use hist_model::tree::NodeRow;

/// The row of the node with this ordinal.
#[tactic(auto, using(crate::proofs::Places::row_in_past, crate::proofs::Places::row_in_none))]
pub fn row(rows: &[NodeRow], n: u32) -> Option<&NodeRow>
    ensures some { IfSome result (λ r. row_in (reverse rows.now) n ≡ Some r.now) }
    ensures none { IfNone result (row_in (reverse rows.now) n ≡ None) }
    ensures below { IfSome result (λ _. n < length rows.now) }
{
    let n = n as usize;
    if n < rows.len() { Some(&rows[n]) } else { None }
}
