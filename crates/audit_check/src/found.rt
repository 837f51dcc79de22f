//! What a checker finds of a report.

use audit_log::tables::Tables;
use hist_model::history::History;

/// What a checker finds of a report.
#[derive(Drop)]
pub enum Checked {
    /// The report is that of this legal history, by the tables that were made of it. It is finished where nothing is left to do but to
    /// close the listener.
    Yes {
        history: History,
        finished: bool,
        tables: Tables,
    },
    /// No legal history has a report that begins with the lines up to this one, counted from 1.
    No {
        line: u32,
    },
}
