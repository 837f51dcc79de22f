//! What files state.

use hist_model::script::Script;
use hist_model::text::Sequence;
use step_requests::Turn;

/// What a file states.
#[derive(Debug, Drop)]
pub struct ScriptFile {
    /// Its schedule is empty where the file's has a worker's request.
    pub script: Script,
    /// The lines of a schedule that has a worker's request; none where the schedule has none.
    pub turns: Sequence<Turn>,
}
