//! What a history came to, counted.

use hist_model::event::What;
use hist_model::history::History;

/// How many steps of a history answered a call, and how many had the effect that was asked for.
pub(crate) fn answers_and_effects(history: &History) -> (usize, usize) {
    let mut answers = 0usize;
    let mut effects = 0usize;
    for event in history.events() {
        match event.what {
            What::Send { answer: Ok(()), .. } => answers = answers.saturating_add(1),
            What::Act { answer: Ok(()), .. } | What::Plant { answer: Ok(()), .. } => {
                effects = effects.saturating_add(1);
            }
            _ => {}
        }
    }
    (answers, effects)
}
