//! Explores what a policy and a script can come to: plays every interleaving within a bound of delays, and tells which outcomes there
//! are, how many histories have each, and a schedule that plays it.
//!
//! Which histories these are is a list (`delay_bounded`). The explorer walks through it: from the start it goes on without a delay
//! until nobody is able to step; then it takes back turns up to the last one that can be delayed once more, plays what comes before
//! it anew, and goes on from there (`walk.rt`, `walker.rt`). It keeps the turns of one history, and what is told of all; so its memory
//! doesn't grow with the number of histories, but with that of their outcomes.
//!
//! Most histories come to the same state as another one of the same length, and go on as it does: the tables of the kernel, what workers
//! were told in the sessions that they have in hand, and what came of the calls so far are the same (`Run::key`). So the levels of states
//! are gone through first (`by_states.rt`, `level.rt`): a state has the first of the histories that were joined to it, and how many
//! of them have each number of delays (`state.rt`); what they come to is gathered where nobody is able to step (`ends.rt`). Which history
//! is the first is told by the delays that are left after each turn (`order.rt`). Only where there are too many states the walks
//! are gone through one by one (`one_by_one.rt`).
//!
//! An outcome is what a history comes to (`outcome_text`). It is kept with its count and the schedule of its first history
//! (`found.rt`, `schedule.rt`), and the definition of what is told computes (`specs/Tallies.antt`). On which node a worker made a mount
//! or set an attribute is noted as it does (`marks.rt`), and at the end of the history the tree tells which of these a later effect
//! took from sight.
//!
//! The walks come in the order of the places where they delay, and the list has those with the fewest delays first. So what is told is
//! kept for each number of delays, and put together in the end (`by_delays.rt`, `one_walk.rt`). Where there are too many events to
//! explore them all, each number of delays is a pass of its own (`passes.rt`).
//!
//! Its model is the machine's history, and the walks that are left (`specs/Walking.antt`). Below stand the machine of a kernel and
//! its workers (`broker_machine`), the definitions of `delay_bounded`, and the text of outcomes (`outcome_text`). Above stands
//! `broker_app`, whose words `explore` print what is found.
#![tactic(auto)]

mod by_delays;
mod by_states;
mod ends;
mod exploring;
mod found;
mod frames;
mod hands;
pub mod laws;
mod level;
mod marks;
mod one_by_one;
mod one_walk;
mod order;
mod passes;
mod run;
mod schedule;
mod session_key;
mod state;
mod tally;
mod walk;
mod walker;

pub use exploring::{Exploration, Outcome, explore};
