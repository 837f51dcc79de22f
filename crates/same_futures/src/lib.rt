//! When two histories of a script go on alike, though their events came in another order.
//!
//! Tables forget where in the history something happened: they know calls by ids, and tasks and groups by how many were made before. Two
//! histories that come to the same tables are the same as far as every later step can tell (`specs/Same.antt`). So each step of an actor
//! is the same after both, and they are still the same behind it. An exploration may then go on with one of them for both. Where their calls
//! came to the same so far (`specs/Lines.antt`), all that comes behind comes to the same too.
//!
//! Nothing here runs: each law is the contract of a function without a body. Below stand the definitions of `hist_model`, the
//! tables, and the lines of a history.
#![tactic(auto)]

pub mod laws;
