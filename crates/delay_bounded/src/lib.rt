//! The histories that are explored: every interleaving within a bound of delays.
//!
//! The tasks and workers stand in a circle (`specs/Circle.antt`). The turn is that of the first from the one that stepped last on
//! who is able to step; a delay passes it to the next one who is. A history ends where nobody is able to. The explored histories
//! are a list (`specs/Explored.antt`): those without a delay, then those with one, and so on up to the bound.
//!
//! In the literature this is delay-bounded scheduling.
//!
//! Nothing here runs: each law is the contract of a function without a body. Below stand the definitions of `hist_model` and the
//! mediation law; above stands `explorer`, which plays these histories.
#![tactic(auto)]

pub mod laws;
