//! Containers that are served side by side by one crew, and can't reach one another.
//!
//! Each container has its own policy, script, kernel and listener. What it is answered depends on its policy, its script and the
//! order of its own steps alone, whatever runs beside it: legal histories of one policy and script in which the same actors step
//! in the same order are equal (`laws::isolation`). PIDs are of one space, and each script states its range. Where two
//! ranges share no number, the two containers never give the same one, and a signal to a number of the other is answered ESRCH.
//!
//! `serve_pod` and `serve_pod_by_lanes` set up the state of each container (`containers`), of the type that says how it is served
//! (`contained`), have one crew serve them all, and close their listeners. One container is served as a pod of one.
//!
//! Below stand the definitions of `hist_model`, the facts of legal histories of `mediation`, the crew (`crew`), and the states that it
//! serves (`worker_gate`, `lane_gate`). Above stands the program.
#![tactic(auto)]

mod contained;
mod container;
mod containers;
pub mod laws;
mod pod;

pub use container::Container;
pub use pod::{CONTAINERS, serve_pod, serve_pod_by_lanes};
