//! Trials of the top call over files and sinks in memory, and of containers that are served side by side.
//!
//! What the top call answers is proved, and `cases` runs the program on whole reports. The trials show what neither does:
//! each call of the files and a write that fail, over files and sinks that tell what was read and written (`runs`).
//!
//! What is left of each container at its end is proved too, but no contract says that one thread goes on while another is held
//! up. The trials hold a worker, under a gate of theirs, until others have come to a point: of one container (`threads`), of
//! several (`pods`), and of one lane beside another (`lanes`). There is no code but tests: what an answer means stands in the
//! definitions of `broker_app` and `pod_broker`.
//!
//! Below stand the top call (`broker_app`), the containers and lanes (`pod_broker`), the gate (`crew`), the readers of policies
//! and scripts, and the files and sinks in memory (`io_edge`); nothing stands above.
#![tactic(auto)]

#[cfg(test)]
mod histories;
#[cfg(test)]
mod inputs;
#[cfg(test)]
mod lanes;
#[cfg(test)]
mod pods;
#[cfg(test)]
mod runs;
#[cfg(test)]
mod threads;
#[cfg(test)]
mod top_call;
#[cfg(test)]
mod waiting;
