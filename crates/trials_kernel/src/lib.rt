//! Trials of one kernel, of workers that are replaced over it, and of the explorer, each from its public calls alone.
//!
//! What the kernel answers, what comes of a ledger and which histories are explored is proved. The trials show what no clause
//! says: that the definitions, from the words of a script to the answers of the listener, mean what seccomp_unotify(2) says,
//! and that each call which takes memory answers where there is memory. A trial of the kernel is a script and a list of steps,
//! beside each step what is told of it (`steps`), so a container is walked through from its script to its last event. Ledgers
//! that are kept up do ask for each successor (`replaced_workers`), and a ledger which somebody has damaged is refused
//! (`refused_ledgers`).
//!
//! How many histories a script has (`explorations`) is found as well by a program that knows only the reports of plays
//! (`tools/references/reference-explore`), from which the expected numbers are. Those of histories that are too many to go through one by one
//! are from a program in Python that joins them by states over the kernel of `tools/references/reference-step`. There is no code but tests:
//! the models stand in `model_kernel`, `handover`, `worker_ledger` and `explorer`.
//!
//! Below stand the kernel (`model_kernel`) with the structures (`sys_abi`, `listener`), the replacement (`handover`) with the
//! machine (`broker_machine`) and the ledger (`worker_ledger`), the explorer (`explorer`), and the readers of policies and
//! scripts; nothing stands above.
#![tactic(auto)]

#[cfg(test)]
mod answers;
#[cfg(test)]
mod container;
#[cfg(test)]
mod descriptors;
#[cfg(test)]
mod endings;
#[cfg(test)]
mod explorations;
#[cfg(test)]
mod notifications;
#[cfg(test)]
mod policies;
#[cfg(test)]
mod refused_ledgers;
#[cfg(test)]
mod replaced_workers;
#[cfg(test)]
mod steps;
#[cfg(test)]
mod structures;
#[cfg(test)]
mod walks;
