//! Trials of the crates at the bottom: the numbers and structures of the system call interface, counts, sorted lists, files and
//! sinks, which of several filters' answers counts, the listener's lock, and a lane's queue.
//!
//! A case has its expected value from outside: the manual pages and the kernel's headers. So a trial fails where a table
//! or a definition that the code is proved to meet doesn't say what was meant, and it shows what no clause says: texts that
//! are printed, files of the machine, faults of files, and that an answer comes, and not want of memory alone.
//!
//! Callers of the lock, on one thread, on two and on sixteen (`turns`), each have a contract that says what they find, proved
//! from the contracts of `turn_lock` alone: so what the lock promises is enough for a caller. That threads run, wait and
//! end is what no clause says, and that each place of the history is one caller's is counted. One end of a queue doesn't
//! tell what the other one did, so it is tried that a queue takes items until it is full, and gives them (`queues`). There is
//! no code but tests, and no model: what is tried stands in the definitions of each crate.
//!
//! Below stand `sys_abi`, `long_count`, `sorted_list`, `io_edge`, `bpf_filter`, the lock (`turn_lock`) and the queue (`lane_queue`), which the
//! trials call, with the plain types of `hist_model` and the reader of the policy that a lock's states have (`policy_reader`);
//! nothing stands above.
#![tactic(auto)]

#[cfg(test)]
mod abi;
#[cfg(test)]
mod counts;
#[cfg(test)]
mod edge;
#[cfg(test)]
mod filters;
#[cfg(test)]
mod lists;
#[cfg(test)]
mod queues;
#[cfg(test)]
mod turns;
