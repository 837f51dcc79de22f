//! Trials of reports, and of what is told of calls and of policies.
//!
//! What is written and told is proved, and `cases` runs the program on whole reports. The trials show what neither does: that
//! events which no script of the program makes are written too (`reports`), what the rules of a policy say of a session
//! (`judged_reports`), that a report is checked to its end (`checked_reports`), that explaining ends with a text and means what a
//! policy's documents say (`explanations`), and that all classes of small policies are found within the bound (`comparisons`).
//! All of it where there is memory, so that want of memory isn't the only answer. There is no code but tests: the model of the
//! report, a text for each history, stands in the definitions of `hist_model`.
//!
//! Below stand the writers (`audit_log`) and the checker (`audit_check`) of reports, the explanation (`policy_explain`) with the
//! reader of calls (`call_lines`), the comparison (`policy_compare`) with how it ends (`policy_classes`), the readers of policies
//! and scripts, the sinks in memory (`io_edge`), the plain types of `hist_model`, and the numbers of `sys_abi`; nothing stands
//! above.
#![tactic(auto)]

#[cfg(test)]
mod checked_reports;
#[cfg(test)]
mod comparisons;
#[cfg(test)]
mod events;
#[cfg(test)]
mod explanations;
#[cfg(test)]
mod judged_reports;
#[cfg(test)]
mod policies;
#[cfg(test)]
mod reports;
#[cfg(test)]
mod texts;
