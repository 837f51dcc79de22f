//! Filters: the programs of bpf(4) that seccomp(2) runs on each call of a task.
//!
//! A `Filter` is a list of instructions that was accepted once: its jumps stay inside, its last instruction returns, and none
//! of its answers is SECCOMP_RET_TRAP. Contracts see it as that list. `run` is the answer of the list to a call, `combine` the
//! answer that counts among those of several filters, and `verdict` what all filters of a script say of a call. `read_text` is
//! the instruction that a line of a script states.
//!
//! The definitions stand in `hist_model`, in `specs/Filters.antt`: the meaning of each instruction, the first fault of a list,
//! the order of the actions and what each does. Those of an instruction's line stand here, in `specs/Text.antt`.
//!
//! Below stand `sys_abi`, with the data of a call, `lex_core`, with the tokens of a line, and `hist_model`. The kernel and the
//! reader of scripts stand above.
#![tactic(auto)]

mod answers;
mod checks;
mod filters;
pub mod laws;
mod machine;
mod numbers;
mod text;
mod words;

pub use answers::{combine, verdict};
pub use filters::{Filter, notify_on, run};
pub use hist_model::filter::{BadFilter, FilterReason};
pub use hist_model::script::Insn;
pub use text::{number_at, read_text};
pub use words::is_script_word;
