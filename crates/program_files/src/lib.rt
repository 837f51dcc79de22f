//! The files that the program's words name, and how the program ends.
//!
//! `inputs` reads a policy, a script, a report, calls or claims whole, under a limit of bytes. `status` has each end of the program with
//! its exit status: what was printed, or why a file wasn't taken. `specs/Inputs.antt` says what the bytes of a file are, and
//! `specs/Refusals.antt` why one is refused. `specs/Printed.antt` says what the printing of a text came to, for all words.
//!
//! Below stand the readers (`policy_reader`, `script_reader`, `call_lines`, `policy_claims`) and the files (`io_edge`); above the words of the
//! program.
#![tactic(auto)]

pub mod inputs;
pub mod status;
