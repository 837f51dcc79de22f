//! The reader of scripts: from the bytes of a file to a container's settings, its programs and the order of steps.
//!
//! [`read_file`] gives what the bytes state, or why they are refused: the first faulty line, and of its reasons the
//! one that stands first in the table of reasons. A line is read in three steps: its tokens (`lex_core`), what it states by
//! itself (`reading`), and the faults that it shows beside the lines above it (`builder`). What a schedule's plain lines state is
//! read off their tokens at once (`plain`). A schedule may say what the workers of another broker ask the kernel for: its lines
//! are then turns, beside a script without a schedule. [`read_script`] gives the script alone.
//!
//! The definitions stand in `specs/`. `script_file`, in `specs/Scripts.antt`, goes from line to line; `Operands.antt` and
//! `Statements.antt` say what a line states by itself, `Above.antt` what accepted lines come to, section by section, and what is wrong
//! with a statement beside them. `Rules.antt` says what a statement and the tables keep, so that every script keeps the rules
//! of its type. All reading takes time linear in the bytes, but for the look-ups of paths and names, which go through sorted
//! trees; what a program comes to with all that it starts is kept, not counted again. `laws` has what follows from the
//! definitions.
//!
//! Below stand `lex_core`, with lines and tokens, `bpf_filter`, with the instructions of filters, `step_requests`, with what
//! workers ask for, and `hist_model`, with the script. The program stands above.
#![tactic(auto)]

mod blocks;
mod builder;
pub mod error;
mod fault;
pub mod file;
pub mod laws;
pub mod operand;
mod operands;
pub mod paths;
mod plain;
mod programs;
mod ranges;
mod reader;
mod reading;
mod request;
mod schedule;
pub mod settings;
pub mod statement;
pub mod totals;
mod tree;
pub mod word;

pub use error::ScriptError;
pub use file::ScriptFile;
pub use lex_core::Reason;
pub use reader::{read_file, read_script};
pub use step_requests::{Asked, Turn};
