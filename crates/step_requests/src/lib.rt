//! The reader of the request lines of `step`: from the bytes of a line to what it asks for.
//!
//! [`read_request`] gives the request of a line, or why it is refused. A line is read in four steps: its tokens (`lex_core`),
//! the words that say which request it is (`word`), the faults of its operands (`operand`), and what these make (`asked`,
//! `reading`). The structures of the listener's calls are their bytes, whether a line states the fields or the bytes.
//!
//! The definitions stand in `specs/`. `Words.antt` has the words, `Operands.antt` what may stand behind them, `Requests.antt`
//! what a line without a fault asks for, and `Readings.antt` all of it for the bytes of a line. [`laws`] has what follows
//! from them. This layer has no state. Reading takes time linear in the bytes.
//!
//! Below stand `lex_core`, with lines and tokens, `hist_model`, with the requests of calls, and `sys_abi`, with the
//! structures. Whoever answers the requests stands above.
#![tactic(auto)]

pub mod asked;
pub mod fault;
pub mod laws;
pub mod names;
pub mod operand;
mod reading;
pub mod request;
pub mod values;
pub mod word;

pub use fault::LineFault;
pub use lex_core::Reason;
pub use reading::read_request;
pub use request::{Asked, Look, StepRequest, Turn};
