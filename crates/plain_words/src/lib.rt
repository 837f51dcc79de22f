//! Words for numbers, bytes and names: decimal numbers that are read, and digits of base 16, text between quotes and names of any
//! bytes that are written.
//!
//! The words of the program, its policies and its reports share them. The definitions stand in the files `Words`, `ShortNames` and
//! `ReportWords` of `hist_model`'s specs; the layer has no state of its own. Below stands `hist_model`; above stand the reader
//! of policies, the report and the program.
#![tactic(auto)]

mod names;
mod numbers;
mod quoted;

pub use names::{is_lower_or_digit, is_one_of, is_short_name_byte};
pub use numbers::{is_digit, number_between};
pub use quoted::{hex_byte, push_escaped, push_quoted};
