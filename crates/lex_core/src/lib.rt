//! The lexical layer of scripts: lines, tokens and numbers.
//!
//! [`Lines`] goes over the bytes of a file and gives each line that has tokens, with its number; blank lines and comments
//! are passed over. A token is bare, as a word or a number, or a text between quotes. Its bytes are a piece of the line, but for
//! those of a text with an escape; and the tokens of a line may be given back, so that the next line's stand in their memory.
//! A line that can't be read is refused with its number and its first fault. [`read_number`] reads a bare token as a number,
//! in one of three bases.
//!
//! Contracts see `Lines` as the lines that are left (`specs/Lines.antt`). `tokens` in `specs/Lexical.antt` says what is read
//! of a line, byte by byte from its end, and `specs/Grammar.antt` says the same by rules, in whole tokens; [`laws`] has that
//! the two agree. `specs/Numbers.antt` has numbers, by the weight of each place. All reading takes time linear in the bytes.
//!
//! Below stands `sys_abi`, with the answer to want of memory. The readers of scripts and of filters stand above; they know
//! what the words mean, and have the other reasons of `Reason`.
#![tactic(auto)]

mod bytes;
pub mod laws;
pub mod line;
mod lines;
mod numbers;
mod quotes;
pub mod reason;
mod tokens;

pub use line::{Line, Token, TokenBytes, Tokens};
pub use lines::Lines;
pub use numbers::{read_number, short_number};
pub use reason::{LexError, Reason};
