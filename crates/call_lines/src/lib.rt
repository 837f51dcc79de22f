//! The reader of files of calls: from a line as a person writes it to the request that policies decide.
//!
//! [`read_calls`] gives the calls that the bytes of a file state, each with the number of its line, or the first line that is
//! refused and why. A line has a call's word and its operands:
//!
//! ```text
//! mknod PATH KIND [MAJOR:MINOR] [mode=NUMBER]           mknod "/dev/null" chr 1:3
//! mknodat DIRFD PATH KIND [MAJOR:MINOR] [mode=NUMBER]   mknodat 3 "x" blk 8:0 mode=0o600
//! mount SOURCE TARGET TYPE [FLAGS [DATA]]               mount "/dev/sdb1" "/mnt" "ext4" RDONLY,NODEV "ro"
//! setxattr PATH NAME VALUE [FLAGS]                      setxattr "/f" "trusted.overlay.opaque" "y" CREATE
//! openat DIRFD PATH                                     openat AT_FDCWD "d"
//! sysinfo, close, getpid
//! other NUMBER                                          other 321
//! ```
//!
//! Texts stand between quotes, as in scripts. The names of kinds and flags, and the numbers of devices, are those of policies; `chr`
//! and `blk` have numbers, and no other kind has. Flags stand between commas, and `-` is none. What matters to no rule is left out,
//! or may be. Blank lines and comments are skipped.
//!
//! The definitions stand in `specs/`: `Operands.antt` says what a token means, `Requests.antt` which tokens make which request, and
//! `calls` in `Calls.antt` goes from line to line. `laws` has that the request of a line is one of the call whose
//! name is written, and that a node's mode asks for the kind that is written. Reading takes time linear in the bytes.
//!
//! Below stand `lex_core`, with lines, tokens and numbers, `policy_reader`, with the names of policies, and the plain types of
//! `hist_model`. Above stands `policy_explain`.
#![tactic(auto)]

mod calls;
pub mod error;
pub mod laws;
mod operands;
mod readings;
mod requests;
mod words;

pub use calls::{Call, read_calls};
pub use error::CallsError;
pub use lex_core::Reason;
