//! One table of calls: which texts and numbers each call has, from where its relative paths go, and how what a broker does for it is
//! written (syscalls(2), and each call's own page of section 2).
//!
//! A row is what a call's shape comes to. The copy of its arguments, its request, its line in the journal and its lane follow from its
//! row, in the crates above. The table stands in `specs/Table.antt`; the rows of the code are
//! held to it by one contract (`row_of`).
//!
//! Below stand the numbers of calls (`sys_abi`), and above the definitions (`hist_model`).
#![tactic(auto)]

pub mod kinds;
pub mod rows;
