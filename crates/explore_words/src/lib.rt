//! The word `explore`: what a script can come to.
//!
//! The histories of a script are explored, and what was found is printed (`outcomes`), one write an outcome. `specs/Explorations.antt`
//! says what the answer means.
//!
//! Below stand the files (`program_files`), the explorer (`explorer`) and its laws (`delay_bounded`); above the top call.
#![tactic(auto)]

pub mod exploring;
mod outcomes;
