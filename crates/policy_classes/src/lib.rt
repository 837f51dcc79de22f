//! For which calls two policies have which rules decide.
//!
//! A decision is a function of the request alone, and a policy has finitely many conditions. So the calls fall into finitely
//! many classes, each with a rule of the one policy and a rule of the other, and for each class there is a call that is a witness.
//!
//! [`classes::classes`] finds them. Each class that it gives is one, and where it says that these are all, each call is of one of
//! them, and each witness is the least call of its class (`specs/Order.antt`).
//!
//! A condition is a list of atoms, each of which looks at one field of the request (`specs/Atoms.antt`, `specs/Fields.antt`).
//! Of each field the values are tried that the atoms tell apart (`specs/Chosen.antt`): those for which they ask, and the least of
//! each other group (`fresh`, `chosen` and `nodes` find them). They stand for all (`specs/Standing.antt`). The classes are found by
//! giving the fields of a request these values, one field after another, and by dropping what that decides (`specs/Search.antt`, and
//! `specs/Looked.antt` for one step of the walk and for how many there are). `laws` has what follows from the definitions.
//!
//! `ending` has what the crates above tell of such a look at all calls.
//!
//! Below stands `policy_eval`, with the deciding rule.
#![tactic(auto)]

pub mod atoms;
pub mod choices;
mod chosen;
pub mod classes;
pub mod ending;
pub mod found;
pub mod frames;
mod fresh;
pub mod holding;
pub mod laws;
mod marks;
mod nodes;
mod order;
pub mod pending;
pub mod plain;
pub mod start;
pub mod walk;
mod words;
