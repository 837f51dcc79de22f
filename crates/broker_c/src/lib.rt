//! The top call as a C library: functions over bytes, which give a report and a status.
//!
//! `calls` has the functions that C calls, as `include/seccomp_broker.h` declares them. Each takes a policy and a script, alone,
//! with a report, with the number of steps after which workers are replaced, or with the last worker and the most delays of an
//! exploration, or the numbers of generated input, as the program takes files, and copies what the program would print and say
//! into buffers of the caller. `given` has the policy, the script and the report as the source of files that the top call reads,
//! `held` the sink in memory that it writes to, and `outcome` what it came to. `specs/Outcomes.antt` and `specs/Buffers.antt` state
//! it.
//!
//! No state stands between two calls, and none is shared. Below stand the top call (`broker_app`) and its two traits
//! (`io_edge`). Above stand programs in C, and in each language that calls C.
#![tactic(auto)]

mod calls;
mod given;
mod held;
mod outcome;
