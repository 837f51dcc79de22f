//! Which rule of a policy decides a call, and what the call misses of each rule before that one.
//!
//! [`explain`] reads a file of calls (`call_lines`), and tells of each call the rule that decides it with its verdict and, where that
//! passes, the reason. Behind that stand the rules that were tried before, each with the first thing that the call misses: it is
//! none of the rule's calls, or it doesn't meet a condition. Where calls or rules are many, [`push_block`] gives the lines of one call
//! at a time: those of all calls, one after another, are the text of `explain`.
//!
//! `missed` in `specs/Missed.antt` says what a request misses of a rule; `laws` has that nothing is missed exactly where the rule
//! fits, that something is missed of each rule before the deciding one, and nothing of that one. `Words.antt`, `Asked.antt`,
//! `Reasons.antt` and `Blocks.antt` are the text.
//!
//! Below stand `policy_eval`, with the deciding rule and the conditions, `policy_reader`, with the names of flags, `audit_log`,
//! with the lines of reports, and `call_lines`. The program stands above.
#![tactic(auto)]

pub mod asked;
mod blocks;
mod flags;
pub mod laws;
mod missed;
mod reasons;
mod words;

ghost use Rattle.std.specs.Prelude.{◌<◌, ◌^◌, length};
ghost use Rattle.call_lines.specs.Readings.{Gives};
ghost use Rattle.policy_explain.specs.Blocks.{explanation};

use audit_log::line::LineBuffer;
pub use blocks::push_block;
use blocks::push_blocks;
use call_lines::{CallsError, read_calls};
use hist_model::policy::Policy;
use std::alloc::Global;
use sys_abi::memory::OrNoMemory;

/// What is told of the calls that the bytes of a file state, one a line, or the first line that is refused.
pub fn explain(
    alloc: Global,
    policy: &Policy,
    calls: &[u8],
) -> Result<LineBuffer, OrNoMemory<CallsError>>
    requires { length calls.now < 2 ^ 32 }
    ensures { Gives result (explanation policy.now.rules calls.now) }
{
    let calls = read_calls(alloc, calls)?;
    let mut text = LineBuffer::new(alloc);
    push_blocks(alloc, &mut text, policy, calls.items())?;
    Ok(text)
}
