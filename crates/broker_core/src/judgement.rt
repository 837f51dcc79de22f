//! What a policy makes of the arguments of a call.

ghost use Rattle.std.specs.Prelude.{◌≡◌, ◌<◌, length};
ghost use Rattle.hist_model.specs.Requests.{request};
ghost use Rattle.hist_model.specs.Decisions.{cap_of};
ghost use Rattle.broker_core.specs.Judged.{judgement_of};

use emu_request::request;
use hist_model::policy::{Cap, Policy, Verdict};
use hist_model::request::{ArgCopy, Request};
use policy_eval::{cap, decide};

/// What a policy makes of a complete copy of a call's arguments. A copy that isn't complete, or has a fault, has none.
#[derive(Debug, Drop)]
pub struct Judgement {
    /// What the call asks for.
    pub request: Request,
    /// The place of the rule that decides, from 0; the number of rules where none fits.
    pub rule: usize,
    /// What that rule answers.
    pub verdict: Verdict,
    /// How many effects that rule allows, if that is limited.
    pub cap: Option<Cap>,
}

/// The cap of the rule at a place, if there is such a rule and it has one.
fn cap_at(policy: &Policy, i: usize) -> Option<Cap>
    ensures { result ≡ cap_of policy.now.rules i }
{
    if i < policy.rules.items().len() {
        cap(policy, i)
    } else {
        None
    }
}

/// What the policy makes of the arguments that were read for the call `nr`. The copy is moved into the request, so that no
/// memory is taken.
pub fn judge(policy: &Policy, nr: i32, args: &[u64; 6], copy: ArgCopy) -> Judgement
    ensures { result ≡ judgement_of policy.now.rules (request nr args.now copy.texts) }
{
    let request = request(nr, args, copy);
    let (rule, verdict) = decide(policy, &request);
    Judgement {
        request,
        rule,
        verdict,
        cap: cap_at(policy, rule),
    }
}
