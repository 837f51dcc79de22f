//! Whether an effect asks for what its call asks for, and the policy grants just this.

ghost use Rattle.std.specs.Prelude.{◌≡◌, ◌+◌, ℕ, List, length, IfOk};
ghost use Rattle.broker_verdict.specs.Choices.{by_registers, decided};
ghost use Rattle.broker_verdict.specs.Effects.{asks_other, grants_by_registers, grants_just, is_used_up};
ghost use Rattle.broker_verdict.specs.Seats.{request_with};
ghost use Rattle.hist_model.specs.Decisions.{granted_by};
ghost use Rattle.hist_model.specs.declared.event.Event.{Event};
ghost use Rattle.hist_model.specs.declared.script.Script.{Script};
ghost use Rattle.broker_judge.specs.Called.{Counts, IsCalled};

use crate::called::{Called, Decided, decide_with, request_without};
use crate::effects::{has_numbers, is_made_so, is_put_of, opens_with};
use crate::registers::by_registers;
use emu_sysinfo::container;
use hist_model::event::What;
use hist_model::policy::{Policy, Verdict};
use hist_model::request::Request;
use hist_model::script::Figures;
use hist_model::text::Text;
use policy_eval::grant;
use std::alloc::Global;
use sys_abi::memory::NoMemory;

/// Whether an effect has other numbers than its call, or for a descriptor another id.
pub fn asks_other(alloc: Global, called: &Called, what: &What) -> bool
    ensures { (K : List Event) (c : ℕ) → IsCalled K c called.now → result ≡ asks_other K c what.now }
{
    let asked = request_without(alloc, called);
    match what {
        What::Act { request, .. } => !has_numbers(&asked, request.get()),
        What::Plant { addr, .. } => !has_numbers(&asked, &Request::Sysinfo { addr: *addr }),
        What::AddfdPut { asked: put, .. } => {
            !(opens_with(&asked, put.newfd_flags) && put.id == called.id)
        }
        _ => false,
    }
}

/// Whether the policy grants, or injects, just this effect whatever the texts of its call are.
pub fn grants_by_registers(
    alloc: Global,
    policy: &Policy,
    figures: &Figures,
    called: &Called,
    what: &What,
) -> Result<bool, NoMemory>
    ensures { IfOk result (λ b. (S : Script) (K : List Event) (c : ℕ) → S.figures ≡ figures.now → IsCalled K c called.now
        → b ≡ grants_by_registers policy.now S K c what.now (by_registers policy.now K c)) }
{
    let request = request_without(alloc, called);
    match by_registers(policy, &request) {
        Some((rule, verdict)) => grants_by(alloc, policy, figures, what, rule, verdict, request),
        None => Ok(false),
    }
}

/// Whether a rule with this verdict, by its place, grants or injects just this effect, of which the call asks for this request.
fn grants_by(
    alloc: Global,
    policy: &Policy,
    figures: &Figures,
    what: &What,
    rule: usize,
    verdict: Verdict,
    request: Request,
) -> Result<bool, NoMemory>
    ensures { IfOk result (λ b. (S : Script) (K : List Event) (c : ℕ) (texts : List (List ℕ)) → S.figures ≡ figures.now
        → request ≡ request_with K c texts
        → b ≡ grants_just policy.now S K c what.now texts (record { 0 = rule; 1 = verdict })) }
{
    match (what, verdict) {
        (What::Act { request: done, .. }, Verdict::Grant) => {
            let granted = granted_by(alloc, policy, rule, request)?;
            Ok(is_made_so(&granted, done.get()))
        }
        (What::Plant { bytes, .. }, Verdict::Grant) => Ok(*bytes.get() == container(figures)),
        (What::AddfdPut { asked, .. }, Verdict::Inject { src, at }) => {
            Ok(is_put_of(src, at, asked))
        }
        _ => Ok(false),
    }
}

/// Whether the policy grants, or injects, just this effect for these texts.
pub fn grants_just(
    alloc: Global,
    policy: &Policy,
    figures: &Figures,
    called: &Called,
    what: &What,
    texts: &[Text],
) -> Result<bool, NoMemory>
    ensures { IfOk result (λ b. (S : Script) (K : List Event) (c : ℕ) → S.figures ≡ figures.now → IsCalled K c called.now
        → b ≡ grants_just policy.now S K c what.now texts.now (decided policy.now K c texts.now)) }
{
    let Decided {
        rule,
        verdict,
        request,
    } = decide_with(alloc, policy, called, texts)?;
    grants_by(alloc, policy, figures, what, rule, verdict, request)
}

/// The request that the rule at a place grants.
fn granted_by(
    alloc: Global,
    policy: &Policy,
    rule: usize,
    request: Request,
) -> Result<Request, NoMemory>
    ensures { IfOk result (λ q. q ≡ granted_by policy.now.rules rule request) }
{
    let mut granted = request;
    if rule < policy.rules.items().len() {
        grant(alloc, policy, rule, &mut granted)?;
    }
    Ok(granted)
}

/// Whether the rule at a place was done by as often as it may, where effects of each rule were done so often.
pub fn is_used_up(policy: &Policy, times: &[u64], rule: usize) -> bool
    requires { length times.now ≡ length policy.now.rules + 1 }
    ensures { (K : List Event) → Counts policy.now K times.now → result ≡ is_used_up policy.now K rule }
{
    match policy.rules.items().get(rule) {
        Some(found) => match found.times {
            Some(most) => u64::from(most) <= times[rule],
            None => false,
        },
        None => false,
    }
}
