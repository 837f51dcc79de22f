//! Whether two rules give a call the same answer.

ghost use Rattle.std.specs.Prelude.{◌≡◌, ◌↔◌, IsTrue, slice_get};
ghost use Rattle.hist_model.specs.Decisions.{decide};
ghost use Rattle.policy_lint.specs.Alike.{AreAlike, IsAlike};
ghost use Rattle.policy_lint.specs.Judged.{behind};

use hist_model::policy::Rule;
use hist_model::request::Request;
use policy_eval::conditions::fits;

/// Whether two rules answer alike.
fn are_alike(rule: &Rule, other: &Rule) -> bool
    ensures { IsTrue result ↔ AreAlike rule.now other.now }
{
    rule.verdict == other.verdict
        && rule.via.items() == other.via.items()
        && rule.shift == other.shift
        && rule.times.is_none()
        && other.times.is_none()
}

/// Whether a rule and the one at a place, where there is one, answer alike.
pub fn is_alike(rule: &Rule, rules: &[Rule], place: usize) -> bool
    ensures { IsTrue result ↔ IsAlike rule.now (slice_get rules.now place) }
{
    match rules.get(place) {
        Some(other) => are_alike(rule, other),
        None => false,
    }
}

/// The rules behind the one at a place.
pub fn behind(rules: &[Rule], place: usize) -> &[Rule]
    ensures { result.now ≡ behind rules.now place }
{
    if place < rules.len() {
        return &rules[place + 1..];
    }
    &[]
}

/// The place of the first rule that fits the request; the number of rules where none does.
#[tactic(auto, using(crate::proofs::DecidingPlaces::none_tried, crate::proofs::DecidingPlaces::found_here, crate::proofs::DecidingPlaces::found_later, crate::proofs::DecidingPlaces::found_past))]
pub fn deciding_place(rules: &[Rule], request: &Request) -> usize
    ensures { result ≡ (decide rules.now request.now).0 }
{
    for place in 0..rules.len() {
        if fits(&rules[place], request) {
            return place;
        }
    }
    rules.len()
}
