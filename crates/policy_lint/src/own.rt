//! Which rules a policy states of its own.

ghost use Rattle.std.specs.Prelude.{◌≡◌, ◌≤◌, length};
ghost use Rattle.policy_lint.specs.Own.{is_taken, own_number};

use hist_model::policy::Rule;

/// Whether the name is one of a rule that no policy states.
fn is_taken(name: &[u8]) -> bool
    ensures { result ≡ is_taken name.now }
{
    name.starts_with(b"lxd.") || name.starts_with(b"default.")
}

/// How many rules a policy states of its own.
#[tactic(auto, using(crate::proofs::OwnRules::taken_here, crate::proofs::OwnRules::taken_later, crate::proofs::OwnRules::none_taken))]
pub fn own_number(rules: &[Rule]) -> usize
    ensures number { result ≡ own_number rules.now }
    ensures within { result ≤ length rules.now }
{
    for place in 0..rules.len() {
        if is_taken(rules[place].name.items()) {
            return place;
        }
    }
    rules.len()
}
