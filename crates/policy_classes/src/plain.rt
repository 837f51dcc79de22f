//! Whether a policy is one whose classes can be told.

ghost use Rattle.std.specs.Prelude.{◌≡◌, ◌<◌, ◌↔◌, map, All, IsTrue};
ghost use Rattle.std.specs.List.{list_all};
ghost use Rattle.hist_model.specs.Decisions.{is_among, named_calls};
ghost use Rattle.policy_classes.specs.Atoms.{atoms_in};
ghost use Rattle.policy_classes.specs.Choices.{IsOneFlag, IsPlainAtom, IsPower};
ghost use Rattle.policy_classes.specs.Plain.{AreKnown, IsPlainRule};

use crate::atoms::Atom;
use hist_model::policy::{Calls, Flag, Rule};
use hist_model::text::Sequence;
use policy_eval::conditions::covers;

/// Whether the number is one of the first powers of two.
fn is_power(bit: u64, powers: u32) -> bool
    requires { powers < 64 }
    ensures { IsTrue result ↔ IsPower powers bit }
{
    for k in 0..powers {
        if bit == 1 << k {
            return true;
        }
    }
    false
}

/// Whether the flag is one bit.
fn is_one_flag(flag: Flag) -> bool
    ensures { IsTrue result ↔ IsOneFlag flag }
{
    match flag {
        Flag::Mount(bit) => is_power(bit, 31),
        Flag::Attribute(bit) => is_power(u64::from(bit), 32),
    }
}

/// Whether the atom looks at one bit, if it looks at flags.
fn is_plain_atom(atom: &Atom) -> bool
    ensures { IsTrue result ↔ IsPlainAtom atom.now }
{
    match atom {
        Atom::Set(flag) | Atom::Unset(flag) => is_one_flag(*flag),
        _ => true,
    }
}

/// Whether each atom does.
fn are_plain_atoms(atoms: &[Atom]) -> bool
    ensures { IsTrue result ↔ All IsPlainAtom atoms.now }
{
    for atom in atoms {
        if !is_plain_atom(atom) {
            return false;
        }
    }
    true
}

/// Whether the call of this number has a name in policies.
#[tactic(auto, using(crate::proofs::PlainRules::not_not))]
fn is_named(nr: i32) -> bool
    ensures { result ≡ is_among named_calls nr }
{
    !covers(&Calls::Other, nr)
}

/// Whether each of these calls has a name.
fn are_named(numbers: &[i32]) -> bool
    ensures { result ≡ list_all (is_among named_calls) numbers.now }
{
    numbers.iter().all(|nr| is_named(*nr))
}

/// Whether each of the calls has a name.
fn are_known(calls: &Calls) -> bool
    ensures { IsTrue result ↔ AreKnown calls.now }
{
    match calls {
        Calls::Named(numbers) => are_named(numbers.items()),
        Calls::Other => true,
    }
}

/// Whether a rule with these calls and these atoms is plain.
fn is_plain(calls: &Calls, atoms: &[Atom]) -> bool
    ensures { IsTrue result ↔ (AreKnown calls.now × All IsPlainAtom atoms.now) }
{
    are_known(calls) && are_plain_atoms(atoms)
}

/// Whether each rule names calls that have names, and flags that are one bit. The atoms are those of the rules.
pub fn are_plain(rules: &[Rule], atoms: &[Sequence<Atom>]) -> bool
    requires { atoms.now ≡ map atoms_in rules.now }
    ensures { IsTrue result ↔ All IsPlainRule rules.now }
{
    for place in 0..rules.len() {
        if !is_plain(&rules[place].calls, atoms[place].items()) {
            return false;
        }
    }
    true
}
