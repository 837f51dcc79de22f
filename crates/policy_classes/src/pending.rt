//! Rules of which some atoms are still to be decided.

ghost use Rattle.std.specs.Prelude.{◌≡◌, ◌&&◌, ◌++◌, IfOk, OnOk, map, not};
ghost use Rattle.std.specs.List.{flat_map};
ghost use Rattle.policy_classes.specs.Atoms.{atoms_in, holds};
ghost use Rattle.policy_classes.specs.Fields.{is_of};
ghost use Rattle.policy_classes.specs.Marks.{asked_mark, mark_at};
ghost use Rattle.policy_classes.specs.Pending.{atoms_seen, rules_seen};
ghost use Rattle.policy_classes.specs.Search.{atoms_left, fails_in, first_place, left_of, next_field, others, undecided, waiting_from};

use crate::atoms::{Atom, Field};
use crate::holding::holds;
use crate::marks::{mark_at, may_be};
use hist_model::policy::Rule;
use hist_model::request::Request;
use hist_model::text::Sequence;
use policy_eval::conditions::covers;
use std::alloc::Global;
use sys_abi::memory::NoMemory;

/// A rule that decides where these atoms hold and no rule before it decides.
#[derive(Debug, Drop)]
pub struct Pending<'a> {
    /// The rule's place in its policy.
    pub place: usize,
    pub atoms: Vec<&'a Atom>,
}

/// Whether the atom is of the field, and doesn't hold.
fn fails(field: Field, request: &Request, atom: &Atom) -> bool
    ensures { result ≡ (is_of field atom.now && not (holds atom.now request.now)) }
{
    atom.field().is(field) && !holds(atom, request)
}

/// Whether an atom of the field doesn't hold.
fn fails_in(field: Field, request: &Request, atoms: &[&Atom]) -> bool
    ensures { result ≡ fails_in field request.now (atoms_seen atoms.now) }
{
    atoms.iter().any(|atom| fails(field, request, atom))
}

/// The atoms of the other fields.
#[tactic(auto, using(crate::proofs::Seen::other_kept, crate::proofs::Seen::other_dropped))]
fn others<'a>(alloc: Global, field: Field, atoms: &[&'a Atom]) -> Result<Vec<&'a Atom>, NoMemory>
    ensures { IfOk result (λ rest. atoms_seen rest.items ≡ others field (atoms_seen atoms.now)) }
{
    let mut rest = Vec::new(alloc);
    for atom in atoms {
        if !atom.field().is(field) {
            rest.push(*atom)?;
        }
    }
    Ok(rest)
}

/// Whether an atom of the field doesn't hold, told by marks if these differ.
#[tactic(auto, using(crate::proofs::Marked::other_fails))]
fn fails_by(
    field: Field,
    request: &Request,
    asked: Option<u64>,
    seen: Option<u64>,
    atoms: &[&Atom],
) -> bool
    requires asked { asked ≡ asked_mark field (atoms_seen atoms.now) }
    requires seen { seen ≡ mark_at field request.now }
    ensures { result ≡ fails_in field request.now (atoms_seen atoms.now) }
{
    !may_be(asked, seen) || fails_in(field, request, atoms)
}

/// What is left of the rules where the field is as in this request: not those that fail, nor those behind one that decides. The marks
/// are those of the texts for which the rules ask in the field.
#[tactic(auto, using(crate::proofs::Seen::rule_fails, crate::proofs::Seen::rule_waits, crate::proofs::Seen::rule_decides, crate::proofs::Seen::all_seen))]
pub(crate) fn left_of<'a>(
    alloc: Global,
    field: Field,
    request: &Request,
    marks: &[Option<u64>],
    rules: &[Pending<'a>],
) -> Result<Vec<Pending<'a>>, NoMemory>
    requires marks { marks.now ≡ map (λ c. asked_mark field c.atoms) (rules_seen rules.now) }
    ensures { IfOk result (λ left. rules_seen left.items ≡ left_of field request.now (rules_seen rules.now)) }
{
    let seen = mark_at(field, request);
    let mut left = Vec::new(alloc);
    for place in 0..rules.len() {
        let rule = &rules[place];
        if !fails_by(field, request, marks[place], seen, rule.atoms.as_slice()) {
            let atoms = others(alloc, field, rule.atoms.as_slice())?;
            let decides = atoms.is_empty();
            left.push(Pending {
                place: rule.place,
                atoms,
            })?;
            if decides {
                return Ok(left);
            }
        }
    }
    Ok(left)
}

/// The field on which it depends whether the first rule decides.
fn undecided(rules: &[Pending<'_>]) -> Option<Field>
    ensures { result ≡ undecided (rules_seen rules.now) }
{
    let rule = rules.first()?;
    let atom = rule.atoms.first()?;
    Some(atom.field())
}

/// The field that is decided next.
pub fn next_field(old: &[Pending<'_>], new: &[Pending<'_>]) -> Option<Field>
    ensures { result ≡ next_field (rules_seen old.now) (rules_seen new.now) }
{
    undecided(old).or(undecided(new))
}

/// The place of the first rule, or this where there is none.
pub fn first_place(none: usize, rules: &[Pending<'_>]) -> usize
    ensures { result ≡ first_place none (rules_seen rules.now) }
{
    match rules.first() {
        Some(rule) => rule.place,
        None => none,
    }
}

/// References to all atoms.
fn each_of<'a>(alloc: Global, atoms: &'a [Atom]) -> Result<Vec<&'a Atom>, NoMemory>
    ensures { IfOk result (λ all. atoms_seen all.items ≡ atoms.now) }
{
    let mut all = Vec::new(alloc);
    for atom in atoms {
        all.push(atom)?;
    }
    Ok(all)
}

/// The rules for a call, with their atoms.
pub fn waiting<'a>(
    alloc: Global,
    rules: &[Rule],
    atoms: &'a [Sequence<Atom>],
    nr: i32,
) -> Result<Vec<Pending<'a>>, NoMemory>
    requires { atoms.now ≡ map atoms_in rules.now }
    ensures { IfOk result (λ waiting. rules_seen waiting.items ≡ waiting_from 0 rules.now nr) }
{
    let mut waiting = Vec::new(alloc);
    for place in 0..rules.len() {
        if covers(&rules[place].calls, nr) {
            let atoms = each_of(alloc, atoms[place].items())?;
            waiting.push(Pending { place, atoms })?;
        }
    }
    Ok(waiting)
}

/// Adds the atoms of each rule.
fn push_atoms<'a>(atoms: &mut Vec<&'a Atom>, rules: &[Pending<'a>]) -> Result<(), NoMemory>
    ensures { OnOk result (atoms_seen atoms.new.items ≡ atoms_seen atoms.old.items ++ flat_map (λ c. c.atoms) (rules_seen rules.now)) }
{
    for rule in rules {
        atoms.extend_from_slice(rule.atoms.as_slice())?;
    }
    Ok(())
}

/// The atoms that are left of the rules of both policies.
pub fn atoms_left<'a>(
    alloc: Global,
    old: &[Pending<'a>],
    new: &[Pending<'a>],
) -> Result<Vec<&'a Atom>, NoMemory>
    ensures { IfOk result (λ atoms. atoms_seen atoms.items ≡ atoms_left (rules_seen old.now) (rules_seen new.now)) }
{
    let mut atoms = Vec::new(alloc);
    push_atoms(&mut atoms, old)?;
    push_atoms(&mut atoms, new)?;
    Ok(atoms)
}
