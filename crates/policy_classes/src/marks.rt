//! Marks of texts, by which most rules that fail are told quickly.

ghost use Rattle.std.specs.Prelude.{◌≡◌, [], ◌∷◌, IfOk, map};
ghost use Rattle.std.specs.Option.{option_copied};
ghost use Rattle.policy_classes.specs.Marks.{asked_mark, mark_at, mark_of, may_be, text_at};
ghost use Rattle.policy_classes.specs.Pending.{atoms_seen, rules_seen};

use crate::atoms::{Atom, Field};
use crate::chosen::text_asked;
use crate::pending::Pending;
use hist_model::request::Request;
use policy_eval::conditions::{attribute_of, fstype_of, path_of, source_of, value_of};
use std::alloc::Global;
use sys_abi::memory::NoMemory;

/// The mark of a text.
fn mark_of(text: &[u8]) -> u64
    ensures { result ≡ mark_of text.now }
{
    let mut mark = 0;
    for byte in text {
        mark = mark % 4_294_967_296 * 257 + u64::from(*byte);
    }
    mark
}

/// The mark of the text for which the atom asks in a field.
fn atom_mark(field: Field, atom: &Atom) -> Option<u64>
    ensures { result ≡ asked_mark field (atom.now ∷ []) }
{
    match text_asked(field, atom) {
        Some(text) => Some(mark_of(text.items())),
        None => None,
    }
}

/// The mark of the first text for which one of the atoms asks in a field.
fn asked_mark(field: Field, atoms: &[&Atom]) -> Option<u64>
    ensures { result ≡ asked_mark field (atoms_seen atoms.now) }
{
    for atom in atoms {
        if let Some(mark) = atom_mark(field, *atom) {
            return Some(mark);
        }
    }
    None
}

/// The marks of the texts for which rules ask in a field.
pub(crate) fn marks(
    alloc: Global,
    field: Field,
    rules: &[Pending<'_>],
) -> Result<Vec<Option<u64>>, NoMemory>
    ensures { IfOk result (λ marks. marks.items ≡ map (λ c. asked_mark field c.atoms) (rules_seen rules.now)) }
{
    let mut marks = Vec::new(alloc);
    for rule in rules {
        marks.push(asked_mark(field, rule.atoms.as_slice()))?;
    }
    Ok(marks)
}

/// The text of a request in a field.
fn text_at(field: Field, request: &Request) -> Option<&[u8]>
    ensures { option_copied result ≡ text_at field request.now }
{
    match field {
        Field::Path => path_of(request),
        Field::Fstype => fstype_of(request),
        Field::Source => source_of(request),
        Field::Name => attribute_of(request),
        Field::Value => value_of(request),
        _ => None,
    }
}

/// The mark of the text of a request in a field.
pub(crate) fn mark_at(field: Field, request: &Request) -> Option<u64>
    ensures { result ≡ mark_at field request.now }
{
    match text_at(field, request) {
        Some(text) => Some(mark_of(text)),
        None => None,
    }
}

/// Whether a text of the second mark may be one for which an atom asks, whose mark is the first.
pub(crate) fn may_be(asked: Option<u64>, seen: Option<u64>) -> bool
    ensures { result ≡ may_be asked seen }
{
    match (asked, seen) {
        (None, _) => true,
        (Some(_), None) => false,
        (Some(asked), Some(seen)) => asked == seen,
    }
}
