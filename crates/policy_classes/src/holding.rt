//! Whether an atom holds of a request.

ghost use Rattle.std.specs.Prelude.{◌≡◌, ◌++◌, ◌∷◌, [], nat_eq};
ghost use Rattle.std.specs.Option.{option_copied};
ghost use Rattle.std.specs.List.{starts_with};
ghost use Rattle.hist_model.specs.Decisions.{has_dot_dot, is_descriptor, is_text, lies_under};
ghost use Rattle.policy_classes.specs.Atoms.{holds};

use crate::atoms::Atom;
use hist_model::policy::Cond;
use hist_model::request::Request;
use policy_eval::conditions::{
    attribute_of, dirfd_of, fstype_of, has_flag, meets, path_of, source_of, value_of,
};

/// Whether there is a text, and it is this one.
fn is_text(found: Option<&[u8]>, text: &[u8]) -> bool
    ensures { result ≡ is_text (option_copied found.entry) text.now }
{
    match found {
        Some(found) => found == text,
        None => false,
    }
}

/// Whether there is a descriptor, and it is this one.
fn is_descriptor(found: Option<i32>, number: i32) -> bool
    ensures { result ≡ is_descriptor found number }
{
    match found {
        Some(found) => found == number,
        None => false,
    }
}

/// Whether the path begins with the directory and a slash.
#[tactic(auto, using(policy_eval::proofs::Prefixes::begins_by_slash, policy_eval::proofs::Prefixes::too_short, policy_eval::proofs::Prefixes::other_byte))]
pub fn begins_with_dir(path: &[u8], dir: &[u8]) -> bool
    ensures { result ≡ starts_with nat_eq path.now (dir.now ++ 47 ∷ []) }
{
    dir.len() < path.len() && path[dir.len()] == b'/' && dir == &path[..dir.len()]
}

/// Whether the path has a component `..`.
fn has_dot_dot(path: &[u8]) -> bool
    ensures { result ≡ has_dot_dot path.now }
{
    path.split(|b| *b == b'/')
        .any(|component| component == b"..".as_slice())
}

/// Whether there is a path, and it begins with the directory and a slash and has no component `..`.
pub fn lies_under(found: Option<&[u8]>, dir: &[u8]) -> bool
    ensures { result ≡ lies_under (option_copied found.entry) dir.now }
{
    match found {
        Some(path) => begins_with_dir(path, dir) && !has_dot_dot(path),
        None => false,
    }
}

/// Whether the request is as the atom asks.
pub fn holds(atom: &Atom, request: &Request) -> bool
    ensures { result ≡ holds atom.now request.now }
{
    match atom {
        Atom::Path(text) => is_text(path_of(request), text.items()),
        Atom::Under(dir) => lies_under(path_of(request), dir.items()),
        Atom::Kind(kind) => meets(&Cond::Kind(*kind), request),
        Atom::Dev(major, minor) => meets(&Cond::Dev(*major, *minor), request),
        Atom::ShortDevice => meets(&Cond::ShortDevice, request),
        Atom::Fstype(text) => is_text(fstype_of(request), text.items()),
        Atom::Source(text) => is_text(source_of(request), text.items()),
        Atom::Name(text) => is_text(attribute_of(request), text.items()),
        Atom::Value(text) => is_text(value_of(request), text.items()),
        Atom::Dirfd(number) => is_descriptor(dirfd_of(request), *number),
        Atom::Set(flag) => has_flag(request, *flag),
        Atom::Unset(flag) => !has_flag(request, *flag),
    }
}
