//! The components of a path, one after the other.

ghost use Rattle.std.specs.Prelude.{◌≡◌, ◌<◌, ◌≤◌, ◌∷◌, [], length, IfSome, IfNone};
ghost use Rattle.hist_model.specs.Paths.{components, none_left};
ghost use Rattle.path_walk.specs.Components.{leading_slashes, name_length};

/// How many slashes a path begins with.
#[tactic(auto, using(crate::proofs::Splits::slashes_within))]
fn leading_slashes(path: &[u8]) -> usize
    ensures count { result ≡ leading_slashes path.now }
    ensures within { result ≤ length path.now }
{
    for i in 0..path.len() {
        if path[i] != b'/' {
            return i;
        }
    }
    path.len()
}

/// How many bytes stand before the first slash.
#[tactic(auto, using(crate::proofs::Splits::name_within))]
fn name_length(path: &[u8]) -> usize
    ensures count { result ≡ name_length path.now }
    ensures within { result ≤ length path.now }
{
    for i in 0..path.len() {
        if path[i] == b'/' {
            return i;
        }
    }
    path.len()
}

/// The path without the slashes that it begins with.
#[tactic(auto, using(std::proofs::lemmas::List::take_rest, crate::proofs::Splits::components_skip, crate::proofs::Splits::slashes_skip))]
fn trimmed(path: &[u8]) -> &[u8]
    ensures same { components result.now ≡ components path.now }
    ensures begins { leading_slashes result.now ≡ 0 }
    ensures shorter { length result.now ≤ length path.now }
{
    &path[leading_slashes(path)..]
}

/// The first component of a path, and what is left of the path after it.
pub fn next_component(path: &[u8]) -> Option<(&[u8], &[u8])>
    ensures none { IfNone result (components path.now ≡ []) }
    ensures some { IfSome result (λ p. components path.now ≡ p.0.now ∷ components p.1.now) }
    ensures shorter { IfSome result (λ p. length p.1.now < length path.now) }
{
    let path = trimmed(path);
    if path.is_empty() {
        return None;
    }
    let end = name_length(path);
    Some((&path[..end], &path[end..]))
}

/// Whether a path has no component.
pub fn has_none(path: &[u8]) -> bool
    ensures { result ≡ none_left (components path.now) }
{
    next_component(path).is_none()
}
