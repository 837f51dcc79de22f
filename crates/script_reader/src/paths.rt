//! Paths of the tree.

ghost use Rattle.std.specs.Prelude.{◌≡◌, ◌≤◌, length};
ghost use Rattle.script_reader.specs.Paths as definitions;

/// The path of the root of the host's tree.
pub const ROOT: &[u8] = b"/";

/// Whether a node may have this name: 1 to 255 bytes without a zero byte, but not `.` or `..`. There is no slash in it.
fn is_node_name(name: &[u8]) -> bool
    ensures { result ≡ definitions.is_node_name name.now }
{
    !name.is_empty()
        && name.len() <= 255
        && !has_zero(name)
        && !(name == b".".as_slice())
        && !(name == b"..".as_slice())
}

/// Whether a zero byte stands in a text.
pub fn has_zero(text: &[u8]) -> bool
    ensures { result ≡ definitions.has_zero text.now }
{
    text.contains(&0)
}

/// Whether a text has names between slashes.
fn are_node_names(text: &[u8]) -> bool
    ensures { result ≡ definitions.are_node_names text.now }
{
    text.split(|byte| *byte == b'/')
        .all(|name| is_node_name(name))
}

/// Whether a text is an absolute path of one or more names, of at most 4095 bytes.
pub fn is_path(text: &[u8]) -> bool
    ensures { result ≡ definitions.is_path text.now }
{
    match text.split_first() {
        Some((&first, names)) => first == b'/' && names.len() < 4095 && are_node_names(names),
        None => false,
    }
}

/// How many bytes stand after the last slash of a path.
fn name_length(path: &[u8]) -> usize
    ensures length { result ≡ definitions.name_length path.now }
    ensures within { result ≤ length path.now }
{
    path.iter()
        .rev()
        .position(|byte| *byte == b'/')
        .unwrap_or(path.len())
}

/// The last name of a path.
pub fn name_of(path: &[u8]) -> &[u8]
    ensures { result.now ≡ definitions.name_of path.now }
{
    &path[path.len() - name_length(path)..]
}

/// The path of the directory in which a path lies.
pub fn parent_of(path: &[u8]) -> &[u8]
    ensures { result.now ≡ definitions.parent_of path.now }
{
    let front = &path[..(path.len() - name_length(path)).saturating_sub(1)];
    if front.is_empty() { ROOT } else { front }
}
