//! A request with other values in one field.

ghost use Rattle.std.specs.Prelude.{◌≡◌, [], ◌∷◌, IfOk, map};
ghost use Rattle.policy_classes.specs.Changed.{has_descriptor, has_text, with_descriptor, with_mount_flags, with_node, with_setxattr_flags, with_text};
ghost use Rattle.policy_classes.specs.Choices.{choices};
ghost use Rattle.policy_classes.specs.Pending.{atoms_seen};

use crate::atoms::{Atom, Field};
use crate::chosen::{descriptor_values, field_texts};
use crate::nodes::node_values;
use hist_model::policy::Flag;
use hist_model::request::Request;
use hist_model::text::Text;
use std::alloc::Global;
use sys_abi::memory::NoMemory;

/// The request with another path, or target of a mount, if it has one.
fn with_path(alloc: Global, request: &Request, new: &Text) -> Result<Request, NoMemory>
    ensures { IfOk result (λ q. q ≡ with_text Field.Path new.now request.now) }
{
    let mut changed = request.copied(alloc)?;
    match &mut changed {
        Request::Mknod { path, .. } => *path = new.copied(alloc)?,
        Request::Mount { target, .. } => *target = new.copied(alloc)?,
        Request::SetXattr { path, .. } => *path = new.copied(alloc)?,
        Request::OpenAt { path, .. } => *path = new.copied(alloc)?,
        _ => {}
    }
    Ok(changed)
}

/// The request with another type of file system, if it is a mount.
fn with_fstype(alloc: Global, request: &Request, new: &Text) -> Result<Request, NoMemory>
    ensures { IfOk result (λ q. q ≡ with_text Field.Fstype new.now request.now) }
{
    let mut changed = request.copied(alloc)?;
    if let Request::Mount { fstype, .. } = &mut changed {
        *fstype = new.copied(alloc)?;
    }
    Ok(changed)
}

/// The request with another source, if it is a mount.
fn with_source(alloc: Global, request: &Request, new: &Text) -> Result<Request, NoMemory>
    ensures { IfOk result (λ q. q ≡ with_text Field.Source new.now request.now) }
{
    let mut changed = request.copied(alloc)?;
    if let Request::Mount { source, .. } = &mut changed {
        *source = new.copied(alloc)?;
    }
    Ok(changed)
}

/// The request with another name of the attribute, if it sets one.
fn with_name(alloc: Global, request: &Request, new: &Text) -> Result<Request, NoMemory>
    ensures { IfOk result (λ q. q ≡ with_text Field.Name new.now request.now) }
{
    let mut changed = request.copied(alloc)?;
    if let Request::SetXattr { name, .. } = &mut changed {
        *name = new.copied(alloc)?;
    }
    Ok(changed)
}

/// The request with another value of the attribute, if it sets one.
fn with_value(alloc: Global, request: &Request, new: &Text) -> Result<Request, NoMemory>
    ensures { IfOk result (λ q. q ≡ with_text Field.Value new.now request.now) }
{
    let mut changed = request.copied(alloc)?;
    if let Request::SetXattr { value, .. } = &mut changed {
        *value = new.copied(alloc)?;
    }
    Ok(changed)
}

/// The request with another text in a field, if it has one there.
fn with_text(
    alloc: Global,
    request: &Request,
    field: Field,
    new: &Text,
) -> Result<Request, NoMemory>
    ensures { IfOk result (λ q. q ≡ with_text field new.now request.now) }
{
    match field {
        Field::Path => with_path(alloc, request, new),
        Field::Fstype => with_fstype(alloc, request, new),
        Field::Source => with_source(alloc, request, new),
        Field::Name => with_name(alloc, request, new),
        Field::Value => with_value(alloc, request, new),
        Field::Node | Field::Dirfd | Field::Flag(_) => request.copied(alloc),
    }
}

/// Whether the request has a text in the field.
fn has_text(field: Field, request: &Request) -> bool
    ensures { result ≡ has_text field request.now }
{
    match (field, request) {
        (Field::Path, Request::Mknod { .. }) => true,
        (Field::Path, Request::Mount { .. }) => true,
        (Field::Path, Request::SetXattr { .. }) => true,
        (Field::Path, Request::OpenAt { .. }) => true,
        (Field::Fstype, Request::Mount { .. }) => true,
        (Field::Source, Request::Mount { .. }) => true,
        (Field::Name, Request::SetXattr { .. }) => true,
        (Field::Value, Request::SetXattr { .. }) => true,
        _ => false,
    }
}

/// The request with each of these texts in a field.
fn with_texts(
    alloc: Global,
    request: &Request,
    field: Field,
    texts: &[Text],
) -> Result<Vec<Request>, NoMemory>
    ensures { IfOk result (λ qs. qs.items ≡ map (λ t. with_text field t request.now) texts.now) }
{
    let mut made = Vec::new(alloc);
    for text in texts {
        made.push(with_text(alloc, request, field, text)?)?;
    }
    Ok(made)
}

/// The request with another mode and device number, if it makes a node.
fn with_node(alloc: Global, request: &Request, node: (u16, u64)) -> Result<Request, NoMemory>
    ensures { IfOk result (λ q. q ≡ with_node node request.now) }
{
    let mut changed = request.copied(alloc)?;
    if let Request::Mknod { mode, dev, .. } = &mut changed {
        *mode = node.0;
        *dev = node.1;
    }
    Ok(changed)
}

/// The request with each of these modes and device numbers.
fn with_nodes(
    alloc: Global,
    request: &Request,
    nodes: &[(u16, u64)],
) -> Result<Vec<Request>, NoMemory>
    ensures { IfOk result (λ qs. qs.items ≡ map (λ n. with_node n request.now) nodes.now) }
{
    let mut made = Vec::new(alloc);
    for node in nodes {
        made.push(with_node(alloc, request, *node)?)?;
    }
    Ok(made)
}

/// The request from another directory, if it has the descriptor of one.
fn with_descriptor(alloc: Global, request: &Request, number: i32) -> Result<Request, NoMemory>
    ensures { IfOk result (λ q. q ≡ with_descriptor number request.now) }
{
    let mut changed = request.copied(alloc)?;
    match &mut changed {
        Request::Mknod { dirfd, .. } => *dirfd = Some(number),
        Request::OpenAt { dirfd, .. } => *dirfd = number,
        _ => {}
    }
    Ok(changed)
}

/// The request with each of these descriptors.
fn with_descriptors(
    alloc: Global,
    request: &Request,
    numbers: &[i32],
) -> Result<Vec<Request>, NoMemory>
    ensures { IfOk result (λ qs. qs.items ≡ map (λ d. with_descriptor d request.now) numbers.now) }
{
    let mut made = Vec::new(alloc);
    for number in numbers {
        made.push(with_descriptor(alloc, request, *number)?)?;
    }
    Ok(made)
}

/// The mount with these flags.
fn with_mount_flags(alloc: Global, request: &Request, new: u64) -> Result<Request, NoMemory>
    ensures { IfOk result (λ q. q ≡ with_mount_flags new request.now) }
{
    let mut changed = request.copied(alloc)?;
    if let Request::Mount { flags, .. } = &mut changed {
        *flags = new;
    }
    Ok(changed)
}

/// The setting of an attribute with these flags.
fn with_setxattr_flags(alloc: Global, request: &Request, new: u32) -> Result<Request, NoMemory>
    ensures { IfOk result (λ q. q ≡ with_setxattr_flags new request.now) }
{
    let mut changed = request.copied(alloc)?;
    if let Request::SetXattr { flags, .. } = &mut changed {
        *flags = new;
    }
    Ok(changed)
}

/// The two requests.
fn both(alloc: Global, one: Request, two: Request) -> Result<Vec<Request>, NoMemory>
    ensures { IfOk result (λ qs. qs.items ≡ one ∷ two ∷ []) }
{
    let mut made = Vec::new(alloc);
    made.push(one)?;
    made.push(two)?;
    Ok(made)
}

/// The request alone.
fn itself(alloc: Global, request: &Request) -> Result<Vec<Request>, NoMemory>
    ensures { IfOk result (λ qs. qs.items ≡ request.now ∷ []) }
{
    let mut made = Vec::new(alloc);
    made.push(request.copied(alloc)?)?;
    Ok(made)
}

/// Whether the request has the descriptor of a directory.
fn has_descriptor(request: &Request) -> bool
    ensures { result ≡ has_descriptor request.now }
{
    match request {
        Request::Mknod { dirfd, .. } => dirfd.is_some(),
        Request::OpenAt { .. } => true,
        _ => false,
    }
}

/// The request from each of the directories that these atoms tell apart, if it has one.
fn from_directories(
    alloc: Global,
    atoms: &[&Atom],
    request: &Request,
) -> Result<Vec<Request>, NoMemory>
    ensures { IfOk result (λ qs. qs.items ≡ choices Field.Dirfd (atoms_seen atoms.now) request.now) }
{
    if !has_descriptor(request) {
        return itself(alloc, request);
    }
    let numbers = descriptor_values(alloc, atoms)?;
    with_descriptors(alloc, request, numbers.as_slice())
}

/// The requests that arise by giving the field each value that these atoms tell apart; a request that hasn't the field stays.
pub(crate) fn choices(
    alloc: Global,
    field: Field,
    atoms: &[&Atom],
    request: &Request,
) -> Result<Vec<Request>, NoMemory>
    ensures { IfOk result (λ qs. qs.items ≡ choices field (atoms_seen atoms.now) request.now) }
{
    if has_text(field, request) {
        let texts = field_texts(alloc, field, atoms)?;
        return with_texts(alloc, request, field, texts.as_slice());
    }
    match (field, request) {
        (Field::Node, Request::Mknod { .. }) => {
            let nodes = node_values(alloc, atoms)?;
            with_nodes(alloc, request, nodes.as_slice())
        }
        (Field::Dirfd, _) => from_directories(alloc, atoms, request),
        (Field::Flag(Flag::Mount(bit)), Request::Mount { flags, .. }) => {
            let set = with_mount_flags(alloc, request, flags | bit)?;
            let unset = with_mount_flags(alloc, request, flags & !bit)?;
            both(alloc, set, unset)
        }
        (Field::Flag(Flag::Attribute(bit)), Request::SetXattr { flags, .. }) => {
            let set = with_setxattr_flags(alloc, request, flags | bit)?;
            let unset = with_setxattr_flags(alloc, request, flags & !bit)?;
            both(alloc, set, unset)
        }
        _ => itself(alloc, request),
    }
}
