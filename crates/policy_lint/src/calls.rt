//! Calls that are like another one.

use hist_model::request::Request;
use hist_model::text::Text;
use std::alloc::Global;
use sys_abi::memory::NoMemory;

/// A text of these bytes.
pub fn text_of(alloc: Global, bytes: &[u8]) -> Result<Text, NoMemory> {
    Ok(Text::new(Vec::from_slice(alloc, bytes)?))
}

/// The call with another path, or with another target of its mount.
pub fn with_path(alloc: Global, request: &Request, new: &[u8]) -> Result<Request, NoMemory> {
    let mut other = request.copied(alloc)?;
    match &mut other {
        Request::Mknod { path, .. }
        | Request::SetXattr { path, .. }
        | Request::OpenAt { path, .. } => *path = text_of(alloc, new)?,
        Request::Mount { target, .. } => *target = text_of(alloc, new)?,
        Request::Sysinfo { .. } | Request::Other { .. } => {}
    }
    Ok(other)
}

/// The call with another kind of node and another device number.
pub fn with_node(
    alloc: Global,
    request: &Request,
    new_mode: u16,
    new_dev: u64,
) -> Result<Request, NoMemory> {
    let mut other = request.copied(alloc)?;
    if let Request::Mknod { mode, dev, .. } = &mut other {
        *mode = new_mode;
        *dev = new_dev;
    }
    Ok(other)
}

/// The call with another type of file system.
pub fn with_fstype(alloc: Global, request: &Request, new: &[u8]) -> Result<Request, NoMemory> {
    let mut other = request.copied(alloc)?;
    if let Request::Mount { fstype, .. } = &mut other {
        *fstype = text_of(alloc, new)?;
    }
    Ok(other)
}

/// The call with another source of its mount.
pub fn with_source(alloc: Global, request: &Request, new: &[u8]) -> Result<Request, NoMemory> {
    let mut other = request.copied(alloc)?;
    if let Request::Mount { source, .. } = &mut other {
        *source = text_of(alloc, new)?;
    }
    Ok(other)
}

/// The call with another name of its attribute.
pub fn with_name(alloc: Global, request: &Request, new: &[u8]) -> Result<Request, NoMemory> {
    let mut other = request.copied(alloc)?;
    if let Request::SetXattr { name, .. } = &mut other {
        *name = text_of(alloc, new)?;
    }
    Ok(other)
}

/// The call with another value of its attribute.
pub fn with_value(alloc: Global, request: &Request, new: &[u8]) -> Result<Request, NoMemory> {
    let mut other = request.copied(alloc)?;
    if let Request::SetXattr { value, .. } = &mut other {
        *value = text_of(alloc, new)?;
    }
    Ok(other)
}
